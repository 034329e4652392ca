use dbus_wire::Message;
use std::alloc::Global;
use updater_text::{NoMemory, Text};
use wire_value::Value;

/// What is told of each slot as a text.
const TEXTS: [(&str, &str); 8] = [
    ("class", "rootfs"),
    ("device", "/dev/disk/by-partlabel/rootfs-0"),
    ("type", "ext4"),
    ("bootname", "system0"),
    ("state", "inactive"),
    ("boot-status", "good"),
    ("status", "ok"),
    (
        "sha256",
        "ba7816bf8f01cfea414140de5dae2223b00361a396177a9cb410ff61f20015ad",
    ),
];

fn text(alloc: Global, text: &str) -> Result<Value, NoMemory> {
    Ok(Value::Str(Text::new(alloc, text)?))
}

fn add(alloc: Global, entries: &mut Vec<Value>, key: &str, value: Value) -> Result<(), NoMemory> {
    let key = Box::new(alloc, text(alloc, key)?)?;
    let value = Value::Variant(Box::new(alloc, value)?);
    let value = Box::new(alloc, value)?;
    entries.push(Value::Pair { key, value })?;
    Ok(())
}

fn entries(alloc: Global) -> Result<Vec<Value>, NoMemory> {
    let mut entries = Vec::new(alloc);
    for (key, value) in TEXTS.iter() {
        let value = text(alloc, value)?;
        add(alloc, &mut entries, key, value)?;
    }
    add(alloc, &mut entries, "size", Value::U64(104_857_600))?;
    let time = text(alloc, "2024-05-01T12:00:00Z")?;
    add(alloc, &mut entries, "installed.timestamp", time)?;
    add(alloc, &mut entries, "installed.count", Value::U32(3))?;
    Ok(entries)
}

fn slot(alloc: Global, number: u64) -> Result<Value, NoMemory> {
    let name = format!(in alloc; "rootfs.{number}")?;
    let name = text(alloc, name.as_str())?;
    let item = Text::new(alloc, "{sv}")?;
    let items = entries(alloc)?;
    let mut fields = Vec::new(alloc);
    fields.push(name)?;
    fields.push(Value::Array { item, items })?;
    Ok(Value::Struct(fields))
}

/// The reply to `GetSlotStatus` of a system with so many slots.
pub fn reply_of(alloc: Global, slots: u64) -> Result<Message, NoMemory> {
    let mut items = Vec::new(alloc);
    for number in 0..slots {
        items.push(slot(alloc, number)?)?;
    }
    let item = Text::new(alloc, "(sa{sv})")?;
    let signature = Text::new(alloc, "a(sa{sv})")?;
    let mut body = Vec::new(alloc);
    body.push(Value::Array { item, items })?;
    Ok(Message {
        little: true,
        kind: 2,
        flags: 1,
        serial: 2,
        path: None,
        interface: None,
        member: None,
        error_name: None,
        reply_serial: Some(1),
        destination: None,
        sender: None,
        signature,
        fds: None,
        body,
    })
}
