use crate::answers::{Counts, NONE, answer_of, with};
use crate::numbers::Numbers;
use crate::rows::ROWS;
use dbus_wire::{Message, Progress, is_valid, read_message, write_message};
use std::alloc::Global;
use std::test::Fail;
use updater_text::Text;
use wire_value::{Value, signature_of};

// ---- messages

fn word(alloc: Global, numbers: &mut Numbers) -> Result<Text, Fail> {
    let mut text = String::new(alloc);
    for _ in 0..numbers.below(20) {
        text.push_str(match numbers.below(4) {
            0 => "a",
            1 => "_",
            2 => "\u{e9}",
            _ => "{",
        })?;
    }
    Ok(Text::new(alloc, text.as_str())?)
}

fn variant(alloc: Global, numbers: &mut Numbers) -> Result<Value, Fail> {
    let inner = Value::U32((numbers.next() % 1_000_000) as u32);
    Ok(Value::Variant(Box::new(alloc, inner)?))
}

fn dict(alloc: Global, numbers: &mut Numbers) -> Result<Value, Fail> {
    let mut items = Vec::new(alloc);
    for _ in 0..numbers.below(4) {
        let key = Box::new(alloc, Value::Str(word(alloc, numbers)?))?;
        let value = Box::new(alloc, variant(alloc, numbers)?)?;
        items.push(Value::Pair { key, value })?;
    }
    let item = Text::new(alloc, "{sv}")?;
    Ok(Value::Array { item, items })
}

fn pair(alloc: Global, numbers: &mut Numbers) -> Result<Value, Fail> {
    let mut fields = Vec::new(alloc);
    fields.push(Value::Byte((numbers.next() % 256) as u8))?;
    fields.push(dict(alloc, numbers)?)?;
    Ok(Value::Struct(fields))
}

fn body(alloc: Global, numbers: &mut Numbers) -> Result<Vec<Value>, Fail> {
    let mut values = Vec::new(alloc);
    for _ in 0..numbers.below(5) {
        let value = match numbers.below(6) {
            0 => Value::Str(word(alloc, numbers)?),
            1 => Value::U64(numbers.next()),
            2 => Value::Flag(numbers.below(2) == 0),
            3 => variant(alloc, numbers)?,
            4 => dict(alloc, numbers)?,
            _ => pair(alloc, numbers)?,
        };
        values.push(value)?;
    }
    Ok(values)
}

fn one_of(
    alloc: Global,
    numbers: &mut Numbers,
    is_needed: bool,
    text: &str,
) -> Result<Option<Text>, Fail> {
    if is_needed || numbers.below(3) == 0 {
        Ok(Some(Text::new(alloc, text)?))
    } else {
        Ok(None)
    }
}

fn number(numbers: &mut Numbers, is_needed: bool) -> Option<u32> {
    if is_needed || numbers.below(3) == 0 {
        Some(((numbers.next() % 4_294_967_295) as u32).saturating_add(1))
    } else {
        None
    }
}

fn message(alloc: Global, numbers: &mut Numbers) -> Result<Message, Fail> {
    let kind = ((numbers.next() % 5) as u8).saturating_add(1);
    let body = body(alloc, numbers)?;
    let signature = signature_of(alloc, &body)?;
    let signature = Text::new(alloc, str::from_utf8(&signature).unwrap_or("?"))?;
    let path = one_of(alloc, numbers, kind == 1 || kind == 4, "/de/rauc_1")?;
    let interface = one_of(alloc, numbers, kind == 4, "de.pengutronix.rauc.Installer")?;
    let member = one_of(alloc, numbers, kind == 1 || kind == 4, "Completed")?;
    let error_name = one_of(
        alloc,
        numbers,
        kind == 3,
        "org.freedesktop.DBus.Error.Failed",
    )?;
    let destination = one_of(alloc, numbers, false, ":1.7")?;
    let sender = one_of(alloc, numbers, false, "")?;
    Ok(Message {
        little: numbers.below(2) == 0,
        kind,
        flags: (numbers.next() % 256) as u8,
        serial: ((numbers.next() % 4_294_967_295) as u32).saturating_add(1),
        path,
        interface,
        member,
        error_name,
        reply_serial: number(numbers, kind == 2 || kind == 3),
        destination,
        sender,
        signature,
        fds: number(numbers, false),
        body,
    })
}

fn is_same(one: &Option<Text>, other: &Option<Text>) -> bool {
    match (one, other) {
        (Some(one), Some(other)) => one.as_str() == other.as_str(),
        (None, None) => true,
        _ => false,
    }
}

fn are_texts(one: &Message, other: &Message) -> bool {
    is_same(&one.path, &other.path)
        && is_same(&one.interface, &other.interface)
        && is_same(&one.member, &other.member)
        && is_same(&one.error_name, &other.error_name)
        && is_same(&one.destination, &other.destination)
        && is_same(&one.sender, &other.sender)
        && one.signature.as_str() == other.signature.as_str()
}

fn are_numbers(one: &Message, other: &Message) -> bool {
    (one.little, one.kind, one.flags, one.serial)
        == (other.little, other.kind, other.flags, other.serial)
        && one.reply_serial == other.reply_serial
        && one.fds == other.fds
}

// Whether these bytes are read as the message, which is written as the same bytes again.
fn is_read_as(alloc: Global, bytes: &[u8], message: &Message) -> bool {
    match read_message(alloc, bytes) {
        Ok(
            Progress::Got {
                message: read,
                used,
            },
        ) => {
            let again = write_message(alloc, &read);
            let same = again.is_ok_and(|written| written.as_slice() == bytes);
            same && used == bytes.len() as u64
                && are_texts(&read, message)
                && are_numbers(&read, message)
        }
        _ => false,
    }
}

fn reads_back(alloc: Global, numbers: &mut Numbers) -> Result<bool, Fail> {
    let message = message(alloc, numbers)?;
    if !is_valid(&message) {
        return Ok(false);
    }
    match write_message(alloc, &message) {
        Ok(bytes) => Ok(is_read_as(alloc, &bytes, &message)),
        Err(_) => Ok(false),
    }
}

#[test]
fn written_messages_read_back(rt: HostRuntime) -> Result<(), Fail> {
    let mut numbers = Numbers::new();
    let mut all = true;
    for _ in 0..100_000 {
        all = all && reads_back(rt.alloc(), &mut numbers)?;
    }
    assert!(rt; all);
    Ok(())
}

// ---- texts

fn change(numbers: &mut Numbers, text: &mut [u8]) {
    for _ in 0..numbers.below(3).saturating_add(1) {
        let at = numbers.below(text.len() as u64) as usize;
        let byte = (numbers.next() % 256) as u8;
        if at < text.len() {
            text[at] = byte;
        }
    }
}

fn changed(
    alloc: Global,
    numbers: &mut Numbers,
    row: &[u8],
    counts: Counts,
) -> Result<Counts, Fail> {
    let mut text = Vec::from_slice(alloc, row)?;
    change(numbers, text.as_mut_slice());
    Ok(with(counts, answer_of(alloc, &text)))
}

const CHANGED: Counts = Counts {
    got: 9_683,
    bad: 76_570,
    need: 6_513,
    large: 7_234,
};

// The numbers are those of an independent reader, written in Python from the grammar alone.
#[test]
fn changed_texts_are_judged(rt: HostRuntime) -> Result<(), Fail> {
    let mut numbers = Numbers::new();
    let mut counts = NONE;
    for turn in 0..100_000_usize {
        if let Some(row) = ROWS.get(turn % 7) {
            counts = changed(rt.alloc(), &mut numbers, row.bytes, counts)?;
        }
    }
    assert!(rt; counts == CHANGED);
    Ok(())
}
