use dbus_wire::{Message, WriteRefusal, is_valid, write_message};
use std::alloc::Global;
use std::test::Fail;
use updater_text::{Lack, Text};
use wire_value::Value;

fn some(alloc: Global, text: &str) -> Result<Option<Text>, Fail> {
    Ok(Some(Text::new(alloc, text)?))
}

// A signal without a body.
fn signal(alloc: Global) -> Result<Message, Fail> {
    let path = some(alloc, "/")?;
    let interface = some(alloc, "a.b")?;
    let member = some(alloc, "C")?;
    Ok(Message {
        little: true,
        kind: 4,
        flags: 1,
        serial: 1,
        path,
        interface,
        member,
        error_name: None,
        reply_serial: None,
        destination: None,
        sender: None,
        signature: Text::empty(alloc),
        fds: None,
        body: Vec::new(alloc),
    })
}

fn repeated(alloc: Global, front: &str, count: usize) -> Result<Text, Fail> {
    let mut text = String::new(alloc);
    text.push_str(front)?;
    for _ in 0..count {
        text.push_str("b")?;
    }
    Ok(Text::new(alloc, text.as_str())?)
}

// So many variants, one in the other, round a byte.
fn nested(alloc: Global, count: usize) -> Result<Value, Fail> {
    let mut value = Value::Byte(7);
    for _ in 0..count {
        value = Value::Variant(Box::new(alloc, value)?);
    }
    Ok(value)
}

fn with_body(alloc: Global, signature: &str, value: Value) -> Result<Message, Fail> {
    let mut message = signal(alloc)?;
    message.signature = Text::new(alloc, signature)?;
    message.body.push(value)?;
    Ok(message)
}

// The signal with one thing in it that the grammar does not spell.
fn wrong(alloc: Global, which: usize) -> Result<Message, Fail> {
    let mut message = signal(alloc)?;
    match which {
        0 => message.kind = 0,
        1 => message.serial = 0,
        2 => message.path = None,
        3 => message.interface = None,
        4 => message.member = None,
        5 => message.path = some(alloc, "/a/")?,
        6 => message.interface = some(alloc, "ab")?,
        7 => message.interface = some(alloc, "a..b")?,
        8 => message.interface = Some(repeated(alloc, "a.", 254)?),
        9 => message.member = some(alloc, "1C")?,
        10 => message.member = some(alloc, "C.D")?,
        11 => message.member = Some(repeated(alloc, "C", 255)?),
        12 => message.error_name = some(alloc, "failed")?,
        13 => message.reply_serial = Some(0),
        14 => message.destination = some(alloc, "a\0")?,
        15 => message.signature = Text::new(alloc, "y")?,
        16 => message.signature = Text::new(alloc, "z")?,
        17 => message.body.push(Value::Byte(1))?,
        18 => message.kind = 2,
        19 => message.kind = 3,
        20 => message = with_body(alloc, "u", Value::Byte(1))?,
        21 => message = with_body(alloc, "s", Value::Str(Text::new(alloc, "a\0b")?))?,
        22 => message = with_body(alloc, "o", Value::Path(Text::new(alloc, "a")?))?,
        23 => message = with_body(alloc, "g", Value::Sig(Text::new(alloc, "()")?))?,
        _ => message = with_body(alloc, "v", nested(alloc, 65)?)?,
    }
    Ok(message)
}

#[test]
fn what_is_not_spelled_is_not_valid(rt: HostRuntime) -> Result<(), Fail> {
    let alloc = rt.alloc();
    let mut none = true;
    for which in 0..25 {
        none = none && !is_valid(&wrong(alloc, which)?);
    }
    let deepest = with_body(alloc, "v", nested(alloc, 64)?)?;
    assert!(rt; none && is_valid(&signal(alloc)?) && is_valid(&deepest));
    Ok(())
}

// The length that a signal with a string of so many bytes is refused for, or that of what is written.
fn written(alloc: Global, count: usize) -> Result<Option<u64>, Fail> {
    let value = Value::Str(repeated(alloc, "", count)?);
    let message = with_body(alloc, "s", value)?;
    if !is_valid(&message) {
        return Ok(None);
    }
    match write_message(alloc, &message) {
        Ok(bytes) => Ok(if bytes.len() == 1_048_576 {
            Some(0)
        } else {
            None
        }),
        Err(Lack::Refused(WriteRefusal::TooLarge { length })) => Ok(Some(length)),
        Err(Lack::NoMemory) => Ok(None),
    }
}

// Before the string's bytes stand 72 of the header and 4 of its length, and a 0 behind them.
#[test]
fn a_message_of_more_than_1_mib_is_not_written(rt: HostRuntime) -> Result<(), Fail> {
    let alloc = rt.alloc();
    let most = written(alloc, 1_048_499)? == Some(0);
    let more = written(alloc, 1_048_500)? == Some(1_048_577);
    assert!(rt; most && more);
    Ok(())
}
