use crate::answers::{Answer, answer_of};
use crate::limits::{BAD, GOOD};
use crate::rows::CALL;
use std::alloc::Global;
use std::test::Fail;

fn are_bad(alloc: Global) -> bool {
    let mut all = true;
    for text in BAD.iter() {
        all = all && answer_of(alloc, text) == Answer::Bad;
    }
    all
}

fn are_got(alloc: Global) -> bool {
    let mut all = true;
    for text in GOOD.iter() {
        all = all && answer_of(alloc, text) == Answer::Got(text.len() as u64);
    }
    all
}

#[test]
fn what_libdbus_refuses_is_refused(rt: HostRuntime) -> Result<(), Fail> {
    assert!(rt; are_bad(rt.alloc()) && are_got(rt.alloc()));
    Ok(())
}

// The answer of the first 16 bytes of a call, with these bytes in the place of the length of its body.
fn stated(alloc: Global, length: [u8; 4]) -> Result<Answer, Fail> {
    let mut text = Vec::from_slice(alloc, b"l\x01\0\x01")?;
    text.extend_from_slice(&length)?;
    text.extend_from_slice(b"\x01\0\0\0\0\0\0\0")?;
    Ok(answer_of(alloc, &text))
}

#[test]
fn a_message_has_at_most_1_mib(rt: HostRuntime) -> Result<(), Fail> {
    let alloc = rt.alloc();
    let most = stated(alloc, 1_048_560_u32.to_le_bytes())? == Answer::Need(1_048_560);
    let more = stated(alloc, 1_048_561_u32.to_le_bytes())? == Answer::Large(1_048_577);
    let huge = stated(alloc, u32::MAX.to_le_bytes())? == Answer::Large(4_294_967_311);
    assert!(rt; most && more && huge && answer_of(alloc, CALL) == Answer::Got(56));
    Ok(())
}
