use crate::again::comes_back;
use std::alloc::Global;
use std::test::Fail;

// Signatures, whether the order is little-endian, and bytes. The first two are those of the D-Bus
// specification, "Marshaling".
const ROWS: [(&[u8], bool, &[u8]); 8] = [
    (
        b"sss",
        true,
        b"\x03\0\0\0foo\0\x01\0\0\0+\0\0\0\x03\0\0\0bar\0",
    ),
    (b"ax", false, b"\0\0\0\x08\0\0\0\0\0\0\0\0\0\0\0\x05"),
    (
        b"ynqiuh",
        true,
        b"\x07\0\xff\xff\x02\0\0\0\xff\xff\xff\xff\x04\0\0\0\x05\0\0\0",
    ),
    (
        b"btd",
        false,
        b"\0\0\0\x01\0\0\0\0\0\0\0\0\0\0\0\x09\x40\x09\x21\xfb\x54\x44\x2d\x18",
    ),
    (
        b"ogs",
        true,
        b"\x01\0\0\0/\0\x05a{sv}\0\0\0\0\x02\0\0\0\xc3\xa9\0",
    ),
    (
        b"a{sv}",
        true,
        b"\x1a\0\0\0\0\0\0\0\x01\0\0\0a\0\x01u\0\0\0\0\x05\0\0\0\x01\0\0\0b\0\x01y\0\x06",
    ),
    (b"(yv)ab", true, b"\x01\x01o\0\x06\0\0\0/a/b_1\0\0\0\0\0\0"),
    (b"v", true, b"\x03(y)\0\0\0\0\x08"),
];

const BAD: [(&[u8], bool, &[u8]); 16] = [
    (b"yu", true, b"\x01\0\x01\0\x02\0\0\0"),
    (b"b", true, b"\x02\0\0\0"),
    (b"s", true, b"\x01\0\0\0\0\0"),
    (b"s", true, b"\x01\0\0\0\xff\0"),
    (b"s", true, b"\x01\0\0\0aa"),
    (b"o", true, b"\0\0\0\0\0"),
    (b"o", true, b"\x02\0\0\0a/\0"),
    (b"o", true, b"\x03\0\0\0/a/\0"),
    (b"o", true, b"\x03\0\0\0//a\0"),
    (b"o", true, b"\x03\0\0\0/-a\0"),
    (b"g", true, b"\x02()\0"),
    (b"g", true, b"\x05{sv}\0\0"),
    (b"v", true, b"\x02yy\0\x01\x02"),
    (b"v", true, b"\0\0"),
    (b"ay", true, b"\0\0\0\x04\x01\x02\x03"),
    (b"ay", true, b"\x01\0\0\x04\x01"),
];

// How many rows come back, and how many of their proper prefixes are refused.
fn rows_back(alloc: Global) -> Result<(usize, usize, usize), Fail> {
    let mut back = 0;
    let mut refused = 0;
    let mut prefixes = 0;
    for (signature, little, bytes) in ROWS.iter() {
        let (same, _) = comes_back(alloc, signature, *little, bytes)?;
        if same && back < 1_000 {
            back += 1;
        }
        for len in 0..bytes.len() {
            let (_, no) = comes_back(alloc, signature, *little, bytes.split_at(len).0)?;
            if no && refused < 1_000 {
                refused += 1;
            }
            if prefixes < 1_000 {
                prefixes += 1;
            }
        }
    }
    Ok((back, refused, prefixes))
}

#[test]
fn reads_and_writes_rows(rt: HostRuntime) -> Result<(), Fail> {
    let (back, refused, prefixes) = rows_back(rt.alloc())?;
    assert!(rt; back == 8 && refused == prefixes && prefixes > 100);
    Ok(())
}

// How many changes of one byte neither are refused nor come back as they are.
fn changed(alloc: Global, bits: u8) -> Result<usize, Fail> {
    let mut wrong = 0;
    for (signature, little, bytes) in ROWS.iter() {
        let mut copy = Vec::from_slice(alloc, bytes)?;
        for place in 0..bytes.len() {
            if place >= copy.len() {
                continue;
            }
            let old = copy[place];
            copy[place] = old ^ bits;
            let (same, no) = comes_back(alloc, signature, *little, &copy)?;
            if !same && !no && wrong < 1_000 {
                wrong += 1;
            }
            copy[place] = old;
        }
    }
    Ok(wrong)
}

#[test]
fn changed_bytes_are_refused_or_come_back(rt: HostRuntime) -> Result<(), Fail> {
    let wrong = changed(rt.alloc(), 1)? == 0 && changed(rt.alloc(), 128)? == 0;
    assert!(rt; wrong && changed(rt.alloc(), 255)? == 0);
    Ok(())
}

fn bad_refused(alloc: Global) -> Result<usize, Fail> {
    let mut refused = 0;
    for (signature, little, bytes) in BAD.iter() {
        let (_, no) = comes_back(alloc, signature, *little, bytes)?;
        if no && refused < 1_000 {
            refused += 1;
        }
    }
    Ok(refused)
}

#[test]
fn refuses_bad_bytes(rt: HostRuntime) -> Result<(), Fail> {
    assert!(rt; bad_refused(rt.alloc())? == 16);
    Ok(())
}

// Whether so many variants, one in another round a byte, are refused.
fn refuses_variants(alloc: Global, count: usize) -> Result<bool, Fail> {
    let mut bytes = Vec::new(alloc);
    for _ in 1..count {
        bytes.extend_from_slice(b"\x01v\0")?;
    }
    bytes.extend_from_slice(b"\x01y\0\x07")?;
    let (same, no) = comes_back(alloc, b"v", true, &bytes)?;
    Ok(no && !same)
}

#[test]
fn nests_sixty_four_containers(rt: HostRuntime) -> Result<(), Fail> {
    assert!(rt; !refuses_variants(rt.alloc(), 64)? && refuses_variants(rt.alloc(), 65)?);
    Ok(())
}
