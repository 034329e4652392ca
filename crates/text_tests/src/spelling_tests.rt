use std::test::Fail;
use updater_text::{quote, read_flag, read_size};

#[test]
fn reads_flags(rt: HostRuntime) -> Result<(), Fail> {
    let rows: [(&[u8], Option<bool>); 6] = [
        (b"true", Some(true)),
        (b"1", Some(true)),
        (b"false", Some(false)),
        (b"0", Some(false)),
        (b"True", None),
        (b"", None),
    ];
    for (text, flag) in rows.iter() {
        assert_eq!(rt; read_flag(text), *flag);
    }
    Ok(())
}

#[test]
fn reads_sizes(rt: HostRuntime) -> Result<(), Fail> {
    let rows: [(&[u8], Option<u64>); 8] = [
        (b"64K", Some(65_536)),
        (b"007", Some(7)),
        (b"16777215T", Some(18_446_742_974_197_923_840)),
        (b"16777216T", None),
        (b"18446744073709551616", None),
        (b"K", None),
        (b"1k", None),
        (b"", None),
    ];
    for (text, size) in rows.iter() {
        assert_eq!(rt; read_size(text), *size);
    }
    Ok(())
}

#[test]
fn quotes(rt: HostRuntime) -> Result<(), Fail> {
    let text = quote(rt.alloc(), "it's 'a'")?;
    assert_eq!(rt; text.as_str(), "'it'\\''s '\\''a'\\'''");
    Ok(())
}
