use std::alloc::Global;
use std::test::Fail;
use wire_value::{Place, Value, end_of_values, is_signature, read_values, write_values};

/// The values of a signature that all the bytes are, if they are.
pub fn read_all(
    alloc: Global,
    signature: &[u8],
    little: bool,
    bytes: &[u8],
) -> Result<Option<Vec<Value>>, Fail> {
    if !is_signature(signature) || bytes.len() > 4_096 {
        return Ok(None);
    }
    let place = Place { offset: 0, bytes };
    match read_values(alloc, little, 64, signature, place) {
        Ok((values, rest)) => {
            if rest.bytes.is_empty() {
                Ok(Some(values))
            } else {
                Ok(None)
            }
        }
        Err(_) => Ok(None),
    }
}

/// The bytes of values, if the grammar spells them.
pub fn write_all(
    alloc: Global,
    signature: &[u8],
    little: bool,
    values: &[Value],
) -> Result<Option<Vec<u8>>, Fail> {
    if !is_signature(signature) {
        return Ok(None);
    }
    let mut out = Vec::new(alloc);
    match end_of_values(values, signature, 64, 0, 1_048_576) {
        Some(_) => {
            write_values(&mut out, little, values)?;
            Ok(Some(out))
        }
        None => Ok(None),
    }
}

/// Whether bytes are read, and then written again as the same bytes; and whether they are refused.
pub fn comes_back(
    alloc: Global,
    signature: &[u8],
    little: bool,
    bytes: &[u8],
) -> Result<(bool, bool), Fail> {
    let Some(values) = read_all(alloc, signature, little, bytes)? else {
        return Ok((false, true));
    };
    match write_all(alloc, signature, little, &values)? {
        Some(written) => Ok((written.as_slice() == bytes, false)),
        None => Ok((false, false)),
    }
}
