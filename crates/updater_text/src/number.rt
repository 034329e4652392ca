ghost use Rattle.std.specs.Prelude.{◌≡◌};
ghost use Rattle.updater_text.specs.Numbers.{number_of};

/// The number that 1 to 20 decimal digits spell; None for any other bytes, and for a value of 2^64
/// or more. Leading zeros are taken. It takes no memory.
pub fn read_number(bytes: &[u8]) -> Option<u64>
    ensures { result ≡ number_of bytes.now }
{
    if bytes.is_empty() || bytes.len() > 20 {
        return None;
    }
    let mut value: u64 = 0;
    for byte in bytes {
        if !byte.is_ascii_digit() {
            return None;
        }
        let digit = u64::from(*byte - b'0');
        value = value.checked_mul(10)?.checked_add(digit)?;
    }
    Some(value)
}
