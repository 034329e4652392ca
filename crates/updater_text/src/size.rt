ghost use Rattle.std.specs.Prelude.{◌≡◌};
ghost use Rattle.updater_text.specs.Sizes.{size_of, unit_of};

use crate::read_number;

// How many bytes the letter of a unit stands for.
fn unit_of(letter: u8) -> Option<u64>
    ensures { result ≡ unit_of letter }
{
    match letter {
        b'K' => Some(1 << 10),
        b'M' => Some(1 << 20),
        b'G' => Some(1 << 30),
        b'T' => Some(1 << 40),
        _ => None,
    }
}

/// The size in bytes that a number spells, with nothing or `K`, `M`, `G` or `T` behind it for 1024 to
/// the power 1 to 4; None for any other bytes, and for a size of 2^64 or more. It takes no memory.
pub fn read_size(bytes: &[u8]) -> Option<u64>
    ensures { result ≡ size_of bytes.now }
{
    let (letter, number) = bytes.split_last()?;
    match unit_of(*letter) {
        Some(unit) => read_number(number)?.checked_mul(unit),
        None => read_number(bytes),
    }
}
