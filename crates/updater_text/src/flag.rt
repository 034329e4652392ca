ghost use Rattle.std.specs.Prelude.{◌≡◌};
ghost use Rattle.updater_text.specs.Flags.{flag_of};

/// The flag that `true`, `1`, `false` or `0` spells; None for any other bytes. It takes no memory.
pub fn read_flag(bytes: &[u8]) -> Option<bool>
    ensures { result ≡ flag_of bytes.now }
{
    match bytes {
        b"true" | b"1" => Some(true),
        b"false" | b"0" => Some(false),
        _ => None,
    }
}
