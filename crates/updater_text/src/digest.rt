ghost use Rattle.std.specs.Prelude.{◌≡◌, ◌↔◌, length, IsSome, IfOk};
ghost use Rattle.std.specs.List.{AllPass};
ghost use Rattle.hex.specs.Hex.{encode_lower, is_hex_digit};
ghost use Rattle.updater_text.specs.Digests.{digest_of};

use crate::{NoMemory, Text};
use hex::FromHex;
use std::alloc::Global;

/// The 32 bytes of a SHA-256 value (FIPS 180-4).
#[derive(Clone, Copy, Debug, PartialEq, Eq)]
pub struct Digest(pub [u8; 32]);

impl Digest {
    /// The value that 64 hexadecimal digits of either case spell; None for any other text. It takes
    /// no memory.
    pub fn read(text: &str) -> Option<Digest>
        ensures value { result ≡ digest_of text.now }
        ensures found { IsSome result ↔ ((length text.now ≡ 64) × AllPass is_hex_digit text.now) }
    {
        match <[u8; 32] as FromHex>::from_hex(text) {
            Ok(bytes) => Some(Digest(bytes)),
            Err(_) => None,
        }
    }

    /// Its 64 hexadecimal digits, in lower case.
    pub fn hex(&self, alloc: Global) -> Result<Text, NoMemory>
        ensures { IfOk result (λ text. text ≡ encode_lower self.now.0) }
    {
        let text = hex::encode(alloc, self.0.as_slice())?;
        Ok(Text::from_string(text))
    }
}
