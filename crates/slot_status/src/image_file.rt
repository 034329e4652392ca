ghost use Rattle.std.specs.Prelude.{◌≡◌, ◌^◌, IsTrue, Some, length, nat_lt, option_copied, option_map, true};
ghost use Rattle.std.specs.Option.{option_map_or};
ghost use Rattle.hex.specs.Hex.{IsBytes};
ghost use Rattle.slot_status.specs.Sound.{is_digest};

use manifest::ImageFile;
use updater_text::Digest;

// What its type says of an array is known once its bytes are read.
fn bytes_fit(bytes: &[u8; 32])
    ensures count { length bytes.now ≡ 32 }
    ensures fit { IsBytes bytes.now }
{
    for at in 0..32 {
        let _byte = bytes[at];
    }
}

// The SHA-256 of the file of an image.
fn digest_of(file: &ImageFile) -> Digest
    ensures value { result ≡ file.now.digest }
    ensures formed { IsTrue (is_digest result) }
{
    bytes_fit(&file.digest.0);
    file.digest
}

// A size fits 64 bits.
fn some_size(size: u64) -> Option<u64>
    ensures value { result ≡ Some size }
    ensures fits { IsTrue (option_map_or (λ n. nat_lt n (2 ^ 64)) result true) }
{
    Some(size)
}

/// The SHA-256 of the file of an image, where there is one.
pub fn digest_if_any(file: Option<&ImageFile>) -> Option<Digest>
    ensures value { result ≡ option_map (λ f. f.digest) (option_copied file.entry) }
    ensures formed { IsTrue (option_map_or is_digest result true) }
{
    match file {
        Some(file) => Some(digest_of(file)),
        None => None,
    }
}

/// The length in bytes of the file of an image, where there is one.
pub fn size_if_any(file: Option<&ImageFile>) -> Option<u64>
    ensures value { result ≡ option_map (λ f. f.size) (option_copied file.entry) }
    ensures fits { IsTrue (option_map_or (λ n. nat_lt n (2 ^ 64)) result true) }
{
    match file {
        Some(file) => some_size(file.size),
        None => None,
    }
}
