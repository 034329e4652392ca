ghost use Rattle.std.specs.Prelude.{◌≡◌, ◌^◌, IfOk, IsTrue, codes, nat_lt, option_and_then, Some, true};
ghost use Rattle.std.specs.Option.{option_map_or};
ghost use Rattle.keyfile.specs.Groups.{get_in};
ghost use Rattle.manifest.specs.Sound.{is_text_if_any};
ghost use Rattle.updater_text.specs.Digests.{digest_of};
ghost use Rattle.updater_text.specs.Numbers.{number_of};
ghost use Rattle.slot_status.specs.Records.{count_of, text_of};
ghost use Rattle.slot_status.specs.Sound.{is_digest};

use conf_forms::{Form, value_with_form};
use keyfile::KeyFile;
use std::alloc::Global;
use updater_text::{Digest, NoMemory, Text, read_number, text_if_any};

/// The text of a key; None where there is none of at most 1,024 bytes.
pub fn read_text(
    alloc: Global,
    file: &KeyFile,
    group: &str,
    key: &str,
) -> Result<Option<Text>, NoMemory>
    ensures value { IfOk result (λ t. t ≡ text_of (get_in file.now group.now key.now)) }
    ensures formed { IfOk result (λ t. IsTrue (is_text_if_any t)) }
{
    // The texts of a key file have the form of its values.
    file.reads_back();
    text_if_any(alloc, value_with_form(file, Form::Text, group, key))
}

/// The SHA-256 that the key `sha256` has; None where there is none that can be read.
pub fn read_digest(file: &KeyFile, group: &str) -> Option<Digest>
    ensures value { result ≡ option_and_then digest_of (get_in file.now group.now (codes "sha256")) }
    ensures formed { IsTrue (option_map_or is_digest result true) }
{
    let digest = file.get(group, "sha256")?;
    Digest::read(digest)
}

/// The size in bytes that the key `size` has; None where there is none that can be read.
pub fn read_size(file: &KeyFile, group: &str) -> Option<u64>
    ensures value { result ≡ option_and_then number_of (get_in file.now group.now (codes "size")) }
    ensures fits { IsTrue (option_map_or (λ n. nat_lt n (2 ^ 64)) result true) }
{
    let size = file.get(group, "size")?;
    read_number(size.as_bytes())
}

/// The count that a key has; 0 where there is none below 2^32.
pub fn read_count(file: &KeyFile, group: &str, key: &str) -> u32
    ensures value { result ≡ count_of (get_in file.now group.now key.now) }
    ensures fits { IsTrue (nat_lt result (2 ^ 32)) }
{
    match file.get(group, key) {
        Some(count) => count_in(count),
        None => 0,
    }
}

fn count_in(text: &str) -> u32
    ensures { result ≡ count_of (Some text.now) }
{
    match read_number(text.as_bytes()) {
        Some(number) => u32::try_from(number).unwrap_or(0),
        None => 0,
    }
}
