ghost use Rattle.std.specs.Prelude.{◌≡◌, ◌+◌, ◌-◌, ◌<◌, ◌^◌, length, take, drop, min, position, bytes_eq, IfOk, IfSome};
ghost use Rattle.std.specs.Option.{option_copied, option_map};
ghost use Rattle.machine.specs.World.{bytes_under, readable, length_under};
ghost use Rattle.undo_log.specs.Whole.{WholeFound};
ghost use Rattle.undo_log.specs.Effects as spec;

use crate::notes::Whole;
use machine::{Named, World, copy_bytes};
use std::alloc::Global;
use updater_text::NoMemory;

/// The place of the first of the list under the path.
pub fn find(list: &[Named], path: &str) -> Option<usize>
    ensures { result ≡ position (λ n. bytes_eq n.path path.now) list.now }
{
    list.iter().position(|named| named.path.as_str() == path)
}

/// The bytes under a path, if there are any.
pub fn bytes_of<'a>(list: &'a [Named], path: &str) -> Option<&'a [u8]>
    ensures { option_copied result ≡ bytes_under list.now path.now }
{
    match find(list, path) {
        Some(at) => Some(list[at].bytes.as_slice()),
        None => None,
    }
}

/// How many bytes there are under a path. They fit memory, so it is below 2^63.
pub fn length_of(list: &[Named], path: &str) -> Option<u64>
    ensures count { result ≡ option_map length (bytes_under list.now path.now) }
    ensures small { IfSome result (λ count. count < 2 ^ 63) }
{
    match find(list, path) {
        Some(at) => Some(list[at].bytes.len() as u64),
        None => None,
    }
}

/// Whether the disk has room for so many bytes from byte `at` on.
pub fn has_room(world: &World, path: &str, at: u64, count: u64) -> bool
    ensures { result ≡ spec.has_room world.now path.now (at + count) }
{
    match length_of(world.disks.as_slice(), path) {
        Some(room) => at <= room && count <= room - at,
        None => false,
    }
}

/// The bytes of a file of at most `limit` bytes, once more.
pub fn whole_file(alloc: Global, files: &[Named], path: &str, limit: u64) -> Result<Whole, NoMemory>
    ensures { IfOk result (WholeFound (bytes_under files.now path.now) limit) }
{
    let Some(bytes) = bytes_of(files, path) else {
        return Ok(Whole::Bytes(None));
    };
    let length = bytes.len() as u64;
    if limit < length {
        return Ok(Whole::TooLong(length));
    }
    Ok(Whole::Bytes(Some(copy_bytes(alloc, bytes)?)))
}

/// What a read finds under a path: a disk, else a file, else nothing.
#[tactic(auto, unfolding(machine::specs::World::readable))]
pub fn bytes_read<'a>(world: &'a World, path: &str) -> &'a [u8]
    ensures { result.now ≡ readable world.now path.now }
{
    match bytes_of(world.disks.as_slice(), path) {
        Some(bytes) => bytes,
        None => match bytes_of(world.files.as_slice(), path) {
            Some(bytes) => bytes,
            None => &[],
        },
    }
}

/// The length of the disk or, where `disk` is false, of the disk or file. It is below 2^63.
pub fn size_under(world: &World, path: &str, disk: bool) -> Option<u64>
    ensures count { result ≡ length_under world.now path.now disk }
    ensures small { IfSome result (λ count. count < 2 ^ 63) }
{
    match length_of(world.disks.as_slice(), path) {
        Some(count) => Some(count),
        None if disk => None,
        None => length_of(world.files.as_slice(), path),
    }
}

/// How many bytes a read from byte `at` on gives, where there is room for so many.
pub fn count_at(bytes: &[u8], at: u64, room: usize) -> usize
    ensures { result ≡ min (length bytes.now - at) room }
{
    bytes.len().saturating_sub(at as usize).min(room)
}

/// Copies bytes from byte `at` on to the front of `into`: as many as there are, and as fit.
pub fn copy_at(bytes: &[u8], at: u64, into: &mut [u8])
    ensures front { take (min (length bytes.now - at) (length into.old)) into.new ≡ take (min (length bytes.now - at) (length into.old)) (drop at bytes.now) }
    ensures rest { drop (min (length bytes.now - at) (length into.old)) into.new ≡ drop (min (length bytes.now - at) (length into.old)) into.old }
{
    let count = count_at(bytes, at, into.len());
    if count == 0 {
        return;
    }
    let start = at as usize;
    into[..count].copy_from_slice(&bytes[start..start + count]);
}
