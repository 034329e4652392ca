ghost use Rattle.std.specs.Prelude.{◌<◌, IsTrue, length};
ghost use Rattle.machine.specs.Calls.{WriteFits};
ghost use Rattle.machine.specs.Frames.{ChangesOnly, CrashChangesOnly};
ghost use Rattle.machine.specs.Past.{Fails, world_now};
ghost use Rattle.machine.specs.Stops.{stop_fault};
ghost use Rattle.raw_writer.specs.Putting.{HasLength, PutAnswers, PutCounted, PutEnds};
ghost use Rattle.raw_writer.specs.Whole.{CopiesInOrder, WritesInOrder, pieces};

use crate::{PutRefusal, WholeStop, write_whole};
use machine::{Machine, Stop};
use updater_text::{Digest, Text};

/// An image that is to be put on the device of a slot.
#[derive(Drop)]
pub struct PutJob {
    /// The path of the image.
    pub image: Text,
    /// The path of the slot's device.
    pub device: Text,
    /// The image's length in bytes, as the manifest states it.
    pub size: u64,
    /// The SHA-256 that the manifest states.
    pub digest: Digest,
    /// The path of the image's block index, where it has one. None is used yet.
    pub index: Option<Text>,
    /// The path of the active slot's device, where one is known. Its blocks are not used yet.
    pub active_device: Option<Text>,
    /// The path of the block index of what is on that device, where it has one. None is used yet.
    pub active_index: Option<Text>,
}

/// How an image was put on a device.
#[derive(Clone, Copy, Debug, PartialEq, Eq)]
pub struct Written {
    /// The SHA-256 of what the device begins with.
    pub digest: Digest,
    /// How many blocks stood on the device before; 0 without a pass over blocks.
    pub kept: u64,
    /// How many blocks came from the active slot's device; 0 without a pass over blocks.
    pub borrowed: u64,
    /// How many blocks were read of the image; 0 without a pass over blocks.
    pub fetched: u64,
    /// Whether the whole image was written.
    pub whole: bool,
}

/// Puts an image on the front of a device by one whole write, in pieces of the buffer's length, and
/// compares its SHA-256 with the stated one: `ImageDigest` exactly where they differ, and then the
/// image stands on the device all the same. `ImageSize` where the image grew shorter than stated;
/// `Outside` where a call of this kind failed. A block index is not used yet. It takes no memory
/// itself, so `NoMemory` comes only of the machine.
///
/// The buffer is not empty, the device has room for the image, and the image has the stated length.
pub fn put_image<M: Machine>(
    m: &mut M,
    job: &PutJob,
    buffer: &mut [u8],
) -> Result<Written, Stop<PutRefusal>>
    requires buffer { 0 < length buffer.old }
    requires room { WriteFits M.tells (M.past m.old) job.now.device job.now.size }
    requires image { HasLength M.tells (M.past m.old) job.now.image job.now.size }

    // At each moment, inside a write too, the pieces were written in their order, and the device holds
    // the image's bytes up to the piece that is under way.
    ensures order { let spans = pieces job.now.device (length buffer.old) job.now.size in
        WritesInOrder M.tells spans (M.past m.old) (M.past m.new) }
    ensures copies { let job = job.now in let piece = length buffer.old in
        CopiesInOrder M.tells job.image job.device piece job.size (M.past m.old) (M.past m.new) }

    // No more than the front of the device has changed, and so wherever the power stops.
    ensures writes { let size = job.now.size in
        ChangesOnly M.tells job.now.device 0 size (M.past m.old) (M.past m.new) }
    ensures held { let size = job.now.size in
        CrashChangesOnly M.tells job.now.device 0 size (M.past m.old) (M.past m.new) }
    ensures answers { PutAnswers job.now result }
    ensures ends { let old = world_now (M.past m.old) in
        IsTrue M.tells → PutEnds job.now (length buffer.old) old (world_now (M.past m.new)) result }
    ensures fails { Fails M.tells (M.past m.old) (M.past m.new) (stop_fault result) }
    ensures counts { let faults = M.faults m.old in
        PutCounted faults (M.faults m.new) (M.wants m.old) (M.wants m.new) result }
{
    let image = job.image.as_str();
    let device = job.device.as_str();
    match write_whole(m, image, device, job.size, buffer) {
        Ok(found) => {
            if found == job.digest {
                Ok(Written {
                    digest: found,
                    kept: 0,
                    borrowed: 0,
                    fetched: 0,
                    whole: true,
                })
            } else {
                Err(Stop::Refused(PutRefusal::ImageDigest {
                    stated: job.digest,
                    found,
                }))
            }
        }
        Err(WholeStop::Short { found }) => Err(Stop::Refused(PutRefusal::ImageSize {
            stated: job.size,
            found,
        })),
        Err(WholeStop::Outside(kind)) => Err(Stop::Outside(kind)),
        Err(WholeStop::NoMemory) => Err(Stop::NoMemory),
    }
}
