ghost use Rattle.std.specs.Prelude.{◌≡◌, ◌<◌, ◌+◌, ◌^◌, length, IsTrue};
ghost use Rattle.machine.specs.Past.{Fails, world_now};
ghost use Rattle.machine.specs.Calls.{WriteFits};
ghost use Rattle.machine.specs.Frames.{CrashChangesOnly, ChangesOnly};
ghost use Rattle.raw_writer.specs.Whole.{CopiesInOrder, OneWriteAtMost, PieceEnds, ShortOf, WholeCounted, WholeEnds, WritesInOrder, pieces, whole_fault, whole_stop};

use machine::{CallStop, Fault, Machine, fill};
use sha2::{Digest as Hash, Sha256};
use updater_text::Digest;

/// Why a whole write stopped: a machine call failed, the image ended after `found` bytes, or the
/// machine was out of memory.
#[derive(Clone, Copy, Debug, PartialEq, Eq)]
pub enum WholeStop {
    Outside(Fault),
    Short { found: u64 },
    NoMemory,
}

// Why a whole write stops where a call of this kind stopped.
fn whole_stop(stop: CallStop, fault: Fault) -> WholeStop
    ensures { result ≡ whole_stop stop fault }
{
    match stop {
        CallStop::Failed => WholeStop::Outside(fault),
        CallStop::NoMemory => WholeStop::NoMemory,
    }
}

// Copies a piece of the image, from byte `at` on, to the same place of the device.
fn copy_piece<M: Machine>(
    m: &mut M,
    image: &str,
    device: &str,
    at: u64,
    piece: &mut [u8],
) -> Result<(), WholeStop>
    requires some { 0 < length piece.old }
    requires ends { at + length piece.old < 2 ^ 64 }
    requires fits { WriteFits M.tells (M.past m.old) device.now (at + length piece.old) }
    ensures writes { ChangesOnly M.tells device.now at (at + length piece.old) (M.past m.old) (M.past m.new) }
    ensures once { OneWriteAtMost M.tells device.now at (length piece.old) (M.past m.old) (M.past m.new) }
    ensures short { ShortOf (at + length piece.old) result }
    ensures ends { IsTrue M.tells → PieceEnds image.now device.now at piece.new (world_now (M.past m.old)) (world_now (M.past m.new)) result }
    ensures fails { Fails M.tells (M.past m.old) (M.past m.new) (whole_fault result) }
    ensures counts { WholeCounted (M.faults m.old) (M.faults m.new) (M.wants m.old) (M.wants m.new) result }
{
    let found = match fill(m, image, at, piece) {
        Ok(found) => found,
        Err(stop) => return Err(whole_stop(stop, Fault::Read)),
    };
    if found < piece.len() {
        return Err(WholeStop::Short {
            found: at + found as u64,
        });
    }
    match m.write_at(device, at, piece) {
        Ok(()) => Ok(()),
        Err(stop) => Err(whole_stop(stop, Fault::Write)),
    }
}

/// Writes the first `size` bytes of the image to the front of the device, in pieces of the buffer's
/// length, syncs it, and answers their SHA-256. `Short` comes exactly where the image ends before.
/// Image and device may be one. It takes no memory itself.
pub fn write_whole<M: Machine>(
    m: &mut M,
    image: &str,
    device: &str,
    size: u64,
    buffer: &mut [u8],
) -> Result<Digest, WholeStop>
    requires buffer { 0 < length buffer.old }
    requires fits { WriteFits M.tells (M.past m.old) device.now size }

    // At each moment, inside a write too, the pieces were written in their order, and the device holds
    // the image's bytes up to the piece that is under way.
    ensures order { WritesInOrder M.tells (pieces device.now (length buffer.old) size) (M.past m.old) (M.past m.new) }
    ensures copies { CopiesInOrder M.tells image.now device.now (length buffer.old) size (M.past m.old) (M.past m.new) }

    // No more than the front of the device has changed, and so wherever the power stops.
    ensures writes { ChangesOnly M.tells device.now 0 size (M.past m.old) (M.past m.new) }
    ensures held { CrashChangesOnly M.tells device.now 0 size (M.past m.old) (M.past m.new) }
    ensures short { ShortOf size result }
    ensures ends { IsTrue M.tells → WholeEnds image.now device.now (length buffer.old) size (world_now (M.past m.old)) (world_now (M.past m.new)) result }
    ensures fails { Fails M.tells (M.past m.old) (M.past m.new) (whole_fault result) }
    ensures counts { WholeCounted (M.faults m.old) (M.faults m.new) (M.wants m.old) (M.wants m.new) result }
{
    let mut hasher = Sha256::new();
    let mut done: u64 = 0;
    let room = buffer.len() as u64;
    while done < size {
        let want = room.min(size - done) as usize;
        let piece = &mut buffer[..want];
        match copy_piece(m, image, device, done, piece) {
            Ok(()) => {}
            Err(stop) => return Err(stop),
        }
        hasher.update(&*piece);
        done += want as u64;
    }
    match m.sync(device) {
        Ok(()) => Ok(Digest(hasher.finalize())),
        Err(stop) => Err(whole_stop(stop, Fault::Sync)),
    }
}
