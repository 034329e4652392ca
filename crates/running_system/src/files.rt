ghost use Rattle.std.specs.Prelude.{◌≡◌, IfOk, IsTrue};
ghost use Rattle.machine.specs.Calls.{Counted, call_fault};
ghost use Rattle.machine.specs.Frames.{Unchanged};
ghost use Rattle.machine.specs.Past.{Fails, world_now};
ghost use Rattle.machine.specs.Runs.{ReadsOnce};
ghost use Rattle.running_system.specs.Running.{Answers, file_within};

use machine::{CallStop, Fault, Machine, ReadStop};
use std::alloc::Global;
use updater_text::Items;

/// The bytes of a file of at most `limit` bytes; None where it is missing or longer. It gives
/// `Failed` where the read fails, and `NoMemory` where memory is out.
pub fn file_within<M: Machine>(
    alloc: Global,
    m: &mut M,
    path: &str,
    limit: u64,
) -> Result<Option<Items<u8>>, CallStop>
    ensures unchanged { Unchanged M.tells (M.past m.old) (M.past m.new) }
    ensures once { IsTrue M.tells → ReadsOnce path.now (M.past m.old) (M.past m.new) }
    ensures answers { Answers M.tells (file_within (world_now (M.past m.old)) path.now limit) result }
    ensures fails { Fails M.tells (M.past m.old) (M.past m.new) (call_fault Fault.Read result) }
    ensures counts { Counted (M.faults m.old) (M.faults m.new) (M.wants m.old) (M.wants m.new) result }
{
    match m.file_read(alloc, path, limit) {
        Ok(found) => Ok(found),
        Err(ReadStop::TooLong { .. }) => Ok(None),
        Err(ReadStop::Failed) => Err(CallStop::Failed),
        Err(ReadStop::NoMemory) => Err(CallStop::NoMemory),
    }
}
