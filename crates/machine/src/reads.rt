ghost use Rattle.std.specs.Prelude.{◌≡◌, ◌<◌, ◌+◌, ◌^◌, length, IsTrue, IfOk};
ghost use Rattle.machine.specs.World.{with_fetched, readable};
ghost use Rattle.machine.specs.Past.{Fails, world_now};
ghost use Rattle.machine.specs.Calls.{Counted, ReadFull, call_fault};
ghost use Rattle.machine.specs.Frames.{OnlyReads};

use crate::{CallStop, Fault, Machine};

/// Reads from byte `at` on until `into` is full or the bytes under the path end, and answers how many
/// bytes it read: fewer than `into` has only at the end. Every turn takes at least one byte.
pub fn fill<M: Machine>(m: &mut M, path: &str, at: u64, into: &mut [u8]) -> Result<usize, CallStop>
    requires { at + length into.old < 2 ^ 64 }
    ensures reads { OnlyReads M.tells (M.past m.old) (M.past m.new) }
    ensures answer { IfOk result (ReadFull M.tells (readable (world_now (M.past m.old)) path.now) at into.old into.new) }
    ensures left { IsTrue M.tells → IfOk result (λ count. world_now (M.past m.new) ≡ with_fetched (world_now (M.past m.old)) path.now count) }
    ensures fails { Fails M.tells (M.past m.old) (M.past m.new) (call_fault Fault.Read result) }
    ensures counts { Counted (M.faults m.old) (M.faults m.new) (M.wants m.old) (M.wants m.new) result }
{
    let mut done: usize = 0;
    while done < into.len() {
        let rest = &mut into[done..];
        let count = match m.read_at(path, at + done as u64, rest) {
            Ok(count) => count,
            Err(stop) => return Err(stop),
        };
        if count == 0 {
            return Ok(done);
        }
        done += count;
    }
    Ok(done)
}
