ghost use Rattle.std.specs.Prelude.{◌≡◌, [], ◌∷◌, IsTrue};
ghost use Rattle.machine.specs.Runs.{OnlyRuns};
ghost use Rattle.child_steps.specs.Closing.{ClosingCounted, ClosingEnds, closing_of};

use crate::Mounted;
use machine::{Ended, Machine, RunStop};
use std::alloc::Global;

/// What came of the unmount of a bundle.
#[derive(Clone, Copy, Debug, PartialEq, Eq)]
pub enum Closing {
    /// The bundle was never mounted.
    NotMounted,
    Unmounted,
    /// The child ended so, and not with `Code(0)`.
    Ended(Ended),
    /// The child gave no end.
    Failed,
    /// Out of memory.
    NoMemory,
}

/// Runs the child that unmounts a bundle, once. `Unmounted` comes exactly where it ended with `Code(0)`,
/// `Ended` exactly for any other end; never `NotMounted`.
pub fn close_bundle<M: Machine>(alloc: Global, m: &mut M, mounted: Mounted) -> Closing
    ensures kept { OnlyRuns M.tells mounted.umount.spares (mounted.umount ∷ []) (M.past m.old) (M.past m.new) }
    ensures ends { IsTrue M.tells → ClosingEnds mounted.umount (M.past m.old) (M.past m.new) result }
    ensures counts { ClosingCounted (M.faults m.old) (M.faults m.new) (M.wants m.old) (M.wants m.new) result }
{
    match m.run(alloc, &mounted.umount) {
        Ok(exit) => closing_of(exit.ended),
        Err(RunStop::Failed) => Closing::Failed,
        Err(RunStop::NoMemory) => Closing::NoMemory,
    }
}

// What the end of the unmount comes to.
fn closing_of(ended: Ended) -> Closing
    ensures { result ≡ closing_of ended }
{
    match ended {
        Ended::Code(0) => Closing::Unmounted,
        _ => Closing::Ended(ended),
    }
}
