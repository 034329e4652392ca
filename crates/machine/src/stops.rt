ghost use Rattle.std.specs.Prelude.{◌≡◌};
ghost use Rattle.machine.specs.declared.stops.Stop.TheVariants as stop;

use updater_text::NoMemory;

/// The kind of a machine call that failed.
#[derive(Clone, Copy, Debug, PartialEq, Eq)]
pub enum Fault {
    Read,
    Write,
    Sync,
    Size,
    Replace,
    Run,
    Clock,
}

/// Why a call over a machine gave no value: a refusal of its own, a machine call that failed, or
/// out of memory.
#[derive(Clone, Debug, Drop)]
pub enum Stop<R> {
    Refused(R),
    Outside(Fault),
    NoMemory,
}

impl<R> From<NoMemory> for Stop<R> {
    ghost from_gives = { λ _ given. given ≡ stop.NoMemory };

    fn from(_: NoMemory) -> Self {
        Stop::NoMemory
    }
}
