ghost use Rattle.std.specs.Prelude.{◌≡◌, IfOk};
ghost use Rattle.machine.specs.Faults as spec;

use crate::Fault;
use std::alloc::Global;
use updater_text::{NoMemory, Text};

// What the call was for, in a word.
fn fault_word(kind: Fault) -> &'static str
    ensures { result.now ≡ spec.fault_word kind }
{
    match kind {
        Fault::Read => "read",
        Fault::Write => "write",
        Fault::Sync => "sync",
        Fault::Size => "size",
        Fault::Replace => "replace",
        Fault::Run => "run",
        Fault::Clock => "clock",
    }
}

/// That a call of the machine failed, in one line without its end: `outside fault: WORD`. The only
/// error is out of memory.
pub fn fault_cause(alloc: Global, kind: Fault) -> Result<Text, NoMemory>
    ensures { IfOk result (λ t. t ≡ spec.fault_cause kind) }
{
    let word = fault_word(kind);
    let cause = format!(in alloc; "outside fault: {word}")?;
    Ok(Text::from_string(cause))
}
