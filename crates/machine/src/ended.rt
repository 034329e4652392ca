ghost use Rattle.std.specs.Prelude.{◌≡◌, IfOk};
ghost use Rattle.machine.specs.Endings as spec;

use crate::Ended;
use std::alloc::Global;
use updater_text::{NoMemory, Text};

/// How a child ended, in words: `status N`, or `signal`. The only error is out of memory.
pub fn ended_text(alloc: Global, ended: Ended) -> Result<Text, NoMemory>
    ensures { IfOk result (λ t. t ≡ spec.ended_text ended) }
{
    match ended {
        Ended::Code(code) => Ok(Text::from_string(format!(in alloc; "status {code}")?)),
        Ended::Signal => Text::new(alloc, "signal"),
    }
}
