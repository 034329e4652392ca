ghost use Rattle.std.specs.Prelude.{◌≡◌, IfOk};
ghost use Rattle.mark_report.specs.Causes as spec;

use crate::InfoRefusal;
use child_steps::{bundle_cause, mount_cause};
use std::alloc::Global;
use updater_text::{NoMemory, Text};

/// Why there is nothing to tell of a bundle.
pub fn info_cause(alloc: Global, refusal: &InfoRefusal) -> Result<Text, NoMemory>
    ensures { IfOk result (λ t. t ≡ spec.info_cause refusal.now) }
{
    match refusal {
        InfoRefusal::Mount(refusal) => mount_cause(alloc, refusal),
        InfoRefusal::Bundle(refusal) => bundle_cause(alloc, refusal),
    }
}
