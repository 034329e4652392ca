ghost use Rattle.std.specs.Prelude.{◌≡◌};
ghost use Rattle.system_conf.specs.Refusals as spec;

use crate::{ConfRefusal, Slot};

/// The refusal of more than 64 slots, where there are so many.
#[tactic(auto, unfolding(crate::specs::Refusals::too_many))]
pub fn too_many(slots: &[Slot]) -> Option<ConfRefusal>
    ensures { result ≡ spec.too_many slots.now }
{
    if slots.len() > 64 {
        Some(ConfRefusal::TooMany {
            slots: slots.len() as u64,
        })
    } else {
        None
    }
}
