ghost use Rattle.std.specs.Prelude.{◌≡◌, IfOk, option_and_then, slice_get};
ghost use Rattle.system_conf.specs.Refusals as spec;

use crate::ConfRefusal;
use conf_forms::slot_group;
use keyfile::KeyFile;
use std::alloc::Global;
use updater_text::{NoMemory, Text};

/// The first group that begins as a slot's, and is none.
#[tactic(auto, unfolding(crate::specs::Refusals::bad_slot_name))]
pub fn bad_slot_name(alloc: Global, file: &KeyFile) -> Result<Option<ConfRefusal>, NoMemory>
    ensures { IfOk result (λ refusal. refusal ≡ spec.bad_slot_name file.now) }
{
    for at in 0..file.groups() {
        if let Some(why) = bad_name_at(alloc, file, at)? {
            return Ok(Some(why));
        }
    }
    Ok(None)
}

// The group at a place, where it begins as a slot's and is none.
fn bad_name_at(alloc: Global, file: &KeyFile, at: usize) -> Result<Option<ConfRefusal>, NoMemory>
    ensures { IfOk result (λ refusal. refusal ≡ option_and_then spec.bad_name_of (slice_get file.now at)) }
{
    let Some(group) = file.group(at) else {
        return Ok(None);
    };
    if is_bad_slot_group(group) {
        return Ok(Some(ConfRefusal::BadSlotName {
            group: Text::new(alloc, group)?,
        }));
    }
    Ok(None)
}

fn is_bad_slot_group(group: &str) -> bool
    ensures { result ≡ spec.is_bad_slot_group group.now }
{
    group.as_bytes().starts_with(b"slot.") && slot_group(group).is_none()
}
