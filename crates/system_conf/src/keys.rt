ghost use Rattle.std.specs.Prelude.{◌≡◌, IfOk};
ghost use Rattle.system_conf.specs.Refusals as spec;

use crate::mandatory::first_missing;
use crate::{ConfRefusal, Reader};
use conf_forms::{first_bad, first_left_out, first_unknown};
use updater_text::NoMemory;

/// The first mandatory key that has no value.
#[tactic(auto, unfolding(crate::specs::Refusals::missing))]
pub fn missing(reader: &Reader<'_>) -> Result<Option<ConfRefusal>, NoMemory>
    ensures { IfOk result (λ refusal. refusal ≡ spec.missing reader.now.file.now) }
{
    match first_missing(reader) {
        Some(place) => {
            let (group, key) = place.copy(reader.alloc)?;
            Ok(Some(ConfRefusal::Missing { group, key }))
        }
        None => Ok(None),
    }
}

/// The first group or key that is not known.
#[tactic(auto, unfolding(crate::specs::Refusals::unknown_key))]
pub fn unknown_key(reader: &Reader<'_>) -> Result<Option<ConfRefusal>, NoMemory>
    ensures { IfOk result (λ refusal. refusal ≡ spec.unknown_key reader.now.file.now) }
{
    match first_unknown(reader, reader.file)? {
        Some(place) => {
            let (group, key) = place.copy(reader.alloc)?;
            Ok(Some(ConfRefusal::UnknownKey { group, key }))
        }
        None => Ok(None),
    }
}

/// The first group, key or value that is left out.
#[tactic(auto, unfolding(crate::specs::Refusals::left_out))]
pub fn left_out(reader: &Reader<'_>) -> Result<Option<ConfRefusal>, NoMemory>
    ensures { IfOk result (λ refusal. refusal ≡ spec.left_out reader.now.file.now) }
{
    match first_left_out(reader, reader.file)? {
        Some(place) => {
            let (group, key) = place.copy(reader.alloc)?;
            Ok(Some(ConfRefusal::LeftOut { group, key }))
        }
        None => Ok(None),
    }
}

/// The first value that does not have its form, or names a place that is taken.
#[tactic(auto, unfolding(crate::specs::Refusals::bad_value))]
pub fn bad_value(reader: &Reader<'_>) -> Result<Option<ConfRefusal>, NoMemory>
    ensures { IfOk result (λ refusal. refusal ≡ spec.bad_value reader.now.file.now) }
{
    match first_bad(reader, reader.file)? {
        Some(place) => {
            let (group, key) = place.copy(reader.alloc)?;
            Ok(Some(ConfRefusal::BadValue { group, key }))
        }
        None => Ok(None),
    }
}
