ghost use Rattle.std.specs.Prelude.{◌≡◌, IfOk};
ghost use Rattle.conf_forms.specs.Causes.{place_cause};

use std::alloc::Global;
use updater_text::{NoMemory, Text};

/// What is the matter with a group, where the key is empty, or with a key of it, in words:
/// `[group] matter` or `[group] key matter`.
pub fn place_cause(alloc: Global, group: &str, key: &str, matter: &str) -> Result<Text, NoMemory>
    ensures { IfOk result (λ t. t ≡ place_cause group.now key.now matter.now) }
{
    let text = if key.is_empty() {
        format!(in alloc; "[{group}] {matter}")?
    } else {
        format!(in alloc; "[{group}] {key} {matter}")?
    };
    Ok(Text::from_string(text))
}
