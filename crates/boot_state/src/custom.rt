ghost use Rattle.std.specs.Prelude.{◌≡◌};
ghost use Rattle.std.specs.Option.{option_copied};
ghost use Rattle.boot_state.specs.Custom as spec;

use crate::named::has_name;
use crate::variable::value_of;
use boot_model::Vars;
use updater_text::Text;

/// Whether the state of a name is not bad.
pub fn is_good(vars: &Vars, name: &[u8]) -> bool
    ensures { result ≡ spec.is_good vars.now name.now }
{
    match value_of(vars, b"state.", name, b"") {
        Some(state) => state != "bad",
        None => true,
    }
}

/// The primary name, where it is one of the names, and good.
pub fn primary<'a>(vars: &'a Vars, names: &[Text]) -> Option<&'a [u8]>
    ensures { option_copied result ≡ spec.primary vars.entry.now names.now }
{
    let name = vars.get("primary")?.as_bytes();
    if has_name(names, name) && is_good(vars, name) {
        Some(name)
    } else {
        None
    }
}
