ghost use Rattle.std.specs.Prelude.{◌≡◌, OnOk};
ghost use Rattle.boot_state.specs.Custom.{state_name, with_state};
ghost use Rattle.boot_outputs.specs.Custom.{primary_told, state_told};
ghost use Rattle.boot_outputs.specs.Texts.{Takes};

use crate::texts::first_line;
use boot_model::Vars;
use std::alloc::Global;
use updater_text::NoMemory;

/// Takes the primary name, which any text tells.
pub fn take_primary(out: &str, read: &mut Vars) -> Result<bool, NoMemory>
    ensures { Takes result read.old read.new (primary_told out.now read.old) }
{
    read.set("primary", first_line(out))?;
    Ok(true)
}

// Gives a name a state.
fn set_state(alloc: Global, name: &str, state: &str, read: &mut Vars) -> Result<(), NoMemory>
    ensures { OnOk result (read.new ≡ with_state state.now name.now read.old) }
{
    let mut variable = String::from_str(alloc, "state.")?;
    variable.push_str(name)?;
    read.set(variable.as_str(), state)
}

/// Takes the state of a name. The answer is whether the text is in its form; where it is not, the
/// variables stay.
pub fn take_state(alloc: Global, name: &str, out: &str, read: &mut Vars) -> Result<bool, NoMemory>
    ensures { Takes result read.old read.new (state_told name.now out.now read.old) }
{
    let state = first_line(out);
    if state != "good" && state != "bad" {
        return Ok(false);
    }
    set_state(alloc, name, state, read)?;
    Ok(true)
}
