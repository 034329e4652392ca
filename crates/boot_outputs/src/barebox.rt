ghost use Rattle.std.specs.Prelude.{◌≡◌, OnOk, length};
ghost use Rattle.boot_outputs.specs.Barebox.{gotten, with_values};
ghost use Rattle.boot_outputs.specs.Texts.{Takes, lines_of};

use boot_model::Vars;
use updater_text::{NoMemory, Text};

// How many lines a text has. That `lines` drops a carriage return does not change it.
fn line_count(out: &str) -> usize
    ensures { result ≡ length (lines_of out.now) }
{
    out.lines().count()
}

// Gives each name the value on the line in its place.
fn set_values(names: &[Text], out: &str, read: &mut Vars) -> Result<(), NoMemory>
    requires { length (lines_of out.now) ≡ length names.now }
    ensures { OnOk result (read.new ≡ with_values names.now out.now read.old) }
{
    for (name, value) in names.iter().zip(out.split('\n')) {
        read.set(name.as_str(), value)?;
    }
    Ok(())
}

/// Takes the values of these variables. The answer is whether the text is in its form; where it is
/// not, the variables stay.
pub fn take_values(names: &[Text], out: &str, read: &mut Vars) -> Result<bool, NoMemory>
    ensures { Takes result read.old read.new (gotten names.now out.now read.old) }
{
    if line_count(out) != names.len() {
        return Ok(false);
    }
    set_values(names, out, read)?;
    Ok(true)
}
