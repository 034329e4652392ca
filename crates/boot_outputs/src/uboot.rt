ghost use Rattle.std.specs.Prelude.{◌≡◌, ◌++◌, codes};
ghost use Rattle.std.specs.Option.{option_copied};
ghost use Rattle.boot_outputs.specs.Texts.{Takes, behind};
ghost use Rattle.boot_outputs.specs.Uboot.{printed};

use crate::texts::{behind, first_line};
use boot_model::Vars;
use updater_text::NoMemory;

// The value in a line that begins with the name and `=`.
fn value_in<'a>(line: &'a str, name: &str) -> Option<&'a str>
    ensures { option_copied result ≡ behind (name.now ++ codes "=") line.entry.now }
{
    behind(behind(line, name)?, "=")
}

/// Takes a variable. The answer is whether the text is in its form; where it is not, the variables
/// stay.
pub fn take_variable(name: &str, out: &str, read: &mut Vars) -> Result<bool, NoMemory>
    ensures { Takes result read.old read.new (printed name.now out.now read.old) }
{
    let Some(value) = value_in(first_line(out), name) else {
        return Ok(false);
    };
    read.set(name, value)?;
    Ok(true)
}
