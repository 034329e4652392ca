ghost use Rattle.std.specs.Prelude.{◌≡◌, OnOk, Some};
ghost use Rattle.std.specs.Option.{option_map};
ghost use Rattle.boot_programs.specs.Settings.{setting};
ghost use Rattle.boot_outputs.specs.Grub.{listed};
ghost use Rattle.boot_outputs.specs.Texts.{Takes, with_setting};

use boot_model::Vars;
use updater_text::NoMemory;

fn setting(line: &str) -> Option<(&str, &str)>
    ensures { option_map (λ s. (s.0.now, s.1.now)) result ≡ setting line.now }
{
    line.split_once('=')
}

// Takes the variable of a line, where it has one.
fn take_line(line: &str, read: &mut Vars) -> Result<(), NoMemory>
    ensures { OnOk result (read.new ≡ with_setting read.old (setting line.now)) }
{
    if let Some((name, value)) = setting(line) {
        read.set(name, value)?;
    }
    Ok(())
}

// Takes the variables of all lines.
fn take_lines(out: &str, read: &mut Vars) -> Result<(), NoMemory>
    ensures { OnOk result (listed out.now read.old ≡ Some read.new) }
{
    for line in out.split('\n') {
        take_line(line, read)?;
    }
    Ok(())
}

/// Takes a list of variables, which any text is.
pub fn take_list(out: &str, read: &mut Vars) -> Result<bool, NoMemory>
    ensures { Takes result read.old read.new (listed out.now read.old) }
{
    take_lines(out, read)?;
    Ok(true)
}
