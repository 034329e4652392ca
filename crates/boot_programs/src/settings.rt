ghost use Rattle.std.specs.Prelude.{◌≡◌, ◌++◌, IfOk, OnOk};
ghost use Rattle.std.specs.Option.{option_map};
ghost use Rattle.boot_programs.specs.Settings as spec;

use boot_model::Vars;
use std::alloc::AllocError;
use updater_text::{NoMemory, Text};

/// Writes `name=value`, and ends the line.
pub fn write_setting(out: &mut Vec<u8>, name: &str, value: &str) -> Result<(), AllocError>
    ensures { OnOk result (out.new.items ≡ out.old.items ++ spec.setting_line name.now value.now) }
{
    out.extend_from_slice(name.as_bytes())?;
    out.push(b'=')?;
    out.extend_from_slice(value.as_bytes())?;
    out.push(b'\n')?;
    Ok(())
}

/// The name and the value of a word `name=value`, cut at the first `=`.
pub fn setting(word: &str) -> Option<(&str, &str)>
    ensures { option_map (λ s. (s.0.now, s.1.now)) result ≡ spec.setting word.now }
{
    word.split_once('=')
}

/// The variables after these settings, one after another; None where a word is no setting.
pub fn with_settings(vars: &Vars, words: &[Text]) -> Result<Option<Vars>, NoMemory>
    ensures { IfOk result (λ after. after ≡ spec.with_settings vars.now words.now) }
{
    let mut after = vars.copy()?;
    for word in words {
        let Some((name, value)) = setting(word.as_str()) else {
            return Ok(None);
        };
        after.set(name, value)?;
    }
    Ok(Some(after))
}
