ghost use Rattle.std.specs.Prelude.{◌≡◌, option_copied};
ghost use Rattle.conf_forms.specs.Values as spec;

use crate::Form;
use keyfile::KeyFile;

/// The value of a key whose values have this form; None where there is none, or where it has
/// another form. It takes no memory.
pub fn value_with_form<'a>(file: &'a KeyFile, form: Form, group: &str, key: &str) -> Option<&'a str>
    ensures { option_copied result ≡ spec.value_with_form file.entry.now form group.now key.now }
{
    match file.get(group, key) {
        Some(value) if form.accepts(value) => Some(value),
        _ => None,
    }
}
