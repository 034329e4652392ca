ghost use Rattle.std.specs.Prelude.{◌≡◌, ◌++◌};
ghost use Rattle.std.specs.Option.{option_copied};
ghost use Rattle.std.specs.Str.{bytes_eq};
ghost use Rattle.boot_state.specs.Orders.{count_of, value};

use boot_model::Vars;
use updater_text::read_number;

// Whether a text is these three, one after another.
fn is_joined(text: &[u8], front: &[u8], name: &[u8], back: &[u8]) -> bool
    ensures { result ≡ bytes_eq text.now (front.now ++ (name.now ++ back.now)) }
{
    let Some(behind) = text.strip_prefix(front) else {
        return false;
    };
    let Some(end) = behind.strip_prefix(name) else {
        return false;
    };
    end == back
}

/// The value of the variable whose name is these three, one after another. It takes no memory, so
/// the name is looked for along all names.
pub fn value_of<'a>(vars: &'a Vars, front: &[u8], name: &[u8], back: &[u8]) -> Option<&'a str>
    ensures { option_copied result ≡ value vars.entry.now (front.now ++ (name.now ++ back.now)) }
{
    for at in 0..vars.len() {
        let variable = vars.name(at)?;
        if is_joined(variable.as_bytes(), front, name, back) {
            return vars.get(variable);
        }
    }
    None
}

/// The number that the value of the variable with this name spells; 0 where it is missing, or spells
/// none. It takes no memory.
pub fn count_in(vars: &Vars, front: &[u8], name: &[u8], back: &[u8]) -> u64
    ensures { result ≡ count_of (value vars.now (front.now ++ (name.now ++ back.now))) }
{
    match value_of(vars, front, name, back) {
        Some(text) => read_number(text.as_bytes()).unwrap_or(0),
        None => 0,
    }
}
