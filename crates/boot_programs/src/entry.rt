ghost use Rattle.std.specs.Prelude.{◌≡◌, slice_get};
ghost use Rattle.std.specs.Option.{option_map};
ghost use Rattle.std.specs.FinMap.{entries};

use boot_model::Vars;

/// The name and the value at this place, counted from 0, of the variables in ascending order; None
/// where there are not that many.
pub fn entry_at(vars: &Vars, at: usize) -> Option<(&str, &str)>
    ensures { option_map (λ e. (e.0.now, e.1.now)) result ≡ slice_get (entries vars.now) at }
{
    let name = vars.name(at)?;
    let value = vars.get(name)?;
    Some((name, value))
}
