ghost use Rattle.std.specs.Prelude.{◌≡◌};
ghost use Rattle.std.specs.Option.{option_copied};
ghost use Rattle.boot_state.specs.Barebox as spec;

use crate::variable::count_in;
use boot_model::Vars;
use updater_text::Text;

/// The priority of a name; one that is missing or no number counts as 0. It takes no memory.
pub fn priority_of(vars: &Vars, name: &[u8]) -> u64
    ensures { result ≡ spec.priority_of vars.now name.now }
{
    count_in(vars, b"bootstate.", name, b".priority")
}

fn attempts_of(vars: &Vars, name: &[u8]) -> u64
    ensures { result ≡ spec.attempts_of vars.now name.now }
{
    count_in(vars, b"bootstate.", name, b".remaining_attempts")
}

/// Whether a name has a priority, and attempts remain to it.
pub fn is_good(vars: &Vars, name: &[u8]) -> bool
    ensures { result ≡ spec.is_good vars.now name.now }
{
    priority_of(vars, name) > 0 && attempts_of(vars, name) > 0
}

// Whether a name takes the place of the best so far.
fn is_better(vars: &Vars, best: Option<&[u8]>, name: &[u8]) -> bool
    ensures { result ≡ spec.is_better vars.now (option_copied best.entry) name.now }
{
    match best {
        Some(best) => is_good(vars, name) && priority_of(vars, best) < priority_of(vars, name),
        None => is_good(vars, name),
    }
}

// The best of the names so far, with one more.
fn best_with<'a>(vars: &Vars, best: Option<&'a [u8]>, name: &'a [u8]) -> Option<&'a [u8]>
    ensures { option_copied result ≡ spec.best_with vars.now (option_copied best.entry) name.entry.now }
{
    if is_better(vars, best, name) {
        Some(name)
    } else {
        best
    }
}

/// The good name of the highest priority, of equals the first.
pub fn primary<'a>(vars: &Vars, names: &'a [Text]) -> Option<&'a [u8]>
    ensures { option_copied result ≡ spec.primary vars.now names.entry.now }
{
    let mut best = None;
    for name in names {
        best = best_with(vars, best, name.as_bytes());
    }
    best
}
