ghost use Rattle.std.specs.Prelude.{◌≡◌};
ghost use Rattle.boot_state.specs.Grub as spec;

use crate::variable::count_in;
use boot_model::Vars;

/// Whether a name works, and is not being tried.
pub fn is_good(vars: &Vars, name: &[u8]) -> bool
    ensures { result ≡ spec.is_good vars.now name.now }
{
    count_in(vars, b"", name, b"_OK") == 1 && count_in(vars, b"", name, b"_TRY") == 0
}
