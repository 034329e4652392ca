ghost use Rattle.std.specs.Prelude.{◌≡◌};
ghost use Rattle.boot_state.specs.Orders as orders;
ghost use Rattle.boot_state.specs.Uboot as spec;

use crate::order::has_word;
use crate::variable::count_in;
use boot_model::Vars;

// Whether a name stands in the order.
fn is_ordered(vars: &Vars, name: &[u8]) -> bool
    ensures { result ≡ orders.has_word (spec.order_of vars.now) name.now }
{
    match vars.get("BOOT_ORDER") {
        Some(order) => has_word(order.as_bytes(), name),
        None => false,
    }
}

/// Whether a name has attempts left, and stands in the order.
pub fn is_good(vars: &Vars, name: &[u8]) -> bool
    ensures { result ≡ spec.is_good vars.now name.now }
{
    count_in(vars, b"BOOT_", name, b"_LEFT") > 0 && is_ordered(vars, name)
}
