//! Which values a message can hold, and where they end.

ghost use Rattle.std.specs.Prelude.{◌≡◌, ◌+◌, ◌*◌, ◌≤◌, ◌^◌, ℕ, Bool, Some, IfSome};
ghost use Rattle.wire_value.specs.Types.{IsType, IsSignature};
ghost use Rattle.wire_value.specs.Standing.{EndsAt, EndsOnlyAt, AllEndAt, AllEndOnlyAt};
ghost use Rattle.wire_value.specs.Checking.{checked, checked_fields};
ghost use Rattle.wire_value.specs.View.{view, views};

use crate::checking::{check, check_fields};
use crate::value::Value;

/// Where a value of one complete type ends that begins at an offset from the message's first byte.
/// None exactly where the grammar does not spell it so, where more than `depth` containers nest in
/// it, or where it ends behind the limit. It takes no memory.
pub fn end_of_value(
    value: &Value,
    kind: &[u8],
    depth: usize,
    offset: usize,
    limit: usize,
) -> Option<usize>
    requires kind { IsType kind.now }
    requires depth { depth ≤ 64 }
    requires near { offset + 300 * depth ≤ 2 ^ 50 }
    requires small { limit ≤ 2 ^ 40 }
    ensures found { EndsAt limit depth kind.now offset (view value.now) result }
    ensures only { EndsOnlyAt limit depth kind.now offset (view value.now) result }
{
    check(value, kind, depth, offset, limit)
}

/// The same of the values of a signature, one after the other, as in a body.
pub fn end_of_values(
    values: &[Value],
    signature: &[u8],
    depth: usize,
    offset: usize,
    limit: usize,
) -> Option<usize>
    requires signature { IsSignature signature.now }
    requires depth { depth ≤ 64 }
    requires near { offset + 300 * depth ≤ 2 ^ 50 }
    requires small { limit ≤ 2 ^ 40 }
    ensures found { AllEndAt limit depth signature.now offset (views values.now) result }
    ensures only { AllEndOnlyAt limit depth signature.now offset (views values.now) result }
{
    check_fields(values, signature, depth, offset, limit)
}
