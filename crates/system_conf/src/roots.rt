ghost use Rattle.std.specs.Prelude.{◌≡◌};
ghost use Rattle.system_conf.specs.Parents.{HasRoot, IsRootOf};
ghost use Rattle.system_conf.specs.Slots.{chain_ends, parent_at, root_over};

use crate::Slot;

// The parent of the slot at a place.
fn parent_at(slots: &[Slot], at: usize) -> Option<usize>
    ensures { result ≡ parent_at slots.now at }
{
    match slots.get(at) {
        Some(slot) => slot.parent,
        None => None,
    }
}

// Where the chain of parents of the slot at a place ends.
fn chain_end(slots: &[Slot], slot: usize) -> usize
    ensures { result ≡ root_over slots.now slot }
{
    let mut at = slot;
    let mut left = slots.len();
    while left > 0 {
        match parent_at(slots, at) {
            Some(parent) => at = parent,
            None => return at,
        }
        left -= 1;
    }
    at
}

/// The root of the slot at a place: the slot without a parent that its chain of parents leads to. Where
/// the chain does not end, it is some slot of the chain. It takes no memory.
pub fn root_of(slots: &[Slot], at: usize) -> usize
    ensures over { result ≡ root_over slots.now at }
    ensures root { HasRoot slots.now at → IsRootOf slots.now at result }
{
    chain_end(slots, at)
}

/// Whether the chain of parents of the slot at a place ends.
pub fn chain_ends(slots: &[Slot], at: usize) -> bool
    ensures { result ≡ chain_ends slots.now at }
{
    parent_at(slots, chain_end(slots, at)).is_none()
}
