ghost use Rattle.install_safety.specs.Lists.{ListsAreSafe};

/// However far the list of an install was done, and wherever the power stops, inside a write or a
/// child too: a target is booted next, once a write was begun, only while each slot that RAUC alone
/// writes begins with its image, where the programs of the boot loader are honest; and what the status
/// file says of the slots is true.
pub fn lists_are_safe()
    ensures { ListsAreSafe }
{}
