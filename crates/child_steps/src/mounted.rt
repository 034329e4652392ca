ghost use Rattle.std.specs.Prelude.{◌≡◌, false};
ghost use Rattle.std.proofs.Props.{props};
ghost use Rattle.machine.specs.Spares.{is_boot};

use machine::Child;

/// A bundle that is mounted, with the child that unmounts it. That one is made before the mount, so a
/// bundle that was mounted can be unmounted where memory has run out since.
#[derive(Drop)]
pub struct Mounted {
    pub umount: Child,

    pub ghost helper: { is_boot umount.class ≡ false } by { Prim.hlevel props },
}
