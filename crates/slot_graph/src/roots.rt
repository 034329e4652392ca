ghost use Rattle.std.specs.Prelude.{◌≡◌, ◌<◌, length};
ghost use Rattle.system_conf.specs.Parents.{IsRootOf};
ghost use Rattle.system_conf.specs.Slots.{root_over};

use system_conf::System;

/// The root of the slot at a place: the slot without a parent that its chain of parents leads to. It
/// takes no memory.
pub fn root_of(system: &System, slot: usize) -> usize
    requires { slot < length system.now.slots }
    ensures root { IsRootOf system.now.slots slot result }
    ensures over { result ≡ root_over system.now.slots slot }
{
    system_conf::root_of(system.slots.as_slice(), slot)
}
