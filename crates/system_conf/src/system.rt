ghost use Rattle.std.specs.Prelude.{◌≡◌, ◌++◌, [], IfOk, OnOk, filter_map, map, position};
ghost use Rattle.std.proofs.Props.{props};
ghost use Rattle.std.specs.List.{cons_option};
ghost use Rattle.std.specs.Str.{bytes_eq};
ghost use Rattle.system_conf.specs.Sound.{IsSound};

use crate::Slot;
use boot_model::BootKind;
use std::alloc::Global;
use updater_text::{Items, NoMemory, Text};

/// The programs that check, mount and unmount a bundle.
#[derive(Debug, Drop)]
pub struct Helpers {
    pub check: Text,
    pub mount: Text,
    pub umount: Text,
}

/// The configuration of a system.
#[derive(Debug, Drop)]
pub struct System {
    /// What the system is called; a bundle for it is called the same.
    pub compatible: Text,
    pub boot: BootKind,
    /// The directory below which bundles are mounted.
    pub mount_prefix: Text,
    /// Where the status of the slots is kept, if anywhere.
    pub status_file: Option<Text>,
    /// Where other data of the updater is kept, if anywhere.
    pub data_directory: Option<Text>,
    /// The programs that run before and after an install.
    pub pre_install: Option<Text>,
    pub post_install: Option<Text>,
    pub helpers: Helpers,
    /// The slots, in file order.
    pub slots: Items<Slot>,

    pub ghost sound: { IsSound (record { compatible = compatible; boot = boot; mount_prefix = mount_prefix; status_file = status_file; data_directory = data_directory; pre_install = pre_install; post_install = post_install; helpers = helpers; slots = slots }) } by { Prim.hlevel props },
}

impl System {
    /// The place of the slot of this name; None where there is none. It takes no memory.
    pub fn slot_named(&self, name: &str) -> Option<usize>
        ensures { result ≡ position (λ s. bytes_eq s.name name.now) self.now.slots }
    {
        let slots = self.slots.as_slice();
        slots.iter().position(|slot| slot.name.as_str() == name)
    }

    /// The names of the slots, in their order.
    pub fn slot_names(&self, alloc: Global) -> Result<Vec<Text>, NoMemory>
        ensures { IfOk result (λ names. names.items ≡ map (λ s. s.name) self.now.slots) }
    {
        let mut names = Vec::new(alloc);
        for slot in self.slots.as_slice() {
            let name = slot.name.copy(alloc)?;
            names.push(name)?;
        }
        Ok(names)
    }

    /// The bootnames of the slots that have one, in the order of the slots.
    pub fn boot_names(&self, alloc: Global) -> Result<Vec<Text>, NoMemory>
        ensures { IfOk result (λ names. names.items ≡ filter_map (λ s. s.bootname) self.now.slots) }
    {
        let mut names = Vec::new(alloc);
        for slot in self.slots.as_slice() {
            push_name(&mut names, alloc, &slot.bootname)?;
        }
        Ok(names)
    }
}

// Puts a name at the end where there is one.
fn push_name(names: &mut Vec<Text>, alloc: Global, name: &Option<Text>) -> Result<(), NoMemory>
    ensures { OnOk result (names.new.items ≡ names.old.items ++ cons_option name.now []) }
{
    if let Some(name) = name {
        names.push(name.copy(alloc)?)?;
    }
    Ok(())
}
