ghost use Rattle.std.specs.Prelude.{◌≡◌, map};
ghost use Rattle.std.proofs.Props.{props};
ghost use Rattle.conf_forms.specs.SlotNames.{parts, slot_parts};
ghost use Rattle.system_conf.specs.Conflicts.{is_conflict};
ghost use Rattle.system_conf.specs.KeyTable.{system_table};

use crate::conflicts::is_conflict;
use crate::key_table::{form_of, is_left_out_group, is_unknown_group};
use conf_forms::{Form, KeyTable, SlotGroup};
use keyfile::KeyFile;
use std::alloc::Global;
use updater_text::NoMemory;

/// The file of a configuration, with the groups of its slots.
#[derive(Clone, Copy)]
pub struct Reader<'a> {
    pub alloc: Global,
    pub file: &'a KeyFile,
    pub slots: &'a [SlotGroup<'a>],

    pub ghost read: { map parts slots.now ≡ slot_parts file.now } by { Prim.hlevel props },
}

impl KeyTable for Reader<'_> {
    ghost table = { system_table };

    ghost conflict = { λ r. is_conflict r.file.now };

    fn is_unknown_group(&self, group: &str) -> bool {
        is_unknown_group(group)
    }

    fn is_left_out_group(&self, group: &str) -> bool {
        is_left_out_group(group)
    }

    fn form(&self, group: &str, key: &str) -> Option<Form> {
        form_of(group, key)
    }

    fn is_conflict(&self, group: &str, key: &str, value: &str) -> Result<bool, NoMemory> {
        is_conflict(self, group, key, value)
    }
}
