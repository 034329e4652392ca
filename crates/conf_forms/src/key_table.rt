ghost use Rattle.std.specs.Prelude.{◌≡◌, Bool, IfOk};
ghost use Rattle.keyfile.specs.Groups.{Entry, Text as Bytes};
ghost use Rattle.conf_forms.specs.Tables.{Table, form_of};
ghost use Rattle.conf_forms.specs.Walks.{is_left_out_group, is_unknown_group};

use crate::Form;
use updater_text::NoMemory;

/// The groups and keys that a kind of key file may have, and what holds of their values beyond their
/// forms.
pub trait KeyTable {
    /// The groups, their keys and the forms of these.
    ghost table: { Table };

    /// The value of a key of a group conflicts with what else the file says.
    ghost conflict: { Self → Bytes → Entry → Bool };

    /// Whether no group of this name is known.
    fn is_unknown_group(&self, group: &str) -> bool
        ensures { result ≡ is_unknown_group table group.now };

    /// Whether the group of this name is left out.
    fn is_left_out_group(&self, group: &str) -> bool
        ensures { result ≡ is_left_out_group table group.now };

    /// The form of the values of a key of the group of this name; None where the key is not known
    /// there.
    fn form(&self, group: &str, key: &str) -> Option<Form>
        ensures { result ≡ form_of table group.now key.now };

    /// Whether the value conflicts with what else the file says.
    fn is_conflict(&self, group: &str, key: &str, value: &str) -> Result<bool, NoMemory>
        ensures { IfOk result (λ b. b ≡ conflict self.now group.now (key.now, value.now)) };
}
