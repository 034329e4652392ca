ghost use Rattle.std.specs.Prelude.{◌≡◌, ◌≤◌, [], ◌∷◌, false, IfOk, IsTrue, OnErr, OnOk, length, map, option_copied, option_map, slice_get, string_bytes};
ghost use Rattle.std.specs.List.{IsDistinct};
ghost use Rattle.std.specs.Str.{bytes_eq};
ghost use Rattle.keyfile.specs.Canonical.{canonical};
ghost use Rattle.keyfile.specs.Groups.{entries_in, entry_at, get_in, has_group, is_key, is_key_file, is_name, is_entry_value, key_count, may_be_put, with_group, group_place, put_at, put_in};
ghost use Rattle.keyfile.specs.Reading.{read_of};

use crate::writing::write_groups;
use indexmap::IndexMap;
use std::alloc::{AllocError, Global};
use std::marker::Model;
use updater_text::NoMemory;

type Entries = IndexMap<String, String>;

/// The groups of a key file in their order, each with its keys and values in theirs. Contracts see
/// it as the list of these.
#[derive(Drop)]
pub struct KeyFile {
    alloc: Global,
    groups: IndexMap<String, Entries>,
}

impl Model for KeyFile {
    ghost use Rattle.std.specs.Prelude.{◌≡◌, ℕ, List, true};
    ghost use Rattle.keyfile.specs.Groups.{groups_in, is_key_file};

    ghost Value = { List (List ℕ × List (List ℕ × List ℕ)) };

    ghost view = { λ f. groups_in f.groups.entries };

    ghost invariant = { λ f. is_key_file (groups_in f.groups.entries) ≡ true };
}

impl KeyFile {
    /// A key file with no group.
    pub fn new(alloc: Global) -> Result<KeyFile, NoMemory>
        ensures { IfOk result (λ f. f ≡ []) }
    {
        Ok(KeyFile {
            alloc,
            groups: IndexMap::new(alloc),
        })
    }

    /// The value of a key of a group; None where there is none. It takes no memory.
    pub fn get(&self, group: &str, key: &str) -> Option<&str>
        ensures { option_copied result ≡ get_in self.now group.now key.now }
    {
        let value = self.groups.get(group)?.get(key)?;
        Some(value.as_str())
    }

    /// How many groups there are. Their names differ.
    pub fn groups(&self) -> usize
        ensures count { result ≡ length self.now }
        ensures differ { IsDistinct bytes_eq (map (λ g. g.0) self.now) }
    {
        self.groups.as_slice().len()
    }

    /// The name of the group at a place, counted from 0; None where there is none.
    pub fn group(&self, at: usize) -> Option<&str>
        ensures { option_copied result ≡ option_map (λ g. g.0) (slice_get self.now at) }
    {
        let (name, _) = self.groups.get_index(at)?;
        Some(name.as_str())
    }

    /// The key at a place of the group at a place, both counted from 0; None where there is none.
    pub fn key(&self, group: usize, at: usize) -> Option<&str>
        ensures { option_copied result ≡ option_map (λ e. e.0) (entry_at self.now group at) }
    {
        let (_, entries) = self.groups.get_index(group)?;
        let (key, _) = entries.get_index(at)?;
        Some(key.as_str())
    }

    /// The value of the key at such a place; None where there is none.
    pub fn value(&self, group: usize, at: usize) -> Option<&str>
        ensures { option_copied result ≡ option_map (λ e. e.1) (entry_at self.now group at) }
    {
        let (_, entries) = self.groups.get_index(group)?;
        let (_, value) = entries.get_index(at)?;
        Some(value.as_str())
    }

    /// How many keys the group at a place has, counted from 0; none where there is no such group.
    pub fn keys(&self, group: usize) -> usize
        ensures { result ≡ key_count self.now group }
    {
        match self.groups.get_index(group) {
            Some((_, entries)) => entries.len(),
            None => 0,
        }
    }

    /// Gives a key of a group a value. A new group or key goes last, and a present key keeps its place.
    /// Out of memory, it leaves the file as it is.
    pub fn put(&mut self, group: &str, key: &str, value: &str) -> Result<(), NoMemory>
        requires { IsTrue (may_be_put group.now key.now value.now) }
        ensures ok { OnOk result (self.new ≡ put_in self.old group.now key.now value.now) }
        ensures err { OnErr result (self.new ≡ self.old) }
    {
        let value = String::from_str(self.alloc, value)?;
        match self.groups.get_index_of(group) {
            Some(at) => self.put_at(at, key, value),
            None => self.push_group(group, key, value),
        }
    }

    /// The text of the key file: for each group `[name]` and for each of its keys `key=value`, with an
    /// empty line between each two groups. In a value each space of the leading run is written `\s`,
    /// and each line feed, tab, carriage return and backslash `\n`, `\t`, `\r` and `\\`.
    pub fn write(&self) -> Result<Vec<u8>, NoMemory>
        ensures canonical { IfOk result (λ text. text.items ≡ canonical self.now) }
        ensures reads_back { IfOk result (λ text. length text.items ≤ 1048576 → read_of text.items ≡ Ok self.now) }
    {
        let mut text = Vec::new(self.alloc);
        write_groups(&mut text, &self.groups)?;
        Ok(text)
    }

    /// Names of groups, keys and values have their forms, and no name and no key of a group comes
    /// twice; so the text that `write` gives is read as this key file again, where `read` takes one so
    /// long. The call does nothing: it is there for this promise.
    pub fn reads_back(&self)
        ensures form { IsTrue (is_key_file self.now) }
        ensures law { length (canonical self.now) ≤ 1048576 → read_of (canonical self.now) ≡ Ok self.now }
    {
        let _ = &self.groups;
    }

    // Puts a new group with one key at the end.
    fn push_group(&mut self, group: &str, key: &str, value: String) -> Result<(), NoMemory>
        requires new { has_group self.old group.now ≡ false }
        requires fits { IsTrue (may_be_put group.now key.now (string_bytes value)) }
        ensures ok { OnOk result (self.new ≡ put_in self.old group.now key.now (string_bytes value)) }
        ensures err { OnErr result (self.new ≡ self.old) }
    {
        let entries = one_entry(self.alloc, key, value)?;
        let name = String::from_str(self.alloc, group)?;
        self.groups.insert(name, entries)?;
        Ok(())
    }

    // The place of the group of this name, which goes last where it is new.
    pub(crate) fn open(&mut self, name: &str) -> Result<usize, NoMemory>
        requires { IsTrue (is_name name.now) }
        ensures with_group { OnOk result (self.new ≡ with_group self.old name.now) }
        ensures place { IfOk result (λ at. at ≡ group_place self.old name.now) }
        ensures err { OnErr result (self.new ≡ self.old) }
    {
        if let Some(at) = self.groups.get_index_of(name) {
            return Ok(at);
        }
        let name = String::from_str(self.alloc, name)?;
        let at = self.groups.len();
        self.groups.insert(name, IndexMap::new(self.alloc))?;
        Ok(at)
    }

    // Gives a key of the group at a place a value, where a group is there.
    pub(crate) fn put_at(&mut self, at: usize, key: &str, value: String) -> Result<(), NoMemory>
        requires key { IsTrue (is_key key.now) }
        requires value { IsTrue (is_entry_value (string_bytes value)) }
        ensures ok { OnOk result (self.new ≡ put_at self.old at key.now (string_bytes value)) }
        ensures err { OnErr result (self.new ≡ self.old) }
    {
        let name = String::from_str(self.alloc, key)?;
        let Some(entries) = self.groups.get_index_mut(at) else {
            return Ok(());
        };
        entries.insert(name, value)?;
        Ok(())
    }
}

// A map with one entry.
fn one_entry(alloc: Global, key: &str, value: String) -> Result<Entries, AllocError>
    ensures { IfOk result (λ m. entries_in m.entries ≡ (key.now, string_bytes value) ∷ []) }
{
    let key = String::from_str(alloc, key)?;
    let mut entries = IndexMap::new(alloc);
    entries.insert(key, value)?;
    Ok(entries)
}
