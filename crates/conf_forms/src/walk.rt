ghost use Rattle.std.specs.Prelude.{◌≡◌, IfOk, option_and_then, option_map, slice_get};
ghost use Rattle.conf_forms.specs.Lists.{first_of};
ghost use Rattle.conf_forms.specs.Searches as sought;
ghost use Rattle.conf_forms.specs.Walks as spec;

use crate::KeyTable;
use keyfile::KeyFile;
use std::alloc::Global;
use updater_text::{NoMemory, Text};

/// A group, with an empty key, or a key of it.
#[derive(Clone, Copy)]
pub struct KeyPlace<'a> {
    pub group: &'a str,
    pub key: &'a str,
}

impl KeyPlace<'_> {
    /// Copies of the group's name and of the key.
    pub fn copy(&self, alloc: Global) -> Result<(Text, Text), NoMemory>
        ensures { IfOk result (λ texts. texts ≡ spec.place_texts self.now) }
    {
        let group = Text::new(alloc, self.group)?;
        let key = Text::new(alloc, self.key)?;
        Ok((group, key))
    }
}

// What is looked for along the groups and keys of a file.
#[derive(Clone, Copy)]
enum Search {
    // A group or key that is not known.
    Unknown,
    // A group, key or value that is left out.
    LeftOut,
    // A value that does not have its form, or conflicts with what else the file says.
    Bad,
}

/// The key of a group, where it has no value. It takes no memory.
pub fn missing_key<'a>(file: &KeyFile, group: &'a str, key: &'a str) -> Option<KeyPlace<'a>>
    ensures { option_map spec.place_texts result ≡ spec.missing_key file.now (group.entry.now, key.entry.now) }
{
    if file.get(group, key).is_some() {
        None
    } else {
        Some(KeyPlace { group, key })
    }
}

/// The first group or key, in file order, that the table does not know.
pub fn first_unknown<'a, T: KeyTable>(
    table: &T,
    file: &'a KeyFile,
) -> Result<Option<KeyPlace<'a>>, NoMemory>
    ensures { IfOk result (λ found. option_map spec.place_texts found ≡ spec.first_unknown T.table file.entry.now) }
{
    first_place(table, file, Search::Unknown)
}

/// The first group, key or value, in file order, that is left out.
pub fn first_left_out<'a, T: KeyTable>(
    table: &T,
    file: &'a KeyFile,
) -> Result<Option<KeyPlace<'a>>, NoMemory>
    ensures { IfOk result (λ found. option_map spec.place_texts found ≡ spec.first_left_out T.table file.entry.now) }
{
    first_place(table, file, Search::LeftOut)
}

/// The first value, in file order, that does not have its form, or conflicts with what else the file
/// says.
pub fn first_bad<'a, T: KeyTable>(
    table: &T,
    file: &'a KeyFile,
) -> Result<Option<KeyPlace<'a>>, NoMemory>
    ensures { IfOk result (λ found. option_map spec.place_texts found ≡ spec.first_bad T.table (T.conflict table.now) file.entry.now) }
{
    first_place(table, file, Search::Bad)
}

// The first place of which it holds.
fn first_place<'a, T: KeyTable>(
    table: &T,
    file: &'a KeyFile,
    search: Search,
) -> Result<Option<KeyPlace<'a>>, NoMemory>
    ensures { IfOk result (λ found. option_map spec.place_texts found ≡ spec.first_along (sought.in_group T.table search) (sought.in_entry T.table (T.conflict table.now) search) file.entry.now) }
{
    for at in 0..file.groups() {
        if let Some(found) = place_in(table, file, search, at)? {
            return Ok(Some(found));
        }
    }
    Ok(None)
}

// The first place in the group at a place.
fn place_in<'a, T: KeyTable>(
    table: &T,
    file: &'a KeyFile,
    search: Search,
    at: usize,
) -> Result<Option<KeyPlace<'a>>, NoMemory>
    ensures { IfOk result (λ found. option_map spec.place_texts found ≡ option_and_then (spec.first_in (sought.in_group T.table search) (sought.in_entry T.table (T.conflict table.now) search)) (slice_get file.entry.now at)) }
{
    let Some(group) = file.group(at) else {
        return Ok(None);
    };
    if is_in_group(table, search, group) {
        return Ok(Some(KeyPlace { group, key: "" }));
    }
    key_in(table, file, search, at, group)
}

// The first key of the group at a place.
fn key_in<'a, T: KeyTable>(
    table: &T,
    file: &'a KeyFile,
    search: Search,
    at: usize,
    group: &'a str,
) -> Result<Option<KeyPlace<'a>>, NoMemory>
    ensures { IfOk result (λ found. option_map spec.place_texts found ≡ first_of (spec.key_if (sought.in_entry T.table (T.conflict table.now) search) group.entry.now) (sought.entries_at file.entry.now at)) }
{
    for number in 0..file.keys(at) {
        let entry = entry_at(file, at, number);
        if let Some(found) = key_if(table, search, group, entry)? {
            return Ok(Some(found));
        }
    }
    Ok(None)
}

// The key of an entry of a group, where there is one and it holds of it.
fn key_if<'a, T: KeyTable>(
    table: &T,
    search: Search,
    group: &'a str,
    entry: Option<(&'a str, &'a str)>,
) -> Result<Option<KeyPlace<'a>>, NoMemory>
    ensures { IfOk result (λ found. option_map spec.place_texts found ≡ option_and_then (spec.key_if (sought.in_entry T.table (T.conflict table.now) search) group.entry.now) (option_map (λ e. (e.0.now, e.1.now)) entry.entry)) }
{
    let Some((key, value)) = entry else {
        return Ok(None);
    };
    if is_in_entry(table, search, group, key, value)? {
        Ok(Some(KeyPlace { group, key }))
    } else {
        Ok(None)
    }
}

fn entry_at(file: &KeyFile, at: usize, number: usize) -> Option<(&str, &str)>
    ensures { option_map (λ e. (e.0.now, e.1.now)) result ≡ slice_get (sought.entries_at file.entry.now at) number }
{
    let key = file.key(at, number)?;
    let value = file.value(at, number)?;
    Some((key, value))
}

// Whether it holds of a group itself.
fn is_in_group<T: KeyTable>(table: &T, search: Search, group: &str) -> bool
    ensures { result ≡ sought.in_group T.table search group.now }
{
    match search {
        Search::Unknown => table.is_unknown_group(group),
        Search::LeftOut => table.is_left_out_group(group),
        Search::Bad => false,
    }
}

// Whether it holds of a key of a group.
fn is_in_entry<T: KeyTable>(
    table: &T,
    search: Search,
    group: &str,
    key: &str,
    value: &str,
) -> Result<bool, NoMemory>
    ensures { IfOk result (λ b. b ≡ sought.in_entry T.table (T.conflict table.now) search group.now (key.now, value.now)) }
{
    match search {
        Search::Unknown => Ok(table.form(group, key).is_none()),
        Search::LeftOut => Ok(is_left_out(table, group, key, value)),
        Search::Bad if is_misformed(table, group, key, value) => Ok(true),
        Search::Bad => table.is_conflict(group, key, value),
    }
}

fn is_left_out<T: KeyTable>(table: &T, group: &str, key: &str, value: &str) -> bool
    ensures { result ≡ spec.is_left_out_entry T.table group.now (key.now, value.now) }
{
    match table.form(group, key) {
        Some(form) => form.is_left_out(value),
        None => false,
    }
}

// Whether the value of a known key does not have its form.
fn is_misformed<T: KeyTable>(table: &T, group: &str, key: &str, value: &str) -> bool
    ensures { result ≡ spec.is_misformed T.table group.now (key.now, value.now) }
{
    match table.form(group, key) {
        Some(form) => !form.accepts(value),
        None => false,
    }
}
