ghost use Rattle.std.specs.Prelude.{◌≡◌, IfOk, length, map};
ghost use Rattle.updater_text.specs.Answers.{Gives};
ghost use Rattle.keyfile.specs.Groups.{get_in};
ghost use Rattle.slot_status.specs.Books.{record_content, record_contents};
ghost use Rattle.slot_status.specs.Records.{book_of, record_by, record_of, slot_group};

use crate::bundle::read_bundle;
use crate::values::{read_count, read_digest, read_size, read_text};
use crate::{SlotRecord, StatusBook};
use keyfile::{KeyFault, KeyFile, read};
use std::alloc::Global;
use updater_text::{Lack, NoMemory, Text};

/// Reads a status file, as RAUC's manual describes it: a key file with a group `[slot.<name>]` for each
/// slot that has a record. There is one record for each of the names, in their order. A text of more
/// than 1,024 bytes, a digest and a number that cannot be read are as if they were not there, and a
/// count of 2^32 or more is 0. The refusals are those of `keyfile::read`.
pub fn read_book(alloc: Global, names: &[Text], bytes: &[u8]) -> Result<StatusBook, Lack<KeyFault>>
    ensures book { Gives result (book_of names.now bytes.now) }
    ensures count { IfOk result (λ book. length book ≡ length names.now) }
{
    let file = read(alloc, bytes)?;
    match read_records(alloc, &file, names) {
        Ok(records) => Ok(StatusBook::from_records(alloc, records)),
        Err(_) => Err(Lack::NoMemory),
    }
}

fn read_records(alloc: Global, file: &KeyFile, names: &[Text]) -> Result<Vec<SlotRecord>, NoMemory>
    ensures { IfOk result (λ records. record_contents records.items ≡ map (record_of file.now) names.now) }
{
    let mut records = Vec::new(alloc);
    for name in names {
        let record = read_record(alloc, file, name.as_str())?;
        records.push(record)?;
    }
    Ok(records)
}

/// The name of the group of a slot in a status file.
pub fn slot_group(alloc: Global, name: &str) -> Result<Text, NoMemory>
    ensures { IfOk result (λ group. group ≡ slot_group name.now) }
{
    let group = format!(in alloc; "slot.{name}")?;
    Ok(Text::from_string(group))
}

fn read_record(alloc: Global, file: &KeyFile, name: &str) -> Result<SlotRecord, NoMemory>
    ensures { IfOk result (λ r. record_content r ≡ record_of file.now name.now) }
{
    let group = slot_group(alloc, name)?;
    read_group(alloc, file, group.as_str())
}

#[tactic(auto, unfolding(crate::specs::Records::record_by))]
fn read_group(alloc: Global, file: &KeyFile, group: &str) -> Result<SlotRecord, NoMemory>
    ensures { IfOk result (λ r. record_content r ≡ record_by (λ key. get_in file.now group.now key)) }
{
    let bundle = read_bundle(alloc, file, group)?;
    let status = read_text(alloc, file, group, "status")?;
    let installed_time = read_text(alloc, file, group, "installed.timestamp")?;
    let activated_time = read_text(alloc, file, group, "activated.timestamp")?;
    Ok(SlotRecord {
        bundle,
        status,
        digest: read_digest(file, group),
        size: read_size(file, group),
        installed_time,
        installed_count: read_count(file, group, "installed.count"),
        activated_time,
        activated_count: read_count(file, group, "activated.count"),
    })
}
