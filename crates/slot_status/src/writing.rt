ghost use Rattle.std.specs.Prelude.{◌≡◌, ◌^◌, IsTrue, OnOk, codes, decimal, nat_lt, option_map, Some, true};
ghost use Rattle.std.specs.Option.{option_map_or};
ghost use Rattle.keyfile.specs.Groups.{is_entry_value, is_key, is_name};
ghost use Rattle.manifest.specs.Reads.{bundle_content};
ghost use Rattle.manifest.specs.Sound.{is_text_if_any};
ghost use Rattle.slot_status.specs.Books.{record_content};
ghost use Rattle.slot_status.specs.Puts.{put_if_any, put_rows};
ghost use Rattle.slot_status.specs.Records.{slot_group};
ghost use Rattle.slot_status.specs.Sound.{is_digest};
ghost use Rattle.slot_status.specs.Texts.{bundle_rows, count_text, digest_text, rows, state_rows, time_rows};

use crate::SlotRecord;
use crate::reading::slot_group;
use keyfile::KeyFile;
use manifest::BundleText;
use std::alloc::Global;
use updater_text::{Digest, NoMemory, Text};

// Gives a key of a group a text, where there is one.
fn put_text(file: &mut KeyFile, group: &str, key: &str, text: &Option<Text>) -> Result<(), NoMemory>
    requires group { IsTrue (is_name group.now) }
    requires key { IsTrue (is_key key.now) }
    requires text { IsTrue (is_text_if_any text.now) }
    ensures { OnOk result (file.new ≡ put_if_any group.now file.old key.now text.now) }
{
    match text {
        Some(text) => file.put(group, key, text.as_str()),
        None => Ok(()),
    }
}

// Gives a key of a group a number, where there is one.
fn put_number(
    alloc: Global,
    file: &mut KeyFile,
    group: &str,
    key: &str,
    number: Option<u64>,
) -> Result<(), NoMemory>
    requires group { IsTrue (is_name group.now) }
    requires key { IsTrue (is_key key.now) }
    requires fits { IsTrue (option_map_or (λ n. nat_lt n (2 ^ 64)) number true) }
    ensures { OnOk result (file.new ≡ put_if_any group.now file.old key.now (option_map decimal number)) }
{
    match number {
        Some(number) => {
            let text = format!(in alloc; "{number}")?;
            file.put(group, key, text.as_str())
        }
        None => Ok(()),
    }
}

// Gives a key of a group a count, where it is above 0.
fn put_count(
    alloc: Global,
    file: &mut KeyFile,
    group: &str,
    key: &str,
    count: u32,
) -> Result<(), NoMemory>
    requires group { IsTrue (is_name group.now) }
    requires key { IsTrue (is_key key.now) }
    ensures { OnOk result (file.new ≡ put_if_any group.now file.old key.now (count_text count)) }
{
    if count == 0 {
        return Ok(());
    }
    put_number(alloc, file, group, key, Some(u64::from(count)))
}

// Gives the key `sha256` of a group a digest, where there is one.
fn put_digest(
    alloc: Global,
    file: &mut KeyFile,
    group: &str,
    digest: Option<Digest>,
) -> Result<(), NoMemory>
    requires group { IsTrue (is_name group.now) }
    requires digest { IsTrue (option_map_or is_digest digest true) }
    ensures { OnOk result (file.new ≡ put_if_any group.now file.old (codes "sha256") (digest_text digest)) }
{
    match digest {
        Some(digest) => {
            let text = digest.hex(alloc)?;
            file.put(group, "sha256", text.as_str())
        }
        None => Ok(()),
    }
}

// Gives the keys of a group what a bundle said of itself, where that is known.
fn put_bundle(file: &mut KeyFile, group: &str, bundle: &Option<BundleText>) -> Result<(), NoMemory>
    requires { IsTrue (is_name group.now) }
    ensures { OnOk result
        (file.new ≡ put_rows group.now file.old (bundle_rows (option_map bundle_content bundle.now))) }
{
    match bundle {
        Some(bundle) => put_bundle_text(file, group, bundle),
        None => Ok(()),
    }
}

fn put_bundle_text(file: &mut KeyFile, group: &str, bundle: &BundleText) -> Result<(), NoMemory>
    requires { IsTrue (is_name group.now) }
    ensures { OnOk result
        (file.new ≡ put_rows group.now file.old (bundle_rows (Some (bundle_content bundle.now)))) }
{
    file.put(group, "bundle.compatible", bundle.compatible.as_str())?;
    put_text(file, group, "bundle.version", &bundle.version)?;
    put_text(file, group, "bundle.description", &bundle.description)?;
    put_text(file, group, "bundle.build", &bundle.build)
}

// Gives the keys of a group the state of a slot, and what is known of its image.
fn put_state(
    alloc: Global,
    file: &mut KeyFile,
    group: &str,
    record: &SlotRecord,
) -> Result<(), NoMemory>
    requires { IsTrue (is_name group.now) }
    ensures { OnOk result
        (file.new ≡ put_rows group.now file.old (state_rows (record_content «record».now))) }
{
    put_text(file, group, "status", &record.status)?;
    put_digest(alloc, file, group, record.digest)?;
    put_number(alloc, file, group, "size", record.size)
}

// Gives the keys of a group when and how often a slot was installed and activated.
fn put_times(
    alloc: Global,
    file: &mut KeyFile,
    group: &str,
    record: &SlotRecord,
) -> Result<(), NoMemory>
    requires { IsTrue (is_name group.now) }
    ensures { OnOk result
        (file.new ≡ put_rows group.now file.old (time_rows (record_content «record».now))) }
{
    put_text(file, group, "installed.timestamp", &record.installed_time)?;
    put_count(
        alloc,
        file,
        group,
        "installed.count",
        record.installed_count,
    )?;
    put_text(file, group, "activated.timestamp", &record.activated_time)?;
    put_count(
        alloc,
        file,
        group,
        "activated.count",
        record.activated_count,
    )
}

/// Gives the keys of the group of the slot of this name what is known of it.
pub fn put_slot(
    alloc: Global,
    file: &mut KeyFile,
    name: &Text,
    record: &SlotRecord,
) -> Result<(), NoMemory>
    requires { IsTrue (is_name (slot_group name.now)) }
    ensures { OnOk result
        (file.new ≡ put_rows (slot_group name.now) file.old (rows (record_content «record».now))) }
{
    let group = slot_group(alloc, name.as_str())?;
    put_bundle(file, group.as_str(), &record.bundle)?;
    put_state(alloc, file, group.as_str(), record)?;
    put_times(alloc, file, group.as_str(), record)
}
