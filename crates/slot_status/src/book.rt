ghost use Rattle.std.specs.Prelude.{◌≡◌, ◌<◌, ◌≤◌, IfOk, IsTrue, Ok, OnErr, OnOk, length, option_copied, replicate};
ghost use Rattle.updater_text.specs.Answers.{Gives};
ghost use Rattle.manifest.specs.Reads.{bundle_content};
ghost use Rattle.slot_status.specs.Books.{record_content, record_contents};
ghost use Rattle.slot_status.specs.Changes.{activated, begun, finished};
ghost use Rattle.slot_status.specs.Records.{book_of, no_record, record_at};
ghost use Rattle.slot_status.specs.Refusals.{activate_refusal, finish_refusal, ready_refusal, unless_refused};
ghost use Rattle.slot_status.specs.Texts.{are_slot_names, book_text};

use crate::refusal::refusal_of;
use crate::time::time_text;
use crate::writing::put_slot;
use crate::{SlotRecord, StatusRefusal};
use keyfile::KeyFile;
use manifest::{BundleText, ImageFile};
use std::alloc::Global;
use std::marker::Model;
use updater_text::{Lack, NoMemory, Text};

/// The records of all slots, in the order of the slots. Contracts see it as the list of what they
/// hold.
#[derive(Drop)]
pub struct StatusBook {
    alloc: Global,
    records: Vec<SlotRecord>,
}

impl Model for StatusBook {
    ghost use Rattle.std.specs.Prelude.{List};
    ghost use Rattle.slot_status.specs.Books.{record_contents};
    ghost use Rattle.slot_status.specs.Records.{RecordContent};

    ghost Value = { List RecordContent };

    ghost view = { λ b. record_contents b.records.items };
}

impl StatusBook {
    /// A book of so many slots of which nothing is known.
    pub fn empty(alloc: Global, slots: usize) -> Result<StatusBook, NoMemory>
        ensures { IfOk result (λ book. book ≡ replicate slots no_record) }
    {
        let mut records = Vec::new(alloc);
        for _ in 0..slots {
            records.push(blank_record())?;
        }
        Ok(StatusBook { alloc, records })
    }

    // The book of these records.
    pub(crate) fn from_records(alloc: Global, records: Vec<SlotRecord>) -> StatusBook
        ensures { result ≡ record_contents records.items }
    {
        StatusBook { alloc, records }
    }

    /// How many slots the book has. It takes no memory.
    pub fn len(&self) -> usize
        ensures { result ≡ length self.now }
    {
        self.records.len()
    }

    /// The record of the slot at this place. It takes no memory.
    pub fn slot_record(&self, slot: usize) -> &SlotRecord
        requires { slot < length self.now }
        ensures { record_content result.now ≡ record_at self.now slot }
    {
        &self.records[slot]
    }

    /// Whether the slot at this place can be installed and activated at a time, which is told in seconds
    /// since 1970: `ClockRange` where that is below 0 or above 253402300799, and then `CountEnd` where
    /// one of the slot's counts is 4294967295. It takes no memory.
    pub fn ready(&self, slot: usize, now: i64) -> Result<(), StatusRefusal>
        requires { slot < length self.now }
        ensures { result ≡ unless_refused (ready_refusal self.now slot now) }
    {
        let installed = self.slot_record(slot).installed_count;
        let activated = self.slot_record(slot).activated_count;
        match refusal_of(slot, now, installed == u32::MAX || activated == u32::MAX) {
            Some(why) => Err(why),
            None => Ok(()),
        }
    }

    /// Gives the slot at this place the status `update`, and leaves all else as it is. Out of memory, it
    /// leaves the book as it is.
    pub fn begin(&mut self, slot: usize) -> Result<(), NoMemory>
        requires { slot < length self.old }
        ensures ok { OnOk result (self.new ≡ begun slot self.old) }
        ensures err { OnErr result (self.new ≡ self.old) }
        ensures count { length self.new ≡ length self.old }
    {
        let update = Text::new(self.alloc, "update")?;
        self.records[slot].begin(update);
        Ok(())
    }

    /// Notes that the slot at this place was installed: what the bundle says of itself, the status `ok`,
    /// the digest and the size of the image's file, or none where a hook installed it, the time in
    /// seconds since 1970, and a count of installs that is one higher. `ClockRange` where the time is
    /// below 0 or above 253402300799, and then `CountEnd` where that count is 4294967295. Refused or out
    /// of memory, it leaves the book as it is.
    pub fn finish(
        &mut self,
        slot: usize,
        bundle: &BundleText,
        file: Option<&ImageFile>,
        now: i64,
    ) -> Result<(), Lack<StatusRefusal>>
        requires { slot < length self.old }
        ensures answer { Gives result (unless_refused (finish_refusal self.old slot now)) }
        ensures ok { OnOk result
            (self.new ≡ finished slot (bundle_content bundle.now) (option_copied file.entry) now self.old) }
        ensures err { OnErr result (self.new ≡ self.old) }
        ensures count { length self.new ≡ length self.old }
    {
        let ended = self.slot_record(slot).installed_count == u32::MAX;
        if let Some(why) = refusal_of(slot, now, ended) {
            return Err(Lack::Refused(why));
        }
        let bundle = bundle.copy(self.alloc)?;
        let ok = Text::new(self.alloc, "ok")?;
        let time = time_text(self.alloc, now.unsigned_abs())?;
        self.records[slot].finish(bundle, ok, file, time);
        Ok(())
    }

    /// Notes that the slot at this place was made the one to boot from: the time in seconds since 1970,
    /// and a count of activations that is one higher. `ClockRange` where the time is below 0 or above
    /// 253402300799, and then `CountEnd` where that count is 4294967295. Refused or out of memory, it
    /// leaves the book as it is.
    pub fn activate(&mut self, slot: usize, now: i64) -> Result<(), Lack<StatusRefusal>>
        requires { slot < length self.old }
        ensures answer { Gives result (unless_refused (activate_refusal self.old slot now)) }
        ensures ok { OnOk result (self.new ≡ activated slot now self.old) }
        ensures err { OnErr result (self.new ≡ self.old) }
        ensures count { length self.new ≡ length self.old }
    {
        let ended = self.slot_record(slot).activated_count == u32::MAX;
        if let Some(why) = refusal_of(slot, now, ended) {
            return Err(Lack::Refused(why));
        }
        let time = time_text(self.alloc, now.unsigned_abs())?;
        self.records[slot].activate(time);
        Ok(())
    }

    /// The text of the status file, as `read_book` reads it: a group `[slot.<name>]` for each slot of which
    /// anything is known, with its keys in this order: `bundle.compatible`, `bundle.version`,
    /// `bundle.description`, `bundle.build`, `status`, `sha256`, `size`, `installed.timestamp`,
    /// `installed.count`, `activated.timestamp`, `activated.count`. A count of 0 is not written. The text
    /// of 64 slots is short enough to be read again. The only error is out of memory.
    pub fn text(&self, names: &[Text]) -> Result<Vec<u8>, NoMemory>
        requires count { length names.now ≡ length self.now }
        requires names { IsTrue (are_slot_names names.now) }
        ensures text { IfOk result (λ text. text.items ≡ book_text names.now self.now) }
        ensures short { IfOk result (λ text. length names.now ≤ 64 → length text.items ≤ 1048576) }
        ensures reads_back { IfOk result
            (λ text. length text.items ≤ 1048576 → book_of names.now text.items ≡ Ok self.now) }
    {
        let mut file = KeyFile::new(self.alloc)?;
        for slot in 0..names.len() {
            put_slot(self.alloc, &mut file, &names[slot], &self.records[slot])?;
        }
        file.write()
    }
}

// The record of a slot of which nothing is known.
fn blank_record() -> SlotRecord
    ensures { record_content result ≡ no_record }
{
    SlotRecord {
        bundle: None,
        status: None,
        digest: None,
        size: None,
        installed_time: None,
        installed_count: 0,
        activated_time: None,
        activated_count: 0,
    }
}
