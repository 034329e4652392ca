use manifest::Manifest;
use slot_graph::{Booted, Job, SlotState};
use slot_status::StatusBook;
use updater_text::Items;

/// What an install goes by, as it was before the first change.
#[derive(Drop)]
pub struct Facts {
    pub booted: Booted,
    /// The state of each slot.
    pub states: Items<SlotState>,
    pub manifest: Manifest,
    /// Which slot each image goes to, in the order of the manifest.
    pub jobs: Items<Job>,
    /// Of each job, whether its image is in its slot already and is to be left there.
    pub skipped: Items<bool>,
    /// A record of each slot, by the status file.
    pub book: StatusBook,
    /// The status file is there and cannot be read.
    pub book_unread: bool,
    /// Seconds since 1970, where there is a status file.
    pub now: Option<i64>,
}
