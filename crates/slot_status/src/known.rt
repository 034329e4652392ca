ghost use Rattle.std.specs.Prelude.{◌≡◌, ◌||◌, is_some, nat_lt};
ghost use Rattle.slot_status.specs.Books.{record_content};
ghost use Rattle.slot_status.specs.Records.{is_known};

use crate::SlotRecord;

impl SlotRecord {
    /// Whether anything is known of the slot: a value, or a count above 0. It takes no memory.
    pub fn is_known(&self) -> bool
        ensures { result ≡ is_known (record_content self.now) }
    {
        self.has_image_values() || self.has_times()
    }

    // What it was installed from, or its state.
    fn has_image_values(&self) -> bool
        ensures { result ≡ (is_some self.now.bundle || (is_some self.now.status || (is_some self.now.digest || is_some self.now.size))) }
    {
        self.bundle.is_some()
            || self.status.is_some()
            || self.digest.is_some()
            || self.size.is_some()
    }

    // When or how often it was installed or activated.
    fn has_times(&self) -> bool
        ensures { result ≡ ((is_some self.now.installed_time || nat_lt 0 self.now.installed_count) || (is_some self.now.activated_time || nat_lt 0 self.now.activated_count)) }
    {
        self.installed_time.is_some()
            || self.installed_count > 0
            || self.activated_time.is_some()
            || self.activated_count > 0
    }
}
