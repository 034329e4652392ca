use boot_backends::BootRefusal;
use slot_status::StatusRefusal;
use updater_text::Text;

/// Why a slot is not marked.
#[derive(Debug, Drop)]
pub enum MarkRefusal {
    /// No slot of the configuration has this name; or the booted slot or the other one was asked for,
    /// and it is not known which slot is booted, or none is.
    NoSuchSlot { text: Text },
    /// There is no other root of the booted one's class that has a bootname.
    NoOther,
    /// There are so many of them.
    ManyOther { count: u64 },
    /// The slot at this place has no bootname.
    NoBootName { slot: usize },
    /// The status file cannot note that the slot was activated.
    Status(StatusRefusal),
    /// The programs of the boot loader did not mark its bootname.
    Boot(BootRefusal),
}
