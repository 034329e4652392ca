ghost use Rattle.std.specs.Prelude.{◌≡◌};
ghost use Rattle.system_conf.specs.Slots.{name_at, word_of};

use updater_text::Text;

/// What a slot holds.
#[derive(Debug, Drop)]
pub enum SlotKind {
    Raw,
    Ext4,
    Vfat,
    /// A type that is known and not written to, with its word.
    Unwritten(Text),
}

impl SlotKind {
    /// The configured word of the type. It takes no memory.
    pub fn word(&self) -> &str
        ensures { result.now ≡ word_of self.now }
    {
        match self {
            SlotKind::Raw => "raw",
            SlotKind::Ext4 => "ext4",
            SlotKind::Vfat => "vfat",
            SlotKind::Unwritten(word) => word.as_str(),
        }
    }
}

/// A device or partition that an image can be written to.
#[derive(Debug, Drop)]
pub struct Slot {
    /// `<class>.<index>`.
    pub name: Text,
    /// Slots of one class take the same images.
    pub class: Text,
    pub index: u32,
    /// The path of the device.
    pub device: Text,
    pub kind: SlotKind,
    /// What the boot loader calls it.
    pub bootname: Option<Text>,
    /// The place of the slot that it belongs to.
    pub parent: Option<usize>,
    /// Whether an image's hook may write to it while it is mounted.
    pub allow_mounted: bool,
    /// Whether no image is written to it.
    pub readonly: bool,
    /// Whether an image is written also where it is there already.
    pub install_same: bool,
}

/// The name of the slot at a place among these; empty where there is none. It takes no memory.
pub fn name_at(slots: &[Slot], at: usize) -> &str
    ensures { result.now ≡ name_at slots.now at }
{
    match slots.get(at) {
        Some(slot) => slot.name.as_str(),
        None => "",
    }
}
