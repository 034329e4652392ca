ghost use Rattle.std.specs.Prelude.{IsTrue};
ghost use Rattle.std.proofs.Props.{props};
ghost use Rattle.slot_status.specs.Sound.{are_values};

use manifest::BundleText;
use updater_text::{Digest, Text};

/// What is known of a slot. Each text has at most 1,024 bytes; of those below 32 it has tabs, line
/// feeds and carriage returns alone.
#[derive(Debug, Drop)]
pub struct SlotRecord {
    /// What the bundle that the slot was last installed from says of itself.
    pub bundle: Option<BundleText>,
    /// `ok`, or `update` where an update began that has not ended well.
    pub status: Option<Text>,
    /// The SHA-256 of the image that was installed.
    pub digest: Option<Digest>,
    /// The length in bytes of that image.
    pub size: Option<u64>,
    /// When the slot was last installed, as `YYYY-MM-DDThh:mm:ssZ`.
    pub installed_time: Option<Text>,
    /// How often it was installed.
    pub installed_count: u32,
    /// When it was last made the one to boot from.
    pub activated_time: Option<Text>,
    /// How often it was.
    pub activated_count: u32,

    pub ghost formed: { IsTrue (are_values status digest size installed_time installed_count activated_time activated_count) } by { Prim.hlevel props },
}
