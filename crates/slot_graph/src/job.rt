/// An image and where it goes: places in the manifest and among the slots.
#[derive(Clone, Copy, Debug, PartialEq, Eq)]
pub struct Job {
    /// The place of the image in the manifest.
    pub image: usize,
    /// The place of the slot that takes it.
    pub slot: usize,
    /// The place of the root over that slot.
    pub root: usize,
}
