use updater_text::Text;

/// Why a manifest is refused. Groups are named as they stand in the file. The refusals come in this
/// order. Of one kind the first in file order comes, but of missing keys `compatible`, then those of
/// the images in file order, then the file of the hooks.
#[derive(Debug, Drop)]
pub enum ManifestRefusal {
    /// A mandatory key is not there: `compatible` of `[update]`; `filename`, `size` or `sha256` of an
    /// image, unless it has an `install` hook and neither one of them nor `adaptive`; or `filename` of
    /// `[hooks]` where a hook is named.
    Missing { group: Text, key: Text },
    /// A group with this name, where the key is empty, or a key of this name in the group, is not
    /// known. A group that begins with `image.` is not known where no class follows.
    UnknownKey { group: Text, key: Text },
    /// A group (with an empty key) or a key that the real manifest has and this updater does not.
    LeftOut { group: Text, key: Text },
    /// The value of the key does not have its form.
    BadValue { group: Text, key: Text },
    /// The file of the group is no name of a file: it is empty, `.` or `..`, or has a slash.
    BadName { group: Text },
    /// The SHA-256 of the group's image is not 64 hexadecimal digits.
    BadDigest { group: Text },
    /// There is no image.
    NoImages,
    /// There are so many images, which are more than 64.
    TooManyImages { count: u64 },
}
