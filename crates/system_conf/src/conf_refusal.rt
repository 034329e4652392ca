use updater_text::Text;

/// Why a configuration is refused. Groups are named as they stand in the file, slots without
/// `slot.`. The refusals come in this order. Of one kind the first in file order comes, but of missing
/// keys `compatible`, `bootloader`, the devices in file order, then the program of a custom boot loader.
#[derive(Debug, Drop)]
pub enum ConfRefusal {
    /// A mandatory key is not there: `compatible` or `bootloader` of `[system]`, `device` of a slot,
    /// or the program of a custom boot loader.
    Missing { group: Text, key: Text },
    /// A group with this name, where the key is empty, or a key of this name in the group, is not
    /// known.
    UnknownKey { group: Text, key: Text },
    /// A group (with an empty key), a key or a value that the real configuration has and this
    /// updater does not.
    LeftOut { group: Text, key: Text },
    /// The value of the key does not have its form, or names a place that is taken.
    BadValue { group: Text, key: Text },
    /// The group begins with `slot.`, and is not `slot.<class>.<index>`.
    BadSlotName { group: Text },
    /// There are so many slots, which are more than 64.
    TooMany { slots: u64 },
    /// Two slots have one device.
    SameDevice { first: Text, second: Text },
    /// Two slots have one bootname.
    SameBootName { first: Text, second: Text },
    /// The slot's `parent` names no slot.
    NoParent { slot: Text },
    /// The slot's chain of parents does not end.
    ParentCycle { slot: Text },
    /// The slot has both a parent and a bootname.
    ChildBootName { slot: Text },
    /// The slot's device is a file of the updater, or lies where it keeps files.
    DeviceIsFile { slot: Text },
}
