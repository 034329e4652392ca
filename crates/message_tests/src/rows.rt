//! Messages as bytes. How many of the texts that differ in one byte are which, an independent reader, written
//! in Python from the grammar alone, has counted.

use crate::answers::Counts;

// A call of GetPrimary, and its reply.
pub const CALL: &[u8] = b"\
    l\x01\0\x01\0\0\0\0\x01\0\0\0#\0\0\0\x01\x01o\0\x01\0\0\0\
    /\0\0\0\0\0\0\0\x03\x01s\0\x0a\0\0\0GetPrima\
    ry\0\0\0\0\0\0";

pub const REPLY: &[u8] = b"\
    l\x02\x01\x01\x0d\0\0\0\x01\0\0\0\x0f\0\0\0\x05\x01u\0\x01\0\0\0\
    \x08\x01g\0\x01s\0\0\x08\0\0\0rootfs.0\0";

// `dbus-send` of D-Bus 1.14.10: a call with two strings, and a signal with values of all kinds.
pub const MARK: &[u8] = b"\
    l\x01\0\x01\x17\0\0\0\x01\0\0\0p\0\0\0\x01\x01o\0\x01\0\0\0\
    /\0\0\0\0\0\0\0\x02\x01s\0\x1d\0\0\0de.pengu\
    tronix.rauc.Installer\0\0\0\
    \x03\x01s\0\x04\0\0\0Mark\0\0\0\0\x06\x01s\0\x13\0\0\0\
    de.pengutronix.rauc\0\0\0\0\0\
    \x08\x01g\0\x02ss\0\x04\0\0\0good\0\0\0\0\x06\0\0\0\
    booted\0";

pub const COMPLETED: &[u8] = b"\
    l\x04\x01\x01|\0\0\0\x01\0\0\0g\0\0\0\x01\x01o\0\x01\0\0\0\
    /\0\0\0\0\0\0\0\x02\x01s\0\x1d\0\0\0de.pengu\
    tronix.rauc.Installer\0\0\0\
    \x03\x01s\0\x09\0\0\0Completed\0\0\0\0\0\0\0\
    \x08\x01g\0\x11iasdytxbqnova{su}\0\0\
    \xff\xff\xff\xff\x0f\0\0\0\x01\0\0\0a\0\0\0\x02\0\0\0bc\0\0\
    \0\0\0\0\0\0\xe0?\xff\0\0\0\0\0\0\0\xff\xff\xff\xff\xff\xff\xff\xff\
    \xfe\xff\xff\xff\xff\xff\xff\xff\x01\0\0\0\x07\0\xf9\xff\x06\0\0\0/a/b\
    _1\0\x01s\0\0\0\x01\0\0\0x\0\0\0\x1c\0\0\0\0\0\0\0\
    \x03\0\0\0one\0\x01\0\0\0\0\0\0\0\x03\0\0\0two\0\
    \x02\0\0\0";

// `busctl` of systemd 252.39: two calls, whose fields are in another order.
pub const SLOT_STATUS: &[u8] = b"\
    l\x01\x04\x01\0\0\0\0\x02\0\0\0l\0\0\0\x01\x01o\0\x01\0\0\0\
    /\0\0\0\0\0\0\0\x03\x01s\0\x0d\0\0\0GetSlotS\
    tatus\0\0\0\x02\x01s\0\x1d\0\0\0de.pengu\
    tronix.rauc.Installer\0\0\0\
    \x06\x01s\0\x13\0\0\0de.pengutronix.r\
    auc\0\0\0\0\0";

pub const INSTALL: &[u8] = b"\
    l\x01\x04\x01K\0\0\0\x02\0\0\0|\0\0\0\x01\x01o\0\x01\0\0\0\
    /\0\0\0\0\0\0\0\x03\x01s\0\x0d\0\0\0InstallB\
    undle\0\0\0\x02\x01s\0\x1d\0\0\0de.pengu\
    tronix.rauc.Installer\0\0\0\
    \x06\x01s\0\x13\0\0\0de.pengutronix.r\
    auc\0\0\0\0\0\x08\x01g\0\x06sa{sv}\0\0\0\0\0\
    \x08\0\0\0/b.raucb\0\0\0\03\0\0\0\0\0\0\0\
    \x11\0\0\0ignore-compatible\0\x01b\
    \0\0\0\0\x01\0\0\0\x01\0\0\0x\0\x02ay\0\0\0\x03\0\0\0\
    \x01\x02\x03";

// `gdbus` of GLib 2.74.6: the first call on a bus.
pub const HELLO: &[u8] = b"\
    l\x01\0\x01\0\0\0\0\x01\0\0\0n\0\0\0\x01\x01o\0\x15\0\0\0\
    /org/freedesktop/DBus\0\0\0\
    \x02\x01s\0\x14\0\0\0org.freedesktop.\
    DBus\0\0\0\0\x06\x01s\0\x14\0\0\0org.free\
    desktop.DBus\0\0\0\0\x03\x01s\0\x05\0\0\0\
    Hello\0\0\0";

/// A message, and what the texts are that differ from it in one byte.
pub struct Row {
    pub bytes: &'static [u8],
    pub changed: Counts,
}

pub const ROWS: [Row; 7] = [
    Row {
        bytes: CALL,
        changed: Counts {
            got: 2_135,
            bad: 10_144,
            need: 1_010,
            large: 991,
        },
    },
    Row {
        bytes: REPLY,
        changed: Counts {
            got: 3_552,
            bad: 5_911,
            need: 1_021,
            large: 991,
        },
    },
    Row {
        bytes: MARK,
        changed: Counts {
            got: 7_693,
            bad: 28_906,
            need: 915,
            large: 991,
        },
    },
    Row {
        bytes: COMPLETED,
        changed: Counts {
            got: 15_913,
            bad: 44_494,
            need: 822,
            large: 991,
        },
    },
    Row {
        bytes: SLOT_STATUS,
        changed: Counts {
            got: 6_993,
            bad: 23_718,
            need: 938,
            large: 991,
        },
    },
    Row {
        bytes: INSTALL,
        changed: Counts {
            got: 11_036,
            bad: 42_971,
            need: 847,
            large: 991,
        },
    },
    Row {
        bytes: HELLO,
        changed: Counts {
            got: 7_320,
            bad: 23_391,
            need: 938,
            large: 991,
        },
    },
];
