use machine::Ended;
use updater_text::Text;

/// Why a bundle is not mounted: how the child ended, which was not with `Code(0)`.
#[derive(Clone, Copy, Debug, PartialEq, Eq)]
pub enum MountRefusal {
    /// The check of the bundle ended so.
    Untrusted { ended: Ended },
    /// The mount of the bundle ended so.
    MountFailed { ended: Ended },
}

/// Why a bundle is not installed, by its own hook.
#[derive(Debug, Drop)]
pub enum CheckRefusal {
    /// The hook rejects it: it ended with `Code(10)`. `line` is the first line of what it put out as
    /// errors, and empty where that is not UTF-8.
    Rejected { line: Text },
    /// The hook ended so, with neither `Code(0)` nor `Code(10)`.
    CheckFailed { ended: Ended },
}
