ghost use Rattle.std.specs.Prelude.{◌≡◌, IfOk};
ghost use Rattle.install_core.specs.Course as spec;

use child_steps::{Closing, MountRefusal};
use install_facts::{InstallRefusal, install_cause};
use install_steps::Installed;
use machine::{Stop, fault_cause};
use std::alloc::Global;
use system_conf::System;
use updater_text::{NoMemory, Text};

/// What an install came to.
#[derive(Drop)]
pub struct InstallEnd {
    pub result: Result<Installed, Stop<InstallRefusal>>,
    /// What came of the unmount: `NotMounted` where the bundle was not mounted.
    pub closing: Closing,
    /// There is a status file that cannot be read.
    pub book_unread: bool,
    /// The refusal, or that a call failed, in words; none at success, and where memory is out.
    pub line: Option<Text>,
}

/// What came of the work on a bundle.
#[derive(Drop)]
pub struct Worked {
    pub result: Result<Installed, Stop<InstallRefusal>>,
    pub book_unread: bool,
}

/// A stop of the mount.
pub fn mount_stop(stop: Stop<MountRefusal>) -> Stop<InstallRefusal>
    ensures { result ≡ spec.mount_stop stop }
{
    match stop {
        Stop::Refused(why) => Stop::Refused(InstallRefusal::Mount(why)),
        Stop::Outside(kind) => Stop::Outside(kind),
        Stop::NoMemory => Stop::NoMemory,
    }
}

// Why an install stopped, in words.
fn line_of(
    alloc: Global,
    system: &System,
    stop: &Stop<InstallRefusal>,
) -> Result<Option<Text>, NoMemory>
    ensures { IfOk result (λ line. line ≡ spec.line_of system.now.slots stop.now) }
{
    match stop {
        Stop::Refused(why) => Ok(Some(install_cause(alloc, system, why)?)),
        Stop::Outside(kind) => Ok(Some(fault_cause(alloc, *kind)?)),
        Stop::NoMemory => Ok(None),
    }
}

/// The end of an install, with its line. Where the line finds no memory, that is the answer.
pub fn end_of(alloc: Global, system: &System, worked: Worked, closing: Closing) -> InstallEnd
    ensures is { spec.IsEnd system.now.slots worked.result result }
    ensures closing { result.closing ≡ closing }
    ensures unread { result.book_unread ≡ worked.book_unread }
{
    let Worked {
        result,
        book_unread,
    } = worked;
    let (result, line) = match result {
        Ok(installed) => (Ok(installed), None),
        Err(stop) => stopped(alloc, system, stop),
    };
    InstallEnd {
        result,
        closing,
        book_unread,
        line,
    }
}

// A stop with its line.
fn stopped(
    alloc: Global,
    system: &System,
    stop: Stop<InstallRefusal>,
) -> (Result<Installed, Stop<InstallRefusal>>, Option<Text>)
    ensures { spec.IsStopped system.now.slots stop result.0 result.1 }
{
    match line_of(alloc, system, &stop) {
        Ok(line) => (Err(stop), line),
        Err(_) => (Err(Stop::NoMemory), None),
    }
}
