ghost use Rattle.std.specs.Prelude.{◌≡◌, IsTrue, None};
ghost use Rattle.machine.specs.Frames.{Unchanged};
ghost use Rattle.machine.specs.Past.{Fails, world_now};
ghost use Rattle.machine.specs.Runs.{ReadsOnce};
ghost use Rattle.machine.specs.Stops.{StopCounted, stop_fault};
ghost use Rattle.rauc_cli.specs.Conf.{LoadsSystem, ReadsConf, conf_of, of_conf, system_at};

use keyfile::KeyFault;
use machine::{Fault, Machine, ReadStop, Stop};
use std::alloc::Global;
use system_conf::{ConfRefusal, System, read_system};
use updater_text::Lack;

/// The longest configuration, in bytes.
const CONF_LIMIT: u64 = 1_048_576;

/// Why a configuration is refused.
#[derive(Debug, Drop)]
pub enum BadConf {
    /// It is no key file.
    Key(KeyFault),
    /// Its groups, keys, values or slots are refused.
    Conf(ConfRefusal),
}

/// Why there is no system to work on.
#[derive(Debug, Drop)]
pub enum NoSystem {
    /// The file of its configuration is not there.
    Missing,
    /// Its configuration is refused.
    Bad(BadConf),
}

/// Reads a configuration from the bytes of its file: `Key` where they are no key file, `Conf` for the
/// first refusal of what it says.
pub fn read_conf(alloc: Global, bytes: &[u8]) -> Result<System, Lack<BadConf>>
    ensures { ReadsConf (conf_of bytes.now) result }
{
    match keyfile::read(alloc, bytes) {
        Ok(file) => match read_system(alloc, &file) {
            Ok(system) => Ok(system),
            Err(Lack::Refused(refusal)) => Err(Lack::Refused(BadConf::Conf(refusal))),
            Err(Lack::NoMemory) => Err(Lack::NoMemory),
        },
        Err(Lack::Refused(fault)) => Err(Lack::Refused(BadConf::Key(fault))),
        Err(Lack::NoMemory) => Err(Lack::NoMemory),
    }
}

// The system that the bytes of a configuration's file say.
fn system_in(alloc: Global, bytes: &[u8]) -> Result<System, Stop<NoSystem>>
    ensures { LoadsSystem (of_conf (conf_of bytes.now)) result × (stop_fault result ≡ None) }
{
    match read_conf(alloc, bytes) {
        Ok(system) => Ok(system),
        Err(Lack::Refused(refusal)) => Err(Stop::Refused(NoSystem::Bad(refusal))),
        Err(Lack::NoMemory) => Err(Stop::NoMemory),
    }
}

/// Reads the system of the configuration at a path, by one call: `Missing` where no file is there, `Bad` where it
/// has more than 1,048,576 bytes, is no key file, or says what is refused.
pub fn load_system<M: Machine>(
    alloc: Global,
    m: &mut M,
    path: &str,
) -> Result<System, Stop<NoSystem>>
    ensures unchanged { Unchanged M.tells (M.past m.old) (M.past m.new) }
    ensures once { IsTrue M.tells → ReadsOnce path.now (M.past m.old) (M.past m.new) }
    ensures answers { IsTrue M.tells → LoadsSystem (system_at (world_now (M.past m.old)) path.now) result }
    ensures fails { Fails M.tells (M.past m.old) (M.past m.new) (stop_fault result) }
    ensures counts { StopCounted (M.faults m.old) (M.faults m.new) (M.wants m.old) (M.wants m.new) result }
{
    match m.file_read(alloc, path, CONF_LIMIT) {
        Ok(Some(bytes)) => system_in(alloc, bytes.as_slice()),
        Ok(None) => Err(Stop::Refused(NoSystem::Missing)),
        Err(ReadStop::TooLong { length }) => {
            let fault = BadConf::Key(KeyFault::TooLong { length });
            Err(Stop::Refused(NoSystem::Bad(fault)))
        }
        Err(ReadStop::Failed) => Err(Stop::Outside(Fault::Read)),
        Err(ReadStop::NoMemory) => Err(Stop::NoMemory),
    }
}
