ghost use Rattle.std.specs.Prelude.{◌≡◌, ◌-◌, [], IsOk, IfOk};
ghost use Rattle.std.specs.List.{AllZip};
ghost use Rattle.machine.specs.Crash.{covers, is_in};
ghost use Rattle.machine.specs.Past.{Grows, Held, Past, world_now};
ghost use Rattle.undo_log.specs.Logged.{past_of_log};
ghost use Rattle.machine_bench.specs.Stopped.{AfterStop, BytesAfterStop, DiskAfterStop};
ghost use Rattle.machine_bench.specs.Stopped as spec;

use crate::bench::Bench;
use machine::{Named, Span, World};
use undo_log::UndoLog;
use updater_text::{Items, NoMemory};

// What a stop leaves of a byte that was pending.
fn byte_left(pick: u64, at: u64, byte: u8) -> u8
    ensures { result ≡ spec.byte_left pick at byte }
{
    match pick {
        0 => byte,
        1 => 255 - byte,
        _ => ((pick % 256 + at % 256) % 256) as u8,
    }
}

fn covers(span: &Span, path: &str, at: u64) -> bool
    ensures { result ≡ covers span.now path.now at }
{
    span.path.as_str() == path && span.at <= at && at - span.at < span.length
}

// Whether the byte of the path is pending.
fn is_pending(spans: &[Span], path: &str, at: u64) -> bool
    ensures { result ≡ is_in spans.now path.now at }
{
    spans.iter().any(|span| covers(span, path, at))
}

// What a stop leaves of a byte.
fn byte_after_stop(spans: &[Span], path: &str, pick: u64, at: u64, byte: u8) -> u8
    ensures { result ≡ spec.byte_after_stop pick spans.now path.now at byte }
{
    if is_pending(spans, path, at) {
        byte_left(pick, at, byte)
    } else {
        byte
    }
}

// Leaves of bytes under a path what a stop leaves.
fn stop_bytes(bytes: &mut [u8], spans: &[Span], path: &str, pick: u64)
    ensures { BytesAfterStop pick spans.now path.now bytes.old bytes.new }
{
    for at in 0..bytes.len() {
        bytes[at] = byte_after_stop(spans, path, pick, at as u64, bytes[at]);
    }
}

fn stop_disk(disk: &mut Named, spans: &[Span], pick: u64)
    ensures { DiskAfterStop pick spans.now disk.old disk.new }
{
    stop_bytes(disk.bytes.as_mut_slice(), spans, disk.path.as_str(), pick);
}

// Leaves of disks what a stop leaves.
fn stop_disks(disks: &mut [Named], spans: &[Span], pick: u64)
    ensures { AllZip (DiskAfterStop pick spans.now) disks.old disks.new }
{
    for at in 0..disks.len() {
        stop_disk(&mut disks[at], spans, pick);
    }
}

impl Bench {
    /// The bench after a stop of the power as of now: on the crash image that `pick` chooses, with
    /// no call made and none that fails. By pick 0 each byte that was pending is as a read gave it,
    /// by pick 1 each is inverted, and by any other each is the sum of the pick and its place on the
    /// disk in eight bits. What children do, the boot loader and the clock stay.
    pub fn after_stop(self, pick: u64) -> Result<Bench, NoMemory>
        ensures made { IsOk result }
        ensures after { IfOk result (AfterStop pick self) }
        ensures past { IfOk result (λ b. past_of_log b.log ≡ record { boot = self.log.boot; first = b.log.world; moments = [] }) }
        ensures held { IfOk result (λ b. (old : Past) → Grows old (past_of_log self.log) → Held old (past_of_log self.log) (world_now (past_of_log b.log))) }
    {
        let Bench {
            alloc,
            log,
            scripts,
            fails: _,
            stop: _,
            clock,
            faults: _,
            wants: _,
        } = self;
        let UndoLog {
            mut world,
            notes: _,
            boot,
        } = log;
        stop_disks(world.disks.as_mut_slice(), world.pending.as_slice(), pick);
        world.pending = Items::new(alloc);
        Ok(Bench {
            alloc,
            log: UndoLog {
                world,
                notes: Vec::new(alloc),
                boot,
            },
            scripts,
            fails: Items::new(alloc),
            stop: None,
            clock,
            faults: 0,
            wants: 0,
        })
    }
}
