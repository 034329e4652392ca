ghost use Rattle.std.specs.Prelude.{◌≡◌, [], IfOk, Some, is_ok, length, not};
ghost use Rattle.updater_text.specs.Sinks.{Put, after_put, refuses};

use crate::{Failed, NoMemory, Sink};
use std::alloc::Global;
use std::marker::Model;

/// A sink in memory, which tells its bytes and fails on request.
#[derive(Drop)]
pub struct MemorySink {
    held: Vec<u8>,
    left: usize,
    fails: Vec<u64>,
    puts: u64,
    faults: u64,
}

impl Model for MemorySink {
    ghost use Rattle.std.specs.Prelude.{◌≤◌, ◌+◌, vec_len};
    ghost use Rattle.std.specs.Vec.{vec_capacity};
    ghost use Rattle.updater_text.specs.Sinks.{Shelf};

    ghost Value = { Shelf };

    ghost view = { λ s. record { held = s.held.items; left = s.left; fails = s.fails.items; puts = s.puts; faults = s.faults } };

    ghost invariant = { λ s. vec_len s.held + s.left ≤ vec_capacity s.held };
}

impl MemorySink {
    /// An empty sink with room for `room` bytes, which is taken at once. The puts with the numbers in
    /// `fails`, counted from 1, fail.
    pub fn new(alloc: Global, room: usize, fails: Vec<u64>) -> Result<MemorySink, NoMemory>
        ensures { IfOk result (λ s. s ≡ record { held = []; left = room; fails = fails.items; puts = 0; faults = 0 }) }
    {
        let held = Vec::with_capacity(alloc, room)?;
        Ok(MemorySink {
            held,
            left: room,
            fails,
            puts: 0,
            faults: 0,
        })
    }

    /// The bytes that were put so far.
    pub fn bytes(&self) -> &[u8]
        ensures { result.now ≡ self.now.held }
    {
        self.held.as_slice()
    }

    /// How often a put has failed.
    pub fn faults(&self) -> u64
        ensures { result ≡ self.now.faults }
    {
        self.faults
    }
}

impl Sink for MemorySink {
    ghost shown = { λ s. record { told = Some s.held; faults = s.faults } };

    /// It takes no memory. It fails exactly for the numbers that were named, and where the bytes
    /// exceed the room left; then nothing is appended.
    fn put(&mut self, bytes: &[u8]) -> Result<(), Failed>
        ensures put { Put (record { told = Some self.old.held; faults = self.old.faults }) (record { told = Some self.new.held; faults = self.new.faults }) bytes.now (is_ok result) }
        ensures after { self.new ≡ after_put self.old bytes.now }
        ensures refused { is_ok result ≡ not (refuses self.old (length bytes.now)) }
    {
        self.puts = self.puts.saturating_add(1);
        if self.fails.contains(&self.puts) || self.left < bytes.len() {
            self.faults = self.faults.saturating_add(1);
            return Err(Failed);
        }
        self.left -= bytes.len();
        match self.held.extend_from_slice(bytes) {
            Ok(()) => Ok(()),
            Err(_) => unreachable!(),
        }
    }
}
