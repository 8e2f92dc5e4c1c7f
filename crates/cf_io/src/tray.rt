ghost use Rattle.std.specs.Prelude.{◌≡◌, ◌==◌, ◌<◌, ◌≤◌, ◌-◌, length, [], IfOk};
ghost use Rattle.cf_io.specs.Memory.{after_put, put_of, told_of};
ghost use Rattle.cf_io.specs.Put.{Flushes, Puts};

use crate::{Flush, Put, Sink};
use cf_types::{List, Memory};
use std::alloc::Global;
use std::marker::Model;

/// Keeps what is put, up to its room, and holds nothing back. Chosen calls fail, so that a test can see a fault of
/// writing.
#[derive(Drop)]
pub struct MemSink {
    bytes: Vec<u8>,
    room: usize,
    fail: List<u64>,
    calls: u64,
    faults: u64,
}

impl Model for MemSink {
    ghost use Rattle.cf_io.specs.Memory.{Tray};
    ghost use Rattle.std.specs.Prelude.{◌≤◌, length, vec_capacity};

    ghost Value = { Tray };

    ghost view = { λ it. record { bytes = it.bytes.items; room = it.room; fail = it.fail; calls = it.calls; faults = it.faults } };

    ghost invariant = { λ it. (length it.bytes.items ≤ it.room) × (it.room ≤ vec_capacity it.bytes) };
}

impl MemSink {
    /// An empty sink with room for this many bytes, and the numbers of the calls of `put` that are to fail, counted
    /// from 1. A put past the room fails with as many bytes as still fit.
    pub fn make(alloc: Global, fail: List<u64>, room: usize) -> Result<MemSink, Memory>
        ensures { IfOk result (λ sink. sink ≡ record { bytes = []; room = room; fail = fail; calls = 0; faults = 0 }) }
    {
        Ok(MemSink {
            bytes: Vec::with_capacity(alloc, room)?,
            room,
            fail,
            calls: 0,
            faults: 0,
        })
    }

    /// The bytes that were taken.
    pub fn bytes(&self) -> &[u8]
        ensures { result.now ≡ self.now.bytes }
    {
        &self.bytes
    }
}

impl Sink for MemSink {
    ghost told = { told_of };

    fn put(&mut self, piece: &[u8]) -> Put
        ensures taken { Puts piece.now result (told_of self.old) (told_of self.new) }
        ensures exact { result ≡ put_of self.old piece.now }
        ensures called { self.new ≡ after_put self.old piece.now result }
    {
        self.calls = self.calls.saturating_add(1);
        if self.fail.items().contains(&self.calls) {
            self.faults = self.faults.saturating_add(1);
            return Put::Failed(0);
        }
        let taken = piece.len().min(self.room - self.bytes.len());
        self.bytes.extend_from_slice(&piece[..taken]).unwrap();
        if taken < piece.len() {
            self.faults = self.faults.saturating_add(1);
            return Put::Failed(taken);
        }
        Put::All
    }

    fn flush(&mut self) -> Flush
        ensures flushed { Flushes result (told_of self.old) (told_of self.new) }
        ensures same { self.new ≡ self.old }
        ensures all { result ≡ Flush.All }
    {
        Flush::All
    }
}
