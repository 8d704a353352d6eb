ghost use Rattle.std.specs.Prelude.{◌≡◌, ◌≤◌, ◌<◌, length, take, IfOk, OnErr, Some, is_err};
ghost use Rattle.ibx_base.specs.Counts.{HasCause};
ghost use Rattle.ibx_base.specs.Sinks.{with_more};
ghost use Rattle.ibx_base.specs.MemSink.{new_store, write_fails, count_taken, after_write};

use crate::mem_files::raised;
use crate::sink::Sink;
use crate::status::{Failed, NoMemory};
use std::alloc::Global;
use std::marker::Model;

/// A sink in memory that takes at most `room` bytes. Its writes are numbered from 1, and those whose
/// number is among the failing ones fail. Its writes take no memory.
#[derive(Drop)]
pub struct MemSink {
    bytes: Vec<u8>,
    room: usize,
    fails: Vec<u64>,
    writes: u64,
    faults: u64,
}

impl Model for MemSink {
    ghost use Rattle.std.specs.Prelude.{◌≤◌, vec_len, vec_capacity};
    ghost use Rattle.ibx_base.specs.MemSink.{Store};

    ghost Value = { Store };

    ghost view = { λ s. record {
      bytes = s.bytes.items;
      room = s.room;
      fails = s.fails.items;
      writes = s.writes;
      faults = s.faults;
    } };

    ghost invariant = { λ s. (vec_len s.bytes ≤ s.room) × (s.room ≤ vec_capacity s.bytes) };
}

impl MemSink {
    /// Reserves the room. `fails` are the numbers of the writes that are to fail.
    pub fn new(alloc: Global, room: usize, fails: &[u64]) -> Result<MemSink, NoMemory>
        ensures { IfOk result (λ sink. sink ≡ new_store room fails.now) }
    {
        Ok(MemSink {
            bytes: Vec::with_capacity(alloc, room)?,
            room,
            fails: Vec::from_slice(alloc, fails)?,
            writes: 0,
            faults: 0,
        })
    }

    /// What was taken so far.
    pub fn bytes(&self) -> &[u8]
        ensures { result.now ≡ self.now.bytes }
    {
        &self.bytes
    }
}

impl Sink for MemSink {
    ghost taken = { λ s. Some s.bytes };

    ghost faults = { λ s. s.faults };

    fn write(&mut self, piece: &[u8]) -> Result<usize, Failed>
        ensures exact { self.new ≡ after_write self.old piece.now }
        ensures fails { is_err result ≡ write_fails self.old piece.now }
        ensures count { IfOk result (λ count. count ≡ count_taken self.old piece.now) }
        ensures within { IfOk result (λ count. count ≤ length piece.now) }
        ensures progress { IfOk result (λ count. 0 < length piece.now → 0 < count) }
        ensures bytes { IfOk result (λ count. Some self.new.bytes ≡ with_more (Some self.old.bytes)
            (take count piece.now)) }
        ensures same { OnErr result (Some self.new.bytes ≡ Some self.old.bytes) }
        ensures cause { HasCause self.old.faults self.new.faults result }
    {
        self.writes = raised(self.writes);
        let left = self.room - self.bytes.len();
        let count = piece.len().min(left);
        if self.fails.contains(&self.writes) || (!piece.is_empty() && left == 0) {
            self.faults = raised(self.faults);
            return Err(Failed);
        }
        self.bytes.extend_from_slice(&piece[..count]).unwrap();
        Ok(count)
    }
}
