// A sink in memory, some of whose writes fail.
ghost use Rattle.std.specs.Prelude.{◌≡◌, ◌≤◌, ◌↔◌, [], length, Some, IfOk, IsErr, vec_len, vec_capacity};
ghost use Rattle.pdl_kit.specs.SinkInMemory.{WriteFails, after_write, taken_length};
ghost use Rattle.pdl_kit.specs.Counts.{HasCause};

use crate::no_memory::NoMemory;
use crate::sink::{Sink, WriteFailed};
use std::alloc::Global;
use std::marker::Model;

/// A sink in memory, whose room is made when it is made, and some of whose calls fail.
#[derive(Drop)]
pub struct MemSink {
    bytes: Vec<u8>,
    room: usize,
    most: usize,
    failing: Vec<u64>,
    calls: u64,
    faults: u64,
}

impl Model for MemSink {
    ghost use Rattle.std.specs.Prelude.{◌≤◌, vec_len, vec_capacity};
    ghost use Rattle.pdl_kit.specs.SinkInMemory.{State};

    ghost Value = { State };

    ghost view = { λ s. record {
      written = s.bytes.items;
      room = s.room;
      most = s.most;
      failing = s.failing.items;
      calls = s.calls;
      faults = s.faults;
    } };

    ghost invariant = { λ s. (vec_len s.bytes ≤ s.room) × (s.room ≤ vec_capacity s.bytes) };
}

impl MemSink {
    /// Has room for `room` bytes and takes at most `most` of them at a call; the calls whose numbers are in `failing` fail, the first call being 1.
    pub fn new(
        alloc: Global,
        room: usize,
        most: usize,
        failing: Vec<u64>,
    ) -> Result<MemSink, NoMemory>
        ensures { IfOk result (λ s. s ≡ record {
          written = [];
          room = room;
          most = most;
          failing = failing.items;
          calls = 0;
          faults = 0;
        }) }
    {
        Ok(MemSink {
            bytes: Vec::with_capacity(alloc, room)?,
            room,
            most,
            failing,
            calls: 0,
            faults: 0,
        })
    }

    /// Has room for `room` bytes and takes any number of them at a call. No call fails before its room is full.
    pub fn unfailing(alloc: Global, room: usize) -> Result<MemSink, NoMemory>
        ensures { IfOk result (λ s. s ≡ record {
          written = [];
          room = room;
          most = usize.MAX;
          failing = [];
          calls = 0;
          faults = 0;
        }) }
    {
        MemSink::new(alloc, room, usize::MAX, Vec::new(alloc))
    }

    /// The bytes taken so far.
    pub fn written(&self) -> &[u8]
        ensures { result.now ≡ self.now.written }
    {
        self.bytes.as_slice()
    }
}

impl Sink for MemSink {
    ghost written = { λ s. Some s.written };

    ghost faults = { λ s. s.faults };

    /// Takes as much of the piece as its room and its greatest number of bytes per call allow. It fails exactly where this call is listed, or where the piece isn't empty and its room is full or that number is 0.
    fn write(&mut self, piece: &[u8]) -> Result<usize, WriteFailed>
        ensures failed { IsErr result ↔ WriteFails self.old piece.now }
        ensures taken { IfOk result (λ n. n ≡ taken_length self.old piece.now) }
        ensures state { self.new ≡ after_write self.old piece.now result }
        ensures cause { HasCause self.old.faults self.new.faults result }
    {
        self.calls = self.calls.saturating_add(1);
        let taken = piece.len().min(self.room - self.bytes.len()).min(self.most);
        if self.failing.contains(&self.calls) || (taken == 0 && !piece.is_empty()) {
            self.faults = self.faults.saturating_add(1);
            return Err(WriteFailed);
        }
        self.bytes.extend_from_slice(&piece[..taken]).unwrap();
        Ok(taken)
    }
}
