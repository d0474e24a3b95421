//! Sinks in memory.

ghost use Rattle.std.specs.Prelude.{◌≡◌, ◌≤◌, length, [], IfOk, Ok};
ghost use Rattle.tk_io.specs.Sink.{Writes};
ghost use Rattle.tk_io.specs.Held.{held_means, WritesHeld};

use crate::{Failed, Sink};
use std::alloc::{AllocError, Global};
use std::marker::Model;

/// A sink in memory, which fails where it is asked to.
#[derive(Drop)]
pub struct MemSink {
    bytes: Vec<u8>,
    room: usize,
    most: usize,
    failing: Vec<u64>,
    calls: u64,
    faults: u64,
}

impl Model for MemSink {
    ghost use Rattle.std.specs.Prelude.{◌≤◌, length, vec_capacity};
    ghost use Rattle.tk_io.specs.Held.{Held};

    ghost Value = { Held };

    ghost view = { λ s. record {
      bytes = s.bytes.items;
      room = s.room;
      most = s.most;
      failing = s.failing.items;
      calls = s.calls;
      faults = s.faults;
    } };

    ghost invariant = { λ s.
        (1 ≤ s.most)
        × (length s.bytes.items ≤ s.room)
        × (s.room ≤ vec_capacity s.bytes) };
}

impl MemSink {
    /// A sink with room for `room` bytes, which it takes at once. A write takes at most `most`
    /// of them, and the calls with the numbers in `failing`, counted from 1, fail.
    pub fn new(
        alloc: Global,
        room: usize,
        most: usize,
        failing: Vec<u64>,
    ) -> Result<MemSink, AllocError>
        requires { 1 ≤ most }
        ensures { IfOk result (λ sink.
            sink ≡ record {
              bytes = [];
              room = room;
              most = most;
              failing = failing.items;
              calls = 0;
              faults = 0;
            }) }
    {
        let bytes = Vec::with_capacity(alloc, room)?;
        Ok(MemSink {
            bytes,
            room,
            most,
            failing,
            calls: 0,
            faults: 0,
        })
    }

    /// The bytes taken.
    pub fn bytes(&self) -> &[u8]
        ensures { result.now ≡ self.now.bytes }
    {
        self.bytes.as_slice()
    }
}

impl Sink for MemSink {
    ghost meaning = { held_means };

    /// Takes as much of the piece as `most` and the room allow. Fails exactly on the listed
    /// calls, and on a piece that isn't empty where the room is full.
    fn write(&mut self, piece: &[u8]) -> Result<usize, Failed>
        ensures writes { Writes piece.now (held_means self.old) (held_means self.new) result }
        ensures exactly { WritesHeld piece.now self.old self.new result }
    {
        self.calls = self.calls.saturating_add(1);
        if self.failing.contains(&self.calls) {
            self.faults = self.faults.saturating_add(1);
            return Err(Failed);
        }
        let room = self.room - self.bytes.len();
        if room == 0 && !piece.is_empty() {
            self.faults = self.faults.saturating_add(1);
            return Err(Failed);
        }
        let count = piece.len().min(self.most).min(room);
        self.bytes.extend_from_slice(&piece[..count]).unwrap();
        Ok(count)
    }
}

/// A sink that takes every piece whole and keeps nothing.
#[derive(Drop)]
pub struct SureSink;

impl SureSink {
    /// A sink that takes everything.
    #[allow(clippy::new_without_default)]
    pub fn new() -> SureSink {
        SureSink
    }
}

impl Sink for SureSink {
    ghost use Rattle.std.specs.Prelude.{None};

    ghost meaning = { λ _. record { bytes = None; faults = 0 } };

    /// Takes the piece.
    fn write(&mut self, piece: &[u8]) -> Result<usize, Failed>
        ensures writes { Writes piece.now
            (record { bytes = None; faults = 0 })
            (record { bytes = None; faults = 0 })
            result }
        ensures whole { result ≡ Ok (length piece.now) }
    {
        Ok(piece.len())
    }
}
