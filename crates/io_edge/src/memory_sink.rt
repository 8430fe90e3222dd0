//! A sink in memory.
ghost use Rattle.std.specs.Prelude.{◌≡◌, Some, IfOk};
ghost use Rattle.io_edge.specs.SinkState.{empty_sink, takes_all, after_put};

use crate::sinks::{Failed, Sink};
use std::alloc::{AllocError, Global};
use std::marker::Model;

/// A sink that holds what it was sent, up to its room, and of which stated puts fail. It tells
/// what it holds.
#[derive(Drop)]
pub struct MemorySink {
    held: Vec<u8>,
    room: usize,
    failing: Vec<u64>,
    calls: u64,
    faults: u64,
}

impl Model for MemorySink {
    ghost use Rattle.std.specs.Prelude.{◌≤◌, length, vec_len, vec_capacity};
    ghost use Rattle.io_edge.specs.SinkState.{SinkState};

    ghost Value = { SinkState };

    ghost view = { λ s. record {
      held = s.held.items;
      room = s.room;
      failing = s.failing.items;
      calls = s.calls;
      faults = s.faults;
    } };

    ghost invariant = { λ s. (vec_len s.held ≤ s.room) × (s.room ≤ vec_capacity s.held) };
}

impl MemorySink {
    /// The sink that holds nothing and of which no put is to fail. All memory for `room` bytes is
    /// taken here.
    pub fn new(alloc: Global, room: usize) -> Result<MemorySink, AllocError>
        ensures { IfOk result (λ sink. sink ≡ empty_sink room) }
    {
        let held = Vec::with_capacity(alloc, room)?;
        Ok(MemorySink {
            held,
            room,
            failing: Vec::new(alloc),
            calls: 0,
            faults: 0,
        })
    }

    /// The same sink, of which the puts at these positions are to fail. Positions are counted from 0.
    pub fn failing_at(self, positions: Vec<u64>) -> MemorySink
        ensures { result ≡ record self { failing = positions.items } }
    {
        let mut sink = self;
        sink.failing = positions;
        sink
    }

    /// The bytes that it holds.
    pub fn contents(&self) -> &[u8]
        ensures { result.now ≡ self.now.held }
    {
        self.held.as_slice()
    }

    /// How many puts failed. The count saturates at its type's end.
    pub fn faults(&self) -> u64
        ensures { result ≡ self.now.faults }
    {
        self.faults
    }
}

impl Sink for MemorySink {
    ghost told = { λ sink. Some sink.held };

    ghost faults = { λ sink. sink.faults };

    ghost puts = { λ sink piece taken after. (taken ≡ takes_all sink piece) × (after ≡ after_put sink piece) };

    /// Fails exactly at a put that is to fail, which takes nothing, and where the piece does not fit:
    /// then as much of it is taken as there is room for.
    fn put(&mut self, bytes: &[u8]) -> Result<(), Failed> {
        let is_to_fail = self.failing.contains(&self.calls);
        self.calls = self.calls.saturating_add(1);
        if is_to_fail {
            self.faults = self.faults.saturating_add(1);
            return Err(Failed);
        }
        let room = self.room - self.held.len();
        if room < bytes.len() {
            self.held.extend_from_slice(&bytes[..room]).unwrap();
            self.faults = self.faults.saturating_add(1);
            return Err(Failed);
        }
        self.held.extend_from_slice(bytes).unwrap();
        Ok(())
    }
}
