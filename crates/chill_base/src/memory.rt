// Files and sinks in memory, which fail at the calls that they are told to.
ghost use Rattle.std.specs.Prelude.{◌≡◌, ◌≤◌, [], length, IfOk};
ghost use Rattle.chill_base.specs.Outside.{Writes};
ghost use Rattle.chill_base.specs.MemSink.{Reel, reel_state, new_reel, TakesAsMuch};

use crate::{Failed, List, NoMemory, Sink};
use std::alloc::Global;
use std::marker::Model;

/// A buffer of a fixed capacity that takes at most so many bytes a write, and fails at the writes with these numbers.
#[derive(Drop)]
pub struct MemSink {
    bytes: Vec<u8>,
    capacity: usize,
    most: usize,
    fails: List<u64>,
    calls: u64,
    faults: u64,
}

impl Model for MemSink {
    ghost use Rattle.chill_base.specs.MemSink.{Reel};

    ghost Value = { Reel };

    ghost use Rattle.std.specs.Prelude.{◌≤◌, vec_len, vec_capacity};

    ghost view = { λ a. record { bytes = a.bytes.items; capacity = a.capacity; most = a.most; fails = a.fails; calls = a.calls; faults = a.faults } };

    ghost invariant = { λ a. (1 ≤ a.most) × (vec_len a.bytes ≤ a.capacity) × (a.capacity ≤ vec_capacity a.bytes) };
}

impl MemSink {
    pub fn new(
        alloc: Global,
        capacity: usize,
        most: usize,
        fails: List<u64>,
    ) -> Result<MemSink, NoMemory>
        requires { 1 ≤ most }
        ensures { IfOk result (λ sink. sink ≡ new_reel capacity most fails) }
    {
        Ok(MemSink {
            bytes: Vec::with_capacity(alloc, capacity)?,
            capacity,
            most,
            fails,
            calls: 0,
            faults: 0,
        })
    }

    pub fn bytes(&self) -> &[u8]
        ensures { result.now ≡ self.now.bytes }
    {
        self.bytes.as_slice()
    }
}

impl Sink for MemSink {
    ghost state = { reel_state };

    fn faults(&self) -> u64 {
        self.faults
    }

    fn write(&mut self, piece: &[u8]) -> Result<usize, Failed>
        ensures writes { Writes (reel_state self.old) piece.now (reel_state self.new) result }
        ensures exact { TakesAsMuch self.old piece.now self.new result }
    {
        let number = self.calls;
        self.calls = number.saturating_add(1);
        let room = self.capacity - self.bytes.len();
        if self.fails.as_slice().contains(&number) || (!piece.is_empty() && room == 0) {
            self.faults = self.faults.saturating_add(1);
            return Err(Failed);
        }
        let count = piece.len().min(self.most).min(room);
        self.bytes.extend_from_slice(&piece[..count]).unwrap();
        Ok(count)
    }
}
