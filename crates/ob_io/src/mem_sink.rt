ghost use Rattle.std.specs.Prelude.{◌≡◌, [], ◌<◌, ◌≤◌, length, IfOk, Some};
ghost use Rattle.ob_io.specs.Outside.{IsTaken, Gains, Rose};
ghost use Rattle.ob_io.specs.Memory.{write_answer, after_write};

use crate::mem_source::is_failing;
use crate::{Sink, WriteAnswer};
use ob_base::{List, NoMemory};
use std::alloc::Global;
use std::marker::Model;

/// A sink in memory with a fixed room, which fails at given calls; contracts see the bytes held, the
/// room, the failing calls, and how many calls and faults there were.
#[derive(Drop)]
pub struct MemSink {
    bytes: Vec<u8>,
    room: usize,
    failing: List<u64>,
    calls: u64,
    faults: u64,
}

impl Model for MemSink {
    ghost use Rattle.std.specs.Prelude.{◌≤◌, vec_capacity};
    ghost use Rattle.ob_io.specs.Memory.{Writing};

    ghost Value = { Writing };

    ghost view = { λ s. record { held = s.bytes.items; room = s.room; failing = s.failing; calls = s.calls; faults = s.faults } };

    ghost invariant = { λ s. s.room ≤ vec_capacity s.bytes };
}

impl MemSink {
    /// A sink with room for so many bytes, of which the calls with the numbers in `failing`, from 1,
    /// fail. All its memory is taken here, so that `write` takes none.
    ///
    /// # Errors
    /// `NoMemory` where the allocation is refused.
    pub fn new(alloc: Global, room: usize, failing: List<u64>) -> Result<MemSink, NoMemory>
        ensures { IfOk result (λ s. s ≡ record { held = []; room = room; failing = failing; calls = 0; faults = 0 }) }
    {
        Ok(MemSink {
            bytes: Vec::with_capacity(alloc, room)?,
            room,
            failing,
            calls: 0,
            faults: 0,
        })
    }

    /// The bytes that it holds.
    pub fn bytes(&self) -> &[u8]
        ensures { result.now ≡ self.now.held }
    {
        &self.bytes
    }
}

impl Sink for MemSink {
    ghost held = { λ s. Some s.held };

    ghost faults = { λ s. s.faults };

    fn write(&mut self, piece: &[u8]) -> WriteAnswer
        requires { 0 < length piece.now }
        ensures count { IsTaken result (length piece.now) }
        ensures bytes { Gains (Some self.old.held) (Some self.new.held) result piece.now }
        ensures later { self.old.faults ≤ self.new.faults }
        ensures failed { result ≡ WriteAnswer.Failed → Rose self.old.faults self.new.faults }
        ensures answer { result ≡ write_answer self.old (length piece.now) }
        ensures after { self.new ≡ after_write self.old piece.now result }
    {
        let fails = is_failing(self.failing.as_slice(), self.calls);
        self.calls = self.calls.saturating_add(1);
        if fails || self.room <= self.bytes.len() {
            self.faults = self.faults.saturating_add(1);
            return WriteAnswer::Failed;
        }
        let count = piece.len().min(self.room - self.bytes.len());
        match self.bytes.extend_from_slice(&piece[..count]) {
            Ok(()) => WriteAnswer::Took(count),
            Err(_) => unreachable!(),
        }
    }
}
