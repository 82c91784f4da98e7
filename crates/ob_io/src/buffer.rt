ghost use Rattle.std.specs.Prelude.{◌≡◌, [], ◌≤◌, drop, length, IfOk};
ghost use Rattle.ob_io.specs.Outside.{Fills, Rose};

use crate::{ReadAnswer, Source};
use ob_base::NoMemory;
use std::alloc::Global;
use std::marker::Model;

/// How many bytes a buffer has room for.
const BUFFER_BYTES: usize = 65_536;

/// Bytes that were read and not yet used; contracts see these.
#[derive(Drop)]
pub(crate) struct Buffer {
    bytes: Vec<u8>,
    start: usize,
    end: usize,
}

impl Model for Buffer {
    ghost use Rattle.std.specs.Prelude.{List, ℕ, ◌≤◌, ◌<◌, length};
    ghost use Rattle.std.specs.List.{slice_range};

    ghost Value = { List ℕ };

    ghost view = { λ b. slice_range b.bytes.items b.start b.end };

    ghost invariant = { λ b. (b.start ≤ b.end) × (b.end ≤ length b.bytes.items) × (0 < length b.bytes.items) };
}

impl Buffer {
    /// A buffer that holds nothing.
    pub(crate) fn new(alloc: Global) -> Result<Buffer, NoMemory>
        ensures { IfOk result (λ b. b ≡ []) }
    {
        Ok(Buffer {
            bytes: vec![in alloc; 0; BUFFER_BYTES]?,
            start: 0,
            end: 0,
        })
    }

    /// The bytes.
    pub(crate) fn bytes(&self) -> &[u8]
        ensures { result.now ≡ self.now }
    {
        &self.bytes[self.start..self.end]
    }

    /// Lets the first bytes go.
    pub(crate) fn skip(&mut self, count: usize)
        requires { count ≤ length self.old }
        ensures { self.new ≡ drop count self.old }
    {
        self.start += count;
    }

    /// Reads once, in the place of what it held.
    pub(crate) fn fill<S: Source>(&mut self, source: &mut S) -> ReadAnswer
        ensures bytes { Fills (S.left source.old) (S.left source.new) result self.new }
        ensures later { S.faults source.old ≤ S.faults source.new }
        ensures failed { result ≡ ReadAnswer.Failed → Rose (S.faults source.old) (S.faults source.new) }
    {
        self.start = 0;
        self.end = 0;
        let answer = source.read(&mut self.bytes);
        if let ReadAnswer::Got(count) = answer {
            self.end = count;
        }
        answer
    }
}
