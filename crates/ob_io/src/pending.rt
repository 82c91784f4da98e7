ghost use Rattle.std.specs.Prelude.{◌≡◌, ◌≢◌, [], ℕ, ◌++◌, ◌-◌, ◌≤◌, List, Some, false, IfSome, IsTrue};
ghost use Rattle.std.specs.Io.KnownBytes.{prepend_known};
ghost use Rattle.ob_io.specs.Lines.{IsMore, IsNext, IsPartial, IsWithin, handed_out, line_len};
ghost use Rattle.ob_io.specs.Outside.{Rose};

use crate::buffer::Buffer;
use crate::{NextLine, ReadAnswer, Source};
use memchr::memchr;
use ob_base::List;
use std::alloc::Global;
use std::mem;

/// The most bytes of a line, its line feed aside, and how many bytes of the input may still come.
#[derive(Clone, Copy)]
pub(crate) struct Limits {
    pub(crate) line: usize,
    pub(crate) input: u64,
}

/// A line as far as it has come, what was read after that, and whether the input's end was met.
#[derive(Drop)]
pub(crate) struct Pending {
    pub(crate) line: Vec<u8>,
    pub(crate) buffer: Buffer,
    pub(crate) ended: bool,
}

// How many bytes stand before the first line feed, or in all where there is none.
fn line_len(bytes: &[u8]) -> usize
    ensures { result ≡ line_len bytes.now }
{
    match memchr(b'\n', bytes) {
        Some(place) => place,
        None => bytes.len(),
    }
}

impl Pending {
    // The line, handed out.
    fn hand_out(&mut self, alloc: Global) -> NextLine
        ensures line { result ≡ NextLine.Line self.old.line.items }
        ensures rest { (self.new.line.items ≡ []) × (self.new.buffer ≡ self.old.buffer) × (self.new.ended ≡ self.old.ended) }
    {
        NextLine::Line(List::from_vec(mem::replace(&mut self.line, Vec::new(alloc))))
    }

    // Moves what the buffer holds of the line to it; an answer where that ends it or passes a limit.
    fn take_line(&mut self, alloc: Global, limits: Limits) -> Option<NextLine>
        requires partial { IsPartial limits.line limits.input self.old.line.items }
        requires open { self.old.ended ≡ false }
        ensures next { IfSome result (λ answer. (more : List ℕ) → IsNext limits.line limits.input
            (Some ((self.old.line.items ++ self.old.buffer) ++ more)) (Some ((self.new.line.items ++ self.new.buffer) ++ more)) false answer) }
        ensures within { IfSome result (IsWithin limits.line limits.input (self.new.line.items ++ self.new.buffer) false) }
        ensures more { IsMore limits.line limits.input (self.old.line.items ++ self.old.buffer) self.new.line.items self.new.buffer result }
        ensures no_fault { result ≢ Some NextLine.ReadFault }
        ensures open { self.new.ended ≡ false }
        ensures part { IfSome result (λ answer. IsPartial limits.line (limits.input - handed_out false answer) self.new.line.items) }
    {
        let bytes = self.buffer.bytes();
        let len = bytes.len();
        let count = line_len(bytes);
        let input_left = limits.input - self.line.len() as u64;
        if count > limits.line - self.line.len() && limits.line as u64 <= limits.input {
            return Some(NextLine::LineTooLong);
        }
        if len as u64 > input_left && count as u64 >= input_left {
            return Some(NextLine::InputTooLong);
        }
        match self.line.extend_from_slice(&bytes[..count]) {
            Ok(()) => {}
            Err(_) => return Some(NextLine::NoMemory),
        }
        if count < len {
            self.buffer.skip(count + 1);
            Some(self.hand_out(alloc))
        } else {
            self.buffer.skip(count);
            None
        }
    }

    // The answer at the input's end: the rest as a line, where it isn't empty.
    fn finish(&mut self, alloc: Global, limits: Limits) -> NextLine
        requires partial { IsPartial limits.line limits.input self.old.line.items }
        requires empty { self.old.buffer ≡ [] }
        ensures next { IsNext limits.line limits.input (Some self.old.line.items) (Some (self.new.line.items ++ self.new.buffer)) self.new.ended result }
        ensures within { IsWithin limits.line limits.input (self.new.line.items ++ self.new.buffer) self.new.ended result }
        ensures no_fault { result ≢ NextLine.ReadFault }
        ensures empty { IsTrue self.new.ended → (self.new.line.items ≡ []) × (self.new.buffer ≡ []) }
        ensures part { IsPartial limits.line (limits.input - handed_out self.new.ended result) self.new.line.items }
    {
        self.ended = true;
        if self.line.is_empty() {
            NextLine::End
        } else {
            self.hand_out(alloc)
        }
    }

    // Reads until the line ends, passes a limit or can't go on.
    fn read_line<S: Source>(&mut self, alloc: Global, source: &mut S, limits: Limits) -> NextLine
        requires partial { IsPartial limits.line limits.input self.old.line.items }
        requires empty { self.old.buffer ≡ [] }
        requires open { self.old.ended ≡ false }
        ensures next { IsNext limits.line limits.input
            (prepend_known self.old.line.items (S.left source.old)) (prepend_known (self.new.line.items ++ self.new.buffer) (S.left source.new)) self.new.ended result }
        ensures within { IsWithin limits.line limits.input (self.new.line.items ++ self.new.buffer) self.new.ended result }
        ensures fault { result ≡ NextLine.ReadFault → Rose (S.faults source.old) (S.faults source.new) }
        ensures later { S.faults source.old ≤ S.faults source.new }
        ensures empty { IsTrue self.new.ended → (self.new.line.items ≡ []) × (self.new.buffer ≡ []) }
        ensures part { IsPartial limits.line (limits.input - handed_out self.new.ended result) self.new.line.items }
    {
        'pieces: loop {
            match self.buffer.fill(source) {
                ReadAnswer::Got(_) => {}
                ReadAnswer::End => return self.finish(alloc, limits),
                ReadAnswer::Failed => return NextLine::ReadFault,
            }
            if let Some(answer) = self.take_line(alloc, limits) {
                return answer;
            }
        }
    }

    /// The next line of the bytes that are kept and those that the source has left, where the input's
    /// end was not met.
    pub(crate) fn next<S: Source>(
        &mut self,
        alloc: Global,
        source: &mut S,
        limits: Limits,
    ) -> NextLine
        requires partial { IsPartial limits.line limits.input self.old.line.items }
        requires open { self.old.ended ≡ false }
        ensures next { IsNext limits.line limits.input
            (prepend_known (self.old.line.items ++ self.old.buffer) (S.left source.old)) (prepend_known (self.new.line.items ++ self.new.buffer) (S.left source.new)) self.new.ended result }
        ensures within { IsWithin limits.line limits.input (self.new.line.items ++ self.new.buffer) self.new.ended result }
        ensures fault { result ≡ NextLine.ReadFault → Rose (S.faults source.old) (S.faults source.new) }
        ensures later { S.faults source.old ≤ S.faults source.new }
        ensures empty { IsTrue self.new.ended → (self.new.line.items ≡ []) × (self.new.buffer ≡ []) }
        ensures part { IsPartial limits.line (limits.input - handed_out self.new.ended result) self.new.line.items }
    {
        match self.take_line(alloc, limits) {
            Some(answer) => answer,
            None => self.read_line(alloc, source, limits),
        }
    }
}
