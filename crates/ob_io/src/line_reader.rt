ghost use Rattle.std.specs.Prelude.{◌≡◌, [], ◌+◌, ◌-◌, ◌^◌, ◌<◌, ◌≤◌, false, IfOk, IsTrue, IsFalse};
ghost use Rattle.std.specs.Io.KnownBytes.{prepend_known};
ghost use Rattle.ob_io.specs.Lines.{IsNext, IsWithin, handed_out};
ghost use Rattle.ob_io.specs.Outside.{Rose};

use crate::buffer::Buffer;
use crate::pending::{Limits, Pending};
use crate::{NextLine, Source};
use ob_base::NoMemory;
use std::alloc::Global;
use std::marker::Model;

/// Takes lines from a source; contracts see the bytes that it keeps, its two limits, how many bytes
/// it handed out, and whether it met the input's end.
#[derive(Drop)]
pub struct LineReader {
    alloc: Global,
    pending: Pending,
    line_limit: usize,
    input_limit: u64,
    handed: u64,
}

impl Model for LineReader {
    ghost use Rattle.std.specs.Prelude.{◌≡◌, [], ◌-◌, ◌≤◌, ◌++◌, IsTrue};
    ghost use Rattle.ob_io.specs.Lines.{LineState, IsPartial};

    ghost Value = { LineState };

    ghost view = { λ r. record { kept = r.pending.line.items ++ r.pending.buffer; line_limit = r.line_limit; input_limit = r.input_limit; handed = r.handed; ended = r.pending.ended } };

    ghost invariant = { λ r. (r.handed ≤ r.input_limit)
        × IsPartial r.line_limit (r.input_limit - r.handed) r.pending.line.items
        × (IsTrue r.pending.ended → (r.pending.line.items ≡ []) × (r.pending.buffer ≡ [])) };
}

// How many bytes of the input an answer hands out.
fn handed_len(answer: &NextLine, ended: bool) -> u64
    requires { handed_out ended answer.now < 2 ^ 64 }
    ensures { result ≡ handed_out ended answer.now }
{
    match answer {
        NextLine::Line(line) => line.len() as u64 + if ended { 0 } else { 1 },
        _ => 0,
    }
}

impl LineReader {
    /// A reader that has taken nothing, for lines of at most `line_limit` bytes, their line feeds
    /// aside, of an input of at most `input_limit` bytes.
    ///
    /// # Errors
    /// `NoMemory` where the allocation of its buffer, 65,536 bytes, is refused.
    pub fn new(alloc: Global, line_limit: usize, input_limit: u64) -> Result<LineReader, NoMemory>
        ensures { IfOk result (λ r. r ≡ record { kept = []; line_limit = line_limit; input_limit = input_limit; handed = 0; ended = false }) }
    {
        let pending = Pending {
            line: Vec::new(alloc),
            buffer: Buffer::new(alloc)?,
            ended: false,
        };
        Ok(LineReader {
            alloc,
            pending,
            line_limit,
            input_limit,
            handed: 0,
        })
    }

    /// The next line of the bytes that it keeps and those that the source has left. With each answer
    /// but `Line` these bytes stay, so that the next call goes on after `ReadFault` and `NoMemory`.
    /// After a `Line` that no line feed ended, the next call answers `End` and doesn't read.
    pub fn next_line<S: Source>(&mut self, source: &mut S) -> NextLine
        ensures next { IsFalse self.old.ended → IsNext self.old.line_limit (self.old.input_limit - self.old.handed)
            (prepend_known self.old.kept (S.left source.old)) (prepend_known self.new.kept (S.left source.new)) self.new.ended result }
        ensures over { IsTrue self.old.ended → (result ≡ NextLine.End) × (self.new ≡ self.old) × (source.new ≡ source.old) }
        ensures within { IsFalse self.old.ended → IsWithin self.old.line_limit (self.old.input_limit - self.old.handed) self.new.kept self.new.ended result }
        ensures limits { (self.new.line_limit ≡ self.old.line_limit) × (self.new.input_limit ≡ self.old.input_limit) }
        ensures handed { self.new.handed ≡ self.old.handed + handed_out self.new.ended result }
        ensures fault { result ≡ NextLine.ReadFault → Rose (S.faults source.old) (S.faults source.new) }
        ensures later { S.faults source.old ≤ S.faults source.new }
    {
        if self.pending.ended {
            return NextLine::End;
        }
        let limits = Limits {
            line: self.line_limit,
            input: self.input_limit - self.handed,
        };
        let answer = self.pending.next(self.alloc, source, limits);
        self.handed += handed_len(&answer, self.pending.ended);
        answer
    }
}
