ghost use Rattle.std.specs.Prelude.{◌≡◌, ◌<◌, ◌≤◌, length};
ghost use Rattle.ob_io.specs.Outside.{IsCount, Takes, IsTaken, Gains, Rose, faults_after_read, faults_after_write};

use crate::{ReadAnswer, Sink, Source, WriteAnswer};
use std::io::{Read, Write};
use std::marker::Model;

/// Standard input, or another reader, as a source that doesn't tell its content; contracts see what
/// the reader has left, where std knows that, and how often a read failed.
#[derive(Drop)]
pub struct StdSource<R: Read> {
    inner: R,
    faults: u64,
}

impl<R: Read> Model for StdSource<R> {
    ghost use Rattle.ob_io.specs.Outside.{SystemState};

    ghost Value = { SystemState };

    ghost view = { λ s. record { bytes = R.remaining s.inner; faults = s.faults } };
}

impl<R: Read> StdSource<R> {
    /// A source over a reader, with no fault so far.
    pub fn new(inner: R) -> StdSource<R>
        ensures { result ≡ record { bytes = R.remaining inner; faults = 0 } }
    {
        StdSource { inner, faults: 0 }
    }
}

impl<R: Read> Source for StdSource<R> {
    ghost use Rattle.std.specs.Prelude.{None};

    ghost left = { λ _. None };

    ghost faults = { λ s. s.faults };

    fn read(&mut self, buf: &mut [u8]) -> ReadAnswer
        requires { 0 < length buf.old }
        ensures bytes { Takes self.old.bytes self.new.bytes result buf.new }
        ensures count { IsCount result (length buf.new) }
        ensures faults { self.new.faults ≡ faults_after_read self.old.faults result }
        ensures later { self.old.faults ≤ self.new.faults }
        ensures failed { result ≡ ReadAnswer.Failed → Rose self.old.faults self.new.faults }
    {
        match self.inner.read(buf) {
            Ok(0) => ReadAnswer::End,
            Ok(count) => ReadAnswer::Got(count),
            Err(_) => {
                self.faults = self.faults.saturating_add(1);
                ReadAnswer::Failed
            }
        }
    }
}

/// Standard output, or another writer, as a sink that doesn't tell its content; contracts see what
/// the writer holds, where std knows that, and how often a write failed.
#[derive(Drop)]
pub struct StdSink<W: Write> {
    inner: W,
    faults: u64,
}

impl<W: Write> Model for StdSink<W> {
    ghost use Rattle.ob_io.specs.Outside.{SystemState};

    ghost Value = { SystemState };

    ghost view = { λ s. record { bytes = W.contents s.inner; faults = s.faults } };
}

impl<W: Write> StdSink<W> {
    /// A sink over a writer, with no fault so far.
    pub fn new(inner: W) -> StdSink<W>
        ensures { result ≡ record { bytes = W.contents inner; faults = 0 } }
    {
        StdSink { inner, faults: 0 }
    }
}

impl<W: Write> Sink for StdSink<W> {
    ghost use Rattle.std.specs.Prelude.{None};

    ghost held = { λ _. None };

    ghost faults = { λ s. s.faults };

    fn write(&mut self, piece: &[u8]) -> WriteAnswer
        requires { 0 < length piece.now }
        ensures bytes { Gains self.old.bytes self.new.bytes result piece.now }
        ensures count { IsTaken result (length piece.now) }
        ensures faults { self.new.faults ≡ faults_after_write self.old.faults result }
        ensures later { self.old.faults ≤ self.new.faults }
        ensures failed { result ≡ WriteAnswer.Failed → Rose self.old.faults self.new.faults }
    {
        match self.inner.write(piece) {
            Ok(0) | Err(_) => {
                self.faults = self.faults.saturating_add(1);
                WriteAnswer::Failed
            }
            Ok(count) => WriteAnswer::Took(count),
        }
    }
}
