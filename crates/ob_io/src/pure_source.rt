ghost use Rattle.std.specs.Prelude.{◌≡◌, ◌≢◌, ◌<◌, length, Some};
ghost use Rattle.ob_io.specs.Outside.{IsCount, Takes};
ghost use Rattle.ob_io.specs.Memory.{pure_answer};

use crate::{ReadAnswer, Source};
use ob_base::List;
use std::marker::Model;

/// Bytes in memory that never fail to be read; contracts see the bytes that are left.
#[derive(Drop)]
pub struct PureSource {
    bytes: List<u8>,
    at: usize,
}

impl Model for PureSource {
    ghost use Rattle.std.specs.Prelude.{List, ℕ, ◌≤◌, drop, length};

    ghost Value = { List ℕ };

    ghost view = { λ s. drop s.at s.bytes };

    ghost invariant = { λ s. s.at ≤ length s.bytes };
}

impl PureSource {
    /// A source of these bytes.
    pub fn new(bytes: List<u8>) -> PureSource
        ensures { result ≡ bytes }
    {
        PureSource { bytes, at: 0 }
    }
}

impl Source for PureSource {
    ghost left = { λ s. Some s };

    ghost faults = { λ _. 0 };

    fn read(&mut self, buf: &mut [u8]) -> ReadAnswer
        requires { 0 < length buf.old }
        ensures count { IsCount result (length buf.new) }
        ensures bytes { Takes (Some self.old) (Some self.new) result buf.new }
        ensures failed { result ≢ ReadAnswer.Failed }
        ensures answer { result ≡ pure_answer self.old (length buf.old) }
    {
        let rest = &self.bytes.as_slice()[self.at..];
        if rest.is_empty() {
            return ReadAnswer::End;
        }
        let count = rest.len().min(buf.len());
        buf[..count].copy_from_slice(&rest[..count]);
        self.at += count;
        ReadAnswer::Got(count)
    }
}
