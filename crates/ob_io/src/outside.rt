ghost use Rattle.std.specs.Prelude.{◌<◌, ◌≡◌, ◌≤◌, List, ℕ, length, Option};
ghost use Rattle.ob_io.specs.Outside.{IsCount, Takes, IsTaken, Gains, Rose};

/// What a read came to.
#[derive(Clone, Copy, Debug, PartialEq, Eq)]
pub enum ReadAnswer {
    /// So many bytes, which stand at the front of the buffer.
    Got(usize),
    /// No byte is left.
    End,
    /// Nothing was read.
    Failed,
}

/// What a write came to.
#[derive(Clone, Copy, Debug, PartialEq, Eq)]
pub enum WriteAnswer {
    /// The first so many bytes of the piece were taken.
    Took(usize),
    /// Nothing was taken.
    Failed,
}

/// Where bytes come from.
pub trait Source {
    /// The bytes that are left, where it tells them.
    ghost left: { Self → Option (List ℕ) };

    /// How often a read has failed, up to 2^64-1.
    ghost faults: { Self → ℕ };

    /// Takes bytes into the buffer, which isn't empty: at least one and at most its length. `End`
    /// where none is left; `Failed`, which takes none, only where the count of faults rose.
    fn read(&mut self, buf: &mut [u8]) -> ReadAnswer
        requires { 0 < length buf.old }
        ensures count { IsCount result (length buf.new) }
        ensures bytes { Takes (left self.old) (left self.new) result buf.new }
        ensures later { faults self.old ≤ faults self.new }
        ensures failed { result ≡ ReadAnswer.Failed → Rose (faults self.old) (faults self.new) };
}

/// Where bytes go.
pub trait Sink {
    /// The bytes that it holds, where it tells them.
    ghost held: { Self → Option (List ℕ) };

    /// How often a write has failed, up to 2^64-1.
    ghost faults: { Self → ℕ };

    /// Adds bytes of the piece, which isn't empty: its first, and at least one. `Failed`, which adds
    /// none, only where the count of faults rose.
    fn write(&mut self, piece: &[u8]) -> WriteAnswer
        requires { 0 < length piece.now }
        ensures count { IsTaken result (length piece.now) }
        ensures bytes { Gains (held self.old) (held self.new) result piece.now }
        ensures later { faults self.old ≤ faults self.new }
        ensures failed { result ≡ WriteAnswer.Failed → Rose (faults self.old) (faults self.new) };
}
