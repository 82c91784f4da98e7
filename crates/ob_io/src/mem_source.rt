ghost use Rattle.std.specs.Prelude.{◌≡◌, [], ◌<◌, ◌≤◌, ◌↔◌, drop, length, Some, All, IsTrue};
ghost use Rattle.ob_io.specs.Outside.{IsCount, Takes, Rose};
ghost use Rattle.ob_io.specs.Memory.{read_answer, after_read, piece_size, fails_next};

use crate::{ReadAnswer, Source};
use ob_base::List;
use std::marker::Model;

/// A source in memory, which hands out pieces of given sizes and fails at given calls; contracts see
/// the bytes left, the sizes to come, the failing calls, and how many calls and faults there were.
#[derive(Drop)]
pub struct MemSource {
    bytes: List<u8>,
    at: usize,
    sizes: List<usize>,
    turn: usize,
    failing: List<u64>,
    calls: u64,
    faults: u64,
}

impl Model for MemSource {
    ghost use Rattle.std.specs.Prelude.{◌≤◌, ◌<◌, drop, length, All};
    ghost use Rattle.ob_io.specs.Memory.{Reading};

    ghost Value = { Reading };

    ghost view = { λ s. record { left = drop s.at s.bytes; sizes = drop s.turn s.sizes; failing = s.failing; calls = s.calls; faults = s.faults } };

    ghost invariant = { λ s. (s.at ≤ length s.bytes) × (s.turn ≤ length s.sizes) × All (λ size. 0 < size) s.sizes };
}

impl MemSource {
    /// A source of these bytes, of which the calls with the numbers in `failing`, from 1, fail. The
    /// `k`-th of the other calls hands out at most the `k`-th size, in bytes, and each that comes
    /// after the sizes as many bytes as there is room for.
    pub fn new(bytes: List<u8>, sizes: List<usize>, failing: List<u64>) -> MemSource
        requires { All (λ size. 0 < size) sizes }
        ensures { result ≡ record { left = bytes; sizes = sizes; failing = failing; calls = 0; faults = 0 } }
    {
        MemSource {
            bytes,
            at: 0,
            sizes,
            turn: 0,
            failing,
            calls: 0,
            faults: 0,
        }
    }

    /// Whether these can be the sizes of the pieces of a source: none is 0.
    pub fn are_sizes(sizes: &[usize]) -> bool
        ensures { IsTrue result ↔ All (λ size. 0 < size) sizes.now }
    {
        sizes.iter().all(|size| *size > 0)
    }
}

/// Whether the call after so many is one that fails.
pub(crate) fn is_failing(failing: &[u64], calls: u64) -> bool
    ensures { result ≡ fails_next failing.now calls }
{
    let number = calls.saturating_add(1);
    failing.iter().any(|n| *n == number)
}

// How many bytes the next piece has.
fn piece_len(sizes: &[usize], room: usize, left: usize) -> usize
    requires { All (λ size. 0 < size) sizes.now }
    ensures size { result ≡ piece_size sizes.now room left }
    ensures some { 0 < room → 0 < left → 1 ≤ result }
    ensures room { result ≤ room }
    ensures left { result ≤ left }
{
    match sizes {
        [] => room.min(left),
        [size, ..] => (*size).min(room.min(left)),
    }
}

// The turn after this one; past the sizes it stands still.
fn next_turn(sizes: &[usize], turn: usize) -> usize
    requires { turn ≤ length sizes.now }
    ensures within { result ≤ length sizes.now }
    ensures rest { drop result sizes.now ≡ drop 1 (drop turn sizes.now) }
{
    if turn < sizes.len() { turn + 1 } else { turn }
}

impl Source for MemSource {
    ghost left = { λ s. Some s.left };

    ghost faults = { λ s. s.faults };

    fn read(&mut self, buf: &mut [u8]) -> ReadAnswer
        requires { 0 < length buf.old }
        ensures count { IsCount result (length buf.new) }
        ensures bytes { Takes (Some self.old.left) (Some self.new.left) result buf.new }
        ensures later { self.old.faults ≤ self.new.faults }
        ensures failed { result ≡ ReadAnswer.Failed → Rose self.old.faults self.new.faults }
        ensures answer { result ≡ read_answer self.old (length buf.old) }
        ensures after { self.new ≡ after_read self.old result }
    {
        let fails = is_failing(self.failing.as_slice(), self.calls);
        self.calls = self.calls.saturating_add(1);
        if fails {
            self.faults = self.faults.saturating_add(1);
            return ReadAnswer::Failed;
        }
        let sizes = self.sizes.as_slice();
        let rest = &self.bytes.as_slice()[self.at..];
        let count = piece_len(&sizes[self.turn..], buf.len(), rest.len());
        self.turn = next_turn(sizes, self.turn);
        if rest.is_empty() {
            return ReadAnswer::End;
        }
        buf[..count].copy_from_slice(&rest[..count]);
        self.at += count;
        ReadAnswer::Got(count)
    }
}
