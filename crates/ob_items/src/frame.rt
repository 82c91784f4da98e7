use crate::{CodeKey, Ref, Value};
use ob_base::List;

/// An activation of a function that can go on.
#[derive(Drop)]
pub struct Frame {
    pub code: CodeKey,
    /// The next instruction, by its place in the function.
    pub place: usize,
    /// The boxes of the captured bindings.
    pub boxes: List<Ref>,
    /// The array of the inputs.
    pub inputs: Ref,
    /// The locals; none before the declaration has run.
    pub locals: List<Option<Value>>,
    pub operands: List<Value>,
    pub catches: List<Catch>,
}

/// Where a throw goes on, and with how many operands. `last` stands for a `finally`.
#[derive(Clone, Copy, Debug, PartialEq, Eq)]
pub struct Catch {
    pub place: usize,
    pub operands: usize,
    pub last: bool,
}

/// What a generator object keeps.
#[derive(Drop)]
pub enum Taken {
    /// The frame in which it stands still.
    Held(Frame),
    /// Nothing: it runs.
    Runs,
    /// Nothing: it has ended.
    Ended,
}
