use ob_items::{Ref, Value};

/// How what is open is left before its end.
#[derive(Clone, Copy, Debug, PartialEq, Eq)]
pub enum Leaving {
    Break,
    Continue,
    Return(Value),
    Throw(Value),
}

/// What is open in a running call: what a throw, a `break`, a `continue` or a `return` comes to.
#[derive(Clone, Copy, Debug, PartialEq, Eq)]
pub enum Entry {
    /// A part that is watched: where its handler stands.
    Handler(usize),
    /// A loop: where `break` and where `continue` go on.
    Turn(usize, usize),
    /// A loop over the elements of an array, with the index of the next one.
    Elements(usize, usize, Ref, usize),
    /// A loop over what a generator object gives.
    Pulls(usize, usize, Ref),
    /// A part that another follows: where that stands.
    Last(usize),
    /// The part that follows: how the first one was left, if it did not end in the ordinary way.
    After(Option<Leaving>),
}
