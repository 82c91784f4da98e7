/// Where a binding stands: its number, and how many functions stand around its scope.
#[derive(Clone, Copy)]
pub struct Spot {
    pub number: usize,
    pub depth: usize,
}

/// What a name means: nothing in the cell, the binding of a number in the function in which the
/// name stands, or one in a function around that.
#[derive(Clone, Copy)]
pub enum Meaning {
    Free,
    Local(usize),
    Captured(usize),
}
