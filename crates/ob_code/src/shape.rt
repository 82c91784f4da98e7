/// What is open at a place of a function's code: nothing; what the instruction at a place opened;
/// or the part that follows a part which the `Last` at a place opened.
#[derive(Clone, Copy, Debug, PartialEq, Eq)]
pub enum Open {
    Nothing,
    In(usize),
    After(usize),
}

/// What a call has at a place of its code: so many operands, at least so many locals and boxes, and
/// what is open.
#[derive(Clone, Copy, Debug, PartialEq, Eq)]
pub struct Shape {
    pub operands: u32,
    pub locals: usize,
    pub boxes: usize,
    pub inside: Open,
}

/// A place to which an instruction leads, and the shape in which it leaves the call there.
#[derive(Clone, Copy, Debug, PartialEq, Eq)]
pub struct Way {
    pub place: usize,
    pub shape: Shape,
}

/// The places ahead to which an instruction leads.
#[derive(Clone, Copy, Debug, PartialEq, Eq)]
pub enum Ways {
    Nowhere,
    One(Way),
    Two(Way, Way),
    Three(Way, Way, Way),
}
