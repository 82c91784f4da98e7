/// An instruction: the number of its function, where 0 is the text itself, and its place there.
#[derive(Clone, Copy, Debug, PartialEq, Eq)]
pub struct Spot {
    pub function: usize,
    pub place: usize,
}
