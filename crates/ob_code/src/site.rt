use crate::{Methods, Op};
use ob_base::Units;

/// What the rules look at in a function.
#[derive(Clone, Copy)]
pub struct Site<'a> {
    pub ops: &'a [Op],
    pub texts: &'a [Units],
    pub methods: &'a [Methods],
    pub locals: u32,
    pub operands: u32,
    /// How many boxes a call has at its entry.
    pub boxes: usize,
    /// How many boxes a call must have to make a function value of each function of the text.
    pub asked: &'a [usize],
}
