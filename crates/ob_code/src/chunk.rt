use crate::Op;
use ob_base::{List, Units};

/// The numbers of the methods of a name, for each kind of receiver that has one of it; the name
/// stands at a place of the function's texts.
#[derive(Clone, Copy, Debug, PartialEq, Eq)]
pub struct Methods {
    pub name: u32,
    pub array: Option<u16>,
    pub text: Option<u16>,
    pub generator: Option<u16>,
    pub invalidation: Option<u16>,
}

/// The code of a text, or of a function in it.
#[derive(Drop)]
pub struct Chunk {
    /// The instructions, from the entry on.
    pub ops: List<Op>,
    /// The texts that instructions name by their places.
    pub texts: List<Units>,
    /// The methods that instructions name by their places.
    pub methods: List<Methods>,
    /// The functions of the text in text order: the function with the number n is the one at the
    /// place n - 1. A function in this list has none of its own.
    pub functions: List<Chunk>,
    /// How many locals a call has at most.
    pub locals: u32,
    /// How many operands a call has at most.
    pub operands: u32,
    /// Which boxes a function value keeps, by their places among those of the call that makes it.
    pub captures: List<u32>,
    /// Whether a function value keeps the invalidation object of its run.
    pub invalidation: bool,
}
