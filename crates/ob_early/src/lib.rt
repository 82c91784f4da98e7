//! The early errors of cells: what makes a text that reads as a tree no cell all the same (ECMA-262,
//! "Static Semantics: Early Errors", in the subset of this language).
#![tactic(auto)]

mod chain;
mod errors;
mod place;
mod walker;
mod walks;

pub use errors::is_free_of_errors;
