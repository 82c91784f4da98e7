//! The trees of the builtins that are written in the language itself, one for each of their texts.
#![tactic(auto)]

mod errors;
mod expressions;
mod prelude;
mod statements;
mod trees;

pub use prelude::{Prelude, prelude_tree};
