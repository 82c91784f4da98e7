//! The operators on values.
#![tactic(auto)]

mod comparisons;
mod numbers;
mod operators;
mod texts;
mod type_name;

pub use comparisons::{compare, is_truthy};
pub use operators::{binary, unary};
pub use type_name::{TypeName, type_of};

#[cfg(test)]
mod tests;
