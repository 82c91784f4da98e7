//! The texts of values and of failures, for traces and logs.
#![tactic(auto)]

mod failure;
mod item;
mod key;
mod page;
mod print;
mod quoted;

pub use failure::{failure_message, failure_text};
pub use print::inspect;

#[cfg(test)]
mod tests;
