//! The functions and methods that are built in.
#![tactic(auto)]

mod functions;
mod methods;
mod names;

pub use functions::{call_function, is_function};
pub use methods::{call_method, is_method};
pub use names::{find_method, find_property};
pub use ob_values::Done;

#[cfg(test)]
mod tests;
