//! The methods of texts, `join` of arrays, and the functions of `Math`, `String` and the three errors.
#![tactic(auto)]

mod arguments;
mod errors;
mod finds;
mod joins;
mod make;
mod math;
mod parts;
mod search;
mod splits;
mod texts;
mod units;
mod values;

pub use errors::error;
pub use finds::{ends_with, includes, index_of, starts_with};
pub use joins::join;
pub use math::{abs, max, min, sign};
pub use ob_values::Done;
pub use splits::split;
pub use texts::{char_code_at, pad_start, repeat, slice};
pub use values::string;

#[cfg(test)]
mod tests;
