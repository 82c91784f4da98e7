//! The methods of arrays, and the functions of `Object` and of `Array`.
#![tactic(auto)]

mod appends;
mod copies;
mod making;
mod objects;
mod pairs;
mod removals;
mod reversal;
mod searches;

pub use appends::push;
pub use copies::{concat, slice};
pub use objects::{has_own, keys, values};
pub use pairs::entries;
pub use removals::{pop, shift};
pub use reversal::reverse;
pub use searches::{includes, index_of, is_array};

#[cfg(test)]
mod tests;
