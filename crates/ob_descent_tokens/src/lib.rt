//! What the descent takes from the tokens of a cell: single tokens, operators by their tables, words
//! and literals, the end of a statement and the head of a function.
#![tactic(auto)]

mod cursor;
mod error;
mod expected;
mod heads;
mod tables;
mod words;

pub use cursor::Cursor;
pub use error::ParseError;
pub use expected::Expected;
pub use heads::{arrow_head, signature};
pub use tables::{assign_of, change_of, infix_of, rank, step_of, unary_of, update_of};
pub use words::{key_of, literal_of};
