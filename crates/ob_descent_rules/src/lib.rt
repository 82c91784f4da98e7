//! The rules of expressions and statements: each reads what the written descent reads there.
#![tactic(auto)]

mod arrows;
mod blocks;
mod decls;
mod kept;
mod lists;
mod loops;
mod measured;
mod nesting;
mod operators;
mod primary;
mod read;
mod rules;
mod starts;
mod statements;

pub use nesting::Nested;
pub use read::{block, read_expr, read_statement};
