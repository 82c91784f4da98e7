//! Reads the tokens of a cell as the written descent does.
#![tactic(auto)]

mod cells;
mod imports;
mod parse;
mod yields;

pub use ob_descent_tokens::ParseError;
pub use parse::parsed;
