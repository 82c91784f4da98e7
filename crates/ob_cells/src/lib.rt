//! What a cell defines: its variables, or the names that it imports.
#![tactic(auto)]

mod built;
mod clause;
mod def;
mod pair_set;
mod variables;

pub use built::is_built;
pub use clause::import_of;
pub use def::{Body, ImportClause, Pair, VarDef};
pub use variables::variables_of;

#[cfg(test)]
mod tests;
