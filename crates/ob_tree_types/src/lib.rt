//! The trees of cells, and copies of them.
#![tactic(auto)]

mod cell;
mod cell_copy;
mod copy;
mod tree;

pub use cell::{CellTree, ImportSpec, ImportTree, SpecForm};
pub use ob_base::{AssignOp, ChangeOp, LogicOp, UpdateOp};
pub use sqlite_items::Boxed;
pub use tree::{CatchPart, Decl, DeclValue, Expr, FnBody, ForHead, Function, PropNode, Stmt};
