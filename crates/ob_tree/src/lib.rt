//! Trees of cells: their types, copies, depth, canonical text and names.
#![tactic(auto)]

mod cell_text;
mod depths;
mod marks;
mod printing;
mod quoted;

pub use cell_text::print_cell;
pub use depths::{depth, depth_in_exprs, depth_of_expr};
pub use ob_tree_types::{
    AssignOp, Boxed, CatchPart, CellTree, ChangeOp, Decl, DeclValue, Expr, FnBody, ForHead,
    Function, ImportSpec, ImportTree, LogicOp, PropNode, SpecForm, Stmt, UpdateOp,
};
