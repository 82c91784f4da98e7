use ob_base::{BinaryOp, CompareOp};
use ob_tree_types::LogicOp;

/// What a piece ends in, which decides what may stand after it.
#[derive(Clone, Copy, Debug, PartialEq, Eq)]
pub enum Form {
    /// A name, a member or an index: a target of an assignment (ECMA-262, "Static Semantics:
    /// AssignmentTargetType").
    Target,
    /// Another value, with which every operator goes on.
    Other,
    /// `++` or `--` behind a target: no call, member or index of it.
    Updated,
    /// The block of an arrow function, or the name of a declaration: no operator goes on with it.
    Closed,
    /// A word such as `return`, `yield` or `break` with nothing behind it on its line.
    Bare,
}

/// An operator between two operands that groups to the left.
#[derive(Clone, Copy, Debug, PartialEq, Eq)]
pub enum Infix {
    Computes(BinaryOp),
    Compares(CompareOp),
    Chooses(LogicOp),
}

/// What is read one nesting deeper besides expressions.
#[derive(Clone, Copy, Debug, PartialEq, Eq)]
pub enum Level {
    Item,
    Statement,
}
