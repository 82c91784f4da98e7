use crate::Form;
use ob_base::{List, Text};
use ob_tree_types::{Decl, Expr, FnBody};

/// An expression, and what it ends in.
#[derive(Drop)]
pub struct Piece {
    pub tree: Expr,
    pub form: Form,
}

/// The body of an arrow function, and what it ends in.
#[derive(Drop)]
pub struct Body {
    pub tree: FnBody,
    pub form: Form,
}

/// What stands behind `return` or `yield`, and what it ends in.
#[derive(Drop)]
pub struct Held {
    pub value: Option<Expr>,
    pub form: Form,
}

/// A declaration, and what it ends in.
#[derive(Drop)]
pub struct One {
    pub decl: Decl,
    pub form: Form,
}

/// Declarations, and what the last of them ends in.
#[derive(Drop)]
pub struct Several {
    pub decls: List<Decl>,
    pub form: Form,
}

/// The head of a `for .. of`: whether it is `const`, and the name.
#[derive(Drop)]
pub struct Each {
    pub constant: bool,
    pub name: Text,
}

/// What stands between `function` and the block: whether `*`, the name and the parameters.
#[derive(Drop)]
pub struct Signature {
    pub generator: bool,
    pub name: Option<Text>,
    pub params: List<Text>,
}
