use crate::{AssignOp, Boxed, ChangeOp, LogicOp, UpdateOp};
use ob_base::{BinaryOp, CompareOp, List, Text, UnaryOp, Units};

/// An expression (ECMA-262, "ECMAScript Language: Expressions").
#[derive(Drop)]
#[cycle(tree)]
pub enum Expr {
    Undefined,
    Null,
    Bool(bool),
    /// A whole number from -(2^53-1) to 2^53-1.
    Int(i64),
    Text(Units),
    Name(Text),
    /// `viewof` and a name (this project).
    ViewofName(Text),
    Array(List<Expr>),
    Object(List<PropNode>),
    Function(Function),
    /// An arrow function; it has no name and is no generator.
    Arrow(Function),
    Unary(UnaryOp, Boxed<Expr>),
    Binary(BinaryOp, Boxed<Expr>, Boxed<Expr>),
    Compare(CompareOp, Boxed<Expr>, Boxed<Expr>),
    Logic(LogicOp, Boxed<Expr>, Boxed<Expr>),
    /// The test, the value where it holds, and the value where it does not.
    Cond(Boxed<Expr>, Boxed<Expr>, Boxed<Expr>),
    /// The target, then the value.
    Assign(AssignOp, Boxed<Expr>, Boxed<Expr>),
    /// Whether the operator stands before its target, and the target.
    Update(UpdateOp, bool, Boxed<Expr>),
    /// An object and the word after the `.`.
    Member(Boxed<Expr>, Text),
    /// An object and the key in brackets.
    Index(Boxed<Expr>, Boxed<Expr>),
    /// A callee and the arguments.
    Call(Boxed<Expr>, List<Expr>),
    /// `new` with the name after it and the arguments.
    New(Text, List<Expr>),
}

/// A property of an object literal (ECMA-262, "Object Initializer").
#[derive(Drop)]
#[cycle(tree)]
pub enum PropNode {
    /// A name that is key and value.
    Short(Text),
    /// A key that the text gives, and the value.
    Fixed(Units, Expr),
    /// A key in brackets, and the value.
    Computed(Expr, Expr),
}

/// A function, or the body of a cell (ECMA-262, "ECMAScript Language: Functions and Classes").
#[derive(Drop)]
#[cycle(tree)]
pub struct Function {
    pub name: Option<Text>,
    pub params: List<Text>,
    /// Whether a call gives a generator object.
    pub generator: bool,
    pub body: FnBody,
}

/// The body of a function: the items of a block, or an expression whose value is the result.
#[derive(Drop)]
#[cycle(tree)]
pub enum FnBody {
    Items(List<Stmt>),
    Value(Boxed<Expr>),
}

/// A name that is declared, and its first value (ECMA-262, "Let and Const Declarations").
#[derive(Drop)]
#[cycle(tree)]
pub struct Decl {
    pub name: Text,
    pub value: DeclValue,
}

/// What stands behind the name of a declaration: nothing, `=` and an expression, or `=` and `yield`
/// with or without an expression.
#[derive(Drop)]
#[cycle(tree)]
pub enum DeclValue {
    Nothing,
    Value(Expr),
    Yield(Option<Expr>),
}

/// A statement or a declaration (ECMA-262, "ECMAScript Language: Statements and Declarations").
#[derive(Drop)]
#[cycle(tree)]
pub enum Stmt {
    Block(List<Stmt>),
    Empty,
    Expr(Expr),
    Let(List<Decl>),
    Const(List<Decl>),
    /// A function declaration; the function has a name.
    Function(Function),
    /// `yield` with or without an expression, and the name to which what it gives is assigned.
    Yield(Option<Text>, Option<Expr>),
    /// The change of a mutable (this project); no value stands there exactly for `++` and `--`.
    Change(Text, ChangeOp, Option<Expr>),
    If(Expr, Boxed<Stmt>, Option<Boxed<Stmt>>),
    While(Expr, Boxed<Stmt>),
    DoWhile(Boxed<Stmt>, Expr),
    /// The head, the test, the update and the body.
    For(ForHead, Option<Expr>, Option<Expr>, Boxed<Stmt>),
    /// Whether the name is declared by `const` in place of `let`, the name, what is gone through,
    /// and the body.
    ForOf(bool, Text, Expr, Boxed<Stmt>),
    Break,
    Continue,
    Return(Option<Expr>),
    Throw(Expr),
    /// The items of `try`, the `catch` part, and the items of `finally`.
    Try(List<Stmt>, Option<CatchPart>, Option<List<Stmt>>),
}

/// What stands first in the parentheses of a `for` with two `;`.
#[derive(Drop)]
#[cycle(tree)]
pub enum ForHead {
    Nothing,
    Let(List<Decl>),
    Const(List<Decl>),
    Expr(Expr),
}

/// The `catch` part of a `try`: the name of what was thrown, if it has one, and the items.
#[derive(Drop)]
#[cycle(tree)]
pub struct CatchPart {
    pub name: Option<Text>,
    pub items: List<Stmt>,
}
