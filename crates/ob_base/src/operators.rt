/// An operator on two operands that gives a value (ECMA-262, "Multiplicative Operators" to "Binary
/// Bitwise Operators").
#[derive(Clone, Copy, Debug, PartialEq, Eq)]
pub enum BinaryOp {
    Add,
    Sub,
    Mul,
    Div,
    Rem,
    Pow,
    BitAnd,
    BitOr,
    BitXor,
    Shl,
    Shr,
    ShrUnsigned,
}

/// A comparison; `Same` is `===` (ECMA-262, "Relational Operators" and "Equality Operators").
#[derive(Clone, Copy, Debug, PartialEq, Eq)]
pub enum CompareOp {
    Less,
    Greater,
    LessEq,
    GreaterEq,
    Same,
    NotSame,
}

/// An operator on one operand (ECMA-262, "Unary Operators").
#[derive(Clone, Copy, Debug, PartialEq, Eq)]
pub enum UnaryOp {
    Not,
    Minus,
    Plus,
    BitNot,
    Typeof,
    Void,
}

/// An operator that evaluates its second operand only where it is needed (ECMA-262, "Binary Logical
/// Operators"): `&&`, `||` and `??`.
#[derive(Clone, Copy, Debug, PartialEq, Eq)]
pub enum LogicOp {
    And,
    Or,
    Nullish,
}

/// The operator of an assignment (ECMA-262, "Assignment Operators"): `=`, or `=` after an operator.
#[derive(Clone, Copy, Debug, PartialEq, Eq)]
pub enum AssignOp {
    Set,
    Binary(BinaryOp),
    Logic(LogicOp),
}

/// `++` or `--` (ECMA-262, "Update Expressions").
#[derive(Clone, Copy, Debug, PartialEq, Eq)]
pub enum UpdateOp {
    Up,
    Down,
}

/// What a change of a mutable does with its value (this project): `=`, `+=`, `-=`, `*=`, `++` or
/// `--`.
#[derive(Clone, Copy, Debug, PartialEq, Eq)]
pub enum ChangeOp {
    Set,
    Add,
    Sub,
    Mul,
    Up,
    Down,
}
