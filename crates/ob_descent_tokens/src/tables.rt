//! The tables of the operators.

ghost use Rattle.std.specs.Prelude.{◌≡◌, ◌≤◌, if◌then◌else◌};
ghost use Rattle.ob_grammar.specs.Marks as marks;
ghost use Rattle.ob_grammar.specs.Forms as forms;
ghost use Rattle.ob_lex.specs.declared.token.TokenKind.TheVariants as kind;

use ob_base::{BinaryOp, CompareOp, ReservedWord, UnaryOp};
use ob_grammar::Infix;
use ob_lex::{Punctuator, Token, TokenKind};
use ob_tree_types::{AssignOp, ChangeOp, LogicOp, UpdateOp};

/// How loosely a token ties what follows it to what stands before it; 19 where it ties nothing.
#[tactic(auto, unfolding(ob_grammar::specs::Marks::rank_by))]
pub fn rank(token: &Token) -> u8
    ensures value { result ≡ marks.rank token.now }
    ensures small { result ≤ 19 }
{
    match &token.kind {
        TokenKind::Punctuator(mark) => mark_rank(token.break_before, *mark),
        _ => 19,
    }
}

#[tactic(auto, unfolding(ob_grammar::specs::Marks::mark_rank))]
fn mark_rank(breaks: bool, mark: Punctuator) -> u8
    ensures value { result ≡ marks.mark_rank breaks mark }
    ensures small { result ≤ 19 }
{
    match mark {
        Punctuator::Dot | Punctuator::OpenParenthesis | Punctuator::OpenBracket => 0,
        Punctuator::PlusPlus | Punctuator::MinusMinus => on_line(breaks, 1),
        Punctuator::StarStar => 2,
        Punctuator::Star | Punctuator::Slash | Punctuator::Percent => 3,
        Punctuator::Plus | Punctuator::Minus => 4,
        Punctuator::ShiftLeft | Punctuator::ShiftRight | Punctuator::ShiftRightUnsigned => 5,
        Punctuator::Less | Punctuator::Greater | Punctuator::LessEqual | Punctuator::GreaterEqual =>
            6,
        Punctuator::Same | Punctuator::NotSame => 7,
        Punctuator::Ampersand => 8,
        Punctuator::Caret => 9,
        Punctuator::Bar => 10,
        Punctuator::And => 11,
        Punctuator::Or => 12,
        Punctuator::Coalesce => 13,
        Punctuator::Question => 14,
        Punctuator::Assign
        | Punctuator::PlusAssign
        | Punctuator::MinusAssign
        | Punctuator::StarAssign
        | Punctuator::SlashAssign
        | Punctuator::PercentAssign
        | Punctuator::StarStarAssign
        | Punctuator::ShiftLeftAssign
        | Punctuator::ShiftRightAssign
        | Punctuator::ShiftRightUnsignedAssign
        | Punctuator::AmpersandAssign
        | Punctuator::BarAssign
        | Punctuator::CaretAssign
        | Punctuator::AndAssign
        | Punctuator::OrAssign
        | Punctuator::CoalesceAssign => 15,
        Punctuator::Arrow => on_line(breaks, 16),
        Punctuator::Comma => 17,
        Punctuator::Semicolon => 18,
        _ => 19,
    }
}

/// The rank of a mark that ties nothing after a line break.
fn on_line(breaks: bool, rank: u8) -> u8
    requires { rank ≤ 19 }
    ensures value { result ≡ (if breaks then 19 else rank) }
    ensures small { result ≤ 19 }
{
    if breaks { 19 } else { rank }
}

/// The operator that a token is between two operands.
#[tactic(auto, unfolding(ob_grammar::specs::Marks::infix_of))]
pub fn infix_of(kind: &TokenKind) -> Option<Infix>
    ensures { result ≡ marks.infix_of kind.now }
{
    match kind {
        TokenKind::Punctuator(mark) => infix_mark(*mark),
        _ => None,
    }
}

#[tactic(auto, unfolding(ob_grammar::specs::Marks::infix_of))]
fn infix_mark(mark: Punctuator) -> Option<Infix>
    ensures { result ≡ marks.infix_of (kind.Punctuator mark) }
{
    match mark {
        Punctuator::Star => Some(Infix::Computes(BinaryOp::Mul)),
        Punctuator::Slash => Some(Infix::Computes(BinaryOp::Div)),
        Punctuator::Percent => Some(Infix::Computes(BinaryOp::Rem)),
        Punctuator::Plus => Some(Infix::Computes(BinaryOp::Add)),
        Punctuator::Minus => Some(Infix::Computes(BinaryOp::Sub)),
        Punctuator::ShiftLeft => Some(Infix::Computes(BinaryOp::Shl)),
        Punctuator::ShiftRight => Some(Infix::Computes(BinaryOp::Shr)),
        Punctuator::ShiftRightUnsigned => Some(Infix::Computes(BinaryOp::ShrUnsigned)),
        Punctuator::Less => Some(Infix::Compares(CompareOp::Less)),
        Punctuator::Greater => Some(Infix::Compares(CompareOp::Greater)),
        Punctuator::LessEqual => Some(Infix::Compares(CompareOp::LessEq)),
        Punctuator::GreaterEqual => Some(Infix::Compares(CompareOp::GreaterEq)),
        Punctuator::Same => Some(Infix::Compares(CompareOp::Same)),
        Punctuator::NotSame => Some(Infix::Compares(CompareOp::NotSame)),
        Punctuator::Ampersand => Some(Infix::Computes(BinaryOp::BitAnd)),
        Punctuator::Caret => Some(Infix::Computes(BinaryOp::BitXor)),
        Punctuator::Bar => Some(Infix::Computes(BinaryOp::BitOr)),
        Punctuator::And => Some(Infix::Chooses(LogicOp::And)),
        Punctuator::Or => Some(Infix::Chooses(LogicOp::Or)),
        Punctuator::Coalesce => Some(Infix::Chooses(LogicOp::Nullish)),
        _ => None,
    }
}

/// The operator that a token is before its one operand.
#[tactic(auto, unfolding(ob_grammar::specs::Marks::unary_of))]
pub fn unary_of(kind: &TokenKind) -> Option<UnaryOp>
    ensures { result ≡ marks.unary_of kind.now }
{
    match kind {
        TokenKind::Punctuator(Punctuator::Not) => Some(UnaryOp::Not),
        TokenKind::Punctuator(Punctuator::Minus) => Some(UnaryOp::Minus),
        TokenKind::Punctuator(Punctuator::Plus) => Some(UnaryOp::Plus),
        TokenKind::Punctuator(Punctuator::Tilde) => Some(UnaryOp::BitNot),
        TokenKind::Reserved(ReservedWord::Typeof) => Some(UnaryOp::Typeof),
        TokenKind::Reserved(ReservedWord::Void) => Some(UnaryOp::Void),
        _ => None,
    }
}

/// `++` or `--`.
#[tactic(auto, unfolding(ob_grammar::specs::Marks::update_of))]
pub fn update_of(kind: &TokenKind) -> Option<UpdateOp>
    ensures { result ≡ marks.update_of kind.now }
{
    match kind {
        TokenKind::Punctuator(Punctuator::PlusPlus) => Some(UpdateOp::Up),
        TokenKind::Punctuator(Punctuator::MinusMinus) => Some(UpdateOp::Down),
        _ => None,
    }
}

/// The operator of an assignment.
#[tactic(auto, unfolding(ob_grammar::specs::Marks::assign_of))]
pub fn assign_of(kind: &TokenKind) -> Option<AssignOp>
    ensures { result ≡ marks.assign_of kind.now }
{
    match kind {
        TokenKind::Punctuator(mark) => assign_mark(*mark),
        _ => None,
    }
}

#[tactic(auto, unfolding(ob_grammar::specs::Marks::assign_of))]
fn assign_mark(mark: Punctuator) -> Option<AssignOp>
    ensures { result ≡ marks.assign_of (kind.Punctuator mark) }
{
    match mark {
        Punctuator::Assign => Some(AssignOp::Set),
        Punctuator::PlusAssign => Some(AssignOp::Binary(BinaryOp::Add)),
        Punctuator::MinusAssign => Some(AssignOp::Binary(BinaryOp::Sub)),
        Punctuator::StarAssign => Some(AssignOp::Binary(BinaryOp::Mul)),
        Punctuator::SlashAssign => Some(AssignOp::Binary(BinaryOp::Div)),
        Punctuator::PercentAssign => Some(AssignOp::Binary(BinaryOp::Rem)),
        Punctuator::StarStarAssign => Some(AssignOp::Binary(BinaryOp::Pow)),
        Punctuator::ShiftLeftAssign => Some(AssignOp::Binary(BinaryOp::Shl)),
        Punctuator::ShiftRightAssign => Some(AssignOp::Binary(BinaryOp::Shr)),
        Punctuator::ShiftRightUnsignedAssign => Some(AssignOp::Binary(BinaryOp::ShrUnsigned)),
        Punctuator::AmpersandAssign => Some(AssignOp::Binary(BinaryOp::BitAnd)),
        Punctuator::BarAssign => Some(AssignOp::Binary(BinaryOp::BitOr)),
        Punctuator::CaretAssign => Some(AssignOp::Binary(BinaryOp::BitXor)),
        Punctuator::AndAssign => Some(AssignOp::Logic(LogicOp::And)),
        Punctuator::OrAssign => Some(AssignOp::Logic(LogicOp::Or)),
        Punctuator::CoalesceAssign => Some(AssignOp::Logic(LogicOp::Nullish)),
        _ => None,
    }
}

/// What a change of a mutable with a value does.
#[tactic(auto, unfolding(ob_grammar::specs::Marks::change_of))]
pub fn change_of(kind: &TokenKind) -> Option<ChangeOp>
    ensures { result ≡ marks.change_of kind.now }
{
    match kind {
        TokenKind::Punctuator(Punctuator::Assign) => Some(ChangeOp::Set),
        TokenKind::Punctuator(Punctuator::PlusAssign) => Some(ChangeOp::Add),
        TokenKind::Punctuator(Punctuator::MinusAssign) => Some(ChangeOp::Sub),
        TokenKind::Punctuator(Punctuator::StarAssign) => Some(ChangeOp::Mul),
        _ => None,
    }
}

/// What a change of a mutable without a value does.
#[tactic(auto, unfolding(ob_grammar::specs::Marks::step_of))]
pub fn step_of(kind: &TokenKind) -> Option<ChangeOp>
    ensures { result ≡ marks.step_of kind.now }
{
    match kind {
        TokenKind::Punctuator(Punctuator::PlusPlus) => Some(ChangeOp::Up),
        TokenKind::Punctuator(Punctuator::MinusMinus) => Some(ChangeOp::Down),
        _ => None,
    }
}

/// `const` (true) or `let`.
#[tactic(auto, unfolding(ob_grammar::specs::Marks::declares_constant))]
pub fn declares_constant(kind: &TokenKind) -> Option<bool>
    ensures { result ≡ marks.declares_constant kind.now }
{
    match kind {
        TokenKind::Reserved(ReservedWord::Const) => Some(true),
        TokenKind::Reserved(ReservedWord::Let) => Some(false),
        _ => None,
    }
}

/// Whether no value stands behind `return` or `yield` before this token.
#[tactic(auto, unfolding(ob_grammar::specs::Forms::ends_value))]
pub fn ends_value(kind: &TokenKind) -> bool
    ensures { result ≡ forms.ends_value kind.now }
{
    matches!(
        kind,
        TokenKind::Punctuator(Punctuator::Semicolon | Punctuator::Comma | Punctuator::CloseBrace)
    )
}
