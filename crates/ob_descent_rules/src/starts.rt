//! How a statement begins.

ghost use Rattle.std.specs.Prelude.{◌≡◌};
ghost use Rattle.ob_descent_rules.specs.Starts.{start_of, word_start, mark_start};

use ob_base::ReservedWord;
use ob_lex::{Punctuator, TokenKind};

/// What the first token of a statement or declaration says of it (ECMA-262, "Statements and
/// Declarations", in the subset of this language).
#[derive(Clone, Copy, Debug, PartialEq, Eq)]
pub enum Start {
    /// `{`
    Block,
    /// `;`
    Empty,
    /// A name, which may be what a `yield` is assigned to.
    Name,
    Let,
    Const,
    Function,
    Yield,
    Mutable,
    If,
    While,
    Do,
    For,
    Break,
    Continue,
    Return,
    Throw,
    Try,
    /// Any other token, which can only begin an expression.
    Expression,
}

/// How a statement that begins with that token begins.
#[tactic(auto, unfolding(crate::specs::Starts::start_of))]
pub fn start_of(kind: &TokenKind) -> Start
    ensures { result ≡ start_of kind.now }
{
    match kind {
        TokenKind::Punctuator(mark) => mark_start(*mark),
        TokenKind::Reserved(word) => word_start(*word),
        TokenKind::Name(_) => Start::Name,
        _ => Start::Expression,
    }
}

#[tactic(auto, unfolding(crate::specs::Starts::mark_start))]
fn mark_start(mark: Punctuator) -> Start
    ensures { result ≡ mark_start mark }
{
    match mark {
        Punctuator::OpenBrace => Start::Block,
        Punctuator::Semicolon => Start::Empty,
        _ => Start::Expression,
    }
}

#[tactic(auto, unfolding(crate::specs::Starts::word_start))]
fn word_start(word: ReservedWord) -> Start
    ensures { result ≡ word_start word }
{
    match word {
        ReservedWord::Let => Start::Let,
        ReservedWord::Const => Start::Const,
        ReservedWord::Function => Start::Function,
        ReservedWord::Yield => Start::Yield,
        ReservedWord::Mutable => Start::Mutable,
        ReservedWord::If => Start::If,
        ReservedWord::While => Start::While,
        ReservedWord::Do => Start::Do,
        ReservedWord::For => Start::For,
        ReservedWord::Break => Start::Break,
        ReservedWord::Continue => Start::Continue,
        ReservedWord::Return => Start::Return,
        ReservedWord::Throw => Start::Throw,
        ReservedWord::Try => Start::Try,
        _ => Start::Expression,
    }
}
