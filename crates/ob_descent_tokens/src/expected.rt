//! The tokens that the rules name.

ghost use Rattle.std.specs.Prelude.{◌≡◌};
ghost use Rattle.ob_grammar.specs.Taking as taking;
ghost use Rattle.ob_descent_tokens.specs.Tests.{test_of};

use ob_base::ReservedWord;
use ob_lex::{Punctuator, TokenKind};

/// A token that a rule names.
#[derive(Clone, Copy, Debug, PartialEq, Eq)]
pub enum Expected {
    /// `(`
    OpenParenthesis,
    /// `)`
    CloseParenthesis,
    /// `[`
    OpenBracket,
    /// `]`
    CloseBracket,
    /// `{`
    OpenBrace,
    /// `}`
    CloseBrace,
    /// `,`
    Comma,
    /// `;`
    Semicolon,
    /// `:`
    Colon,
    /// `?`
    Question,
    /// `*`
    Star,
    /// `**`
    StarStar,
    /// `=`
    Assign,
    /// `=>`
    Arrow,
    /// `else`
    Else,
    /// `while`
    While,
    /// `catch`
    Catch,
    /// `yield`
    Yield,
    /// `function`
    Function,
    /// `with`
    With,
    /// `of`
    Of,
    /// `as`
    As,
    /// `from`
    From,
}

impl Expected {
    /// Whether a token is that one.
    pub fn is(self, kind: &TokenKind) -> bool
        ensures { result ≡ test_of self kind.now }
    {
        match self {
            Expected::OpenParenthesis => opens_parenthesis(kind),
            Expected::CloseParenthesis => closes_parenthesis(kind),
            Expected::OpenBracket => opens_bracket(kind),
            Expected::CloseBracket => closes_bracket(kind),
            Expected::OpenBrace => opens_brace(kind),
            Expected::CloseBrace => closes_brace(kind),
            Expected::Comma => is_comma(kind),
            Expected::Semicolon => is_semicolon(kind),
            Expected::Colon => is_colon(kind),
            Expected::Question => is_question(kind),
            Expected::Star => is_star(kind),
            Expected::StarStar => is_star_star(kind),
            Expected::Assign => is_assign(kind),
            Expected::Arrow => is_arrow(kind),
            Expected::Else => is_else(kind),
            Expected::While => is_while(kind),
            Expected::Catch => is_catch(kind),
            Expected::Yield => is_yield(kind),
            Expected::Function => is_function(kind),
            Expected::With => is_with(kind),
            Expected::Of => is_of(kind),
            Expected::As => is_as(kind),
            Expected::From => is_from(kind),
        }
    }
}

#[tactic(auto, unfolding(ob_grammar::specs::Taking::opens_parenthesis))]
fn opens_parenthesis(kind: &TokenKind) -> bool
    ensures { result ≡ taking.opens_parenthesis kind.now }
{
    matches!(kind, TokenKind::Punctuator(Punctuator::OpenParenthesis))
}

#[tactic(auto, unfolding(ob_grammar::specs::Taking::closes_parenthesis))]
fn closes_parenthesis(kind: &TokenKind) -> bool
    ensures { result ≡ taking.closes_parenthesis kind.now }
{
    matches!(kind, TokenKind::Punctuator(Punctuator::CloseParenthesis))
}

#[tactic(auto, unfolding(ob_grammar::specs::Taking::opens_bracket))]
fn opens_bracket(kind: &TokenKind) -> bool
    ensures { result ≡ taking.opens_bracket kind.now }
{
    matches!(kind, TokenKind::Punctuator(Punctuator::OpenBracket))
}

#[tactic(auto, unfolding(ob_grammar::specs::Taking::closes_bracket))]
fn closes_bracket(kind: &TokenKind) -> bool
    ensures { result ≡ taking.closes_bracket kind.now }
{
    matches!(kind, TokenKind::Punctuator(Punctuator::CloseBracket))
}

#[tactic(auto, unfolding(ob_grammar::specs::Taking::opens_brace))]
fn opens_brace(kind: &TokenKind) -> bool
    ensures { result ≡ taking.opens_brace kind.now }
{
    matches!(kind, TokenKind::Punctuator(Punctuator::OpenBrace))
}

#[tactic(auto, unfolding(ob_grammar::specs::Taking::closes_brace))]
fn closes_brace(kind: &TokenKind) -> bool
    ensures { result ≡ taking.closes_brace kind.now }
{
    matches!(kind, TokenKind::Punctuator(Punctuator::CloseBrace))
}

#[tactic(auto, unfolding(ob_grammar::specs::Taking::is_comma))]
fn is_comma(kind: &TokenKind) -> bool
    ensures { result ≡ taking.is_comma kind.now }
{
    matches!(kind, TokenKind::Punctuator(Punctuator::Comma))
}

#[tactic(auto, unfolding(ob_grammar::specs::Taking::is_semicolon))]
fn is_semicolon(kind: &TokenKind) -> bool
    ensures { result ≡ taking.is_semicolon kind.now }
{
    matches!(kind, TokenKind::Punctuator(Punctuator::Semicolon))
}

#[tactic(auto, unfolding(ob_grammar::specs::Taking::is_colon))]
fn is_colon(kind: &TokenKind) -> bool
    ensures { result ≡ taking.is_colon kind.now }
{
    matches!(kind, TokenKind::Punctuator(Punctuator::Colon))
}

#[tactic(auto, unfolding(ob_grammar::specs::Taking::is_question))]
fn is_question(kind: &TokenKind) -> bool
    ensures { result ≡ taking.is_question kind.now }
{
    matches!(kind, TokenKind::Punctuator(Punctuator::Question))
}

#[tactic(auto, unfolding(ob_grammar::specs::Taking::is_star))]
fn is_star(kind: &TokenKind) -> bool
    ensures { result ≡ taking.is_star kind.now }
{
    matches!(kind, TokenKind::Punctuator(Punctuator::Star))
}

#[tactic(auto, unfolding(ob_grammar::specs::Taking::is_star_star))]
fn is_star_star(kind: &TokenKind) -> bool
    ensures { result ≡ taking.is_star_star kind.now }
{
    matches!(kind, TokenKind::Punctuator(Punctuator::StarStar))
}

#[tactic(auto, unfolding(ob_grammar::specs::Taking::is_assign))]
fn is_assign(kind: &TokenKind) -> bool
    ensures { result ≡ taking.is_assign kind.now }
{
    matches!(kind, TokenKind::Punctuator(Punctuator::Assign))
}

#[tactic(auto, unfolding(ob_grammar::specs::Taking::is_arrow))]
fn is_arrow(kind: &TokenKind) -> bool
    ensures { result ≡ taking.is_arrow kind.now }
{
    matches!(kind, TokenKind::Punctuator(Punctuator::Arrow))
}

#[tactic(auto, unfolding(ob_grammar::specs::Taking::is_else))]
fn is_else(kind: &TokenKind) -> bool
    ensures { result ≡ taking.is_else kind.now }
{
    matches!(kind, TokenKind::Reserved(ReservedWord::Else))
}

#[tactic(auto, unfolding(ob_grammar::specs::Taking::is_while))]
fn is_while(kind: &TokenKind) -> bool
    ensures { result ≡ taking.is_while kind.now }
{
    matches!(kind, TokenKind::Reserved(ReservedWord::While))
}

#[tactic(auto, unfolding(ob_grammar::specs::Taking::is_catch))]
fn is_catch(kind: &TokenKind) -> bool
    ensures { result ≡ taking.is_catch kind.now }
{
    matches!(kind, TokenKind::Reserved(ReservedWord::Catch))
}

#[tactic(auto, unfolding(ob_grammar::specs::Taking::is_yield))]
fn is_yield(kind: &TokenKind) -> bool
    ensures { result ≡ taking.is_yield kind.now }
{
    matches!(kind, TokenKind::Reserved(ReservedWord::Yield))
}

#[tactic(auto, unfolding(ob_grammar::specs::Taking::is_function))]
fn is_function(kind: &TokenKind) -> bool
    ensures { result ≡ taking.is_function kind.now }
{
    matches!(kind, TokenKind::Reserved(ReservedWord::Function))
}

#[tactic(auto, unfolding(ob_grammar::specs::Taking::is_with))]
fn is_with(kind: &TokenKind) -> bool
    ensures { result ≡ taking.is_with kind.now }
{
    matches!(kind, TokenKind::Reserved(ReservedWord::With))
}

#[tactic(auto, unfolding(ob_grammar::specs::Taking::is_of, ob_grammar::specs::Taking::name_of))]
fn is_of(kind: &TokenKind) -> bool
    ensures { result ≡ taking.is_of kind.now }
{
    match kind {
        TokenKind::Name(name) => name.as_str() == "of",
        _ => false,
    }
}

#[tactic(auto, unfolding(ob_grammar::specs::Taking::is_as, ob_grammar::specs::Taking::name_of))]
fn is_as(kind: &TokenKind) -> bool
    ensures { result ≡ taking.is_as kind.now }
{
    match kind {
        TokenKind::Name(name) => name.as_str() == "as",
        _ => false,
    }
}

#[tactic(auto, unfolding(ob_grammar::specs::Taking::is_from, ob_grammar::specs::Taking::name_of))]
fn is_from(kind: &TokenKind) -> bool
    ensures { result ≡ taking.is_from kind.now }
{
    match kind {
        TokenKind::Name(name) => name.as_str() == "from",
        _ => false,
    }
}
