//! Words, keys and literals.

ghost use Rattle.std.specs.Prelude.{◌≡◌, IfOk};
ghost use Rattle.std.specs.Fmt.{signed_decimal};
ghost use Rattle.ob_grammar.specs.Marks as marks;
ghost use Rattle.ob_grammar.specs.Taking as taking;

use ob_base::{NoMemory, ReservedWord, Text, Units};
use ob_lex::TokenKind;
use ob_tree_types::Expr;
use std::alloc::Global;

fn decimal(alloc: Global, value: i64) -> Result<Units, NoMemory>
    ensures { IfOk result (λ units. units ≡ signed_decimal value) }
{
    let mut digits = String::new(alloc);
    write!(&mut digits, "{value}")?;
    Units::from_bytes(alloc, digits.as_str().as_bytes())
}

/// The name or reserved word that a token is.
#[tactic(auto, unfolding(ob_grammar::specs::Marks::word_of))]
pub fn word_of(alloc: Global, kind: &TokenKind) -> Result<Option<Text>, NoMemory>
    ensures { IfOk result (λ word. word ≡ marks.word_of kind.now) }
{
    match kind {
        TokenKind::Name(name) => Ok(Some(name.copy(alloc)?)),
        TokenKind::Reserved(word) => Ok(Some(Text::from_string(String::from_str(
            alloc,
            word.as_str(),
        )?))),
        _ => Ok(None),
    }
}

/// The key that a token is in an object literal.
#[tactic(auto, unfolding(ob_grammar::specs::Marks::key_of))]
pub fn key_of(alloc: Global, kind: &TokenKind) -> Result<Option<Units>, NoMemory>
    ensures { IfOk result (λ key. key ≡ marks.key_of kind.now) }
{
    match kind {
        TokenKind::Name(name) => Ok(Some(Units::from_str(alloc, name.as_str())?)),
        TokenKind::Reserved(word) => Ok(Some(Units::from_bytes(alloc, word.as_str().as_bytes())?)),
        TokenKind::Number(value) => Ok(Some(decimal(alloc, *value)?)),
        TokenKind::Text(units) => Ok(Some(units.copy(alloc)?)),
        TokenKind::Punctuator(_) => Ok(None),
    }
}

/// The literal that a token is.
#[tactic(auto, unfolding(ob_grammar::specs::Marks::literal_of))]
pub fn literal_of(alloc: Global, kind: &TokenKind) -> Result<Option<Expr>, NoMemory>
    ensures { IfOk result (λ literal. literal ≡ marks.literal_of kind.now) }
{
    match kind {
        TokenKind::Number(value) => Ok(Some(Expr::Int(*value))),
        TokenKind::Text(units) => Ok(Some(Expr::Text(units.copy(alloc)?))),
        TokenKind::Reserved(ReservedWord::True) => Ok(Some(Expr::Bool(true))),
        TokenKind::Reserved(ReservedWord::False) => Ok(Some(Expr::Bool(false))),
        TokenKind::Reserved(ReservedWord::Null) => Ok(Some(Expr::Null)),
        TokenKind::Reserved(ReservedWord::Undefined) => Ok(Some(Expr::Undefined)),
        _ => Ok(None),
    }
}
