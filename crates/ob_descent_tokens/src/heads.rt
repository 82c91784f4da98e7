//! The head of a function.

ghost use Rattle.std.specs.Prelude.{◌≡◌, Some, None, MatchOption, IfOk};
ghost use Rattle.ob_grammar.specs.Taking as spec;
ghost use Rattle.ob_descent_tokens.specs.Gives.{Gives};

use crate::ParseError;
use crate::cursor::Cursor;
use crate::expected::Expected;
use ob_base::{List, NoMemory, Text};
use ob_grammar::Signature;
use ob_lex::TokenKind;
use std::alloc::Global;

/// The names of parameters up to the `)`.
#[tactic(auto, unfolding(ob_grammar::specs::Taking::names, ob_grammar::specs::Taking::one, ob_grammar::specs::Taking::take))]
fn names(alloc: Global, tokens: &mut Cursor<'_>) -> Result<Option<List<Text>>, NoMemory>
    ensures { IfOk result (λ o. MatchOption o (spec.names tokens.old ≡ None) (λ xs. spec.names tokens.old ≡ Some (xs, tokens.new))) }
{
    let mut found = List::new(alloc);
    while let Some(token) = tokens.next() {
        match &token.kind {
            TokenKind::Name(name) => {
                found.push(name.copy(alloc)?)?;
                let Some(after) = tokens.next() else {
                    return Ok(None);
                };
                if Expected::CloseParenthesis.is(&after.kind) {
                    return Ok(Some(found));
                }
                if !Expected::Comma.is(&after.kind) {
                    return Ok(None);
                }
            }
            kind => {
                if Expected::CloseParenthesis.is(kind) {
                    return Ok(Some(found));
                }
                return Ok(None);
            }
        }
    }
    Ok(None)
}

/// Parameters in parentheses.
#[tactic(auto, unfolding(ob_grammar::specs::Taking::parameters))]
fn parameters(alloc: Global, tokens: &mut Cursor<'_>) -> Result<List<Text>, ParseError>
    ensures { Gives (spec.parameters tokens.old) result tokens.new }
{
    tokens.expect(Expected::OpenParenthesis)?;
    match names(alloc, tokens)? {
        Some(found) => Ok(found),
        None => Err(ParseError::Syntax),
    }
}

/// Takes the parameters and the arrow of an arrow function, if one begins.
#[tactic(auto, unfolding(ob_grammar::specs::Taking::arrow_head))]
pub fn arrow_head(alloc: Global, tokens: &mut Cursor<'_>) -> Result<Option<List<Text>>, NoMemory>
    ensures { IfOk result (λ o. MatchOption o ((spec.arrow_head tokens.old ≡ None) × (tokens.new ≡ tokens.old)) (λ xs. spec.arrow_head tokens.old ≡ Some (xs, tokens.new))) }
{
    let mut ahead = tokens.fork();
    let found = head(alloc, &mut ahead)?;
    if found.is_some() {
        *tokens = ahead;
    }
    Ok(found)
}

#[tactic(auto, unfolding(ob_grammar::specs::Taking::arrow_head, ob_grammar::specs::Taking::name_of))]
fn head(alloc: Global, tokens: &mut Cursor<'_>) -> Result<Option<List<Text>>, NoMemory>
    ensures { IfOk result (λ o. MatchOption o (spec.arrow_head tokens.old ≡ None) (λ xs. spec.arrow_head tokens.old ≡ Some (xs, tokens.new))) }
{
    let Some(token) = tokens.next() else {
        return Ok(None);
    };
    let found = match &token.kind {
        TokenKind::Name(name) => {
            let mut one = List::new(alloc);
            one.push(name.copy(alloc)?)?;
            one
        }
        kind => {
            if !Expected::OpenParenthesis.is(kind) {
                return Ok(None);
            }
            let Some(found) = names(alloc, tokens)? else {
                return Ok(None);
            };
            found
        }
    };
    if !tokens.arrow() {
        return Ok(None);
    }
    Ok(Some(found))
}

/// What stands between `function` and the block.
#[tactic(auto, unfolding(ob_grammar::specs::Taking::signature_of))]
pub fn signature(alloc: Global, tokens: &mut Cursor<'_>) -> Result<Signature, ParseError>
    ensures { Gives (spec.signature_of tokens.old) result tokens.new }
{
    let generator = tokens.take(Expected::Star);
    let name = match tokens.take_name() {
        Some(name) => Some(name.copy(alloc)?),
        None => None,
    };
    let params = parameters(alloc, tokens)?;
    Ok(Signature {
        generator,
        name,
        params,
    })
}
