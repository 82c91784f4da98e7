//! Import cells.

ghost use Rattle.std.specs.Prelude.{◌≡◌, Some, length};
ghost use Rattle.ob_grammar.specs.ReadingCells as spec;
ghost use Rattle.ob_grammar.specs.Taking.{take, is_as, is_with};
ghost use Rattle.ob_descent_tokens.specs.Gives.{Gives};

use ob_base::{List, ReservedWord, Text};
use ob_descent_tokens::{Cursor, Expected, ParseError};
use ob_lex::TokenKind;
use ob_tree::{ImportSpec, ImportTree, SpecForm};
use std::alloc::Global;

// Takes `viewof` or `mutable`, if one comes next.
#[tactic(auto, unfolding(ob_grammar::specs::ReadingCells::form_of))]
fn form(tokens: &mut Cursor<'_>) -> SpecForm
    ensures { spec.form_of tokens.old ≡ (result, tokens.new) }
{
    let Some((token, after)) = tokens.split_first() else {
        return SpecForm::Plain;
    };
    match &token.kind {
        TokenKind::Reserved(ReservedWord::Viewof) => {
            *tokens = after;
            SpecForm::Viewof
        }
        TokenKind::Reserved(ReservedWord::Mutable) => {
            *tokens = after;
            SpecForm::Mutable
        }
        _ => SpecForm::Plain,
    }
}

// `as` and a name, if they stand behind what is imported.
fn aliased(
    alloc: Global,
    tokens: &mut Cursor<'_>,
    form: SpecForm,
    source: Text,
) -> Result<ImportSpec, ParseError>
    ensures { Gives (spec.spec_by (take is_as tokens.old) form source tokens.old) result tokens.new }
{
    if !tokens.take(Expected::As) {
        return Ok(ImportSpec {
            form,
            source,
            alias: None,
        });
    }
    let alias = tokens.name(alloc)?;
    Ok(ImportSpec {
        form,
        source,
        alias: Some(alias),
    })
}

#[tactic(auto, unfolding(ob_grammar::specs::ReadingCells::spec_of))]
fn spec(alloc: Global, tokens: &mut Cursor<'_>) -> Result<ImportSpec, ParseError>
    ensures { Gives (spec.spec_of tokens.old) result tokens.new }
{
    let form = form(tokens);
    let source = tokens.name(alloc)?;
    aliased(alloc, tokens, form, source)
}

// What is imported up to the `}`.
fn specs_inside(alloc: Global, tokens: &mut Cursor<'_>) -> Result<List<ImportSpec>, ParseError>
    ensures { Gives (spec.specs_from (length tokens.old) tokens.old) result tokens.new }
{
    let mut found = List::new(alloc);
    for _turn in 0..tokens.len() {
        if tokens.take(Expected::CloseBrace) {
            return Ok(found);
        }
        let item = spec(alloc, tokens)?;
        found.push(item)?;
        let more = tokens.goes_on(Expected::CloseBrace)?;
        if !more {
            return Ok(found);
        }
    }
    Err(ParseError::Syntax)
}

#[tactic(auto, unfolding(ob_grammar::specs::ReadingCells::specs_of))]
fn specs(alloc: Global, tokens: &mut Cursor<'_>) -> Result<List<ImportSpec>, ParseError>
    ensures { Gives (spec.specs_of tokens.old) result tokens.new }
{
    tokens.expect(Expected::OpenBrace)?;
    specs_inside(alloc, tokens)
}

// `with` and what is given, if they stand there.
fn given(alloc: Global, tokens: &mut Cursor<'_>) -> Result<Option<List<ImportSpec>>, ParseError>
    ensures { Gives (spec.with_by (take is_with tokens.old) tokens.old) result tokens.new }
{
    if !tokens.take(Expected::With) {
        return Ok(None);
    }
    Ok(Some(specs(alloc, tokens)?))
}

/// What follows `import`.
#[tactic(auto, unfolding(ob_grammar::specs::ReadingCells::import_of))]
pub fn import(alloc: Global, tokens: &mut Cursor<'_>) -> Result<ImportTree, ParseError>
    ensures { Gives (spec.import_of tokens.old) result tokens.new }
{
    let specs = specs(alloc, tokens)?;
    let with = given(alloc, tokens)?;
    tokens.expect(Expected::From)?;
    let from = tokens.units(alloc)?;
    Ok(ImportTree { specs, with, from })
}
