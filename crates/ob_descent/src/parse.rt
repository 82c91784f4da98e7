//! From the text to the cell.

ghost use Rattle.std.specs.Prelude.{◌≡◌, ◌+◌, ◌<◌, ◌≤◌, ◌^◌, Some};
ghost use Rattle.ob_grammar.specs.Limits as limits;
ghost use Rattle.ob_grammar.specs.ReadingCells as spec;
ghost use Rattle.ob_descent_tokens.specs.Gives.{Answers};

use crate::cells::cell;
use ob_base::{MAX_OPEN_BRACKETS, MAX_TREE_DEPTH};
use ob_descent_tokens::{Cursor, ParseError};
use ob_early::is_free_of_errors;
use ob_lex::{Punctuator, Token, TokenKind};
use ob_tree::{CellTree, depth};
use std::alloc::Global;

/// How deep the pieces of a text within those limits nest, at most.
const NESTING: usize = 701;

// How many brackets are open after a token, with so many open before it.
#[tactic(auto, unfolding(ob_grammar::specs::Limits::open_after))]
fn open_after(kind: &TokenKind, before: usize) -> usize
    requires { before < 2 ^ 63 }
    ensures value { result ≡ limits.open_after kind.now before }
    ensures more { result ≤ before + 1 }
{
    match kind {
        TokenKind::Punctuator(
            Punctuator::OpenParenthesis | Punctuator::OpenBracket | Punctuator::OpenBrace,
        ) => before + 1,
        TokenKind::Punctuator(
            Punctuator::CloseParenthesis | Punctuator::CloseBracket | Punctuator::CloseBrace,
        ) => before.saturating_sub(1),
        _ => before,
    }
}

// The most brackets that are open at once.
#[tactic(auto, using(std::proofs::lemmas::Grind::common_steps, crate::proofs::BracketTurns::one_token, crate::proofs::BracketTurns::no_token))]
fn most_open(tokens: &[Token]) -> usize
    ensures { result ≡ limits.most_open 0 tokens.now }
{
    let mut opened = 0;
    let mut most = 0;
    for token in tokens {
        opened = open_after(&token.kind, opened);
        most = most.max(opened);
    }
    most
}

// The tree, where it is within the limit of depth and has no early error.
#[tactic(auto, using(crate::proofs::WithinLimits::too_deep, crate::proofs::WithinLimits::has_error, crate::proofs::WithinLimits::is_readable))]
fn readable(alloc: Global, tree: CellTree) -> Result<CellTree, ParseError>
    ensures { Answers (spec.if_readable (Some tree)) result }
{
    if depth(&tree) > MAX_TREE_DEPTH {
        return Err(ParseError::Syntax);
    }
    if !is_free_of_errors(alloc, &tree)? {
        return Err(ParseError::Syntax);
    }
    Ok(tree)
}

/// The cell that the tokens read as.
///
/// # Errors
/// `Syntax` exactly where they read as none, `NoMemory` where an allocation is refused.
#[tactic(auto, using(crate::proofs::WithinLimits::too_many_open))]
pub fn parsed(alloc: Global, tokens: &[Token]) -> Result<CellTree, ParseError>
    ensures { Answers (spec.parsed tokens.now) result }
{
    if most_open(tokens) > MAX_OPEN_BRACKETS as usize {
        return Err(ParseError::Syntax);
    }
    let mut cursor = Cursor::new(tokens);
    let tree = cell(alloc, &mut cursor, NESTING)?;
    readable(alloc, tree)
}
