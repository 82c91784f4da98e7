//! Cells.

ghost use Rattle.std.specs.Prelude.{◌≡◌, Some, None, MatchOption, IfOk};
ghost use Rattle.ob_grammar.specs.Cells.{of_block, of_value};
ghost use Rattle.ob_grammar.specs.ReadingCells as spec;
ghost use Rattle.ob_descent_tokens.specs.Gives.{Answers, Gives};
ghost use Rattle.ob_descent.specs.CellStarts.{cell_start, named_tree, headed_as};
ghost use Rattle.ob_grammar.specs.Taking.{mapped};
ghost use Rattle.ob_tree_types.specs.declared.cell.CellTree.TheVariants as cell;
ghost use Rattle.ob_tree_types.specs.declared.tree.Expr.TheVariants as node;

use crate::imports::import;
use crate::yields::yields;
use ob_base::{List, NoMemory, ReservedWord, Text};
use ob_descent_rules::{Nested, block, read_expr};
use ob_descent_tokens::{Cursor, Expected, ParseError};
use ob_lex::TokenKind;
use ob_tree::{Boxed, CellTree, Expr, FnBody, Function, Stmt};
use std::alloc::Global;

fn of_block(alloc: Global, items: List<Stmt>) -> Function
    ensures { result ≡ of_block items }
{
    let generator = yields(items.as_slice());
    Function {
        name: None,
        params: List::new(alloc),
        generator,
        body: FnBody::Items(items),
    }
}

fn of_value(alloc: Global, value: Expr) -> Result<Function, NoMemory>
    ensures { IfOk result (λ function. function ≡ of_value value) }
{
    Ok(Function {
        name: None,
        params: List::new(alloc),
        generator: false,
        body: FnBody::Value(Boxed::new(alloc, value)?),
    })
}

// The body of a cell.
#[tactic(auto, unfolding(ob_grammar::specs::ReadingCells::body_of))]
fn body(alloc: Global, tokens: &mut Cursor<'_>, depth: usize) -> Result<Function, ParseError>
    ensures { Gives (spec.body_of spec.depth_limit depth tokens.old) result tokens.new }
{
    if tokens.next_is(Expected::OpenBrace) {
        let items = block(alloc, tokens, depth)?;
        return Ok(of_block(alloc, items));
    }
    let value = read_expr(alloc, tokens, depth, Nested::Whole)?;
    Ok(of_value(alloc, value.tree)?)
}

// Whether nothing but a `;` is left.
fn is_end(tokens: &Cursor<'_>) -> bool
    ensures { result ≡ spec.is_end tokens.now }
{
    let Some((token, after)) = tokens.split_first() else {
        return true;
    };
    match after.split_first() {
        None => Expected::Semicolon.is(&token.kind),
        Some(_) => false,
    }
}

// The cell, where nothing but a `;` is left.
fn at_end(cell: CellTree, tokens: &mut Cursor<'_>) -> Result<CellTree, ParseError>
    ensures { Answers (spec.all_of (Some (cell, tokens.old))) result }
{
    if is_end(tokens) {
        Ok(cell)
    } else {
        Err(ParseError::Syntax)
    }
}

// The cell of an expression; a named function as a whole is a function cell.
fn value_cell(alloc: Global, begins: bool, value: Expr) -> Result<CellTree, NoMemory>
    ensures { IfOk result (λ cell. cell ≡ spec.value_cell begins value) }
{
    if !begins {
        return Ok(CellTree::Bare(of_value(alloc, value)?));
    }
    match value {
        Expr::Function(function) => named_cell(alloc, function),
        other => Ok(CellTree::Bare(of_value(alloc, other)?)),
    }
}

fn named_cell(alloc: Global, function: Function) -> Result<CellTree, NoMemory>
    ensures { IfOk result (λ cell. cell ≡ spec.named_cell function.name function (node.Function function)) }
{
    match &function.name {
        Some(_) => Ok(CellTree::Function(function)),
        None => Ok(CellTree::Bare(of_value(alloc, Expr::Function(function))?)),
    }
}

// A cell without a name.
#[tactic(auto, unfolding(ob_grammar::specs::ReadingCells::bare_of))]
fn bare(alloc: Global, tokens: &mut Cursor<'_>, depth: usize) -> Result<CellTree, ParseError>
    ensures { Answers (spec.bare_of spec.depth_limit depth tokens.old) result }
{
    if tokens.next_is(Expected::OpenBrace) {
        let items = block(alloc, tokens, depth)?;
        return at_end(CellTree::Bare(of_block(alloc, items)), tokens);
    }
    let begins = tokens.next_is(Expected::Function);
    let value = read_expr(alloc, tokens, depth, Nested::Whole)?;
    at_end(value_cell(alloc, begins, value.tree)?, tokens)
}

// Takes a name and `=`, if they come next.
#[tactic(auto, unfolding(ob_grammar::specs::ReadingCells::cell_head))]
fn cell_head(alloc: Global, tokens: &mut Cursor<'_>, depth: usize) -> Result<Option<Text>, NoMemory>
    ensures { IfOk result (λ o. MatchOption o ((spec.cell_head spec.depth_limit depth tokens.old ≡ None) × (tokens.new ≡ tokens.old)) (λ x. spec.cell_head spec.depth_limit depth tokens.old ≡ Some (x, tokens.new))) }
{
    let mut ahead = tokens.fork();
    let Some(name) = ahead.take_name() else {
        return Ok(None);
    };
    if !ahead.take(Expected::Assign) {
        return Ok(None);
    }
    let name = name.copy(alloc)?;
    *tokens = ahead;
    Ok(Some(name))
}

// What follows the `=` of a cell with a name, to the end.
fn named_body(alloc: Global, tokens: &mut Cursor<'_>, depth: usize) -> Result<Function, ParseError>
    ensures { Answers (spec.all_of (spec.body_of spec.depth_limit depth tokens.old)) result }
{
    let body = body(alloc, tokens, depth)?;
    if is_end(tokens) {
        Ok(body)
    } else {
        Err(ParseError::Syntax)
    }
}

// What follows `import`, to the end.
fn imported(alloc: Global, mut tokens: Cursor<'_>) -> Result<CellTree, ParseError>
    ensures { Answers (spec.all_of (mapped cell.Import (spec.import_of tokens.entry))) result }
{
    let tree = import(alloc, &mut tokens)?;
    at_end(CellTree::Import(tree), &mut tokens)
}

// How the text of a cell begins.
#[derive(Clone, Copy, Debug, PartialEq, Eq)]
enum CellStart {
    Import,
    Viewof,
    Mutable,
    Name,
    /// Any other token, which begins a body.
    Body,
}

#[tactic(auto, unfolding(crate::specs::CellStarts::cell_start))]
fn cell_start(kind: &TokenKind) -> CellStart
    ensures { result ≡ cell_start kind.now }
{
    match kind {
        TokenKind::Reserved(ReservedWord::Import) => CellStart::Import,
        TokenKind::Reserved(ReservedWord::Viewof) => CellStart::Viewof,
        TokenKind::Reserved(ReservedWord::Mutable) => CellStart::Mutable,
        TokenKind::Name(_) => CellStart::Name,
        _ => CellStart::Body,
    }
}

// A cell that may have a name, read from the name on, with `viewof` or `mutable` before it.
fn headed<'a>(
    alloc: Global,
    tokens: &mut Cursor<'a>,
    ahead: Cursor<'a>,
    depth: usize,
    start: CellStart,
) -> Result<CellTree, ParseError>
    ensures { Answers (headed_as depth start ahead.entry tokens.old) result }
{
    let mut ahead = ahead;
    match cell_head(alloc, &mut ahead, depth)? {
        Some(name) => {
            let body = named_body(alloc, &mut ahead, depth)?;
            Ok(named_tree(start, name, body))
        }
        None => bare(alloc, tokens, depth),
    }
}

fn named_tree(start: CellStart, name: Text, body: Function) -> CellTree
    ensures { result ≡ named_tree start name body }
{
    match start {
        CellStart::Viewof => CellTree::View(name, body),
        CellStart::Mutable => CellTree::Mutable(name, body),
        CellStart::Name | CellStart::Import | CellStart::Body => CellTree::Named(name, body),
    }
}

/// The cell that the tokens are, with pieces nested no deeper than `depth`.
#[tactic(auto, unfolding(ob_grammar::specs::ReadingCells::cell_of))]
pub fn cell(alloc: Global, tokens: &mut Cursor<'_>, depth: usize) -> Result<CellTree, ParseError>
    ensures { Answers (spec.cell_of spec.depth_limit depth tokens.old) result }
{
    let Some((token, after)) = tokens.split_first() else {
        return Ok(CellTree::Empty);
    };
    let start = cell_start(&token.kind);
    match start {
        CellStart::Import => imported(alloc, after),
        CellStart::Viewof => headed(alloc, tokens, after, depth, CellStart::Viewof),
        CellStart::Mutable => headed(alloc, tokens, after, depth, CellStart::Mutable),
        CellStart::Name => {
            let ahead = tokens.fork();
            headed(alloc, tokens, ahead, depth, CellStart::Name)
        }
        CellStart::Body => bare(alloc, tokens, depth),
    }
}
