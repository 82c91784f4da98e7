ghost use Rattle.std.specs.Prelude.{◌≡◌, IfOk};
ghost use Rattle.ob_grammar.specs.Early as spec;
ghost use Rattle.ob_early.specs.Found.{expression_check};

use crate::place::Place;
use crate::walker::Walker;
use crate::walks::{walk_expression, walk_function};
use ob_base::NoMemory;
use ob_tree_types::{CellTree, Function};
use std::alloc::Global;

/// Whether a cell has no early error (ECMA-262, "Static Semantics: Early Errors", narrowed by this
/// project): no name is declared twice in one scope, no `const` outside `for .. of` lacks a value, no
/// `yield` stands in the head of a `for`, `break` and `continue` stand in a loop of their function,
/// `yield` in a generator, and each name that is assigned to is bound in a scope around it.
///
/// The walk is as deep as the tree: the caller has seen that the tree is within the limit of depth.
/// It takes time in proportion to the tree.
///
/// # Errors
/// `NoMemory` where an allocation is refused.
#[tactic(auto, unfolding(ob_grammar::specs::Early::is_free_of_errors))]
pub fn is_free_of_errors(alloc: Global, cell: &CellTree) -> Result<bool, NoMemory>
    ensures { IfOk result (λ b. b ≡ spec.is_free_of_errors cell.now) }
{
    match cell {
        CellTree::Empty | CellTree::Import(_) => Ok(true),
        CellTree::Function(function) => expression_is_free(alloc, function),
        CellTree::Bare(body) => function_is_free(alloc, body),
        CellTree::Named(_, body) => function_is_free(alloc, body),
        CellTree::View(_, body) => function_is_free(alloc, body),
        CellTree::Mutable(_, body) => function_is_free(alloc, body),
    }
}

fn expression_is_free(alloc: Global, function: &Function) -> Result<bool, NoMemory>
    ensures { IfOk result (λ b. b ≡ expression_check function.now spec.nothing_around) }
{
    let mut walker = Walker::new(alloc);
    walk_expression(&mut walker, Place::outermost(), function)?;
    Ok(walker.is_fine())
}

fn function_is_free(alloc: Global, function: &Function) -> Result<bool, NoMemory>
    ensures { IfOk result (λ b. b ≡ (spec.made function.now).check spec.nothing_around) }
{
    let mut walker = Walker::new(alloc);
    walk_function(&mut walker, Place::outermost(), function)?;
    Ok(walker.is_fine())
}
