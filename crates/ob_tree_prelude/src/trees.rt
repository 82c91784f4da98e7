//! The seven trees.

ghost use Rattle.std.specs.Prelude.{◌≡◌, [], ◌∷◌, codes, pos, IfOk};
ghost use Rattle.ob_tree_prelude.specs.Parts as part;
ghost use Rattle.ob_tree_prelude.specs.Trees as spec;
ghost use Rattle.ob_base.specs.declared.operators.UnaryOp.TheVariants as unary;
ghost use Rattle.ob_tree_types.specs.declared.tree.Expr.TheVariants as expr;

use crate::errors::throw_stmt;
use crate::expressions::{boxed_name, call, call_with, element, member, name, one_expr, text};
use crate::statements::{
    assign_stmt, const_stmt, count_stmt, empty_stmt, for_each, for_stmt, from_zero,
    function_of_two, function_tree, if_stmt, let_stmt, one_stmt, push_stmt, return_name,
    two_params,
};
use ob_base::{CompareOp, List, NoMemory, UnaryOp, Units};
use ob_tree_types::{Boxed, Expr, ForHead, Function, Stmt};
use std::alloc::Global;

/// The text `bad argument`, in UTF-16 units.
const MESSAGE: [u16; 12] = [98, 97, 100, 32, 97, 114, 103, 117, 109, 101, 110, 116];

/// What stands before the loop of a function that collects: `const n = x.length; const r = [];`.
fn collect_start(alloc: Global, x: &str) -> Result<List<Stmt>, NoMemory>
    ensures { IfOk result (λ items. items ≡ part.count_stmt x.now ∷ part.empty_stmt ∷ []) }
{
    let mut items = one_stmt(alloc, count_stmt(alloc, x)?)?;
    items.push(empty_stmt(alloc)?)?;
    Ok(items)
}

/// The items of `map`.
#[tactic(auto, unfolding(crate::specs::Trees::map_items))]
fn map_items(alloc: Global) -> Result<List<Stmt>, NoMemory>
    ensures { IfOk result (λ items. items ≡ spec.map_items) }
{
    let mut items = collect_start(alloc, "a")?;
    let turn = push_stmt(alloc, call_element(alloc)?)?;
    items.push(for_each(alloc, turn)?)?;
    items.push(return_name(alloc, "r")?)?;
    Ok(items)
}

/// `map`
#[tactic(auto, unfolding(crate::specs::Trees::map_tree))]
pub fn map_tree(alloc: Global) -> Result<Function, NoMemory>
    ensures { IfOk result (λ tree. tree ≡ spec.map_tree) }
{
    function_of_two(alloc, "a", map_items(alloc)?)
}

/// The block in the loop of `filter`.
#[tactic(auto, unfolding(crate::specs::Trees::filter_turn))]
fn filter_turn(alloc: Global) -> Result<List<Stmt>, NoMemory>
    ensures { IfOk result (λ items. items ≡ spec.filter_turn) }
{
    let mut items = one_stmt(alloc, const_stmt(alloc, "v", element(alloc, "a")?)?)?;
    let test = call_with(alloc, name(alloc, "v")?)?;
    let kept = one_stmt(alloc, push_stmt(alloc, name(alloc, "v")?)?)?;
    items.push(if_stmt(alloc, test, kept)?)?;
    Ok(items)
}

/// The items of `filter`.
#[tactic(auto, unfolding(crate::specs::Trees::filter_items))]
fn filter_items(alloc: Global) -> Result<List<Stmt>, NoMemory>
    ensures { IfOk result (λ items. items ≡ spec.filter_items) }
{
    let mut items = collect_start(alloc, "a")?;
    let turn = filter_turn(alloc)?;
    items.push(for_stmt(alloc, from_zero(alloc)?, turn)?)?;
    items.push(return_name(alloc, "r")?)?;
    Ok(items)
}

/// `filter`
#[tactic(auto, unfolding(crate::specs::Trees::filter_tree))]
pub fn filter_tree(alloc: Global) -> Result<Function, NoMemory>
    ensures { IfOk result (λ tree. tree ≡ spec.filter_tree) }
{
    function_of_two(alloc, "a", filter_items(alloc)?)
}

/// `f(a[i], i, a)`
fn call_element(alloc: Global) -> Result<Expr, NoMemory>
    ensures { IfOk result (λ made. made ≡ part.call_with (part.element (codes "a"))) }
{
    call_with(alloc, element(alloc, "a")?)
}

/// `!f(a[i], i, a)`
fn not_call_element(alloc: Global) -> Result<Expr, NoMemory>
    ensures { IfOk result (λ made. made ≡ expr.Unary unary.Not (part.call_with (part.element (codes "a")))) }
{
    let operand = Boxed::new(alloc, call_element(alloc)?)?;
    Ok(Expr::Unary(UnaryOp::Not, operand))
}

/// The items of `forEach`.
#[tactic(auto, unfolding(crate::specs::Trees::for_each_items))]
fn for_each_items(alloc: Global) -> Result<List<Stmt>, NoMemory>
    ensures { IfOk result (λ items. items ≡ spec.for_each_items) }
{
    let mut items = one_stmt(alloc, count_stmt(alloc, "a")?)?;
    let turn = Stmt::Expr(call_element(alloc)?);
    items.push(for_each(alloc, turn)?)?;
    Ok(items)
}

/// `forEach`
#[tactic(auto, unfolding(crate::specs::Trees::for_each_tree))]
pub fn for_each_tree(alloc: Global) -> Result<Function, NoMemory>
    ensures { IfOk result (λ tree. tree ≡ spec.for_each_tree) }
{
    function_of_two(alloc, "a", for_each_items(alloc)?)
}

/// The items of `some` and `every`: the test of a turn, and what is returned where it holds and
/// after the loop.
#[tactic(auto, unfolding(crate::specs::Trees::search_items))]
fn search_items(alloc: Global, test: Expr, found: bool, other: bool) -> Result<List<Stmt>, NoMemory>
    ensures { IfOk result (λ items. items ≡ spec.search_items test (expr.Bool found) (expr.Bool other)) }
{
    let answer = one_stmt(alloc, Stmt::Return(Some(Expr::Bool(found))))?;
    let turn = if_stmt(alloc, test, answer)?;
    let mut items = one_stmt(alloc, count_stmt(alloc, "a")?)?;
    items.push(for_each(alloc, turn)?)?;
    items.push(Stmt::Return(Some(Expr::Bool(other))))?;
    Ok(items)
}

/// `some`
#[tactic(auto, unfolding(crate::specs::Trees::some_tree))]
pub fn some_tree(alloc: Global) -> Result<Function, NoMemory>
    ensures { IfOk result (λ tree. tree ≡ spec.some_tree) }
{
    let items = search_items(alloc, call_element(alloc)?, true, false)?;
    function_of_two(alloc, "a", items)
}

/// `every`
#[tactic(auto, unfolding(crate::specs::Trees::every_tree))]
pub fn every_tree(alloc: Global) -> Result<Function, NoMemory>
    ensures { IfOk result (λ tree. tree ≡ spec.every_tree) }
{
    let items = search_items(alloc, not_call_element(alloc)?, false, true)?;
    function_of_two(alloc, "a", items)
}

/// `"bad argument"`
#[tactic(auto, unfolding(crate::specs::Trees::message))]
fn message(alloc: Global) -> Result<Expr, NoMemory>
    ensures { IfOk result (λ made. made ≡ spec.message) }
{
    let units = Vec::from_slice(alloc, &MESSAGE)?;
    Ok(Expr::Text(Units::from_vec(units)))
}

/// `throw new TypeError("bad argument");`
#[tactic(auto, unfolding(crate::specs::Trees::refuse_stmt))]
fn refuse_stmt(alloc: Global) -> Result<Stmt, NoMemory>
    ensures { IfOk result (λ stmt. stmt ≡ spec.refuse_stmt) }
{
    throw_stmt(alloc, "TypeError", message(alloc)?)
}

/// `a.length === 0`
#[tactic(auto, unfolding(crate::specs::Trees::is_empty))]
fn is_empty(alloc: Global) -> Result<Expr, NoMemory>
    ensures { IfOk result (λ made. made ≡ spec.is_empty) }
{
    let count = Boxed::new(alloc, member(alloc, "a", "length")?)?;
    let zero = Boxed::new(alloc, Expr::Int(0))?;
    Ok(Expr::Compare(CompareOp::Same, count, zero))
}

/// `a[0]`
#[tactic(auto, unfolding(crate::specs::Trees::first_element))]
fn first_element(alloc: Global) -> Result<Expr, NoMemory>
    ensures { IfOk result (λ made. made ≡ spec.first_element) }
{
    let object = boxed_name(alloc, "a")?;
    let zero = Boxed::new(alloc, Expr::Int(0))?;
    Ok(Expr::Index(object, zero))
}

/// The block of `reduce` for a call without a first value.
#[tactic(auto, unfolding(crate::specs::Trees::start_items))]
fn start_items(alloc: Global) -> Result<List<Stmt>, NoMemory>
    ensures { IfOk result (λ items. items ≡ spec.start_items) }
{
    let refusal = one_stmt(alloc, refuse_stmt(alloc)?)?;
    let mut items = one_stmt(alloc, if_stmt(alloc, is_empty(alloc)?, refusal)?)?;
    items.push(assign_stmt(alloc, "r", first_element(alloc)?)?)?;
    items.push(assign_stmt(alloc, "i", Expr::Int(1))?)?;
    Ok(items)
}

/// `if (!given) { .. }`
#[tactic(auto, unfolding(crate::specs::Trees::start_stmt))]
fn start_stmt(alloc: Global) -> Result<Stmt, NoMemory>
    ensures { IfOk result (λ stmt. stmt ≡ spec.start_stmt) }
{
    let items = start_items(alloc)?;
    let test = Expr::Unary(UnaryOp::Not, boxed_name(alloc, "given")?);
    if_stmt(alloc, test, items)
}

/// `r = f(r, a[i], i, a);`
#[tactic(auto, unfolding(crate::specs::Trees::reduce_turn))]
fn reduce_turn(alloc: Global) -> Result<Stmt, NoMemory>
    ensures { IfOk result (λ stmt. stmt ≡ spec.reduce_turn) }
{
    let mut args = one_expr(alloc, name(alloc, "r")?)?;
    args.push(element(alloc, "a")?)?;
    args.push(name(alloc, "i")?)?;
    args.push(name(alloc, "a")?)?;
    assign_stmt(alloc, "r", call(alloc, args)?)
}

/// `let r = v; let i = 0;`
fn reduce_start(alloc: Global) -> Result<List<Stmt>, NoMemory>
    ensures { IfOk result (λ items. items ≡ part.let_stmt (codes "r") (part.name (codes "v")) ∷ part.let_stmt (codes "i") (expr.Int (pos 0)) ∷ []) }
{
    let mut items = one_stmt(alloc, let_stmt(alloc, "r", name(alloc, "v")?)?)?;
    items.push(let_stmt(alloc, "i", Expr::Int(0))?)?;
    Ok(items)
}

/// The items of `reduce`.
#[tactic(auto, unfolding(crate::specs::Trees::reduce_items))]
fn reduce_items(alloc: Global) -> Result<List<Stmt>, NoMemory>
    ensures { IfOk result (λ items. items ≡ spec.reduce_items) }
{
    let mut items = reduce_start(alloc)?;
    items.push(start_stmt(alloc)?)?;
    items.push(count_stmt(alloc, "a")?)?;
    let turn = one_stmt(alloc, reduce_turn(alloc)?)?;
    items.push(for_stmt(alloc, ForHead::Nothing, turn)?)?;
    items.push(return_name(alloc, "r")?)?;
    Ok(items)
}

/// `reduce`
#[tactic(auto, unfolding(crate::specs::Trees::reduce_tree))]
pub fn reduce_tree(alloc: Global) -> Result<Function, NoMemory>
    ensures { IfOk result (λ tree. tree ≡ spec.reduce_tree) }
{
    let mut params = two_params(alloc, "a")?;
    params.push(text(alloc, "v")?)?;
    params.push(text(alloc, "given")?)?;
    Ok(function_tree(params, reduce_items(alloc)?))
}

/// `f === undefined`
#[tactic(auto, unfolding(crate::specs::Trees::has_no_function))]
fn has_no_function(alloc: Global) -> Result<Expr, NoMemory>
    ensures { IfOk result (λ made. made ≡ spec.has_no_function) }
{
    let left = boxed_name(alloc, "f")?;
    let right = Boxed::new(alloc, Expr::Undefined)?;
    Ok(Expr::Compare(CompareOp::Same, left, right))
}

/// `f(x[i], i)`
#[tactic(auto, unfolding(crate::specs::Trees::mapped_element))]
fn mapped_element(alloc: Global) -> Result<Expr, NoMemory>
    ensures { IfOk result (λ made. made ≡ spec.mapped_element) }
{
    let mut args = one_expr(alloc, element(alloc, "x")?)?;
    args.push(name(alloc, "i")?)?;
    call(alloc, args)
}

/// `f === undefined ? x[i] : f(x[i], i)`
#[tactic(auto, unfolding(crate::specs::Trees::taken_element))]
fn taken_element(alloc: Global) -> Result<Expr, NoMemory>
    ensures { IfOk result (λ made. made ≡ spec.taken_element) }
{
    let test = Boxed::new(alloc, has_no_function(alloc)?)?;
    let itself = Boxed::new(alloc, element(alloc, "x")?)?;
    let mapped = Boxed::new(alloc, mapped_element(alloc)?)?;
    Ok(Expr::Cond(test, itself, mapped))
}

/// The items of `Array.from`.
#[tactic(auto, unfolding(crate::specs::Trees::from_items))]
fn from_items(alloc: Global) -> Result<List<Stmt>, NoMemory>
    ensures { IfOk result (λ items. items ≡ spec.from_items) }
{
    let mut items = collect_start(alloc, "x")?;
    let turn = push_stmt(alloc, taken_element(alloc)?)?;
    items.push(for_each(alloc, turn)?)?;
    items.push(return_name(alloc, "r")?)?;
    Ok(items)
}

/// `Array.from`
#[tactic(auto, unfolding(crate::specs::Trees::from_tree))]
pub fn from_tree(alloc: Global) -> Result<Function, NoMemory>
    ensures { IfOk result (λ tree. tree ≡ spec.from_tree) }
{
    function_of_two(alloc, "x", from_items(alloc)?)
}
