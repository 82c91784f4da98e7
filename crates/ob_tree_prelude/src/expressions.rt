//! The expressions that recur in the trees.

ghost use Rattle.std.specs.Prelude.{◌≡◌, [], ◌∷◌, codes, IfOk};
ghost use Rattle.ob_tree_prelude.specs.Parts as spec;

use ob_base::{List, NoMemory, Text};
use ob_tree_types::{Boxed, Expr};
use std::alloc::Global;

/// The text of a word.
pub fn text(alloc: Global, word: &str) -> Result<Text, NoMemory>
    ensures { IfOk result (λ made. made ≡ word.now) }
{
    Ok(Text::from_string(String::from_str(alloc, word)?))
}

/// `x`
pub fn name(alloc: Global, x: &str) -> Result<Expr, NoMemory>
    ensures { IfOk result (λ made. made ≡ spec.name x.now) }
{
    Ok(Expr::Name(text(alloc, x)?))
}

/// `x`, as a part of another expression.
pub fn boxed_name(alloc: Global, x: &str) -> Result<Boxed<Expr>, NoMemory>
    ensures { IfOk result (λ made. made ≡ spec.name x.now) }
{
    let inner = name(alloc, x)?;
    Ok(Boxed::new(alloc, inner)?)
}

/// `x.word`
#[tactic(auto, unfolding(crate::specs::Parts::member))]
pub fn member(alloc: Global, x: &str, word: &str) -> Result<Expr, NoMemory>
    ensures { IfOk result (λ made. made ≡ spec.member x.now word.now) }
{
    let object = boxed_name(alloc, x)?;
    Ok(Expr::Member(object, text(alloc, word)?))
}

/// `x[i]`
#[tactic(auto, unfolding(crate::specs::Parts::element))]
pub fn element(alloc: Global, x: &str) -> Result<Expr, NoMemory>
    ensures { IfOk result (λ made. made ≡ spec.element x.now) }
{
    let object = boxed_name(alloc, x)?;
    Ok(Expr::Index(object, boxed_name(alloc, "i")?))
}

/// `f(args)`
#[tactic(auto, unfolding(crate::specs::Parts::call))]
pub fn call(alloc: Global, args: List<Expr>) -> Result<Expr, NoMemory>
    ensures { IfOk result (λ made. made ≡ spec.call args) }
{
    Ok(Expr::Call(boxed_name(alloc, "f")?, args))
}

/// `f(first, i, a)`
#[tactic(auto, unfolding(crate::specs::Parts::call_with))]
pub fn call_with(alloc: Global, first: Expr) -> Result<Expr, NoMemory>
    ensures { IfOk result (λ made. made ≡ spec.call_with first) }
{
    let mut args = one_expr(alloc, first)?;
    args.push(name(alloc, "i")?)?;
    args.push(name(alloc, "a")?)?;
    call(alloc, args)
}

/// The list of one expression.
pub fn one_expr(alloc: Global, expr: Expr) -> Result<List<Expr>, NoMemory>
    ensures { IfOk result (λ list. list ≡ expr ∷ []) }
{
    let mut list = List::new(alloc);
    list.push(expr)?;
    Ok(list)
}
