//! The statements that recur in the trees, and the function around them.

ghost use Rattle.std.specs.Prelude.{◌≡◌, [], ◌∷◌, codes, IfOk};
ghost use Rattle.ob_tree_prelude.specs.Parts as spec;

use crate::expressions::{boxed_name, member, name, one_expr, text};
use ob_base::{CompareOp, List, NoMemory, Text};
use ob_tree_types::{
    AssignOp, Boxed, Decl, DeclValue, Expr, FnBody, ForHead, Function, Stmt, UpdateOp,
};
use std::alloc::Global;

/// `x = value`, as the only one of a declaration.
#[tactic(auto, unfolding(crate::specs::Parts::declared))]
fn declared(alloc: Global, x: &str, value: Expr) -> Result<List<Decl>, NoMemory>
    ensures { IfOk result (λ decls. decls ≡ spec.declared x.now value) }
{
    let name = text(alloc, x)?;
    let mut decls = List::new(alloc);
    decls.push(Decl {
        name,
        value: DeclValue::Value(value),
    })?;
    Ok(decls)
}

/// `const x = value;`
#[tactic(auto, unfolding(crate::specs::Parts::const_stmt))]
pub fn const_stmt(alloc: Global, x: &str, value: Expr) -> Result<Stmt, NoMemory>
    ensures { IfOk result (λ made. made ≡ spec.const_stmt x.now value) }
{
    Ok(Stmt::Const(declared(alloc, x, value)?))
}

/// `let x = value;`
#[tactic(auto, unfolding(crate::specs::Parts::let_stmt))]
pub fn let_stmt(alloc: Global, x: &str, value: Expr) -> Result<Stmt, NoMemory>
    ensures { IfOk result (λ made. made ≡ spec.let_stmt x.now value) }
{
    Ok(Stmt::Let(declared(alloc, x, value)?))
}

/// `x = value;`
#[tactic(auto, unfolding(crate::specs::Parts::assign_stmt))]
pub fn assign_stmt(alloc: Global, x: &str, value: Expr) -> Result<Stmt, NoMemory>
    ensures { IfOk result (λ made. made ≡ spec.assign_stmt x.now value) }
{
    let value = Boxed::new(alloc, value)?;
    let target = boxed_name(alloc, x)?;
    Ok(Stmt::Expr(Expr::Assign(AssignOp::Set, target, value)))
}

/// `const n = x.length;`
#[tactic(auto, unfolding(crate::specs::Parts::count_stmt))]
pub fn count_stmt(alloc: Global, x: &str) -> Result<Stmt, NoMemory>
    ensures { IfOk result (λ made. made ≡ spec.count_stmt x.now) }
{
    const_stmt(alloc, "n", member(alloc, x, "length")?)
}

/// `const r = [];`
#[tactic(auto, unfolding(crate::specs::Parts::empty_stmt))]
pub fn empty_stmt(alloc: Global) -> Result<Stmt, NoMemory>
    ensures { IfOk result (λ made. made ≡ spec.empty_stmt) }
{
    const_stmt(alloc, "r", Expr::Array(List::new(alloc)))
}

/// `r.push(value);`
#[tactic(auto, unfolding(crate::specs::Parts::push_stmt))]
pub fn push_stmt(alloc: Global, value: Expr) -> Result<Stmt, NoMemory>
    ensures { IfOk result (λ made. made ≡ spec.push_stmt value) }
{
    let args = one_expr(alloc, value)?;
    let callee = Boxed::new(alloc, member(alloc, "r", "push")?)?;
    Ok(Stmt::Expr(Expr::Call(callee, args)))
}

/// `return x;`
pub fn return_name(alloc: Global, x: &str) -> Result<Stmt, NoMemory>
    ensures { IfOk result (λ made. made ≡ spec.return_stmt (spec.name x.now)) }
{
    Ok(Stmt::Return(Some(name(alloc, x)?)))
}

/// `if (test) { items }`
#[tactic(auto, unfolding(crate::specs::Parts::if_stmt))]
pub fn if_stmt(alloc: Global, test: Expr, items: List<Stmt>) -> Result<Stmt, NoMemory>
    ensures { IfOk result (λ made. made ≡ spec.if_stmt test items) }
{
    let inner = Boxed::new(alloc, Stmt::Block(items))?;
    Ok(Stmt::If(test, inner, None))
}

/// `let i = 0`, in the head of a loop.
#[tactic(auto, unfolding(crate::specs::Parts::from_zero))]
pub fn from_zero(alloc: Global) -> Result<ForHead, NoMemory>
    ensures { IfOk result (λ head. head ≡ spec.from_zero) }
{
    Ok(ForHead::Let(declared(alloc, "i", Expr::Int(0))?))
}

/// `i < n`
#[tactic(auto, unfolding(crate::specs::Parts::below_count))]
fn below_count(alloc: Global) -> Result<Expr, NoMemory>
    ensures { IfOk result (λ made. made ≡ spec.below_count) }
{
    let index = boxed_name(alloc, "i")?;
    let count = boxed_name(alloc, "n")?;
    Ok(Expr::Compare(CompareOp::Less, index, count))
}

/// `for (head; i < n; i++) { items }`
#[tactic(auto, unfolding(crate::specs::Parts::for_stmt))]
pub fn for_stmt(alloc: Global, head: ForHead, items: List<Stmt>) -> Result<Stmt, NoMemory>
    ensures { IfOk result (λ made. made ≡ spec.for_stmt head items) }
{
    let turn = Boxed::new(alloc, Stmt::Block(items))?;
    let test = below_count(alloc)?;
    let update = Expr::Update(UpdateOp::Up, false, boxed_name(alloc, "i")?);
    Ok(Stmt::For(head, Some(test), Some(update), turn))
}

/// `for (let i = 0; i < n; i++) { item }`
pub fn for_each(alloc: Global, item: Stmt) -> Result<Stmt, NoMemory>
    ensures { IfOk result (λ made. made ≡ spec.for_stmt spec.from_zero (item ∷ [])) }
{
    let items = one_stmt(alloc, item)?;
    for_stmt(alloc, from_zero(alloc)?, items)
}

/// The list of one statement.
pub fn one_stmt(alloc: Global, stmt: Stmt) -> Result<List<Stmt>, NoMemory>
    ensures { IfOk result (λ list. list ≡ stmt ∷ []) }
{
    let mut list = List::new(alloc);
    list.push(stmt)?;
    Ok(list)
}

/// `function (x, f) { items }`
#[tactic(auto, unfolding(crate::specs::Parts::function_tree))]
pub fn function_of_two(alloc: Global, x: &str, items: List<Stmt>) -> Result<Function, NoMemory>
    ensures { IfOk result (λ tree. tree ≡ spec.function_tree (spec.two_params x.now) items) }
{
    let params = two_params(alloc, x)?;
    Ok(function_tree(params, items))
}

/// `function (params) { items }`
#[tactic(auto, unfolding(crate::specs::Parts::function_tree))]
pub fn function_tree(params: List<Text>, items: List<Stmt>) -> Function
    ensures { result ≡ spec.function_tree params items }
{
    Function {
        name: None,
        params,
        generator: false,
        body: FnBody::Items(items),
    }
}

/// The parameters `x` and `f`.
pub fn two_params(alloc: Global, x: &str) -> Result<List<Text>, NoMemory>
    ensures { IfOk result (λ params. params ≡ spec.two_params x.now) }
{
    let mut params = List::new(alloc);
    params.push(text(alloc, x)?)?;
    params.push(text(alloc, "f")?)?;
    Ok(params)
}
