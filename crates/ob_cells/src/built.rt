ghost use Rattle.std.specs.Prelude.{◌≡◌, Bool, ◌||◌, map, option_map, not, ◌&&◌, IfOk};
ghost use Rattle.std.specs.List.{list_any};
ghost use Rattle.ob_cells.specs.Built as spec;
ghost use Rattle.ob_cells.specs.Built.{any_of, if_there, items_if_there, has_generator, is_unbuilt_name, names_are_built, expr_has, prop_has, stmt_has, value_has, body_has, head_has, catch_has, decl_has, function_has};

use ob_base::NoMemory;
use ob_names::{NameForm, NameRef, free_names};
use ob_tree::{
    CatchPart, CellTree, Decl, DeclValue, Expr, FnBody, ForHead, Function, PropNode, Stmt,
};
use std::alloc::Global;

/// Whether all that a cell needs is built: it is no import, view or mutable cell, holds no generator
/// function and is no generator body, and refers to no name of another form than plain, and not to
/// `invalidation`.
///
/// # Errors
/// `NoMemory` where an allocation is refused.
#[tactic(auto, unfolding(crate::specs::Built::is_built))]
pub fn is_built(alloc: Global, cell: &CellTree) -> Result<bool, NoMemory>
    ensures { IfOk result (λ built. built ≡ spec.is_built cell.now) }
{
    match cell {
        CellTree::Import(_) | CellTree::View(_, _) | CellTree::Mutable(_, _) => Ok(false),
        CellTree::Empty | CellTree::Function(_) | CellTree::Bare(_) | CellTree::Named(_, _) => {
            let names = names_are_built(alloc, cell)?;
            Ok(!has_generator(cell) && names)
        }
    }
}

fn names_are_built(alloc: Global, cell: &CellTree) -> Result<bool, NoMemory>
    ensures { IfOk result (λ built. built ≡ names_are_built cell.now) }
{
    let names = free_names(alloc, cell)?;
    Ok(!any_unbuilt(names.as_slice()))
}

fn any_unbuilt(names: &[NameRef]) -> bool
    ensures { result ≡ list_any is_unbuilt_name names.now }
{
    names.iter().any(is_unbuilt_name)
}

fn is_unbuilt_name(name: &NameRef) -> bool
    ensures { result ≡ is_unbuilt_name name.now }
{
    match name.form {
        NameForm::Plain => name.name.as_str() == "invalidation",
        NameForm::Viewof | NameForm::Mutable | NameForm::Initial => true,
    }
}

/// Whether a function of a cell, or its body, is a generator.
fn has_generator(cell: &CellTree) -> bool
    ensures { result ≡ has_generator cell.now }
{
    match cell {
        CellTree::Empty | CellTree::Import(_) => false,
        CellTree::Function(function) => function_has(function),
        CellTree::Bare(body) => function_has(body),
        CellTree::Named(_, body) => function_has(body),
        CellTree::View(_, body) => function_has(body),
        CellTree::Mutable(_, body) => function_has(body),
    }
}

fn either(one: bool, other: bool) -> bool
    ensures { result ≡ (one || other) }
{
    one || other
}

#[cycle(generators)]
fn expr_has(expr: &Expr) -> bool
    ensures { result ≡ expr_has expr.now }
{
    match expr {
        Expr::Undefined
        | Expr::Null
        | Expr::Bool(_)
        | Expr::Int(_)
        | Expr::Text(_)
        | Expr::Name(_)
        | Expr::ViewofName(_) => false,
        Expr::Array(items) => exprs_have(items.as_slice()),
        Expr::Object(props) => props_have(props.as_slice()),
        Expr::Function(function) => function_has(function),
        Expr::Arrow(function) => function_has(function),
        Expr::Unary(_, operand) => expr_has(operand.get()),
        Expr::Binary(_, left, right) => either(expr_has(left.get()), expr_has(right.get())),
        Expr::Compare(_, left, right) => either(expr_has(left.get()), expr_has(right.get())),
        Expr::Logic(_, left, right) => either(expr_has(left.get()), expr_has(right.get())),
        Expr::Cond(test, yes, no) => {
            let rest = either(expr_has(yes.get()), expr_has(no.get()));
            either(expr_has(test.get()), rest)
        }
        Expr::Assign(_, target, value) => either(expr_has(target.get()), expr_has(value.get())),
        Expr::Update(_, _, target) => expr_has(target.get()),
        Expr::Member(object, _) => expr_has(object.get()),
        Expr::Index(object, key) => either(expr_has(object.get()), expr_has(key.get())),
        Expr::Call(callee, arguments) => {
            let rest = exprs_have(arguments.as_slice());
            either(expr_has(callee.get()), rest)
        }
        Expr::New(_, arguments) => exprs_have(arguments.as_slice()),
    }
}

#[cycle(generators)]
fn exprs_have(exprs: &[Expr]) -> bool
    ensures { result ≡ any_of (map expr_has exprs.now) }
{
    for expr in exprs {
        if expr_has(expr) {
            return true;
        }
    }
    false
}

#[cycle(generators)]
fn has_if_there(expr: &Option<Expr>) -> bool
    ensures { result ≡ if_there (option_map expr_has expr.now) }
{
    match expr {
        None => false,
        Some(expr) => expr_has(expr),
    }
}

#[cycle(generators)]
fn prop_has(prop: &PropNode) -> bool
    ensures { result ≡ prop_has prop.now }
{
    match prop {
        PropNode::Short(_) => false,
        PropNode::Fixed(_, value) => expr_has(value),
        PropNode::Computed(key, value) => either(expr_has(key), expr_has(value)),
    }
}

#[cycle(generators)]
fn props_have(props: &[PropNode]) -> bool
    ensures { result ≡ any_of (map prop_has props.now) }
{
    for prop in props {
        if prop_has(prop) {
            return true;
        }
    }
    false
}

#[cycle(generators)]
fn function_has(function: &Function) -> bool
    ensures { result ≡ function_has function.now }
{
    either(function.generator, body_has(&function.body))
}

#[cycle(generators)]
fn body_has(body: &FnBody) -> bool
    ensures { result ≡ body_has body.now }
{
    match body {
        FnBody::Items(items) => stmts_have(items.as_slice()),
        FnBody::Value(value) => expr_has(value.get()),
    }
}

#[cycle(generators)]
fn stmt_has(stmt: &Stmt) -> bool
    ensures { result ≡ stmt_has stmt.now }
{
    match stmt {
        Stmt::Empty | Stmt::Break | Stmt::Continue => false,
        Stmt::Block(items) => stmts_have(items.as_slice()),
        Stmt::Expr(expr) => expr_has(expr),
        Stmt::Let(decls) => decls_have(decls.as_slice()),
        Stmt::Const(decls) => decls_have(decls.as_slice()),
        Stmt::Function(function) => function_has(function),
        Stmt::Yield(_, given) => has_if_there(given),
        Stmt::Change(_, _, value) => has_if_there(value),
        Stmt::If(test, yes, no) => {
            let rest = match no {
                None => stmt_has(yes.get()),
                Some(no) => either(stmt_has(yes.get()), stmt_has(no.get())),
            };
            either(expr_has(test), rest)
        }
        Stmt::While(test, turn) => either(expr_has(test), stmt_has(turn.get())),
        Stmt::DoWhile(turn, test) => {
            let turn = stmt_has(turn.get());
            either(turn, expr_has(test))
        }
        Stmt::For(head, test, update, turn) => {
            let rest = either(has_if_there(update), stmt_has(turn.get()));
            let rest = either(has_if_there(test), rest);
            either(head_has(head), rest)
        }
        Stmt::ForOf(_, _, source, turn) => { either(expr_has(source), stmt_has(turn.get())) }
        Stmt::Return(value) => has_if_there(value),
        Stmt::Throw(value) => expr_has(value),
        Stmt::Try(items, handler, last) => {
            let handler = match handler {
                None => false,
                Some(part) => catch_has(part),
            };
            let last = match last {
                None => false,
                Some(last) => stmts_have(last.as_slice()),
            };
            either(stmts_have(items.as_slice()), either(handler, last))
        }
    }
}

#[cycle(generators)]
fn stmts_have(stmts: &[Stmt]) -> bool
    ensures { result ≡ any_of (map stmt_has stmts.now) }
{
    for stmt in stmts {
        if stmt_has(stmt) {
            return true;
        }
    }
    false
}

#[cycle(generators)]
fn catch_has(part: &CatchPart) -> bool
    ensures { result ≡ catch_has part.now }
{
    stmts_have(part.items.as_slice())
}

#[cycle(generators)]
fn head_has(head: &ForHead) -> bool
    ensures { result ≡ head_has head.now }
{
    match head {
        ForHead::Nothing => false,
        ForHead::Let(decls) => decls_have(decls.as_slice()),
        ForHead::Const(decls) => decls_have(decls.as_slice()),
        ForHead::Expr(expr) => expr_has(expr),
    }
}

#[cycle(generators)]
fn decls_have(decls: &[Decl]) -> bool
    ensures { result ≡ any_of (map decl_has decls.now) }
{
    for decl in decls {
        if decl_has(decl) {
            return true;
        }
    }
    false
}

#[cycle(generators)]
fn decl_has(decl: &Decl) -> bool
    ensures { result ≡ decl_has decl.now }
{
    value_has(&decl.value)
}

#[cycle(generators)]
fn value_has(value: &DeclValue) -> bool
    ensures { result ≡ value_has value.now }
{
    match value {
        DeclValue::Nothing => false,
        DeclValue::Value(first) => expr_has(first),
        DeclValue::Yield(given) => has_if_there(given),
    }
}
