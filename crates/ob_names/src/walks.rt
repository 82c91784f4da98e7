//! The walk through a tree, part by part in the order of the text.

ghost use Rattle.std.specs.Prelude.{◌≡◌, map, option_map, IfOk, OnOk};
ghost use Rattle.ob_tree.specs.Walks as spec;
ghost use Rattle.ob_names.specs.Found.{at_start, ran, binds};

use crate::walker::Walker;
use ob_base::{NoMemory, Text};
use ob_tree::{
    CatchPart, CellTree, Decl, DeclValue, Expr, FnBody, ForHead, Function, PropNode, SpecForm, Stmt,
};
use std::alloc::Global;

/// A whole cell.
pub fn walked_cell<'a>(alloc: Global, cell: &'a CellTree) -> Result<Walker<'a>, NoMemory>
    ensures { IfOk result (λ walker. walker ≡ ran (spec.cell_walk cell.now) at_start) }
{
    let mut walker = Walker::new(alloc);
    walk_cell(&mut walker, cell)?;
    Ok(walker)
}

/// A whole function, as a function expression.
pub fn walked_function<'a>(alloc: Global, function: &'a Function) -> Result<Walker<'a>, NoMemory>
    ensures { IfOk result (λ walker. walker ≡ ran (spec.function_walk function.now) at_start) }
{
    let mut walker = Walker::new(alloc);
    walk_expression(&mut walker, function)?;
    Ok(walker)
}

fn walk_cell<'a>(walker: &mut Walker<'a>, cell: &'a CellTree) -> Result<(), NoMemory>
    ensures { OnOk result (walker.new ≡ ran (spec.cell_walk cell.now) walker.old) }
{
    match cell {
        CellTree::Empty | CellTree::Import(_) => Ok(()),
        CellTree::Function(function) => walk_expression(walker, function),
        CellTree::Bare(body) => walk_expression(walker, body),
        CellTree::Named(_, body) => walk_expression(walker, body),
        CellTree::View(_, body) => walk_expression(walker, body),
        CellTree::Mutable(_, body) => walk_expression(walker, body),
    }
}

fn bind_name<'a>(
    walker: &mut Walker<'a>,
    name: &'a Option<Text>,
    constant: bool,
) -> Result<(), NoMemory>
    ensures { OnOk result (walker.new ≡ binds (spec.bound_if_there constant name.now) walker.old) }
{
    match name {
        None => Ok(()),
        Some(name) => walker.bind(name, constant),
    }
}

fn bind_params<'a>(walker: &mut Walker<'a>, params: &'a [Text]) -> Result<(), NoMemory>
    ensures { OnOk result (walker.new ≡ binds (map (spec.binding spec.variable) params.now) walker.old) }
{
    for param in params {
        walker.bind(param, false)?;
    }
    Ok(())
}

fn bind_decls<'a>(
    walker: &mut Walker<'a>,
    decls: &'a [Decl],
    constant: bool,
) -> Result<(), NoMemory>
    ensures { OnOk result (walker.new ≡ binds (spec.names_of constant (map spec.decl_declared decls.now)) walker.old) }
{
    for decl in decls {
        walker.bind(&decl.name, constant)?;
    }
    Ok(())
}

fn bind_item<'a>(walker: &mut Walker<'a>, stmt: &'a Stmt) -> Result<(), NoMemory>
    ensures { OnOk result (walker.new ≡ binds (spec.stmt_item stmt.now).declares walker.old) }
{
    match stmt {
        Stmt::Let(decls) => bind_decls(walker, decls.as_slice(), false),
        Stmt::Const(decls) => bind_decls(walker, decls.as_slice(), true),
        Stmt::Function(function) => bind_name(walker, &function.name, false),
        Stmt::Block(_)
        | Stmt::Empty
        | Stmt::Expr(_)
        | Stmt::Yield(_, _)
        | Stmt::Change(_, _, _)
        | Stmt::If(_, _, _)
        | Stmt::While(_, _)
        | Stmt::DoWhile(_, _)
        | Stmt::For(_, _, _, _)
        | Stmt::ForOf(_, _, _, _)
        | Stmt::Break
        | Stmt::Continue
        | Stmt::Return(_)
        | Stmt::Throw(_)
        | Stmt::Try(_, _, _) => Ok(()),
    }
}

fn bind_items<'a>(walker: &mut Walker<'a>, items: &'a [Stmt]) -> Result<(), NoMemory>
    ensures { OnOk result (walker.new ≡ binds (spec.declares_of (map spec.stmt_item items.now)) walker.old) }
{
    for item in items {
        bind_item(walker, item)?;
    }
    Ok(())
}

fn bind_head<'a>(walker: &mut Walker<'a>, head: &'a ForHead) -> Result<(), NoMemory>
    ensures { OnOk result (walker.new ≡ binds (spec.head_item head.now).declares walker.old) }
{
    match head {
        ForHead::Nothing | ForHead::Expr(_) => Ok(()),
        ForHead::Let(decls) => bind_decls(walker, decls.as_slice(), false),
        ForHead::Const(decls) => bind_decls(walker, decls.as_slice(), true),
    }
}

fn bind_body<'a>(walker: &mut Walker<'a>, body: &'a FnBody) -> Result<(), NoMemory>
    ensures { OnOk result (walker.new ≡ binds (spec.body_item body.now).declares walker.old) }
{
    match body {
        FnBody::Items(items) => bind_items(walker, items.as_slice()),
        FnBody::Value(_) => Ok(()),
    }
}

/// A function expression: its own name is in scope around it.
#[cycle(walk)]
fn walk_expression<'a>(walker: &mut Walker<'a>, function: &'a Function) -> Result<(), NoMemory>
    ensures { OnOk result (walker.new ≡ ran (spec.function_walk function.now) walker.old) }
{
    let open = walker.open_count();
    bind_name(walker, &function.name, true)?;
    walk_function(walker, function)?;
    walker.close_to(open);
    Ok(())
}

#[cycle(walk)]
fn walk_function<'a>(walker: &mut Walker<'a>, function: &'a Function) -> Result<(), NoMemory>
    ensures { OnOk result (walker.new ≡ ran (spec.made function.now).walk walker.old) }
{
    walker.enter_function()?;
    let open = walker.open_count();
    bind_params(walker, function.params.as_slice())?;
    bind_body(walker, &function.body)?;
    walk_body(walker, &function.body)?;
    walker.close_to(open);
    walker.leave_function();
    Ok(())
}

#[cycle(walk)]
fn walk_body<'a>(walker: &mut Walker<'a>, body: &'a FnBody) -> Result<(), NoMemory>
    ensures { OnOk result (walker.new ≡ ran (spec.body_item body.now).walk walker.old) }
{
    match body {
        FnBody::Items(items) => walk_items(walker, items.as_slice()),
        FnBody::Value(value) => walk_expr(walker, value.get()),
    }
}

#[cycle(walk)]
fn walk_expr<'a>(walker: &mut Walker<'a>, expr: &'a Expr) -> Result<(), NoMemory>
    ensures { OnOk result (walker.new ≡ ran (spec.expr_walk expr.now) walker.old) }
{
    match expr {
        Expr::Undefined | Expr::Null | Expr::Bool(_) | Expr::Int(_) | Expr::Text(_) => Ok(()),
        Expr::Name(name) => walker.refer(name),
        Expr::ViewofName(name) => walker.refer_outside(SpecForm::Viewof, name),
        Expr::Array(items) => walk_exprs(walker, items.as_slice()),
        Expr::Object(props) => walk_props(walker, props.as_slice()),
        Expr::Function(function) => walk_expression(walker, function),
        Expr::Arrow(function) => walk_function(walker, function),
        Expr::Unary(_, operand) => walk_expr(walker, operand.get()),
        Expr::Binary(_, left, right) => {
            walk_expr(walker, left.get())?;
            walk_expr(walker, right.get())?;
            Ok(())
        }
        Expr::Compare(_, left, right) => {
            walk_expr(walker, left.get())?;
            walk_expr(walker, right.get())?;
            Ok(())
        }
        Expr::Logic(_, left, right) => {
            walk_expr(walker, left.get())?;
            walk_expr(walker, right.get())?;
            Ok(())
        }
        Expr::Cond(test, yes, no) => {
            walk_expr(walker, test.get())?;
            walk_expr(walker, yes.get())?;
            walk_expr(walker, no.get())?;
            Ok(())
        }
        Expr::Assign(_, target, value) => {
            walk_expr(walker, target.get())?;
            walk_expr(walker, value.get())?;
            Ok(())
        }
        Expr::Update(_, _, target) => walk_expr(walker, target.get()),
        Expr::Member(object, _) => walk_expr(walker, object.get()),
        Expr::Index(object, key) => {
            walk_expr(walker, object.get())?;
            walk_expr(walker, key.get())?;
            Ok(())
        }
        Expr::Call(callee, arguments) => {
            walk_expr(walker, callee.get())?;
            walk_exprs(walker, arguments.as_slice())?;
            Ok(())
        }
        Expr::New(name, arguments) => {
            walker.refer(name)?;
            walk_exprs(walker, arguments.as_slice())?;
            Ok(())
        }
    }
}

#[cycle(walk)]
fn walk_exprs<'a>(walker: &mut Walker<'a>, exprs: &'a [Expr]) -> Result<(), NoMemory>
    ensures { OnOk result (walker.new ≡ ran (spec.all (map spec.expr_walk exprs.now)) walker.old) }
{
    for expr in exprs {
        walk_expr(walker, expr)?;
    }
    Ok(())
}

#[cycle(walk)]
fn walk_optional<'a>(walker: &mut Walker<'a>, expr: &'a Option<Expr>) -> Result<(), NoMemory>
    ensures { OnOk result (walker.new ≡ ran (spec.if_there (option_map spec.expr_walk expr.now)) walker.old) }
{
    match expr {
        None => Ok(()),
        Some(expr) => walk_expr(walker, expr),
    }
}

#[cycle(walk)]
fn walk_prop<'a>(walker: &mut Walker<'a>, prop: &'a PropNode) -> Result<(), NoMemory>
    ensures { OnOk result (walker.new ≡ ran (spec.prop_walk prop.now) walker.old) }
{
    match prop {
        PropNode::Short(name) => walker.refer(name),
        PropNode::Fixed(_, value) => walk_expr(walker, value),
        PropNode::Computed(key, value) => {
            walk_expr(walker, key)?;
            walk_expr(walker, value)?;
            Ok(())
        }
    }
}

#[cycle(walk)]
fn walk_props<'a>(walker: &mut Walker<'a>, props: &'a [PropNode]) -> Result<(), NoMemory>
    ensures { OnOk result (walker.new ≡ ran (spec.all (map spec.prop_walk props.now)) walker.old) }
{
    for prop in props {
        walk_prop(walker, prop)?;
    }
    Ok(())
}

#[cycle(walk)]
fn walk_stmt<'a>(walker: &mut Walker<'a>, stmt: &'a Stmt) -> Result<(), NoMemory>
    ensures { OnOk result (walker.new ≡ ran (spec.stmt_item stmt.now).walk walker.old) }
{
    match stmt {
        Stmt::Empty | Stmt::Break | Stmt::Continue => Ok(()),
        Stmt::Block(items) => walk_block(walker, items.as_slice()),
        Stmt::Expr(expr) => walk_expr(walker, expr),
        Stmt::Let(decls) => walk_decls(walker, decls.as_slice()),
        Stmt::Const(decls) => walk_decls(walker, decls.as_slice()),
        Stmt::Function(function) => walk_function(walker, function),
        Stmt::Yield(target, given) => {
            refer_target(walker, target)?;
            walk_optional(walker, given)?;
            Ok(())
        }
        Stmt::Change(name, _, value) => {
            walker.refer_outside(SpecForm::Mutable, name)?;
            walk_optional(walker, value)?;
            Ok(())
        }
        Stmt::If(test, yes, None) => {
            walk_expr(walker, test)?;
            walk_stmt(walker, yes.get())?;
            Ok(())
        }
        Stmt::If(test, yes, Some(no)) => {
            walk_expr(walker, test)?;
            walk_stmt(walker, yes.get())?;
            walk_stmt(walker, no.get())?;
            Ok(())
        }
        Stmt::While(test, turn) => {
            walk_expr(walker, test)?;
            walk_stmt(walker, turn.get())?;
            Ok(())
        }
        Stmt::DoWhile(turn, test) => {
            walk_stmt(walker, turn.get())?;
            walk_expr(walker, test)?;
            Ok(())
        }
        Stmt::For(head, test, update, turn) => {
            let open = walker.open_count();
            bind_head(walker, head)?;
            walk_head(walker, head)?;
            walk_optional(walker, test)?;
            walk_optional(walker, update)?;
            walk_stmt(walker, turn.get())?;
            walker.close_to(open);
            Ok(())
        }
        Stmt::ForOf(constant, name, source, turn) => {
            let open = walker.open_count();
            walker.bind(name, false)?;
            walk_expr(walker, source)?;
            walker.close_to(open);
            walker.bind(name, *constant)?;
            walk_stmt(walker, turn.get())?;
            walker.close_to(open);
            Ok(())
        }
        Stmt::Return(value) => walk_optional(walker, value),
        Stmt::Throw(value) => walk_expr(walker, value),
        Stmt::Try(items, handler, None) => {
            walk_block(walker, items.as_slice())?;
            walk_handler(walker, handler)?;
            Ok(())
        }
        Stmt::Try(items, handler, Some(last)) => {
            walk_block(walker, items.as_slice())?;
            walk_handler(walker, handler)?;
            walk_block(walker, last.as_slice())?;
            Ok(())
        }
    }
}

/// The name to which a `yield` gives what was sent.
fn refer_target<'a>(walker: &mut Walker<'a>, target: &'a Option<Text>) -> Result<(), NoMemory>
    ensures { OnOk result (walker.new ≡ ran (spec.target_if_there target.now) walker.old) }
{
    match target {
        None => Ok(()),
        Some(name) => walker.refer(name),
    }
}

#[cycle(walk)]
fn walk_items<'a>(walker: &mut Walker<'a>, items: &'a [Stmt]) -> Result<(), NoMemory>
    ensures { OnOk result (walker.new ≡ ran (spec.walks_of (map spec.stmt_item items.now)) walker.old) }
{
    for item in items {
        walk_stmt(walker, item)?;
    }
    Ok(())
}

#[cycle(walk)]
fn walk_block<'a>(walker: &mut Walker<'a>, items: &'a [Stmt]) -> Result<(), NoMemory>
    ensures { OnOk result (walker.new ≡ ran (spec.block (map spec.stmt_item items.now)) walker.old) }
{
    let open = walker.open_count();
    bind_items(walker, items)?;
    walk_items(walker, items)?;
    walker.close_to(open);
    Ok(())
}

#[cycle(walk)]
fn walk_handler<'a>(walker: &mut Walker<'a>, handler: &'a Option<CatchPart>) -> Result<(), NoMemory>
    ensures { OnOk result (walker.new ≡ ran (spec.if_there (option_map spec.catch_walk handler.now)) walker.old) }
{
    match handler {
        None => Ok(()),
        Some(part) => walk_catch(walker, part),
    }
}

#[cycle(walk)]
fn walk_catch<'a>(walker: &mut Walker<'a>, part: &'a CatchPart) -> Result<(), NoMemory>
    ensures { OnOk result (walker.new ≡ ran (spec.catch_walk part.now) walker.old) }
{
    let open = walker.open_count();
    bind_name(walker, &part.name, false)?;
    bind_items(walker, part.items.as_slice())?;
    walk_items(walker, part.items.as_slice())?;
    walker.close_to(open);
    Ok(())
}

#[cycle(walk)]
fn walk_head<'a>(walker: &mut Walker<'a>, head: &'a ForHead) -> Result<(), NoMemory>
    ensures { OnOk result (walker.new ≡ ran (spec.head_item head.now).walk walker.old) }
{
    match head {
        ForHead::Nothing => Ok(()),
        ForHead::Let(decls) => walk_decls(walker, decls.as_slice()),
        ForHead::Const(decls) => walk_decls(walker, decls.as_slice()),
        ForHead::Expr(expr) => walk_expr(walker, expr),
    }
}

#[cycle(walk)]
fn walk_decls<'a>(walker: &mut Walker<'a>, decls: &'a [Decl]) -> Result<(), NoMemory>
    ensures { OnOk result (walker.new ≡ ran (spec.values_of (map spec.decl_declared decls.now)) walker.old) }
{
    for decl in decls {
        walk_decl(walker, decl)?;
    }
    Ok(())
}

#[cycle(walk)]
fn walk_decl<'a>(walker: &mut Walker<'a>, decl: &'a Decl) -> Result<(), NoMemory>
    ensures { OnOk result (walker.new ≡ ran (spec.decl_declared decl.now).walk walker.old) }
{
    walk_value(walker, &decl.value)
}

#[cycle(walk)]
fn walk_value<'a>(walker: &mut Walker<'a>, value: &'a DeclValue) -> Result<(), NoMemory>
    ensures { OnOk result (walker.new ≡ ran (spec.value_walk value.now) walker.old) }
{
    match value {
        DeclValue::Nothing => Ok(()),
        DeclValue::Value(first) => walk_expr(walker, first),
        DeclValue::Yield(given) => walk_optional(walker, given),
    }
}
