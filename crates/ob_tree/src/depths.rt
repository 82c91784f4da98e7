ghost use Rattle.std.specs.Prelude.{◌≡◌, ◌+◌, min, max, map, option_map};
ghost use Rattle.ob_tree.specs.Depth.{deepest, if_there, items_if_there, depth_of, expr_depth, prop_depth, stmt_depth, value_depth, body_depth, head_depth, catch_depth, decl_depth, function_depth};

use crate::{
    CatchPart, CellTree, Decl, DeclValue, Expr, FnBody, ForHead, Function, PropNode, Stmt,
};

/// How deep a cell's tree is, or 2^32-1 where it is deeper: a leaf has depth 1, any other node one
/// more than its deepest part. The nodes are the expressions, properties, statements and the cell,
/// and the function of a function cell, a node below the cell.
pub fn depth(cell: &CellTree) -> u32
    ensures { result ≡ min (depth_of cell.now) u32.MAX }
{
    match cell {
        CellTree::Empty | CellTree::Import(_) => 1,
        CellTree::Function(function) => above(above(depth_in_function(function))),
        CellTree::Bare(body) => above(depth_in_function(body)),
        CellTree::Named(_, body) => above(depth_in_function(body)),
        CellTree::View(_, body) => above(depth_in_function(body)),
        CellTree::Mutable(_, body) => above(depth_in_function(body)),
    }
}

/// One more, up to 2^32-1.
fn above(deepest: u32) -> u32
    ensures { result ≡ min (1 + deepest) u32.MAX }
{
    deepest.saturating_add(1)
}

fn greater(one: u32, other: u32) -> u32
    ensures { result ≡ max one other }
{
    if one < other { other } else { one }
}

/// How deep an expression is, or 2^32-1 where it is deeper.
#[cycle(depth)]
pub fn depth_of_expr(expr: &Expr) -> u32
    ensures { result ≡ min (expr_depth expr.now) u32.MAX }
{
    match expr {
        Expr::Undefined
        | Expr::Null
        | Expr::Bool(_)
        | Expr::Int(_)
        | Expr::Text(_)
        | Expr::Name(_)
        | Expr::ViewofName(_) => 1,
        Expr::Array(items) => above(depth_in_exprs(items.as_slice())),
        Expr::Object(props) => above(depth_in_props(props.as_slice())),
        Expr::Function(function) => above(depth_in_function(function)),
        Expr::Arrow(function) => above(depth_in_function(function)),
        Expr::Unary(_, operand) => above(depth_of_expr(operand.get())),
        Expr::Binary(_, left, right) => above(greater(
            depth_of_expr(left.get()),
            depth_of_expr(right.get()),
        )),
        Expr::Compare(_, left, right) => above(greater(
            depth_of_expr(left.get()),
            depth_of_expr(right.get()),
        )),
        Expr::Logic(_, left, right) => above(greater(
            depth_of_expr(left.get()),
            depth_of_expr(right.get()),
        )),
        Expr::Cond(test, yes, no) => {
            let rest = greater(depth_of_expr(yes.get()), depth_of_expr(no.get()));
            above(greater(depth_of_expr(test.get()), rest))
        }
        Expr::Assign(_, target, value) => above(greater(
            depth_of_expr(target.get()),
            depth_of_expr(value.get()),
        )),
        Expr::Update(_, _, target) => above(depth_of_expr(target.get())),
        Expr::Member(object, _) => above(depth_of_expr(object.get())),
        Expr::Index(object, key) => above(greater(
            depth_of_expr(object.get()),
            depth_of_expr(key.get()),
        )),
        Expr::Call(callee, arguments) => {
            let rest = depth_in_exprs(arguments.as_slice());
            above(greater(depth_of_expr(callee.get()), rest))
        }
        Expr::New(_, arguments) => above(depth_in_exprs(arguments.as_slice())),
    }
}

/// How deep the deepest of some expressions is, up to 2^32-1; 0 where there is none.
#[cycle(depth)]
pub fn depth_in_exprs(exprs: &[Expr]) -> u32
    ensures { result ≡ min (deepest (map expr_depth exprs.now)) u32.MAX }
{
    let mut most = 0;
    for expr in exprs {
        most = greater(most, depth_of_expr(expr));
    }
    most
}

#[cycle(depth)]
fn depth_if_there(expr: &Option<Expr>) -> u32
    ensures { result ≡ min (if_there (option_map expr_depth expr.now)) u32.MAX }
{
    match expr {
        None => 0,
        Some(expr) => depth_of_expr(expr),
    }
}

#[cycle(depth)]
fn depth_of_prop(prop: &PropNode) -> u32
    ensures { result ≡ min (prop_depth prop.now) u32.MAX }
{
    match prop {
        PropNode::Short(_) => 1,
        PropNode::Fixed(_, value) => above(depth_of_expr(value)),
        PropNode::Computed(key, value) => above(greater(depth_of_expr(key), depth_of_expr(value))),
    }
}

#[cycle(depth)]
fn depth_in_props(props: &[PropNode]) -> u32
    ensures { result ≡ min (deepest (map prop_depth props.now)) u32.MAX }
{
    let mut most = 0;
    for prop in props {
        most = greater(most, depth_of_prop(prop));
    }
    most
}

#[cycle(depth)]
fn depth_in_function(function: &Function) -> u32
    ensures { result ≡ min (function_depth function.now) u32.MAX }
{
    depth_in_body(&function.body)
}

#[cycle(depth)]
fn depth_in_body(body: &FnBody) -> u32
    ensures { result ≡ min (body_depth body.now) u32.MAX }
{
    match body {
        FnBody::Items(items) => depth_in_stmts(items.as_slice()),
        FnBody::Value(value) => depth_of_expr(value.get()),
    }
}

#[cycle(depth)]
fn depth_of_stmt(stmt: &Stmt) -> u32
    ensures { result ≡ min (stmt_depth stmt.now) u32.MAX }
{
    match stmt {
        Stmt::Empty | Stmt::Break | Stmt::Continue => 1,
        Stmt::Block(items) => above(depth_in_stmts(items.as_slice())),
        Stmt::Expr(expr) => above(depth_of_expr(expr)),
        Stmt::Let(decls) => above(depth_in_decls(decls.as_slice())),
        Stmt::Const(decls) => above(depth_in_decls(decls.as_slice())),
        Stmt::Function(function) => above(depth_in_function(function)),
        Stmt::Yield(_, given) => above(depth_if_there(given)),
        Stmt::Change(_, _, value) => above(depth_if_there(value)),
        Stmt::If(test, yes, no) => {
            let rest = match no {
                None => depth_of_stmt(yes.get()),
                Some(no) => greater(depth_of_stmt(yes.get()), depth_of_stmt(no.get())),
            };
            above(greater(depth_of_expr(test), rest))
        }
        Stmt::While(test, turn) => above(greater(depth_of_expr(test), depth_of_stmt(turn.get()))),
        Stmt::DoWhile(turn, test) => {
            let turn = depth_of_stmt(turn.get());
            above(greater(turn, depth_of_expr(test)))
        }
        Stmt::For(head, test, update, turn) => {
            let rest = greater(depth_if_there(update), depth_of_stmt(turn.get()));
            let rest = greater(depth_if_there(test), rest);
            above(greater(depth_in_head(head), rest))
        }
        Stmt::ForOf(_, _, source, turn) => {
            above(greater(depth_of_expr(source), depth_of_stmt(turn.get())))
        }
        Stmt::Return(value) => above(depth_if_there(value)),
        Stmt::Throw(value) => above(depth_of_expr(value)),
        Stmt::Try(items, handler, last) => {
            let handler = match handler {
                None => 0,
                Some(part) => depth_in_catch(part),
            };
            let last = match last {
                None => 0,
                Some(last) => depth_in_stmts(last.as_slice()),
            };
            above(greater(depth_in_stmts(items.as_slice()), greater(handler, last)))
        }
    }
}

#[cycle(depth)]
fn depth_in_stmts(stmts: &[Stmt]) -> u32
    ensures { result ≡ min (deepest (map stmt_depth stmts.now)) u32.MAX }
{
    let mut most = 0;
    for stmt in stmts {
        most = greater(most, depth_of_stmt(stmt));
    }
    most
}

#[cycle(depth)]
fn depth_in_catch(part: &CatchPart) -> u32
    ensures { result ≡ min (catch_depth part.now) u32.MAX }
{
    depth_in_stmts(part.items.as_slice())
}

#[cycle(depth)]
fn depth_in_head(head: &ForHead) -> u32
    ensures { result ≡ min (head_depth head.now) u32.MAX }
{
    match head {
        ForHead::Nothing => 0,
        ForHead::Let(decls) => depth_in_decls(decls.as_slice()),
        ForHead::Const(decls) => depth_in_decls(decls.as_slice()),
        ForHead::Expr(expr) => depth_of_expr(expr),
    }
}

#[cycle(depth)]
fn depth_in_decls(decls: &[Decl]) -> u32
    ensures { result ≡ min (deepest (map decl_depth decls.now)) u32.MAX }
{
    let mut most = 0;
    for decl in decls {
        most = greater(most, depth_in_decl(decl));
    }
    most
}

#[cycle(depth)]
fn depth_in_decl(decl: &Decl) -> u32
    ensures { result ≡ min (decl_depth decl.now) u32.MAX }
{
    depth_in_value(&decl.value)
}

#[cycle(depth)]
fn depth_in_value(value: &DeclValue) -> u32
    ensures { result ≡ min (value_depth value.now) u32.MAX }
{
    match value {
        DeclValue::Nothing => 0,
        DeclValue::Value(first) => depth_of_expr(first),
        DeclValue::Yield(given) => depth_if_there(given),
    }
}
