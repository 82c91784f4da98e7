//! The walk through a tree, part by part. It is as deep as the tree.

ghost use Rattle.std.specs.Prelude.{◌≡◌, ◌++◌, map, option_map, Some, None, IfOk, OnOk};
ghost use Rattle.ob_grammar.specs.Early as spec;
ghost use Rattle.ob_early.specs.Found.{around, ran, declares, test_of, given_check, outermost, expression_check};

use crate::place::Place;
use crate::walker::Walker;
use ob_base::{NoMemory, Text};
use ob_tree_types::{
    Boxed, CatchPart, Decl, DeclValue, Expr, FnBody, ForHead, Function, PropNode, Stmt,
};

/// Where a declaration stands and by which word: what it may give its names depends on that.
#[derive(Clone, Copy)]
pub enum DeclForm {
    Let,
    Const,
    HeadLet,
    HeadConst,
}

// ---- names that come into scope, the last one first

fn bind_name<'a>(
    walker: &mut Walker<'a>,
    count: usize,
    name: &'a Option<Text>,
) -> Result<(), NoMemory>
    ensures { OnOk result (walker.new ≡ declares count (spec.name_list name.now) walker.old) }
{
    match name {
        None => Ok(()),
        Some(name) => walker.declare(count, name),
    }
}

fn bind_params<'a>(
    walker: &mut Walker<'a>,
    count: usize,
    params: &'a [Text],
) -> Result<(), NoMemory>
    ensures { OnOk result (walker.new ≡ declares count params.now walker.old) }
{
    for place in (0..params.len()).rev() {
        walker.declare(count, &params[place])?;
    }
    Ok(())
}

fn bind_decls<'a>(walker: &mut Walker<'a>, count: usize, decls: &'a [Decl]) -> Result<(), NoMemory>
    ensures { OnOk result (walker.new ≡ declares count (spec.names_of (map spec.declared_of decls.now)) walker.old) }
{
    for place in (0..decls.len()).rev() {
        walker.declare(count, &decls[place].name)?;
    }
    Ok(())
}

fn bind_item<'a>(walker: &mut Walker<'a>, count: usize, stmt: &'a Stmt) -> Result<(), NoMemory>
    ensures { OnOk result (walker.new ≡ declares count (spec.part_of stmt.now).declares walker.old) }
{
    match stmt {
        Stmt::Let(decls) => bind_decls(walker, count, decls.as_slice()),
        Stmt::Const(decls) => bind_decls(walker, count, decls.as_slice()),
        Stmt::Function(function) => bind_name(walker, count, &function.name),
        Stmt::Block(_)
        | Stmt::Empty
        | Stmt::Expr(_)
        | Stmt::Yield(_, _)
        | Stmt::Change(_, _, _)
        | Stmt::If(_, _, _)
        | Stmt::While(_, _)
        | Stmt::DoWhile(_, _)
        | Stmt::For(_, _, _, _)
        | Stmt::ForOf(_, _, _, _)
        | Stmt::Break
        | Stmt::Continue
        | Stmt::Return(_)
        | Stmt::Throw(_)
        | Stmt::Try(_, _, _) => Ok(()),
    }
}

fn bind_items<'a>(walker: &mut Walker<'a>, count: usize, items: &'a [Stmt]) -> Result<(), NoMemory>
    ensures { OnOk result (walker.new ≡ declares count (spec.declared_in (map spec.part_of items.now)) walker.old) }
{
    for place in (0..items.len()).rev() {
        bind_item(walker, count, &items[place])?;
    }
    Ok(())
}

fn bind_head<'a>(walker: &mut Walker<'a>, count: usize, head: &'a ForHead) -> Result<(), NoMemory>
    ensures { OnOk result (walker.new ≡ declares count (spec.head_of head.now).declares walker.old) }
{
    match head {
        ForHead::Nothing | ForHead::Expr(_) => Ok(()),
        ForHead::Let(decls) => bind_decls(walker, count, decls.as_slice()),
        ForHead::Const(decls) => bind_decls(walker, count, decls.as_slice()),
    }
}

fn bind_body<'a>(walker: &mut Walker<'a>, count: usize, body: &'a FnBody) -> Result<(), NoMemory>
    ensures { OnOk result (walker.new ≡ declares count (spec.body_of body.now).declares walker.old) }
{
    match body {
        FnBody::Items(items) => bind_items(walker, count, items.as_slice()),
        FnBody::Value(_) => Ok(()),
    }
}

// ---- parts in the order of the text

/// A function expression: its own name is in scope around it.
#[cycle(walk)]
pub fn walk_expression<'a>(
    walker: &mut Walker<'a>,
    place: Place,
    function: &'a Function,
) -> Result<(), NoMemory>
    ensures { OnOk result (walker.new ≡ ran place (expression_check function.now) walker.old) }
{
    let open = walker.open_count();
    bind_name(walker, open, &function.name)?;
    walk_function(walker, place, function)?;
    walker.close_to(open);
    Ok(())
}

/// A function inside the scope of its own name.
#[cycle(walk)]
pub fn walk_function<'a>(
    walker: &mut Walker<'a>,
    place: Place,
    function: &'a Function,
) -> Result<(), NoMemory>
    ensures { OnOk result (walker.new ≡ ran place (spec.made function.now).check walker.old) }
{
    let inside = Place::function(function.generator);
    let open = walker.open_count();
    bind_body(walker, open, &function.body)?;
    bind_params(walker, open, function.params.as_slice())?;
    walk_body(walker, inside, &function.body)?;
    walker.close_to(open);
    Ok(())
}

#[cycle(walk)]
fn walk_body<'a>(walker: &mut Walker<'a>, place: Place, body: &'a FnBody) -> Result<(), NoMemory>
    ensures { OnOk result (walker.new ≡ ran place (spec.body_of body.now).check walker.old) }
{
    match body {
        FnBody::Items(items) => walk_items(walker, place, items.as_slice()),
        FnBody::Value(value) => walk_expr(walker, place, value.get()),
    }
}

#[cycle(walk)]
fn walk_expr<'a>(walker: &mut Walker<'a>, place: Place, expr: &'a Expr) -> Result<(), NoMemory>
    ensures { OnOk result (walker.new ≡ ran place (spec.value_of expr.now).check walker.old) }
{
    match expr {
        Expr::Undefined
        | Expr::Null
        | Expr::Bool(_)
        | Expr::Int(_)
        | Expr::Text(_)
        | Expr::Name(_)
        | Expr::ViewofName(_) => Ok(()),
        Expr::Array(items) => walk_exprs(walker, place, items.as_slice()),
        Expr::Object(props) => walk_props(walker, place, props.as_slice()),
        Expr::Function(function) => walk_expression(walker, place, function),
        Expr::Arrow(function) => walk_function(walker, place, function),
        Expr::Unary(_, operand) => walk_expr(walker, place, operand.get()),
        Expr::Binary(_, left, right) => {
            walk_expr(walker, place, left.get())?;
            walk_expr(walker, place, right.get())?;
            Ok(())
        }
        Expr::Compare(_, left, right) => {
            walk_expr(walker, place, left.get())?;
            walk_expr(walker, place, right.get())?;
            Ok(())
        }
        Expr::Logic(_, left, right) => {
            walk_expr(walker, place, left.get())?;
            walk_expr(walker, place, right.get())?;
            Ok(())
        }
        Expr::Cond(test, yes, no) => {
            walk_expr(walker, place, test.get())?;
            walk_expr(walker, place, yes.get())?;
            walk_expr(walker, place, no.get())?;
            Ok(())
        }
        Expr::Assign(_, target, value) => {
            let holds = is_assignable(walker, target.get());
            walker.require(holds);
            walk_expr(walker, place, target.get())?;
            walk_expr(walker, place, value.get())?;
            Ok(())
        }
        Expr::Update(_, _, target) => {
            let holds = is_assignable(walker, target.get());
            walker.require(holds);
            walk_expr(walker, place, target.get())?;
            Ok(())
        }
        Expr::Member(object, _) => walk_expr(walker, place, object.get()),
        Expr::Index(object, key) => {
            walk_expr(walker, place, object.get())?;
            walk_expr(walker, place, key.get())?;
            Ok(())
        }
        Expr::Call(callee, arguments) => {
            walk_expr(walker, place, callee.get())?;
            walk_exprs(walker, place, arguments.as_slice())?;
            Ok(())
        }
        Expr::New(_, arguments) => walk_exprs(walker, place, arguments.as_slice()),
    }
}

/// Whether a target may be assigned to: one that is a name has to be bound.
fn is_assignable(walker: &Walker<'_>, target: &Expr) -> bool
    ensures { result ≡ spec.may_assign (spec.value_of target.now).name (around outermost walker.now.names) }
{
    match target {
        Expr::Name(name) => walker.holds(name),
        Expr::Undefined
        | Expr::Null
        | Expr::Bool(_)
        | Expr::Int(_)
        | Expr::Text(_)
        | Expr::ViewofName(_)
        | Expr::Array(_)
        | Expr::Object(_)
        | Expr::Function(_)
        | Expr::Arrow(_)
        | Expr::Unary(_, _)
        | Expr::Binary(_, _, _)
        | Expr::Compare(_, _, _)
        | Expr::Logic(_, _, _)
        | Expr::Cond(_, _, _)
        | Expr::Assign(_, _, _)
        | Expr::Update(_, _, _)
        | Expr::Member(_, _)
        | Expr::Index(_, _)
        | Expr::Call(_, _)
        | Expr::New(_, _) => true,
    }
}

#[cycle(walk)]
fn walk_exprs<'a>(walker: &mut Walker<'a>, place: Place, exprs: &'a [Expr]) -> Result<(), NoMemory>
    ensures { OnOk result (walker.new ≡ ran place (spec.checks_of (map spec.value_of exprs.now)) walker.old) }
{
    for expr in exprs {
        walk_expr(walker, place, expr)?;
    }
    Ok(())
}

#[cycle(walk)]
fn walk_optional<'a>(
    walker: &mut Walker<'a>,
    place: Place,
    expr: &'a Option<Expr>,
) -> Result<(), NoMemory>
    ensures { OnOk result (walker.new ≡ ran place (spec.value_if_there (option_map spec.value_of expr.now)) walker.old) }
{
    match expr {
        None => Ok(()),
        Some(expr) => walk_expr(walker, place, expr),
    }
}

#[cycle(walk)]
fn walk_prop<'a>(walker: &mut Walker<'a>, place: Place, prop: &'a PropNode) -> Result<(), NoMemory>
    ensures { OnOk result (walker.new ≡ ran place (spec.prop_check prop.now) walker.old) }
{
    match prop {
        PropNode::Short(_) => Ok(()),
        PropNode::Fixed(_, value) => walk_expr(walker, place, value),
        PropNode::Computed(key, value) => {
            walk_expr(walker, place, key)?;
            walk_expr(walker, place, value)?;
            Ok(())
        }
    }
}

#[cycle(walk)]
fn walk_props<'a>(
    walker: &mut Walker<'a>,
    place: Place,
    props: &'a [PropNode],
) -> Result<(), NoMemory>
    ensures { OnOk result (walker.new ≡ ran place (spec.every (map spec.prop_check props.now)) walker.old) }
{
    for prop in props {
        walk_prop(walker, place, prop)?;
    }
    Ok(())
}

#[cycle(walk)]
fn walk_stmt<'a>(walker: &mut Walker<'a>, place: Place, stmt: &'a Stmt) -> Result<(), NoMemory>
    ensures { OnOk result (walker.new ≡ ran place (spec.part_of stmt.now).check walker.old) }
{
    match stmt {
        Stmt::Empty => Ok(()),
        Stmt::Break => {
            walker.require(place.in_loop);
            Ok(())
        }
        Stmt::Continue => {
            walker.require(place.in_loop);
            Ok(())
        }
        Stmt::Block(items) => walk_block(walker, place, items.as_slice()),
        Stmt::Expr(expr) => walk_expr(walker, place, expr),
        Stmt::Let(decls) => walk_decls(walker, place, DeclForm::Let, decls.as_slice()),
        Stmt::Const(decls) => walk_decls(walker, place, DeclForm::Const, decls.as_slice()),
        Stmt::Function(function) => walk_function(walker, place, function),
        Stmt::Yield(target, given) => {
            walker.require(place.in_generator);
            let holds = is_bound(walker, target);
            walker.require(holds);
            walk_optional(walker, place, given)?;
            Ok(())
        }
        Stmt::Change(_, _, value) => walk_optional(walker, place, value),
        Stmt::If(test, yes, no) => {
            walk_expr(walker, place, test)?;
            walk_stmt(walker, place, yes.get())?;
            walk_else(walker, place, no)?;
            Ok(())
        }
        Stmt::While(test, turn) => {
            walk_expr(walker, place, test)?;
            walk_stmt(walker, place.turn(), turn.get())?;
            Ok(())
        }
        Stmt::DoWhile(turn, test) => {
            walk_stmt(walker, place.turn(), turn.get())?;
            walk_expr(walker, place, test)?;
            Ok(())
        }
        Stmt::For(head, test, update, turn) => {
            let open = walker.open_count();
            bind_head(walker, open, head)?;
            walk_head(walker, place, head)?;
            walk_optional(walker, place, test)?;
            walk_optional(walker, place, update)?;
            walk_stmt(walker, place.turn(), turn.get())?;
            walker.close_to(open);
            Ok(())
        }
        Stmt::ForOf(_, name, source, turn) => {
            let open = walker.open_count();
            walker.declare(open, name)?;
            walk_expr(walker, place, source)?;
            walk_stmt(walker, place.turn(), turn.get())?;
            walker.close_to(open);
            Ok(())
        }
        Stmt::Return(value) => walk_optional(walker, place, value),
        Stmt::Throw(value) => walk_expr(walker, place, value),
        Stmt::Try(items, handler, last) => {
            walk_block(walker, place, items.as_slice())?;
            walk_handler(walker, place, handler)?;
            match last {
                None => Ok(()),
                Some(last) => {
                    walk_block(walker, place, last.as_slice())?;
                    Ok(())
                }
            }
        }
    }
}

/// The part behind `else`.
#[cycle(walk)]
fn walk_else<'a>(
    walker: &mut Walker<'a>,
    place: Place,
    part: &'a Option<Boxed<Stmt>>,
) -> Result<(), NoMemory>
    ensures { OnOk result (walker.new ≡ ran place (spec.part_if_there (option_map spec.part_of part.now)) walker.old) }
{
    match part {
        None => Ok(()),
        Some(part) => walk_stmt(walker, place, part.get()),
    }
}

/// Whether a `yield` may give what was sent to that name: it has to be bound.
fn is_bound(walker: &Walker<'_>, target: &Option<Text>) -> bool
    ensures { result ≡ spec.may_assign target.now (around outermost walker.now.names) }
{
    match target {
        None => true,
        Some(name) => walker.holds(name),
    }
}

#[cycle(walk)]
fn walk_items<'a>(walker: &mut Walker<'a>, place: Place, items: &'a [Stmt]) -> Result<(), NoMemory>
    ensures { OnOk result (walker.new ≡ ran place (spec.each (map spec.part_of items.now)) walker.old) }
{
    for item in items {
        walk_stmt(walker, place, item)?;
    }
    Ok(())
}

#[cycle(walk)]
fn walk_block<'a>(walker: &mut Walker<'a>, place: Place, items: &'a [Stmt]) -> Result<(), NoMemory>
    ensures { OnOk result (walker.new ≡ ran place (spec.block (map spec.part_of items.now)) walker.old) }
{
    let open = walker.open_count();
    bind_items(walker, open, items)?;
    walk_items(walker, place, items)?;
    walker.close_to(open);
    Ok(())
}

#[cycle(walk)]
fn walk_handler<'a>(
    walker: &mut Walker<'a>,
    place: Place,
    handler: &'a Option<CatchPart>,
) -> Result<(), NoMemory>
    ensures { OnOk result (walker.new ≡ ran place (spec.if_there (option_map spec.catch_check handler.now)) walker.old) }
{
    match handler {
        None => Ok(()),
        Some(part) => walk_catch(walker, place, part),
    }
}

/// The name of a `catch` and the top items of its block are one scope.
#[cycle(walk)]
fn walk_catch<'a>(
    walker: &mut Walker<'a>,
    place: Place,
    part: &'a CatchPart,
) -> Result<(), NoMemory>
    ensures { OnOk result (walker.new ≡ ran place (spec.catch_check part.now) walker.old) }
{
    let open = walker.open_count();
    bind_items(walker, open, part.items.as_slice())?;
    bind_name(walker, open, &part.name)?;
    walk_items(walker, place, part.items.as_slice())?;
    walker.close_to(open);
    Ok(())
}

#[cycle(walk)]
fn walk_head<'a>(walker: &mut Walker<'a>, place: Place, head: &'a ForHead) -> Result<(), NoMemory>
    ensures { OnOk result (walker.new ≡ ran place (spec.head_of head.now).check walker.old) }
{
    match head {
        ForHead::Nothing => Ok(()),
        ForHead::Let(decls) => walk_decls(walker, place, DeclForm::HeadLet, decls.as_slice()),
        ForHead::Const(decls) => walk_decls(walker, place, DeclForm::HeadConst, decls.as_slice()),
        ForHead::Expr(expr) => walk_expr(walker, place, expr),
    }
}

#[cycle(walk)]
fn walk_decls<'a>(
    walker: &mut Walker<'a>,
    place: Place,
    form: DeclForm,
    decls: &'a [Decl],
) -> Result<(), NoMemory>
    ensures { OnOk result (walker.new ≡ ran place (spec.each_given (test_of form) (map spec.declared_of decls.now)) walker.old) }
{
    for decl in decls {
        walk_decl(walker, place, form, decl)?;
    }
    Ok(())
}

#[cycle(walk)]
fn walk_decl<'a>(
    walker: &mut Walker<'a>,
    place: Place,
    form: DeclForm,
    decl: &'a Decl,
) -> Result<(), NoMemory>
    ensures { OnOk result (walker.new ≡ ran place (given_check form (spec.declared_of decl.now).given) walker.old) }
{
    walker.require(allows(form, &decl.value));
    walk_value(walker, place, &decl.value)?;
    Ok(())
}

/// Whether a declaration of that form may give its name that.
fn allows(form: DeclForm, value: &DeclValue) -> bool
    ensures { result ≡ test_of form (spec.given_of value.now) }
{
    match form {
        DeclForm::Let => true,
        DeclForm::Const => is_there(value),
        DeclForm::HeadLet => !is_yield(value),
        DeclForm::HeadConst => is_there(value) && !is_yield(value),
    }
}

fn is_there(value: &DeclValue) -> bool
    ensures { result ≡ (spec.given_of value.now).there }
{
    match value {
        DeclValue::Nothing => false,
        DeclValue::Value(_) | DeclValue::Yield(_) => true,
    }
}

fn is_yield(value: &DeclValue) -> bool
    ensures { result ≡ (spec.given_of value.now).yields }
{
    match value {
        DeclValue::Nothing | DeclValue::Value(_) => false,
        DeclValue::Yield(_) => true,
    }
}

#[cycle(walk)]
fn walk_value<'a>(
    walker: &mut Walker<'a>,
    place: Place,
    value: &'a DeclValue,
) -> Result<(), NoMemory>
    ensures { OnOk result (walker.new ≡ ran place (spec.given_of value.now).check walker.old) }
{
    match value {
        DeclValue::Nothing => Ok(()),
        DeclValue::Value(first) => walk_expr(walker, place, first),
        DeclValue::Yield(given) => {
            walker.require(place.in_generator);
            walk_optional(walker, place, given)?;
            Ok(())
        }
    }
}
