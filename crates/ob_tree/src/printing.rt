//! The canonical text of a cell.

ghost use Rattle.std.specs.Prelude.{◌≡◌, ◌++◌, map, option_map, string_bytes, OnOk};
ghost use Rattle.ob_tree.specs.Tokens.{spaced};
ghost use Rattle.ob_tree.specs.Print as spec;

use crate::marks::{
    assign_mark, binary_mark, change_mark, compare_mark, logic_mark, put_catch_name, put_comma,
    put_declaring, put_mark, put_name, put_number, put_optional_name, put_star, put_target,
    put_unary, put_word, update_mark, write_params,
};
use crate::quoted::{put_key, put_text};
use crate::{CatchPart, Decl, DeclValue, Expr, FnBody, ForHead, Function, PropNode, Stmt};
use ob_base::NoMemory;

#[cycle(print)]
pub fn write_expr(out: &mut String, expr: &Expr) -> Result<(), NoMemory>
    ensures { OnOk result (string_bytes out.new ≡ string_bytes out.old ++ spaced (spec.expr_tokens expr.now)) }
{
    match expr {
        Expr::Undefined => put_word(out, "undefined"),
        Expr::Null => put_word(out, "null"),
        Expr::Bool(true) => put_word(out, "true"),
        Expr::Bool(false) => put_word(out, "false"),
        Expr::Int(value) => put_number(out, *value),
        Expr::Text(units) => put_text(out, units.as_slice()),
        Expr::Name(name) => put_name(out, name),
        Expr::ViewofName(name) => {
            put_word(out, "viewof")?;
            put_name(out, name)?;
            Ok(())
        }
        Expr::Array(items) => {
            put_mark(out, "[")?;
            write_exprs(out, items.as_slice())?;
            put_mark(out, "]")?;
            Ok(())
        }
        Expr::Object(props) => {
            put_mark(out, "{")?;
            write_props(out, props.as_slice())?;
            put_mark(out, "}")?;
            Ok(())
        }
        Expr::Function(function) => {
            put_word(out, "function")?;
            write_declared(out, function)?;
            Ok(())
        }
        Expr::Arrow(function) => write_arrow(out, function),
        Expr::Unary(op, operand) => {
            put_unary(out, *op)?;
            write_operand(out, operand.get())?;
            Ok(())
        }
        Expr::Binary(op, left, right) => {
            write_operand(out, left.get())?;
            put_mark(out, binary_mark(*op))?;
            write_operand(out, right.get())?;
            Ok(())
        }
        Expr::Compare(op, left, right) => {
            write_operand(out, left.get())?;
            put_mark(out, compare_mark(*op))?;
            write_operand(out, right.get())?;
            Ok(())
        }
        Expr::Logic(op, left, right) => {
            write_operand(out, left.get())?;
            put_mark(out, logic_mark(*op))?;
            write_operand(out, right.get())?;
            Ok(())
        }
        Expr::Cond(test, then, other) => {
            write_operand(out, test.get())?;
            put_mark(out, "?")?;
            write_operand(out, then.get())?;
            put_mark(out, ":")?;
            write_operand(out, other.get())?;
            Ok(())
        }
        Expr::Assign(op, target, value) => {
            write_operand(out, target.get())?;
            put_mark(out, assign_mark(*op))?;
            write_operand(out, value.get())?;
            Ok(())
        }
        Expr::Update(op, true, target) => {
            put_mark(out, update_mark(*op))?;
            write_operand(out, target.get())?;
            Ok(())
        }
        Expr::Update(op, false, target) => {
            write_operand(out, target.get())?;
            put_mark(out, update_mark(*op))?;
            Ok(())
        }
        Expr::Member(object, word) => {
            write_operand(out, object.get())?;
            put_mark(out, ".")?;
            put_name(out, word)?;
            Ok(())
        }
        Expr::Index(object, key) => {
            write_operand(out, object.get())?;
            put_mark(out, "[")?;
            write_expr(out, key.get())?;
            put_mark(out, "]")?;
            Ok(())
        }
        Expr::Call(callee, arguments) => {
            write_operand(out, callee.get())?;
            write_arguments(out, arguments.as_slice())?;
            Ok(())
        }
        Expr::New(name, arguments) => {
            put_word(out, "new")?;
            put_name(out, name)?;
            write_arguments(out, arguments.as_slice())?;
            Ok(())
        }
    }
}

#[tactic(auto)]
fn stands_alone(expr: &Expr) -> bool
    ensures { result ≡ (spec.shown expr.now).alone }
{
    match expr {
        Expr::Undefined
        | Expr::Null
        | Expr::Bool(_)
        | Expr::Int(_)
        | Expr::Text(_)
        | Expr::Name(_)
        | Expr::ViewofName(_)
        | Expr::Array(_)
        | Expr::Member(_, _)
        | Expr::Index(_, _)
        | Expr::Call(_, _)
        | Expr::New(_, _) => true,
        Expr::Object(_)
        | Expr::Function(_)
        | Expr::Arrow(_)
        | Expr::Unary(_, _)
        | Expr::Binary(_, _, _)
        | Expr::Compare(_, _, _)
        | Expr::Logic(_, _, _)
        | Expr::Cond(_, _, _)
        | Expr::Assign(_, _, _)
        | Expr::Update(_, _, _) => false,
    }
}

#[cycle(print)]
#[tactic(auto, using(crate::proofs::Spacing::spaced_append, crate::proofs::Spacing::spaced_cons, crate::proofs::Spacing::spaced_none, crate::proofs::Spacing::operand_alone, crate::proofs::Spacing::operand_enclosed))]
fn write_operand(out: &mut String, expr: &Expr) -> Result<(), NoMemory>
    ensures { OnOk result (string_bytes out.new ≡ string_bytes out.old ++ spaced (spec.operand (spec.shown expr.now))) }
{
    if stands_alone(expr) {
        return write_expr(out, expr);
    }
    write_enclosed(out, expr)
}

#[cycle(print)]
fn write_enclosed(out: &mut String, expr: &Expr) -> Result<(), NoMemory>
    ensures { OnOk result (string_bytes out.new ≡ string_bytes out.old ++ spaced (spec.in_parentheses (spec.expr_tokens expr.now))) }
{
    put_mark(out, "(")?;
    write_expr(out, expr)?;
    put_mark(out, ")")?;
    Ok(())
}

#[cycle(print)]
fn write_arguments(out: &mut String, exprs: &[Expr]) -> Result<(), NoMemory>
    ensures { OnOk result (string_bytes out.new ≡ string_bytes out.old ++ spaced (spec.in_parentheses (spec.listed (map spec.expr_tokens exprs.now)))) }
{
    put_mark(out, "(")?;
    write_exprs(out, exprs)?;
    put_mark(out, ")")?;
    Ok(())
}

#[cycle(print)]
fn write_exprs(out: &mut String, exprs: &[Expr]) -> Result<(), NoMemory>
    ensures { OnOk result (string_bytes out.new ≡ string_bytes out.old ++ spaced (spec.listed (map spec.expr_tokens exprs.now))) }
{
    for (place, expr) in exprs.iter().enumerate() {
        put_comma(out, place)?;
        write_expr(out, expr)?;
    }
    Ok(())
}

#[cycle(print)]
fn write_given(out: &mut String, expr: &Option<Expr>) -> Result<(), NoMemory>
    ensures { OnOk result (string_bytes out.new ≡ string_bytes out.old ++ spaced (spec.expr_if_there (option_map spec.shown expr.now))) }
{
    match expr {
        None => Ok(()),
        Some(expr) => write_expr(out, expr),
    }
}

#[cycle(print)]
fn write_props(out: &mut String, props: &[PropNode]) -> Result<(), NoMemory>
    ensures { OnOk result (string_bytes out.new ≡ string_bytes out.old ++ spaced (spec.listed (map spec.prop_tokens props.now))) }
{
    for (place, prop) in props.iter().enumerate() {
        put_comma(out, place)?;
        write_prop(out, prop)?;
    }
    Ok(())
}

#[cycle(print)]
fn write_prop(out: &mut String, prop: &PropNode) -> Result<(), NoMemory>
    ensures { OnOk result (string_bytes out.new ≡ string_bytes out.old ++ spaced (spec.prop_tokens prop.now)) }
{
    match prop {
        PropNode::Short(name) => put_name(out, name),
        PropNode::Fixed(key, value) => {
            put_key(out, key.as_slice())?;
            put_mark(out, ":")?;
            write_expr(out, value)?;
            Ok(())
        }
        PropNode::Computed(key, value) => {
            put_mark(out, "[")?;
            write_expr(out, key)?;
            put_mark(out, "]")?;
            put_mark(out, ":")?;
            write_expr(out, value)?;
            Ok(())
        }
    }
}

/// Adds a function without the word before it.
#[cycle(print)]
pub fn write_declared(out: &mut String, function: &Function) -> Result<(), NoMemory>
    ensures { OnOk result (string_bytes out.new ≡ string_bytes out.old ++ spaced ((spec.function_tokens function.now).declared)) }
{
    put_star(out, function.generator)?;
    put_optional_name(out, &function.name)?;
    write_params(out, function.params.as_slice())?;
    write_body(out, &function.body)?;
    Ok(())
}

#[cycle(print)]
fn write_arrow(out: &mut String, function: &Function) -> Result<(), NoMemory>
    ensures { OnOk result (string_bytes out.new ≡ string_bytes out.old ++ spaced ((spec.function_tokens function.now).arrow)) }
{
    write_params(out, function.params.as_slice())?;
    put_mark(out, "=>")?;
    write_body(out, &function.body)?;
    Ok(())
}

#[cycle(print)]
pub fn write_body(out: &mut String, body: &FnBody) -> Result<(), NoMemory>
    ensures { OnOk result (string_bytes out.new ≡ string_bytes out.old ++ spaced (spec.body_tokens body.now)) }
{
    match body {
        FnBody::Items(items) => write_block(out, items.as_slice()),
        FnBody::Value(value) => write_enclosed(out, value.get()),
    }
}

#[cycle(print)]
fn write_block(out: &mut String, stmts: &[Stmt]) -> Result<(), NoMemory>
    ensures { OnOk result (string_bytes out.new ≡ string_bytes out.old ++ spaced (spec.in_braces (spec.joined (map spec.stmt_tokens stmts.now)))) }
{
    put_mark(out, "{")?;
    write_stmts(out, stmts)?;
    put_mark(out, "}")?;
    Ok(())
}

#[cycle(print)]
pub fn write_stmts(out: &mut String, stmts: &[Stmt]) -> Result<(), NoMemory>
    ensures { OnOk result (string_bytes out.new ≡ string_bytes out.old ++ spaced (spec.joined (map spec.stmt_tokens stmts.now))) }
{
    for stmt in stmts {
        write_stmt(out, stmt)?;
    }
    Ok(())
}

#[cycle(print)]
fn write_stmt(out: &mut String, stmt: &Stmt) -> Result<(), NoMemory>
    ensures { OnOk result (string_bytes out.new ≡ string_bytes out.old ++ spaced (spec.stmt_tokens stmt.now)) }
{
    match stmt {
        Stmt::Block(items) => write_block(out, items.as_slice()),
        Stmt::Empty => put_mark(out, ";"),
        Stmt::Expr(expr) => {
            write_enclosed(out, expr)?;
            put_mark(out, ";")?;
            Ok(())
        }
        Stmt::Let(decls) => {
            put_word(out, "let")?;
            write_decls(out, decls.as_slice())?;
            put_mark(out, ";")?;
            Ok(())
        }
        Stmt::Const(decls) => {
            put_word(out, "const")?;
            write_decls(out, decls.as_slice())?;
            put_mark(out, ";")?;
            Ok(())
        }
        Stmt::Function(function) => {
            put_word(out, "function")?;
            write_declared(out, function)?;
            Ok(())
        }
        Stmt::Yield(name, given) => {
            put_target(out, name)?;
            put_word(out, "yield")?;
            write_given(out, given)?;
            put_mark(out, ";")?;
            Ok(())
        }
        Stmt::Change(name, op, value) => {
            put_word(out, "mutable")?;
            put_name(out, name)?;
            put_mark(out, change_mark(*op))?;
            write_given(out, value)?;
            put_mark(out, ";")?;
            Ok(())
        }
        Stmt::If(test, then, other) => {
            put_word(out, "if")?;
            write_enclosed(out, test)?;
            write_stmt(out, then.get())?;
            match other {
                None => Ok(()),
                Some(other) => {
                    put_word(out, "else")?;
                    write_stmt(out, other.get())?;
                    Ok(())
                }
            }
        }
        Stmt::While(test, turn) => {
            put_word(out, "while")?;
            write_enclosed(out, test)?;
            write_stmt(out, turn.get())?;
            Ok(())
        }
        Stmt::DoWhile(turn, test) => {
            put_word(out, "do")?;
            write_stmt(out, turn.get())?;
            put_word(out, "while")?;
            write_enclosed(out, test)?;
            put_mark(out, ";")?;
            Ok(())
        }
        Stmt::For(head, test, update, turn) => {
            put_word(out, "for")?;
            put_mark(out, "(")?;
            write_head(out, head)?;
            put_mark(out, ";")?;
            write_given(out, test)?;
            put_mark(out, ";")?;
            write_given(out, update)?;
            put_mark(out, ")")?;
            write_stmt(out, turn.get())?;
            Ok(())
        }
        Stmt::ForOf(constant, name, source, turn) => {
            put_word(out, "for")?;
            put_mark(out, "(")?;
            put_declaring(out, *constant)?;
            put_name(out, name)?;
            put_word(out, "of")?;
            write_expr(out, source)?;
            put_mark(out, ")")?;
            write_stmt(out, turn.get())?;
            Ok(())
        }
        Stmt::Break => {
            put_word(out, "break")?;
            put_mark(out, ";")?;
            Ok(())
        }
        Stmt::Continue => {
            put_word(out, "continue")?;
            put_mark(out, ";")?;
            Ok(())
        }
        Stmt::Return(value) => {
            put_word(out, "return")?;
            write_given(out, value)?;
            put_mark(out, ";")?;
            Ok(())
        }
        Stmt::Throw(value) => {
            put_word(out, "throw")?;
            write_expr(out, value)?;
            put_mark(out, ";")?;
            Ok(())
        }
        Stmt::Try(items, handler, last) => {
            put_word(out, "try")?;
            write_block(out, items.as_slice())?;
            write_handler(out, handler)?;
            match last {
                None => Ok(()),
                Some(last) => {
                    put_word(out, "finally")?;
                    write_block(out, last.as_slice())?;
                    Ok(())
                }
            }
        }
    }
}

#[cycle(print)]
fn write_handler(out: &mut String, part: &Option<CatchPart>) -> Result<(), NoMemory>
    ensures { OnOk result (string_bytes out.new ≡ string_bytes out.old ++ spaced (spec.catch_part (option_map spec.catch_tokens part.now))) }
{
    match part {
        None => Ok(()),
        Some(part) => write_catch(out, part),
    }
}

#[cycle(print)]
fn write_catch(out: &mut String, part: &CatchPart) -> Result<(), NoMemory>
    ensures { OnOk result (string_bytes out.new ≡ string_bytes out.old ++ spaced (spec.catch_tokens part.now)) }
{
    put_word(out, "catch")?;
    put_catch_name(out, &part.name)?;
    write_block(out, part.items.as_slice())?;
    Ok(())
}

#[cycle(print)]
fn write_head(out: &mut String, head: &ForHead) -> Result<(), NoMemory>
    ensures { OnOk result (string_bytes out.new ≡ string_bytes out.old ++ spaced (spec.head_tokens head.now)) }
{
    match head {
        ForHead::Nothing => Ok(()),
        ForHead::Let(decls) => {
            put_word(out, "let")?;
            write_decls(out, decls.as_slice())?;
            Ok(())
        }
        ForHead::Const(decls) => {
            put_word(out, "const")?;
            write_decls(out, decls.as_slice())?;
            Ok(())
        }
        ForHead::Expr(expr) => write_expr(out, expr),
    }
}

#[cycle(print)]
fn write_decls(out: &mut String, decls: &[Decl]) -> Result<(), NoMemory>
    ensures { OnOk result (string_bytes out.new ≡ string_bytes out.old ++ spaced (spec.listed (map spec.decl_tokens decls.now))) }
{
    for (place, decl) in decls.iter().enumerate() {
        put_comma(out, place)?;
        write_decl(out, decl)?;
    }
    Ok(())
}

#[cycle(print)]
fn write_decl(out: &mut String, decl: &Decl) -> Result<(), NoMemory>
    ensures { OnOk result (string_bytes out.new ≡ string_bytes out.old ++ spaced (spec.decl_tokens decl.now)) }
{
    put_name(out, &decl.name)?;
    write_value(out, &decl.value)?;
    Ok(())
}

#[cycle(print)]
fn write_value(out: &mut String, value: &DeclValue) -> Result<(), NoMemory>
    ensures { OnOk result (string_bytes out.new ≡ string_bytes out.old ++ spaced (spec.value_tokens value.now)) }
{
    match value {
        DeclValue::Nothing => Ok(()),
        DeclValue::Value(first) => {
            put_mark(out, "=")?;
            write_expr(out, first)?;
            Ok(())
        }
        DeclValue::Yield(given) => {
            put_mark(out, "=")?;
            put_word(out, "yield")?;
            write_given(out, given)?;
            Ok(())
        }
    }
}
