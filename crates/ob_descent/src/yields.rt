//! Whether statements hold a `yield` outside the functions among them.

ghost use Rattle.std.specs.Prelude.{◌≡◌, map};
ghost use Rattle.ob_grammar.specs.Yields as spec;
ghost use Rattle.ob_grammar.specs.Yields.{in_any};
ghost use Rattle.ob_descent.specs.YieldsIn.{stmt_yields, decl_yields, value_yields, head_yields, catch_yields};

use ob_tree_types::{CatchPart, Decl, DeclValue, ForHead, Stmt};

/// Whether statements hold a `yield` that stands in no function among them.
#[tactic(auto, using(crate::proofs::YieldsOf::yields_any))]
pub fn yields(items: &[Stmt]) -> bool
    ensures { result ≡ spec.yields items.now }
{
    in_stmts(items)
}

#[cycle(yields)]
fn in_stmts(stmts: &[Stmt]) -> bool
    ensures { result ≡ in_any (map stmt_yields stmts.now) }
{
    for stmt in stmts {
        if in_stmt(stmt) {
            return true;
        }
    }
    false
}

#[cycle(yields)]
fn in_stmt(stmt: &Stmt) -> bool
    ensures { result ≡ stmt_yields stmt.now }
{
    match stmt {
        Stmt::Block(items) => in_stmts(items.as_slice()),
        Stmt::Let(decls) => in_decls(decls.as_slice()),
        Stmt::Const(decls) => in_decls(decls.as_slice()),
        Stmt::Yield(_, _) => true,
        Stmt::If(_, yes, no) => {
            in_stmt(yes.get())
                || match no {
                    None => false,
                    Some(no) => in_stmt(no.get()),
                }
        }
        Stmt::While(_, turn) => in_stmt(turn.get()),
        Stmt::DoWhile(turn, _) => in_stmt(turn.get()),
        Stmt::For(head, _, _, turn) => in_head(head) || in_stmt(turn.get()),
        Stmt::ForOf(_, _, _, turn) => in_stmt(turn.get()),
        Stmt::Try(items, handler, last) => {
            if in_stmts(items.as_slice()) {
                return true;
            }
            let handled = match handler {
                None => false,
                Some(part) => in_catch(part),
            };
            handled
                || match last {
                    None => false,
                    Some(last) => in_stmts(last.as_slice()),
                }
        }
        Stmt::Empty
        | Stmt::Expr(_)
        | Stmt::Function(_)
        | Stmt::Change(_, _, _)
        | Stmt::Break
        | Stmt::Continue
        | Stmt::Return(_)
        | Stmt::Throw(_) => false,
    }
}

#[cycle(yields)]
fn in_catch(part: &CatchPart) -> bool
    ensures { result ≡ catch_yields part.now }
{
    in_stmts(part.items.as_slice())
}

fn in_head(head: &ForHead) -> bool
    ensures { result ≡ head_yields head.now }
{
    match head {
        ForHead::Let(decls) => in_decls(decls.as_slice()),
        ForHead::Const(decls) => in_decls(decls.as_slice()),
        ForHead::Nothing | ForHead::Expr(_) => false,
    }
}

fn in_decls(decls: &[Decl]) -> bool
    ensures { result ≡ in_any (map decl_yields decls.now) }
{
    for decl in decls {
        if in_value(&decl.value) {
            return true;
        }
    }
    false
}

fn in_value(value: &DeclValue) -> bool
    ensures { result ≡ value_yields value.now }
{
    match value {
        DeclValue::Nothing | DeclValue::Value(_) => false,
        DeclValue::Yield(_) => true,
    }
}
