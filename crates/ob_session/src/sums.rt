//! The cells that are run today: sums.

ghost use Rattle.std.specs.Prelude.{◌≡◌};
ghost use Rattle.ob_session.specs.Sums.{with_term, joined, expr_terms, is_sum, is_taken};

use ob_base::{BinaryOp, is_builtin_name};
use ob_hosts::is_host_name;
use ob_tree::{Expr, FnBody, Function};

/// How many terms a sum has, and whether one of them is a name.
#[derive(Clone, Copy, Debug, PartialEq, Eq)]
pub struct Terms {
    pub count: u32,
    pub has_name: bool,
}

fn with_term(sum: Terms, term: Terms) -> Option<Terms>
    ensures { result ≡ with_term sum term }
{
    if term.count == 1 && sum.count < 10 && !(sum.has_name && term.has_name) {
        Some(Terms {
            count: sum.count + 1,
            has_name: sum.has_name || term.has_name,
        })
    } else {
        None
    }
}

fn joined(op: BinaryOp, sum: Option<Terms>, term: Option<Terms>) -> Option<Terms>
    ensures { result ≡ joined op sum term }
{
    match op {
        BinaryOp::Add => {
            let sum = sum?;
            let term = term?;
            with_term(sum, term)
        }
        _ => None,
    }
}

/// The terms of a sum that is grouped to the left; none where the expression is something else, has
/// more than ten terms, more than one name, or a number above 1,000,000.
fn expr_terms(expr: &Expr) -> Option<Terms>
    ensures { result ≡ expr_terms expr.now }
{
    match expr {
        Expr::Int(value) if 0 <= *value && *value <= 1_000_000 => Some(Terms {
            count: 1,
            has_name: false,
        }),
        Expr::Name(_) => Some(Terms {
            count: 1,
            has_name: true,
        }),
        Expr::Binary(op, left, right) => {
            let sum = expr_terms(left.get());
            let term = expr_terms(right.get());
            joined(*op, sum, term)
        }
        _ => None,
    }
}

/// Whether the body of a cell is a sum of one to ten terms, each an integer of at most 1,000,000 or
/// a name, of which at most one is a name (this project, for now).
pub fn is_sum(body: &Function) -> bool
    ensures { result ≡ is_sum body.now }
{
    match &body.body {
        FnBody::Value(value) => expr_terms(value.get()).is_some(),
        FnBody::Items(_) => false,
    }
}

/// Whether a cell of this name is not built: that of a builtin or of a host function.
pub fn is_taken(name: &str) -> bool
    ensures { result ≡ is_taken name.now }
{
    is_builtin_name(name) || is_host_name(name)
}
