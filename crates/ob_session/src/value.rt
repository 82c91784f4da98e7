ghost use Rattle.std.specs.Prelude.{◌≡◌};
ghost use Rattle.ob_session.specs.Value.{sum, operate, expr_value, function_value};

use ob_base::{BinaryOp, MAX_INTEGER};
use ob_tree::{Expr, FnBody, Function};

fn sum(a: i64, b: i64) -> Option<i64>
    ensures { result ≡ sum a b }
{
    let sum = a.checked_add(b)?;
    if -MAX_INTEGER <= sum && sum <= MAX_INTEGER {
        Some(sum)
    } else {
        None
    }
}

fn operate(op: BinaryOp, left: Option<i64>, right: Option<i64>) -> Option<i64>
    ensures { result ≡ operate op left right }
{
    match op {
        BinaryOp::Add => {
            let left = left?;
            let right = right?;
            sum(left, right)
        }
        _ => None,
    }
}

/// The value of an expression in which each name has the value of the input.
fn expr_value(input: Option<i64>, expr: &Expr) -> Option<i64>
    ensures { result ≡ expr_value input expr.now }
{
    match expr {
        Expr::Int(value) => Some(*value),
        Expr::Name(_) => input,
        Expr::Binary(op, left, right) => {
            let left = expr_value(input, left.get());
            let right = expr_value(input, right.get());
            operate(*op, left, right)
        }
        _ => None,
    }
}

/// The value of a cell's body.
pub fn function_value(input: Option<i64>, function: &Function) -> Option<i64>
    ensures { result ≡ function_value input function.now }
{
    match &function.body {
        FnBody::Value(value) => expr_value(input, value.get()),
        FnBody::Items(_) => None,
    }
}
