ghost use Rattle.std.specs.Prelude.{◌≡◌, option_map};
ghost use Rattle.ob_session.specs.Names.{expr_name, function_name};

use ob_base::Text;
use ob_tree::{Expr, FnBody, Function};

fn expr_name(expr: &Expr) -> Option<&Text>
    ensures { option_map (λ name. name.now) result ≡ expr_name expr.now }
{
    match expr {
        Expr::Name(name) => Some(name),
        Expr::Binary(_, left, right) => match expr_name(left.get()) {
            Some(name) => Some(name),
            None => expr_name(right.get()),
        },
        _ => None,
    }
}

/// The first name that a cell's body reads; none where it reads none.
pub fn function_name(function: &Function) -> Option<&Text>
    ensures { option_map (λ name. name.now) result ≡ function_name function.now }
{
    match &function.body {
        FnBody::Value(value) => expr_name(value.get()),
        FnBody::Items(_) => None,
    }
}
