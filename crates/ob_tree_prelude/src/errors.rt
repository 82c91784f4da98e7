//! The errors that the trees throw.

ghost use Rattle.std.specs.Prelude.{◌≡◌, [], ◌∷◌, IfOk};
ghost use Rattle.ob_tree_types.specs.declared.tree.Expr.TheVariants as expr;
ghost use Rattle.ob_tree_types.specs.declared.tree.Stmt.TheVariants as stmt;

use crate::expressions::{one_expr, text};
use ob_base::NoMemory;
use ob_tree_types::{Expr, Stmt};
use std::alloc::Global;

/// `throw new x(message);`
pub fn throw_stmt(alloc: Global, x: &str, message: Expr) -> Result<Stmt, NoMemory>
    ensures { IfOk result (λ made. made ≡ stmt.Throw (expr.New x.now (message ∷ []))) }
{
    let args = one_expr(alloc, message)?;
    Ok(Stmt::Throw(Expr::New(text(alloc, x)?, args)))
}
