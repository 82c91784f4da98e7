//! The bound on the depth of what the turns of a loop build.

ghost use Rattle.std.specs.Prelude.{◌≡◌, min};
ghost use Rattle.ob_grammar.specs.Taking.{piece};
ghost use Rattle.ob_tree.specs.Depth.{expr_depth};
ghost use Rattle.ob_descent_rules.specs.Turns.{Keeps};

use crate::measured::Measured;
use ob_base::MAX_TREE_DEPTH;
use ob_descent_tokens::ParseError;
use ob_grammar::{Form, Piece};
use ob_tree::depth_of_expr;
use ob_tree_types::Expr;

/// A piece, with how deep its tree is.
pub fn measured(piece: Piece) -> Measured
    ensures { result.piece ≡ piece }
{
    let depth = depth_of_expr(&piece.tree);
    Measured { piece, depth }
}

/// The piece of a tree of that depth.
///
/// # Errors
/// `Syntax` where a cell's tree may not be so deep.
pub fn kept(tree: Expr, form: Form, depth: u32) -> Result<Measured, ParseError>
    requires { depth ≡ min (expr_depth tree) u32.MAX }
    ensures { Keeps (piece tree form) result }
{
    if depth > MAX_TREE_DEPTH {
        return Err(ParseError::Syntax);
    }
    Ok(Measured {
        piece: Piece { tree, form },
        depth,
    })
}
