ghost use Rattle.std.specs.Prelude.{◌≡◌, min};
ghost use Rattle.ob_tree.specs.Depth.{expr_depth};

use ob_grammar::Piece;

/// A piece, and how deep its tree is, or 2^32-1 where it is deeper.
#[derive(Drop)]
pub struct Measured {
    pub piece: Piece,
    pub depth: u32,
    ghost exact: { depth ≡ min (expr_depth piece.tree) 4294967295 },
}
