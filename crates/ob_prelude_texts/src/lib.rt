//! The texts of the builtins that are written in the language itself read as their trees.
#![tactic(auto)]

ghost use Rattle.std.specs.Prelude.{chars};
ghost use Rattle.ob_grammar.specs.Cells.{of_value};
ghost use Rattle.ob_grammar.specs.Readable.{TextReads};
ghost use Rattle.ob_prelude_texts.specs.Texts.{text_of};
ghost use Rattle.ob_tree_prelude.specs.Trees.{tree_of};
ghost use Rattle.ob_tree_prelude.specs.declared.prelude.Prelude.{Prelude};
ghost use Rattle.ob_tree_types.specs.declared.cell.CellTree.TheVariants as cell;
ghost use Rattle.ob_tree_types.specs.declared.tree.Expr.TheVariants as node;

/// The text of each builtin that is written in the language itself reads as the cell of its
/// function, by the written grammar of cells (the texts are this project's).
pub fn prelude_texts_read()
    ensures { (which : Prelude) → TextReads (chars (text_of which)) (cell.Bare (of_value (node.Function (tree_of which)))) }
{}
