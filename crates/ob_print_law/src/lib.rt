//! The canonical text of a tree reads as that tree.
#![tactic(auto)]

ghost use Rattle.std.specs.Prelude.{ℕ, ◌≡◌, List};
ghost use Rattle.std.specs.Str.{chars, IsUtf8};
ghost use Rattle.ob_grammar.specs.Readable.{TextReads};
ghost use Rattle.ob_tree.specs.Print.{print};
ghost use Rattle.ob_tree_types.specs.declared.cell.CellTree.{CellTree};

/// Where some text in UTF-8 reads as a tree, the canonical text of that tree reads as it too, by
/// the written grammar of cells, with all early errors and limits (this project).
pub fn printed_text_reads()
    ensures { (text : List ℕ) (tree : CellTree) → IsUtf8 text → TextReads (chars text) tree → TextReads (chars (print tree)) tree }
{}

/// The canonical text of such a tree reads as no other tree.
pub fn printed_text_reads_once()
    ensures { (text : List ℕ) (tree other : CellTree) → IsUtf8 text → TextReads (chars text) tree → TextReads (chars (print tree)) other → other ≡ tree }
{}
