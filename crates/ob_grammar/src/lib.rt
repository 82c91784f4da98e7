//! The written grammar of cells, below its parser: what reads as which tree, the errors that make a
//! text unreadable, and the descent that the parser follows.
#![tactic(auto)]

ghost use Rattle.std.specs.Prelude.{ℕ, ◌≡◌, ◌↔◌, true, List, [], ◌∷◌, ◌++◌, Some};
ghost use Rattle.ob_lex.specs.declared.token.Token.{Token};
ghost use Rattle.ob_tree_types.specs.declared.cell.CellTree.{CellTree};
ghost use Rattle.ob_tree_types.specs.declared.tree.Expr.{Expr};
ghost use Rattle.ob_tree_types.specs.declared.tree.Stmt.{Stmt};
ghost use Rattle.ob_grammar.specs.declared.form.Form.{Form};
ghost use Rattle.ob_grammar.specs.Forms.{Ends};
ghost use Rattle.ob_grammar.specs.Grammar.{Reads, ReadsItem, whole};
ghost use Rattle.ob_grammar.specs.Readable as cells;
ghost use Rattle.ob_grammar.specs.ReadingCells.{parsed};
ghost use Rattle.ob_grammar.specs.ReadingTexts.{text_cell};
ghost use Rattle.ob_grammar.specs.Semicolons.{BeginsExpression, BeginsItem, may_follow};

mod form;
mod piece;

pub use form::{Form, Infix, Level};
pub use piece::{Body, Each, Held, One, Piece, Several, Signature};

/// Tokens read as at most one expression.
pub fn one_expression()
    ensures { (tokens : List Token) (a b : Expr) (f g : Form) → Reads whole tokens a f [] → Reads whole tokens b g [] → a ≡ b }
{}

/// Tokens read as at most one cell.
pub fn one_cell()
    ensures { (tokens : List Token) (tree other : CellTree) → cells.Reads tokens tree → cells.Reads tokens other → tree ≡ other }
{}

/// The descent reads tokens as a cell exactly where they read as that cell.
pub fn reading_is_exact()
    ensures { (tokens : List Token) (tree : CellTree) → (parsed tokens ≡ Some tree) ↔ cells.Reads tokens tree }
{}

/// A text reads as at most one cell.
pub fn one_cell_of_a_text()
    ensures { (text : List ℕ) (tree other : CellTree) → cells.TextReads text tree → cells.TextReads text other → tree ≡ other }
{}

/// Cutting a text into tokens and reading them gives a cell exactly where the text reads as that
/// cell.
pub fn reading_of_texts_is_exact()
    ensures { (text : List ℕ) (tree : CellTree) → (text_cell text ≡ Some tree) ↔ cells.TextReads text tree }
{}

/// A statement or declaration reads alike before all that begins with the same token.
pub fn items_move()
    ensures { (front more others : List Token) (t : Token) (s : Stmt) → ReadsItem (front ++ t ∷ more) s (t ∷ more) → ReadsItem (front ++ t ∷ others) s (t ∷ others) }
{}

/// A statement or declaration that ends before a token is the beginning of no longer one that goes
/// on with that token: where a `;` is left out at a line break, no rule lets the next token go on.
pub fn ends_where_nothing_goes_on()
    ensures { (front more : List Token) (t : Token) (s : Stmt) → ReadsItem (front ++ t ∷ more) s (t ∷ more) → BeginsItem (front ++ t ∷ []) → ⊥ }
{}

/// Where no rule lets a token that may follow a statement go on with an expression, a `;` may be
/// left out before it, after a line break (ECMA-262, "Rules of Automatic Semicolon Insertion").
pub fn ends_wherever_nothing_goes_on()
    ensures { (front more : List Token) (t : Token) (a : Expr) (f : Form) → Reads whole (front ++ t ∷ more) a f (t ∷ more)
        → may_follow t.kind ≡ true → t.break_before ≡ true → (BeginsExpression (front ++ t ∷ []) → ⊥) → Ends f (t ∷ more) (t ∷ more) }
{}
