//! The rules, each over the readers of what lies one nesting deeper.

ghost use Rattle.ob_grammar.specs.Reading as spec;
ghost use Rattle.ob_descent_rules.specs.Inside.{inner, nested};
ghost use Rattle.ob_descent_tokens.specs.Gives.{Gives};
ghost use Rattle.ob_descent_rules.specs.Nests.{ReadsPieces, ReadsStatements};
ghost use Rattle.ob_descent_rules.specs.Views.{rule_of};

use crate::nesting::Nested;
use ob_descent_tokens::{Cursor, ParseError};
use ob_grammar::{Level, Piece};
use ob_tree_types::Stmt;
use std::alloc::Global;

/// The rules at a nesting.
#[derive(Clone, Copy)]
pub struct Rules<F, G> {
    pub alloc: Global,
    /// How deep pieces may still nest.
    pub depth: usize,
    pub read_expr: F,
    pub read_statement: G,
}

impl<
    F: Fn(Global, &mut Cursor<'_>, usize, Nested) -> Result<Piece, ParseError>,
    G: Fn(Global, &mut Cursor<'_>, usize, Level) -> Result<Stmt, ParseError>,
> Rules<F, G> {
    /// A piece one nesting deeper.
    pub fn nested(&self, tokens: &mut Cursor<'_>, rule: Nested) -> Result<Piece, ParseError>
        requires { ReadsPieces self.now.depth (F.pre self.now.read_expr) (F.post self.now.read_expr) }
        ensures { Gives (inner self.now.depth (rule_of rule) tokens.old) result tokens.new }
    {
        (self.read_expr)(self.alloc, tokens, self.depth, rule)
    }

    /// An item or a statement one nesting deeper.
    pub fn statement_inside(
        &self,
        tokens: &mut Cursor<'_>,
        level: Level,
    ) -> Result<Stmt, ParseError>
        requires { ReadsStatements self.now.depth (G.pre self.now.read_statement) (G.post self.now.read_statement) }
        ensures { Gives (nested self.now.depth level tokens.old) result tokens.new }
    {
        (self.read_statement)(self.alloc, tokens, self.depth, level)
    }
}
