//! The two readers that nest in each other.

ghost use Rattle.ob_grammar.specs.Reading as spec;
ghost use Rattle.ob_descent_rules.specs.Inside.{depth_limit, inner, nested};
ghost use Rattle.ob_descent_tokens.specs.Gives.{Gives};
ghost use Rattle.ob_descent_rules.specs.Nests.{ReadsPieces, ReadsStatements};
ghost use Rattle.ob_descent_rules.specs.Views.{rule_of};

use crate::nesting::Nested;
use crate::rules::Rules;
use ob_base::List;
use ob_descent_tokens::{Cursor, ParseError};
use ob_grammar::{Level, Piece};
use ob_tree_types::Stmt;
use std::alloc::Global;

impl<
    F: Fn(Global, &mut Cursor<'_>, usize, Nested) -> Result<Piece, ParseError>,
    G: Fn(Global, &mut Cursor<'_>, usize, Level) -> Result<Stmt, ParseError>,
> Rules<F, G> {
    // A piece that the rule reads.
    fn piece(&self, tokens: &mut Cursor<'_>, rule: Nested) -> Result<Piece, ParseError>
        requires exprs { ReadsPieces self.now.depth (F.pre self.now.read_expr) (F.post self.now.read_expr) }
        requires statements { ReadsStatements self.now.depth (G.pre self.now.read_statement) (G.post self.now.read_statement) }
        ensures { Gives (spec.at depth_limit (inner self.now.depth) (nested self.now.depth) (rule_of rule) tokens.old) result tokens.new }
    {
        match rule {
            Nested::Whole => self.whole(tokens),
            Nested::Power => self.power(tokens),
            Nested::Prefixed => self.prefixed(tokens),
            Nested::Operand(level) => self.operand(tokens, level),
        }
    }

    // An item or a statement.
    fn at_level(&self, tokens: &mut Cursor<'_>, level: Level) -> Result<Stmt, ParseError>
        requires exprs { ReadsPieces self.now.depth (F.pre self.now.read_expr) (F.post self.now.read_expr) }
        requires statements { ReadsStatements self.now.depth (G.pre self.now.read_statement) (G.post self.now.read_statement) }
        ensures { Gives (spec.at_level depth_limit (inner self.now.depth) (nested self.now.depth) level tokens.old) result tokens.new }
    {
        match level {
            Level::Item => self.item(tokens),
            Level::Statement => self.statement(tokens),
        }
    }
}

/// A piece that the rule reads, with pieces nested no deeper than `depth`.
#[cycle(rules)]
#[tactic(auto, unfolding(ob_grammar::specs::Reading::reads))]
pub fn read_expr(
    alloc: Global,
    tokens: &mut Cursor<'_>,
    depth: usize,
    rule: Nested,
) -> Result<Piece, ParseError>
    ensures { Gives (inner depth (rule_of rule) tokens.old) result tokens.new }
{
    if depth == 0 {
        return Err(ParseError::Syntax);
    }
    let rules = Rules {
        alloc,
        depth: depth - 1,
        read_expr,
        read_statement,
    };
    rules.piece(tokens, rule)
}

/// An item or a statement, with pieces nested no deeper than `depth`.
#[cycle(rules)]
#[tactic(auto, unfolding(ob_grammar::specs::Reading::reads_statement))]
pub fn read_statement(
    alloc: Global,
    tokens: &mut Cursor<'_>,
    depth: usize,
    level: Level,
) -> Result<Stmt, ParseError>
    ensures { Gives (nested depth level tokens.old) result tokens.new }
{
    if depth == 0 {
        return Err(ParseError::Syntax);
    }
    let rules = Rules {
        alloc,
        depth: depth - 1,
        read_expr,
        read_statement,
    };
    rules.at_level(tokens, level)
}

/// Items in braces, with pieces nested no deeper than `depth`.
pub fn block(alloc: Global, tokens: &mut Cursor<'_>, depth: usize) -> Result<List<Stmt>, ParseError>
    ensures { Gives (spec.block_of depth_limit (inner depth) (nested depth) tokens.old) result tokens.new }
{
    let rules = Rules {
        alloc,
        depth,
        read_expr,
        read_statement,
    };
    rules.block(tokens)
}
