//! Blocks, and functions with one.

ghost use Rattle.std.specs.Prelude.{◌≡◌, length};
ghost use Rattle.ob_grammar.specs.Grammar.{function_of};
ghost use Rattle.ob_grammar.specs.Reading as spec;
ghost use Rattle.ob_descent_rules.specs.Inside.{depth_limit, inner, nested};
ghost use Rattle.ob_descent_tokens.specs.Gives.{Gives};
ghost use Rattle.ob_descent_rules.specs.Nests.{ReadsStatements};

use crate::nesting::Nested;
use crate::rules::Rules;
use ob_base::List;
use ob_descent_tokens::{Cursor, Expected, ParseError, signature};
use ob_grammar::{Level, Piece, Signature};
use ob_tree_types::{FnBody, Function, Stmt};
use std::alloc::Global;

impl<
    F: Fn(Global, &mut Cursor<'_>, usize, Nested) -> Result<Piece, ParseError>,
    G: Fn(Global, &mut Cursor<'_>, usize, Level) -> Result<Stmt, ParseError>,
> Rules<F, G> {
    // Items up to the `}`.
    fn items(&self, tokens: &mut Cursor<'_>) -> Result<List<Stmt>, ParseError>
        requires { ReadsStatements self.now.depth (G.pre self.now.read_statement) (G.post self.now.read_statement) }
        ensures { Gives (spec.items_from depth_limit (inner self.now.depth) (nested self.now.depth) (length tokens.old) tokens.old) result tokens.new }
    {
        let mut found = List::new(self.alloc);
        for _turn in 0..tokens.len() {
            if tokens.take(Expected::CloseBrace) {
                return Ok(found);
            }
            let item = self.statement_inside(tokens, Level::Item)?;
            found.push(item)?;
        }
        Err(ParseError::Syntax)
    }

    /// Items in braces.
    #[tactic(auto, unfolding(ob_grammar::specs::Reading::block_of))]
    pub fn block(&self, tokens: &mut Cursor<'_>) -> Result<List<Stmt>, ParseError>
        requires { ReadsStatements self.now.depth (G.pre self.now.read_statement) (G.post self.now.read_statement) }
        ensures { Gives (spec.block_of depth_limit (inner self.now.depth) (nested self.now.depth) tokens.old) result tokens.new }
    {
        tokens.expect(Expected::OpenBrace)?;
        self.items(tokens)
    }

    /// What follows the word `function`.
    #[tactic(auto, unfolding(ob_grammar::specs::Reading::function_rest))]
    pub fn function_rest(&self, tokens: &mut Cursor<'_>) -> Result<Function, ParseError>
        requires { ReadsStatements self.now.depth (G.pre self.now.read_statement) (G.post self.now.read_statement) }
        ensures { Gives (spec.function_rest depth_limit (inner self.now.depth) (nested self.now.depth) tokens.old) result tokens.new }
    {
        let head = signature(self.alloc, tokens)?;
        let items = self.block(tokens)?;
        Ok(function_of(head, items))
    }
}

fn function_of(head: Signature, items: List<Stmt>) -> Function
    ensures { result ≡ function_of head items }
{
    Function {
        name: head.name,
        params: head.params,
        generator: head.generator,
        body: FnBody::Items(items),
    }
}
