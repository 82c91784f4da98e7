//! Arrow functions, and expressions as a whole.

ghost use Rattle.std.specs.Prelude.{◌≡◌};
ghost use Rattle.ob_grammar.specs.Grammar.{arrow_function};
ghost use Rattle.ob_grammar.specs.Reading as spec;
ghost use Rattle.ob_descent_rules.specs.Inside.{depth_limit, inner, nested};
ghost use Rattle.ob_descent_tokens.specs.Gives.{Gives};
ghost use Rattle.ob_descent_rules.specs.Nests.{ReadsPieces, ReadsStatements};

use crate::nesting::{Nested, edge};
use crate::rules::Rules;
use ob_base::{List, Text};
use ob_descent_tokens::{Cursor, Expected, ParseError, arrow_head};
use ob_grammar::{Body, Form, Level, Piece};
use ob_tree_types::{Boxed, Expr, FnBody, Function, Stmt};
use std::alloc::Global;

fn arrow_function(params: List<Text>, body: FnBody) -> Function
    ensures { result ≡ arrow_function params body }
{
    Function {
        name: None,
        params,
        generator: false,
        body,
    }
}

impl<
    F: Fn(Global, &mut Cursor<'_>, usize, Nested) -> Result<Piece, ParseError>,
    G: Fn(Global, &mut Cursor<'_>, usize, Level) -> Result<Stmt, ParseError>,
> Rules<F, G> {
    #[tactic(auto, unfolding(ob_grammar::specs::Reading::arrow_body))]
    fn arrow_body(&self, tokens: &mut Cursor<'_>) -> Result<Body, ParseError>
        requires exprs { ReadsPieces self.now.depth (F.pre self.now.read_expr) (F.post self.now.read_expr) }
        requires statements { ReadsStatements self.now.depth (G.pre self.now.read_statement) (G.post self.now.read_statement) }
        ensures { Gives (spec.arrow_body depth_limit (inner self.now.depth) (nested self.now.depth) tokens.old) result tokens.new }
    {
        if tokens.next_is(Expected::OpenBrace) {
            let items = self.block(tokens)?;
            return Ok(Body {
                tree: FnBody::Items(items),
                form: Form::Closed,
            });
        }
        let value = self.nested(tokens, Nested::Whole)?;
        Ok(Body {
            tree: FnBody::Value(Boxed::new(self.alloc, value.tree)?),
            form: edge(value.form),
        })
    }

    /// An expression.
    #[tactic(auto, unfolding(ob_grammar::specs::Reading::whole_of))]
    pub fn whole(&self, tokens: &mut Cursor<'_>) -> Result<Piece, ParseError>
        requires exprs { ReadsPieces self.now.depth (F.pre self.now.read_expr) (F.post self.now.read_expr) }
        requires statements { ReadsStatements self.now.depth (G.pre self.now.read_statement) (G.post self.now.read_statement) }
        ensures { Gives (spec.whole_of depth_limit (inner self.now.depth) (nested self.now.depth) tokens.old) result tokens.new }
    {
        match arrow_head(self.alloc, tokens)? {
            Some(params) => {
                let body = self.arrow_body(tokens)?;
                Ok(Piece {
                    tree: Expr::Arrow(arrow_function(params, body.tree)),
                    form: body.form,
                })
            }
            None => {
                let piece = self.conditional(tokens)?;
                self.assigned(tokens, piece)
            }
        }
    }
}
