//! Lists of expressions and of properties.

ghost use Rattle.std.specs.Prelude.{◌≡◌, length, option_map};
ghost use Rattle.ob_grammar.specs.Reading as spec;
ghost use Rattle.ob_grammar.specs.Marks as marks;
ghost use Rattle.ob_grammar.specs.Taking as taking;
ghost use Rattle.ob_descent_rules.specs.Inside.{depth_limit, inner, nested};
ghost use Rattle.ob_descent_tokens.specs.Gives.{Gives, Answers};
ghost use Rattle.ob_descent_rules.specs.Nests.{ReadsPieces};
ghost use Rattle.ob_tree_types.specs.declared.tree.PropNode.TheVariants as node;
ghost use Rattle.ob_descent_tokens.specs.Tests.{test_of};

use crate::nesting::Nested;
use crate::rules::Rules;
use ob_base::List;
use ob_descent_tokens::{Cursor, Expected, ParseError, key_of};
use ob_grammar::{Level, Piece};
use ob_lex::{Token, TokenKind};
use ob_tree_types::{Expr, PropNode, Stmt};
use std::alloc::Global;

impl<
    F: Fn(Global, &mut Cursor<'_>, usize, Nested) -> Result<Piece, ParseError>,
    G: Fn(Global, &mut Cursor<'_>, usize, Level) -> Result<Stmt, ParseError>,
> Rules<F, G> {
    /// Expressions between commas, and the mark that closes them.
    #[tactic(auto, unfolding(ob_grammar::specs::Reading::list_of))]
    pub fn list(&self, tokens: &mut Cursor<'_>, closes: Expected) -> Result<List<Expr>, ParseError>
        requires { ReadsPieces self.now.depth (F.pre self.now.read_expr) (F.post self.now.read_expr) }
        ensures { Gives (spec.list_of depth_limit (inner self.now.depth) (nested self.now.depth) (test_of closes) tokens.old) result tokens.new }
    {
        let mut found = List::new(self.alloc);
        for _turn in 0..tokens.len() {
            if tokens.take(closes) {
                return Ok(found);
            }
            let item = self.nested(tokens, Nested::Whole)?;
            found.push(item.tree)?;
            let more = tokens.goes_on(closes)?;
            if !more {
                return Ok(found);
            }
        }
        Err(ParseError::Syntax)
    }

    /// Properties between commas, and the brace that closes them.
    pub fn props(&self, tokens: &mut Cursor<'_>) -> Result<List<PropNode>, ParseError>
        requires { ReadsPieces self.now.depth (F.pre self.now.read_expr) (F.post self.now.read_expr) }
        ensures { Gives (spec.props_from depth_limit (inner self.now.depth) (nested self.now.depth) (length tokens.old) tokens.old) result tokens.new }
    {
        let mut found = List::new(self.alloc);
        for _turn in 0..tokens.len() {
            if tokens.take(Expected::CloseBrace) {
                return Ok(found);
            }
            let prop = self.prop(tokens)?;
            found.push(prop)?;
            let more = tokens.goes_on(Expected::CloseBrace)?;
            if !more {
                return Ok(found);
            }
        }
        Err(ParseError::Syntax)
    }

    #[tactic(auto, unfolding(ob_grammar::specs::Reading::prop_of))]
    fn prop(&self, tokens: &mut Cursor<'_>) -> Result<PropNode, ParseError>
        requires { ReadsPieces self.now.depth (F.pre self.now.read_expr) (F.post self.now.read_expr) }
        ensures { Gives (spec.prop_of depth_limit (inner self.now.depth) (nested self.now.depth) tokens.old) result tokens.new }
    {
        let Some(token) = tokens.next() else {
            return Err(ParseError::Syntax);
        };
        if Expected::OpenBracket.is(&token.kind) {
            return self.computed(tokens);
        }
        if tokens.take(Expected::Colon) {
            return self.keyed(tokens, token);
        }
        self.short_prop(token)
    }

    // `{x}`
    #[tactic(auto, unfolding(ob_grammar::specs::Taking::name_of))]
    fn short_prop(&self, token: &Token) -> Result<PropNode, ParseError>
        ensures { Answers (option_map node.Short (taking.name_of token.now.kind)) result }
    {
        match &token.kind {
            TokenKind::Name(name) => Ok(PropNode::Short(name.copy(self.alloc)?)),
            _ => Err(ParseError::Syntax),
        }
    }

    // What follows the `:` behind a word, text or number.
    fn keyed(&self, tokens: &mut Cursor<'_>, token: &Token) -> Result<PropNode, ParseError>
        requires { ReadsPieces self.now.depth (F.pre self.now.read_expr) (F.post self.now.read_expr) }
        ensures { Gives (spec.keyed_prop depth_limit (inner self.now.depth) (nested self.now.depth) (marks.key_of token.now.kind) tokens.old) result tokens.new }
    {
        match key_of(self.alloc, &token.kind)? {
            Some(key) => {
                let value = self.nested(tokens, Nested::Whole)?;
                Ok(PropNode::Fixed(key, value.tree))
            }
            None => Err(ParseError::Syntax),
        }
    }

    // What follows the `[`.
    fn computed(&self, tokens: &mut Cursor<'_>) -> Result<PropNode, ParseError>
        requires { ReadsPieces self.now.depth (F.pre self.now.read_expr) (F.post self.now.read_expr) }
        ensures { Gives (spec.computed_of depth_limit (inner self.now.depth) (nested self.now.depth) tokens.old) result tokens.new }
    {
        let key = self.nested(tokens, Nested::Whole)?;
        tokens.expect(Expected::CloseBracket)?;
        tokens.expect(Expected::Colon)?;
        let value = self.nested(tokens, Nested::Whole)?;
        Ok(PropNode::Computed(key.tree, value.tree))
    }
}
