//! Declarations, and what stands behind `yield`.

ghost use Rattle.std.specs.Prelude.{◌≡◌};
ghost use Rattle.ob_grammar.specs.Reading as spec;
ghost use Rattle.ob_grammar.specs.Taking.{take, is_yield};
ghost use Rattle.ob_descent_rules.specs.Inside.{depth_limit, inner, nested};
ghost use Rattle.ob_descent_tokens.specs.Gives.{Gives};
ghost use Rattle.ob_descent_rules.specs.Nests.{ReadsPieces};

use crate::nesting::Nested;
use crate::rules::Rules;
use ob_base::{List, Text};
use ob_descent_tokens::{Cursor, Expected, ParseError};
use ob_grammar::{Form, Held, Level, One, Piece, Several};
use ob_tree_types::{Decl, DeclValue, Stmt};
use std::alloc::Global;

impl<
    F: Fn(Global, &mut Cursor<'_>, usize, Nested) -> Result<Piece, ParseError>,
    G: Fn(Global, &mut Cursor<'_>, usize, Level) -> Result<Stmt, ParseError>,
> Rules<F, G> {
    /// What stands behind `return` or `yield`.
    #[tactic(auto, unfolding(ob_grammar::specs::Reading::held_of))]
    pub fn held(&self, tokens: &mut Cursor<'_>) -> Result<Held, ParseError>
        requires { ReadsPieces self.now.depth (F.pre self.now.read_expr) (F.post self.now.read_expr) }
        ensures { Gives (spec.held_of depth_limit (inner self.now.depth) (nested self.now.depth) tokens.old) result tokens.new }
    {
        if tokens.no_value() {
            return Ok(Held {
                value: None,
                form: Form::Bare,
            });
        }
        let value = self.nested(tokens, Nested::Whole)?;
        Ok(Held {
            value: Some(value.tree),
            form: value.form,
        })
    }

    // What stands behind the `=` of a declaration.
    fn first_value(&self, tokens: &mut Cursor<'_>, name: Text) -> Result<One, ParseError>
        requires { ReadsPieces self.now.depth (F.pre self.now.read_expr) (F.post self.now.read_expr) }
        ensures { Gives (spec.value_by depth_limit (inner self.now.depth) (nested self.now.depth) (take is_yield tokens.old) name tokens.old) result tokens.new }
    {
        if tokens.take(Expected::Yield) {
            let held = self.held(tokens)?;
            return Ok(One {
                decl: Decl {
                    name,
                    value: DeclValue::Yield(held.value),
                },
                form: held.form,
            });
        }
        let value = self.nested(tokens, Nested::Whole)?;
        Ok(One {
            decl: Decl {
                name,
                value: DeclValue::Value(value.tree),
            },
            form: value.form,
        })
    }

    #[tactic(auto, unfolding(ob_grammar::specs::Reading::decl_of))]
    fn decl(&self, tokens: &mut Cursor<'_>) -> Result<One, ParseError>
        requires { ReadsPieces self.now.depth (F.pre self.now.read_expr) (F.post self.now.read_expr) }
        ensures { Gives (spec.decl_of depth_limit (inner self.now.depth) (nested self.now.depth) tokens.old) result tokens.new }
    {
        let name = tokens.name(self.alloc)?;
        if tokens.take(Expected::Assign) {
            return self.first_value(tokens, name);
        }
        Ok(One {
            decl: Decl {
                name,
                value: DeclValue::Nothing,
            },
            form: Form::Closed,
        })
    }

    /// Declarations between commas.
    #[tactic(auto, unfolding(ob_grammar::specs::Reading::decls_of))]
    pub fn decls(&self, tokens: &mut Cursor<'_>) -> Result<Several, ParseError>
        requires { ReadsPieces self.now.depth (F.pre self.now.read_expr) (F.post self.now.read_expr) }
        ensures { Gives (spec.decls_of depth_limit (inner self.now.depth) (nested self.now.depth) tokens.old) result tokens.new }
    {
        let mut found = List::new(self.alloc);
        for _turn in 0..tokens.len() {
            let one = self.decl(tokens)?;
            let form = one.form;
            found.push(one.decl)?;
            if !tokens.take(Expected::Comma) {
                return Ok(Several { decls: found, form });
            }
        }
        Err(ParseError::Syntax)
    }
}
