//! Statements without a head in parentheses, and items.

ghost use Rattle.std.specs.Prelude.{◌≡◌, Some, None, MatchBool};
ghost use Rattle.ob_grammar.specs.Marks.{step_of as step_op};
ghost use Rattle.ob_grammar.specs.Reading as spec;
ghost use Rattle.ob_grammar.specs.Taking.{ended, mapped, starts_on_line};
ghost use Rattle.ob_grammar.specs.declared.form.Form.TheVariants.{Bare};
ghost use Rattle.ob_descent_rules.specs.Inside.{depth_limit, inner, nested};
ghost use Rattle.ob_descent_tokens.specs.Gives.{Gives};
ghost use Rattle.ob_descent_rules.specs.Then.{then};
ghost use Rattle.ob_tree_types.specs.declared.tree.Stmt.TheVariants as stmt;
ghost use Rattle.ob_descent_rules.specs.Nests.{ReadsPieces, ReadsStatements};
ghost use Rattle.ob_descent_rules.specs.Beginnings.{behind_start, declaring, named_of};

use crate::nesting::Nested;
use crate::rules::Rules;
use crate::starts::{Start, start_of};
use ob_base::{List, Text};
use ob_descent_tokens::{Cursor, Expected, ParseError, change_of, step_of};
use ob_grammar::{Form, Level, Piece};
use ob_lex::Token;
use ob_tree_types::{Decl, Stmt};
use std::alloc::Global;

// The statement that declares these.
fn declaring(constant: bool, decls: List<Decl>) -> Stmt
    ensures { result ≡ declaring constant decls }
{
    if constant {
        Stmt::Const(decls)
    } else {
        Stmt::Let(decls)
    }
}

impl<
    F: Fn(Global, &mut Cursor<'_>, usize, Nested) -> Result<Piece, ParseError>,
    G: Fn(Global, &mut Cursor<'_>, usize, Level) -> Result<Stmt, ParseError>,
> Rules<F, G> {
    // An expression and its end.
    fn expression(&self, tokens: &mut Cursor<'_>) -> Result<Stmt, ParseError>
        requires { ReadsPieces self.now.depth (F.pre self.now.read_expr) (F.post self.now.read_expr) }
        ensures { Gives (spec.expression_of depth_limit (inner self.now.depth) (nested self.now.depth) tokens.old) result tokens.new }
    {
        let value = self.nested(tokens, Nested::Whole)?;
        tokens.end(value.form)?;
        Ok(Stmt::Expr(value.tree))
    }

    // What follows `yield`.
    fn yielded(&self, tokens: &mut Cursor<'_>, name: Option<Text>) -> Result<Stmt, ParseError>
        requires { ReadsPieces self.now.depth (F.pre self.now.read_expr) (F.post self.now.read_expr) }
        ensures { Gives (spec.yield_of depth_limit (inner self.now.depth) (nested self.now.depth) name tokens.old) result tokens.new }
    {
        let held = self.held(tokens)?;
        tokens.end(held.form)?;
        Ok(Stmt::Yield(name, held.value))
    }

    // What follows `return`.
    fn returned(&self, tokens: &mut Cursor<'_>) -> Result<Stmt, ParseError>
        requires { ReadsPieces self.now.depth (F.pre self.now.read_expr) (F.post self.now.read_expr) }
        ensures { Gives (spec.return_of depth_limit (inner self.now.depth) (nested self.now.depth) tokens.old) result tokens.new }
    {
        let held = self.held(tokens)?;
        tokens.end(held.form)?;
        Ok(Stmt::Return(held.value))
    }

    // What follows `throw`.
    fn thrown(&self, tokens: &mut Cursor<'_>) -> Result<Stmt, ParseError>
        requires { ReadsPieces self.now.depth (F.pre self.now.read_expr) (F.post self.now.read_expr) }
        ensures { Gives (spec.throw_by depth_limit (inner self.now.depth) (nested self.now.depth) (starts_on_line tokens.old) tokens.old) result tokens.new }
    {
        if !tokens.starts_on_line() {
            return Err(ParseError::Syntax);
        }
        let value = self.nested(tokens, Nested::Whole)?;
        tokens.end(value.form)?;
        Ok(Stmt::Throw(value.tree))
    }

    // Whether `=` and `yield` come next, which are taken then.
    #[tactic(auto, unfolding(ob_grammar::specs::Reading::assigned_yield))]
    fn assigns_yield(&self, tokens: &mut Cursor<'_>) -> bool
        ensures { MatchBool result (spec.assigned_yield depth_limit (inner self.now.depth) (nested self.now.depth) tokens.old ≡ Some tokens.new) (spec.assigned_yield depth_limit (inner self.now.depth) (nested self.now.depth) tokens.old ≡ None) }
    {
        tokens.take(Expected::Assign) && tokens.take(Expected::Yield)
    }

    // `++` or `--` behind `mutable` and a name.
    fn stepped(
        &self,
        tokens: &mut Cursor<'_>,
        token: &Token,
        name: Text,
    ) -> Result<Stmt, ParseError>
        ensures { Gives (spec.stepped_by depth_limit (inner self.now.depth) (nested self.now.depth) (step_op token.now.kind) token.now.break_before name tokens.old) result tokens.new }
    {
        let Some(op) = step_of(&token.kind) else {
            return Err(ParseError::Syntax);
        };
        if token.break_before {
            return Err(ParseError::Syntax);
        }
        tokens.end(Form::Bare)?;
        Ok(Stmt::Change(name, op, None))
    }

    // What follows `mutable`.
    #[tactic(auto, unfolding(ob_grammar::specs::Reading::changed_of))]
    fn changed(&self, tokens: &mut Cursor<'_>) -> Result<Stmt, ParseError>
        requires { ReadsPieces self.now.depth (F.pre self.now.read_expr) (F.post self.now.read_expr) }
        ensures { Gives (spec.changed_of depth_limit (inner self.now.depth) (nested self.now.depth) tokens.old) result tokens.new }
    {
        let name = tokens.name(self.alloc)?;
        let Some(token) = tokens.next() else {
            return Err(ParseError::Syntax);
        };
        match change_of(&token.kind) {
            Some(op) => {
                let value = self.nested(tokens, Nested::Whole)?;
                tokens.end(value.form)?;
                Ok(Stmt::Change(name, op, Some(value.tree)))
            }
            None => self.stepped(tokens, token, name),
        }
    }

    // A statement that begins with a name.
    #[tactic(auto, unfolding(ob_grammar::specs::Taking::one))]
    fn named(&self, tokens: &mut Cursor<'_>) -> Result<Stmt, ParseError>
        requires { ReadsPieces self.now.depth (F.pre self.now.read_expr) (F.post self.now.read_expr) }
        ensures { Gives (named_of self.now.depth tokens.old) result tokens.new }
    {
        let mut ahead = tokens.fork();
        let Some(name) = ahead.take_name() else {
            return Err(ParseError::Syntax);
        };
        if self.assigns_yield(&mut ahead) {
            let name = name.copy(self.alloc)?;
            *tokens = ahead;
            return self.yielded(tokens, Some(name));
        }
        self.expression(tokens)
    }

    // `break` or `continue`, behind the word.
    fn word_alone(&self, tokens: &mut Cursor<'_>, word: Stmt) -> Result<Stmt, ParseError>
        ensures { Gives (ended word Bare tokens.old) result tokens.new }
    {
        tokens.end(Form::Bare)?;
        Ok(word)
    }

    // What follows the first token of a statement that begins so and is no expression.
    fn behind_start(&self, tokens: &mut Cursor<'_>, start: Start) -> Result<Stmt, ParseError>
        requires exprs { ReadsPieces self.now.depth (F.pre self.now.read_expr) (F.post self.now.read_expr) }
        requires statements { ReadsStatements self.now.depth (G.pre self.now.read_statement) (G.post self.now.read_statement) }
        ensures { Gives (behind_start self.now.depth start tokens.old) result tokens.new }
    {
        match start {
            Start::Empty => Ok(Stmt::Empty),
            Start::Yield => self.yielded(tokens, None),
            Start::Mutable => self.changed(tokens),
            Start::If => self.if_statement(tokens),
            Start::While => self.while_loop(tokens),
            Start::Do => self.do_loop(tokens),
            Start::For => self.for_statement(tokens),
            Start::Break => self.word_alone(tokens, Stmt::Break),
            Start::Continue => self.word_alone(tokens, Stmt::Continue),
            Start::Return => self.returned(tokens),
            Start::Throw => self.thrown(tokens),
            Start::Try => self.try_statement(tokens),
            Start::Block
            | Start::Name
            | Start::Let
            | Start::Const
            | Start::Function
            | Start::Expression => Err(ParseError::Syntax),
        }
    }

    // A block that is a statement.
    fn block_statement(&self, tokens: &mut Cursor<'_>) -> Result<Stmt, ParseError>
        requires { ReadsStatements self.now.depth (G.pre self.now.read_statement) (G.post self.now.read_statement) }
        ensures { Gives (mapped stmt.Block (spec.block_of depth_limit (inner self.now.depth) (nested self.now.depth) tokens.old)) result tokens.new }
    {
        let items = self.block(tokens)?;
        Ok(Stmt::Block(items))
    }

    /// A statement.
    #[tactic(auto, unfolding(ob_grammar::specs::Reading::statement_of))]
    pub fn statement(&self, tokens: &mut Cursor<'_>) -> Result<Stmt, ParseError>
        requires exprs { ReadsPieces self.now.depth (F.pre self.now.read_expr) (F.post self.now.read_expr) }
        requires statements { ReadsStatements self.now.depth (G.pre self.now.read_statement) (G.post self.now.read_statement) }
        ensures { Gives (spec.statement_of depth_limit (inner self.now.depth) (nested self.now.depth) tokens.old) result tokens.new }
    {
        let Some((token, after)) = tokens.split_first() else {
            return Err(ParseError::Syntax);
        };
        let start = start_of(&token.kind);
        match start {
            Start::Block => self.block_statement(tokens),
            Start::Name => self.named(tokens),
            Start::Let => self.expression(tokens),
            Start::Const => self.expression(tokens),
            Start::Expression => self.expression(tokens),
            _ => {
                *tokens = after;
                self.behind_start(tokens, start)
            }
        }
    }

    // The declarations behind their word, and their end.
    fn declaration(&self, tokens: &mut Cursor<'_>, constant: bool) -> Result<Stmt, ParseError>
        requires { ReadsPieces self.now.depth (F.pre self.now.read_expr) (F.post self.now.read_expr) }
        ensures { Gives (then (spec.decls_of depth_limit (inner self.now.depth) (nested self.now.depth) tokens.old) (λ s mid. ended (declaring constant s.decls) s.form mid)) result tokens.new }
    {
        let several = self.decls(tokens)?;
        tokens.end(several.form)?;
        Ok(declaring(constant, several.decls))
    }

    // What follows `function`, which has a name here.
    fn declared_function(&self, tokens: &mut Cursor<'_>) -> Result<Stmt, ParseError>
        requires { ReadsStatements self.now.depth (G.pre self.now.read_statement) (G.post self.now.read_statement) }
        ensures { Gives (then (spec.function_rest depth_limit (inner self.now.depth) (nested self.now.depth) tokens.old) (λ g. spec.named_function depth_limit (inner self.now.depth) (nested self.now.depth) g.name g)) result tokens.new }
    {
        let function = self.function_rest(tokens)?;
        match &function.name {
            Some(_) => Ok(Stmt::Function(function)),
            None => Err(ParseError::Syntax),
        }
    }

    /// A statement or a declaration.
    #[tactic(auto, unfolding(ob_grammar::specs::Reading::item_of))]
    pub fn item(&self, tokens: &mut Cursor<'_>) -> Result<Stmt, ParseError>
        requires exprs { ReadsPieces self.now.depth (F.pre self.now.read_expr) (F.post self.now.read_expr) }
        requires statements { ReadsStatements self.now.depth (G.pre self.now.read_statement) (G.post self.now.read_statement) }
        ensures { Gives (spec.item_of depth_limit (inner self.now.depth) (nested self.now.depth) tokens.old) result tokens.new }
    {
        let Some((token, after)) = tokens.split_first() else {
            return Err(ParseError::Syntax);
        };
        let start = start_of(&token.kind);
        match start {
            Start::Let => {
                *tokens = after;
                self.declaration(tokens, false)
            }
            Start::Const => {
                *tokens = after;
                self.declaration(tokens, true)
            }
            Start::Function => {
                *tokens = after;
                self.declared_function(tokens)
            }
            _ => self.statement(tokens),
        }
    }
}
