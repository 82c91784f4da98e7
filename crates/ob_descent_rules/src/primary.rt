//! Primary and left-hand-side expressions.

ghost use Rattle.std.specs.Prelude.{◌≡◌, length, IfOk};
ghost use Rattle.ob_grammar.specs.Reading as spec;
ghost use Rattle.ob_grammar.specs.declared.form.Form.TheVariants.{Target, Other};
ghost use Rattle.ob_grammar.specs.Grammar.{whole};
ghost use Rattle.ob_grammar.specs.Taking.{before, piece, closes_parenthesis};
ghost use Rattle.ob_tree_types.specs.declared.tree.Expr.TheVariants as node;
ghost use Rattle.ob_descent_rules.specs.Inside.{depth_limit, inner, nested};
ghost use Rattle.ob_descent_tokens.specs.Gives.{Gives};
ghost use Rattle.ob_descent_rules.specs.Then.{then};
ghost use Rattle.ob_descent_rules.specs.Turns.{Keeps, Makes, call_of, index_of, key_in, member_of, step_of, steps_on};
ghost use Rattle.ob_descent_rules.specs.Nests.{ReadsPieces, ReadsStatements};

use crate::kept::{kept, measured};
use crate::measured::Measured;
use crate::nesting::Nested;
use crate::rules::Rules;
use ob_base::{NoMemory, ReservedWord, Text};
use ob_descent_tokens::{Cursor, Expected, ParseError, literal_of};
use ob_grammar::{Form, Level, Piece};
use ob_lex::{Punctuator, TokenKind};
use ob_tree::{depth_in_exprs, depth_of_expr};
use ob_tree_types::{Boxed, Expr, Stmt};
use std::alloc::Global;

fn other(tree: Expr) -> Piece
    ensures { result ≡ piece tree Other }
{
    Piece {
        tree,
        form: Form::Other,
    }
}

fn target(tree: Expr) -> Piece
    ensures { result ≡ piece tree Target }
{
    Piece {
        tree,
        form: Form::Target,
    }
}

fn indexed(alloc: Global, object: Expr, key: Expr) -> Result<Expr, NoMemory>
    ensures { IfOk result (λ tree. tree ≡ node.Index object key) }
{
    let object = Boxed::new(alloc, object)?;
    let key = Boxed::new(alloc, key)?;
    Ok(Expr::Index(object, key))
}

/// An index, if it is not too deep.
fn kept_index(alloc: Global, object: Measured, key: Expr) -> Result<Measured, ParseError>
    ensures { Keeps (piece (node.Index object.piece.tree key) Target) result }
{
    let depth = object.depth.max(depth_of_expr(&key)).saturating_add(1);
    let tree = indexed(alloc, object.piece.tree, key)?;
    kept(tree, Form::Target, depth)
}

/// Whether a member, an index or a call comes next.
#[tactic(auto, unfolding(crate::specs::Turns::steps_by))]
fn steps_on(tokens: &Cursor<'_>) -> bool
    ensures { result ≡ steps_on tokens.now }
{
    match tokens.split_first() {
        Some((token, _after)) => matches!(
            token.kind,
            TokenKind::Punctuator(
                Punctuator::Dot | Punctuator::OpenBracket | Punctuator::OpenParenthesis
            )
        ),
        None => false,
    }
}

impl<
    F: Fn(Global, &mut Cursor<'_>, usize, Nested) -> Result<Piece, ParseError>,
    G: Fn(Global, &mut Cursor<'_>, usize, Level) -> Result<Stmt, ParseError>,
> Rules<F, G> {
    // The arguments behind `new` and a name.
    fn made(&self, tokens: &mut Cursor<'_>, name: Text) -> Result<Piece, ParseError>
        requires { ReadsPieces self.now.depth (F.pre self.now.read_expr) (F.post self.now.read_expr) }
        ensures { Gives (spec.made_of depth_limit (inner self.now.depth) (nested self.now.depth) name tokens.old) result tokens.new }
    {
        tokens.expect(Expected::OpenParenthesis)?;
        let arguments = self.list(tokens, Expected::CloseParenthesis)?;
        Ok(other(Expr::New(name, arguments)))
    }

    // What follows a `(`.
    fn in_parentheses(&self, tokens: &mut Cursor<'_>) -> Result<Piece, ParseError>
        requires { ReadsPieces self.now.depth (F.pre self.now.read_expr) (F.post self.now.read_expr) }
        ensures { Gives (then (inner self.now.depth whole tokens.old) (λ p mid. before closes_parenthesis (piece p.tree Other) mid)) result tokens.new }
    {
        let inside = self.nested(tokens, Nested::Whole)?;
        tokens.expect(Expected::CloseParenthesis)?;
        Ok(other(inside.tree))
    }

    #[tactic(auto, unfolding(ob_grammar::specs::Reading::primary_by))]
    fn primary_by(&self, tokens: &mut Cursor<'_>, kind: &TokenKind) -> Result<Piece, ParseError>
        requires exprs { ReadsPieces self.now.depth (F.pre self.now.read_expr) (F.post self.now.read_expr) }
        requires statements { ReadsStatements self.now.depth (G.pre self.now.read_statement) (G.post self.now.read_statement) }
        ensures { Gives (spec.primary_by depth_limit (inner self.now.depth) (nested self.now.depth) kind.now tokens.old) result tokens.new }
    {
        match kind {
            TokenKind::Name(name) => Ok(target(Expr::Name(name.copy(self.alloc)?))),
            TokenKind::Reserved(ReservedWord::Viewof) => {
                let name = tokens.name(self.alloc)?;
                Ok(other(Expr::ViewofName(name)))
            }
            TokenKind::Reserved(ReservedWord::New) => {
                let name = tokens.name(self.alloc)?;
                self.made(tokens, name)
            }
            TokenKind::Reserved(ReservedWord::Function) => {
                let function = self.function_rest(tokens)?;
                Ok(other(Expr::Function(function)))
            }
            TokenKind::Punctuator(Punctuator::OpenParenthesis) => self.in_parentheses(tokens),
            TokenKind::Punctuator(Punctuator::OpenBracket) => {
                let items = self.list(tokens, Expected::CloseBracket)?;
                Ok(other(Expr::Array(items)))
            }
            TokenKind::Punctuator(Punctuator::OpenBrace) => {
                let props = self.props(tokens)?;
                Ok(other(Expr::Object(props)))
            }
            _ => Err(ParseError::Syntax),
        }
    }

    #[tactic(auto, unfolding(ob_grammar::specs::Reading::primary_of))]
    fn primary(&self, tokens: &mut Cursor<'_>) -> Result<Piece, ParseError>
        requires exprs { ReadsPieces self.now.depth (F.pre self.now.read_expr) (F.post self.now.read_expr) }
        requires statements { ReadsStatements self.now.depth (G.pre self.now.read_statement) (G.post self.now.read_statement) }
        ensures { Gives (spec.primary_of depth_limit (inner self.now.depth) (nested self.now.depth) tokens.old) result tokens.new }
    {
        let Some(token) = tokens.next() else {
            return Err(ParseError::Syntax);
        };
        match literal_of(self.alloc, &token.kind)? {
            Some(tree) => Ok(other(tree)),
            None => self.primary_by(tokens, &token.kind),
        }
    }

    // What follows the `.`.
    fn member(&self, tokens: &mut Cursor<'_>, object: Measured) -> Result<Measured, ParseError>
        ensures { Makes (member_of object.piece.tree tokens.old) result tokens.new }
    {
        let word = tokens.word(self.alloc)?;
        let depth = object.depth.saturating_add(1);
        let object = Boxed::new(self.alloc, object.piece.tree)?;
        kept(Expr::Member(object, word), Form::Target, depth)
    }

    // A key, and the `]` behind it.
    fn key(&self, tokens: &mut Cursor<'_>) -> Result<Piece, ParseError>
        requires { ReadsPieces self.now.depth (F.pre self.now.read_expr) (F.post self.now.read_expr) }
        ensures { Gives (key_in self.now.depth tokens.old) result tokens.new }
    {
        let key = self.nested(tokens, Nested::Whole)?;
        tokens.expect(Expected::CloseBracket)?;
        Ok(key)
    }

    // What follows the `[`.
    fn index(&self, tokens: &mut Cursor<'_>, object: Measured) -> Result<Measured, ParseError>
        requires { ReadsPieces self.now.depth (F.pre self.now.read_expr) (F.post self.now.read_expr) }
        ensures { Makes (index_of self.now.depth object.piece.tree tokens.old) result tokens.new }
    {
        let key = self.key(tokens)?;
        kept_index(self.alloc, object, key.tree)
    }

    // What follows the `(`.
    fn call(&self, tokens: &mut Cursor<'_>, callee: Measured) -> Result<Measured, ParseError>
        requires { ReadsPieces self.now.depth (F.pre self.now.read_expr) (F.post self.now.read_expr) }
        ensures { Makes (call_of self.now.depth callee.piece.tree tokens.old) result tokens.new }
    {
        let arguments = self.list(tokens, Expected::CloseParenthesis)?;
        let depth = callee
            .depth
            .max(depth_in_exprs(arguments.as_slice()))
            .saturating_add(1);
        let callee = Boxed::new(self.alloc, callee.piece.tree)?;
        kept(Expr::Call(callee, arguments), Form::Other, depth)
    }

    // The member, index or call that comes next.
    #[tactic(auto, unfolding(crate::specs::Turns::step_at))]
    fn step(&self, tokens: &mut Cursor<'_>, made: Measured) -> Result<Measured, ParseError>
        requires { ReadsPieces self.now.depth (F.pre self.now.read_expr) (F.post self.now.read_expr) }
        ensures { Makes (step_of self.now.depth made.piece.tree tokens.old) result tokens.new }
    {
        let Some(token) = tokens.next() else {
            return Err(ParseError::Syntax);
        };
        match &token.kind {
            TokenKind::Punctuator(Punctuator::Dot) => self.member(tokens, made),
            TokenKind::Punctuator(Punctuator::OpenBracket) => self.index(tokens, made),
            TokenKind::Punctuator(Punctuator::OpenParenthesis) => self.call(tokens, made),
            _ => Err(ParseError::Syntax),
        }
    }

    // Members, indices and calls of the first, as many as there are.
    fn steps(&self, tokens: &mut Cursor<'_>, first: Piece) -> Result<Piece, ParseError>
        requires { ReadsPieces self.now.depth (F.pre self.now.read_expr) (F.post self.now.read_expr) }
        ensures { Gives (spec.steps_from depth_limit (inner self.now.depth) (nested self.now.depth) (length tokens.old) first tokens.old) result tokens.new }
    {
        if !steps_on(tokens) {
            return Ok(first);
        }
        let mut made = measured(first);
        for _turn in 0..tokens.len() {
            if !steps_on(tokens) {
                return Ok(made.piece);
            }
            made = self.step(tokens, made)?;
        }
        Ok(made.piece)
    }

    /// A left-hand-side expression.
    #[tactic(auto, unfolding(ob_grammar::specs::Reading::left_of))]
    pub fn left(&self, tokens: &mut Cursor<'_>) -> Result<Piece, ParseError>
        requires exprs { ReadsPieces self.now.depth (F.pre self.now.read_expr) (F.post self.now.read_expr) }
        requires statements { ReadsStatements self.now.depth (G.pre self.now.read_statement) (G.post self.now.read_statement) }
        ensures { Gives (spec.left_of depth_limit (inner self.now.depth) (nested self.now.depth) tokens.old) result tokens.new }
    {
        let first = self.primary(tokens)?;
        self.steps(tokens, first)
    }
}
