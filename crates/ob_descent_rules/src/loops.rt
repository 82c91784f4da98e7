//! Statements with a head in parentheses, and `try`.

ghost use Rattle.std.specs.Prelude.{◌≡◌, Some, None, MatchOption, IfOk};
ghost use Rattle.ob_grammar.specs.Reading as spec;
ghost use Rattle.ob_grammar.specs.declared.form.Level.TheVariants as level;
ghost use Rattle.ob_grammar.specs.Taking.{before, mapped, take, is_else, is_semicolon, closes_parenthesis};
ghost use Rattle.ob_tree_types.specs.declared.tree.Stmt.TheVariants as stmt;
ghost use Rattle.ob_descent_rules.specs.Inside.{depth_limit, inner, nested};
ghost use Rattle.ob_descent_tokens.specs.Gives.{Gives};
ghost use Rattle.ob_descent_rules.specs.Then.{then};
ghost use Rattle.ob_descent_rules.specs.Beginnings.{head_of_decls};
ghost use Rattle.ob_grammar.specs.Grammar.{whole};
ghost use Rattle.ob_tree_types.specs.declared.tree.ForHead.TheVariants as head;
ghost use Rattle.ob_descent_rules.specs.Nests.{ReadsPieces, ReadsStatements};
ghost use Rattle.ob_descent_tokens.specs.Tests.{test_of};

use crate::nesting::Nested;
use crate::rules::Rules;
use crate::starts::{Start, start_of};
use ob_base::{List, NoMemory};
use ob_descent_tokens::{Cursor, Expected, ParseError};
use ob_grammar::{Each, Level, Piece};
use ob_tree_types::{Boxed, CatchPart, Decl, Expr, ForHead, Stmt};
use std::alloc::Global;

/// A `for` of these parts.
fn for_tree(
    alloc: Global,
    head: ForHead,
    test: Option<Expr>,
    update: Option<Expr>,
    turn: Stmt,
) -> Result<Stmt, NoMemory>
    ensures { IfOk result (λ tree. tree ≡ stmt.For head test update turn) }
{
    let turn = Boxed::new(alloc, turn)?;
    Ok(Stmt::For(head, test, update, turn))
}

// The head of a `for` that declares these.
fn head_of_decls(constant: bool, decls: List<Decl>) -> ForHead
    ensures { result ≡ head_of_decls constant decls }
{
    if constant {
        ForHead::Const(decls)
    } else {
        ForHead::Let(decls)
    }
}

impl<
    F: Fn(Global, &mut Cursor<'_>, usize, Nested) -> Result<Piece, ParseError>,
    G: Fn(Global, &mut Cursor<'_>, usize, Level) -> Result<Stmt, ParseError>,
> Rules<F, G> {
    // An expression in parentheses.
    #[tactic(auto, unfolding(ob_grammar::specs::Reading::test_of))]
    fn test(&self, tokens: &mut Cursor<'_>) -> Result<Expr, ParseError>
        requires { ReadsPieces self.now.depth (F.pre self.now.read_expr) (F.post self.now.read_expr) }
        ensures { Gives (spec.test_of depth_limit (inner self.now.depth) (nested self.now.depth) tokens.old) result tokens.new }
    {
        tokens.expect(Expected::OpenParenthesis)?;
        let test = self.nested(tokens, Nested::Whole)?;
        tokens.expect(Expected::CloseParenthesis)?;
        Ok(test.tree)
    }

    // `else` and its statement, if they stand there.
    fn else_part(&self, tokens: &mut Cursor<'_>, test: Expr, yes: Stmt) -> Result<Stmt, ParseError>
        requires { ReadsStatements self.now.depth (G.pre self.now.read_statement) (G.post self.now.read_statement) }
        ensures { Gives (spec.else_by depth_limit (inner self.now.depth) (nested self.now.depth) (take is_else tokens.old) test yes tokens.old) result tokens.new }
    {
        let yes = Boxed::new(self.alloc, yes)?;
        if !tokens.take(Expected::Else) {
            return Ok(Stmt::If(test, yes, None));
        }
        let no = self.statement_inside(tokens, Level::Statement)?;
        let no = Boxed::new(self.alloc, no)?;
        Ok(Stmt::If(test, yes, Some(no)))
    }

    /// What follows `if`.
    #[tactic(auto, unfolding(ob_grammar::specs::Reading::if_of))]
    pub fn if_statement(&self, tokens: &mut Cursor<'_>) -> Result<Stmt, ParseError>
        requires exprs { ReadsPieces self.now.depth (F.pre self.now.read_expr) (F.post self.now.read_expr) }
        requires statements { ReadsStatements self.now.depth (G.pre self.now.read_statement) (G.post self.now.read_statement) }
        ensures { Gives (spec.if_of depth_limit (inner self.now.depth) (nested self.now.depth) tokens.old) result tokens.new }
    {
        let test = self.test(tokens)?;
        let yes = self.statement_inside(tokens, Level::Statement)?;
        self.else_part(tokens, test, yes)
    }

    /// What follows `while`.
    #[tactic(auto, unfolding(ob_grammar::specs::Reading::while_of))]
    pub fn while_loop(&self, tokens: &mut Cursor<'_>) -> Result<Stmt, ParseError>
        requires exprs { ReadsPieces self.now.depth (F.pre self.now.read_expr) (F.post self.now.read_expr) }
        requires statements { ReadsStatements self.now.depth (G.pre self.now.read_statement) (G.post self.now.read_statement) }
        ensures { Gives (spec.while_of depth_limit (inner self.now.depth) (nested self.now.depth) tokens.old) result tokens.new }
    {
        let test = self.test(tokens)?;
        let turn = self.statement_inside(tokens, Level::Statement)?;
        Ok(Stmt::While(test, Boxed::new(self.alloc, turn)?))
    }

    /// What follows `do`.
    #[tactic(auto, unfolding(ob_grammar::specs::Reading::do_of))]
    pub fn do_loop(&self, tokens: &mut Cursor<'_>) -> Result<Stmt, ParseError>
        requires exprs { ReadsPieces self.now.depth (F.pre self.now.read_expr) (F.post self.now.read_expr) }
        requires statements { ReadsStatements self.now.depth (G.pre self.now.read_statement) (G.post self.now.read_statement) }
        ensures { Gives (spec.do_of depth_limit (inner self.now.depth) (nested self.now.depth) tokens.old) result tokens.new }
    {
        let turn = self.statement_inside(tokens, Level::Statement)?;
        tokens.expect(Expected::While)?;
        let test = self.test(tokens)?;
        let _ended = tokens.take(Expected::Semicolon);
        Ok(Stmt::DoWhile(Boxed::new(self.alloc, turn)?, test))
    }

    // An expression that may be missing, and the mark behind it.
    #[tactic(auto, unfolding(ob_grammar::specs::Reading::optional))]
    fn optional(
        &self,
        tokens: &mut Cursor<'_>,
        closes: Expected,
    ) -> Result<Option<Expr>, ParseError>
        requires { ReadsPieces self.now.depth (F.pre self.now.read_expr) (F.post self.now.read_expr) }
        ensures { Gives (spec.optional depth_limit (inner self.now.depth) (nested self.now.depth) (test_of closes) tokens.old) result tokens.new }
    {
        if tokens.take(closes) {
            return Ok(None);
        }
        let value = self.nested(tokens, Nested::Whole)?;
        tokens.expect(closes)?;
        Ok(Some(value.tree))
    }

    // The declarations before the first `;` of a `for`, behind their word, and the `;`.
    fn declaring_head(&self, tokens: &mut Cursor<'_>, constant: bool) -> Result<ForHead, ParseError>
        requires { ReadsPieces self.now.depth (F.pre self.now.read_expr) (F.post self.now.read_expr) }
        ensures { Gives (then (spec.decls_of depth_limit (inner self.now.depth) (nested self.now.depth) tokens.old) (λ s mid. before is_semicolon (head_of_decls constant s.decls) mid)) result tokens.new }
    {
        let several = self.decls(tokens)?;
        tokens.expect(Expected::Semicolon)?;
        Ok(head_of_decls(constant, several.decls))
    }

    // The expression before the first `;` of a `for`, and the `;`.
    fn expression_head(&self, tokens: &mut Cursor<'_>) -> Result<ForHead, ParseError>
        requires { ReadsPieces self.now.depth (F.pre self.now.read_expr) (F.post self.now.read_expr) }
        ensures { Gives (then (inner self.now.depth whole tokens.old) (λ p mid. before is_semicolon (head.Expr p.tree) mid)) result tokens.new }
    {
        let first = self.nested(tokens, Nested::Whole)?;
        tokens.expect(Expected::Semicolon)?;
        Ok(ForHead::Expr(first.tree))
    }

    // What stands before the first `;` of a `for`, and the `;`.
    #[tactic(auto, unfolding(ob_grammar::specs::Reading::head_of))]
    fn head(&self, tokens: &mut Cursor<'_>) -> Result<ForHead, ParseError>
        requires { ReadsPieces self.now.depth (F.pre self.now.read_expr) (F.post self.now.read_expr) }
        ensures { Gives (spec.head_of depth_limit (inner self.now.depth) (nested self.now.depth) tokens.old) result tokens.new }
    {
        let Some((token, after)) = tokens.split_first() else {
            return Err(ParseError::Syntax);
        };
        let start = start_of(&token.kind);
        match start {
            Start::Empty => {
                *tokens = after;
                Ok(ForHead::Nothing)
            }
            Start::Let => {
                *tokens = after;
                self.declaring_head(tokens, false)
            }
            Start::Const => {
                *tokens = after;
                self.declaring_head(tokens, true)
            }
            _ => self.expression_head(tokens),
        }
    }

    // The parts of a `for` behind its head.
    fn for_loop(&self, tokens: &mut Cursor<'_>, head: ForHead) -> Result<Stmt, ParseError>
        requires exprs { ReadsPieces self.now.depth (F.pre self.now.read_expr) (F.post self.now.read_expr) }
        requires statements { ReadsStatements self.now.depth (G.pre self.now.read_statement) (G.post self.now.read_statement) }
        ensures { Gives (spec.turns_of depth_limit (inner self.now.depth) (nested self.now.depth) head tokens.old) result tokens.new }
    {
        let test = self.optional(tokens, Expected::Semicolon)?;
        self.for_update(tokens, head, test)
    }

    // The parts of a `for` behind its test.
    fn for_update(
        &self,
        tokens: &mut Cursor<'_>,
        head: ForHead,
        test: Option<Expr>,
    ) -> Result<Stmt, ParseError>
        requires exprs { ReadsPieces self.now.depth (F.pre self.now.read_expr) (F.post self.now.read_expr) }
        requires statements { ReadsStatements self.now.depth (G.pre self.now.read_statement) (G.post self.now.read_statement) }
        ensures { Gives (then (spec.optional depth_limit (inner self.now.depth) (nested self.now.depth) closes_parenthesis tokens.old) (λ b turn. mapped (stmt.For head test b) (nested self.now.depth level.Statement turn))) result tokens.new }
    {
        let update = self.optional(tokens, Expected::CloseParenthesis)?;
        let turn = self.statement_inside(tokens, Level::Statement)?;
        Ok(for_tree(self.alloc, head, test, update, turn)?)
    }

    // The parts of a `for .. of` behind its head.
    fn for_of(&self, tokens: &mut Cursor<'_>, each: Each) -> Result<Stmt, ParseError>
        requires exprs { ReadsPieces self.now.depth (F.pre self.now.read_expr) (F.post self.now.read_expr) }
        requires statements { ReadsStatements self.now.depth (G.pre self.now.read_statement) (G.post self.now.read_statement) }
        ensures { Gives (spec.for_by depth_limit (inner self.now.depth) (nested self.now.depth) (Some (each, tokens.old)) tokens.old) result tokens.new }
    {
        let items = self.nested(tokens, Nested::Whole)?;
        tokens.expect(Expected::CloseParenthesis)?;
        let turn = self.statement_inside(tokens, Level::Statement)?;
        let turn = Boxed::new(self.alloc, turn)?;
        Ok(Stmt::ForOf(each.constant, each.name, items.tree, turn))
    }

    // `let` or `const`, a name and `of`, if they stand there.
    #[tactic(auto, unfolding(ob_grammar::specs::Reading::of_head))]
    fn of_head(&self, tokens: &mut Cursor<'_>) -> Result<Option<Each>, NoMemory>
        ensures { IfOk result (λ o. MatchOption o (spec.of_head depth_limit (inner self.now.depth) (nested self.now.depth) tokens.old ≡ None) (λ e. spec.of_head depth_limit (inner self.now.depth) (nested self.now.depth) tokens.old ≡ Some (e, tokens.new))) }
    {
        let Some(constant) = tokens.declares() else {
            return Ok(None);
        };
        let Some(name) = tokens.take_name() else {
            return Ok(None);
        };
        if !tokens.take(Expected::Of) {
            return Ok(None);
        }
        Ok(Some(Each {
            constant,
            name: name.copy(self.alloc)?,
        }))
    }

    /// What follows `for`.
    #[tactic(auto, unfolding(ob_grammar::specs::Reading::for_of))]
    pub fn for_statement(&self, tokens: &mut Cursor<'_>) -> Result<Stmt, ParseError>
        requires exprs { ReadsPieces self.now.depth (F.pre self.now.read_expr) (F.post self.now.read_expr) }
        requires statements { ReadsStatements self.now.depth (G.pre self.now.read_statement) (G.post self.now.read_statement) }
        ensures { Gives (spec.for_of depth_limit (inner self.now.depth) (nested self.now.depth) tokens.old) result tokens.new }
    {
        tokens.expect(Expected::OpenParenthesis)?;
        let mut ahead = tokens.fork();
        match self.of_head(&mut ahead)? {
            Some(each) => {
                *tokens = ahead;
                self.for_of(tokens, each)
            }
            None => {
                let head = self.head(tokens)?;
                self.for_loop(tokens, head)
            }
        }
    }

    // What follows `catch`.
    #[tactic(auto, unfolding(ob_grammar::specs::Reading::catch_of))]
    fn catch_part(&self, tokens: &mut Cursor<'_>) -> Result<CatchPart, ParseError>
        requires { ReadsStatements self.now.depth (G.pre self.now.read_statement) (G.post self.now.read_statement) }
        ensures { Gives (spec.catch_of depth_limit (inner self.now.depth) (nested self.now.depth) tokens.old) result tokens.new }
    {
        if !tokens.take(Expected::OpenParenthesis) {
            let items = self.block(tokens)?;
            return Ok(CatchPart { name: None, items });
        }
        let name = tokens.name(self.alloc)?;
        tokens.expect(Expected::CloseParenthesis)?;
        let items = self.block(tokens)?;
        Ok(CatchPart {
            name: Some(name),
            items,
        })
    }

    /// What follows `try`.
    #[tactic(auto, unfolding(ob_grammar::specs::Reading::try_of))]
    pub fn try_statement(&self, tokens: &mut Cursor<'_>) -> Result<Stmt, ParseError>
        requires { ReadsStatements self.now.depth (G.pre self.now.read_statement) (G.post self.now.read_statement) }
        ensures { Gives (spec.try_of depth_limit (inner self.now.depth) (nested self.now.depth) tokens.old) result tokens.new }
    {
        let items = self.block(tokens)?;
        tokens.expect(Expected::Catch)?;
        let part = self.catch_part(tokens)?;
        Ok(Stmt::Try(items, Some(part), None))
    }
}
