//! Expressions with operators.

ghost use Rattle.std.specs.Prelude.{◌≡◌, ◌≤◌, length, IfOk};
ghost use Rattle.ob_grammar.specs.Forms.{edge};
ghost use Rattle.ob_grammar.specs.Grammar.{whole, tighter};
ghost use Rattle.ob_grammar.specs.Marks.{joined};
ghost use Rattle.ob_grammar.specs.Reading as spec;
ghost use Rattle.ob_grammar.specs.Taking.{mapped, piece, if_taken, take, is_colon};
ghost use Rattle.ob_descent_rules.specs.Inside.{depth_limit, inner, nested};
ghost use Rattle.ob_descent_tokens.specs.Gives.{Gives};
ghost use Rattle.ob_descent_rules.specs.Then.{then};
ghost use Rattle.ob_descent_rules.specs.Turns.{Keeps, next_operator};
ghost use Rattle.ob_descent_rules.specs.Nests.{ReadsPieces, ReadsStatements};
ghost use Rattle.ob_tree_types.specs.declared.tree.Expr.TheVariants as node;

use crate::kept::{kept, measured};
use crate::measured::Measured;
use crate::nesting::{Nested, edge};
use crate::rules::Rules;
use ob_base::{BinaryOp, NoMemory, UnaryOp};
use ob_descent_tokens::{
    Cursor, Expected, ParseError, assign_of, infix_of, rank, unary_of, update_of,
};
use ob_grammar::{Form, Infix, Level, Piece};
use ob_tree::depth_of_expr;
use ob_tree_types::{AssignOp, Boxed, Expr, Stmt, UpdateOp};
use std::alloc::Global;

/// Two operands that are joined.
fn joined(alloc: Global, op: Infix, left: Expr, right: Expr) -> Result<Expr, NoMemory>
    ensures { IfOk result (λ tree. tree ≡ joined op left right) }
{
    let left = Boxed::new(alloc, left)?;
    let right = Boxed::new(alloc, right)?;
    match op {
        Infix::Computes(op) => Ok(Expr::Binary(op, left, right)),
        Infix::Compares(op) => Ok(Expr::Compare(op, left, right)),
        Infix::Chooses(op) => Ok(Expr::Logic(op, left, right)),
    }
}

/// Two operands that are joined, if the tree is not too deep.
fn join(alloc: Global, op: Infix, left: Measured, right: Piece) -> Result<Measured, ParseError>
    ensures { Keeps (piece (joined op left.piece.tree right.tree) (edge right.form)) result }
{
    let depth = left.depth.max(depth_of_expr(&right.tree)).saturating_add(1);
    let form = edge(right.form);
    let tree = joined(alloc, op, left.piece.tree, right.tree)?;
    kept(tree, form, depth)
}

/// The operator of that rank that comes next, if one does, and a cursor behind it.
fn next_operator<'a>(tokens: &Cursor<'a>, least: u16) -> Option<(Infix, Cursor<'a>)>
    ensures { result ≡ next_operator least tokens.now }
{
    let (token, after) = tokens.split_first()?;
    if u16::from(rank(token)) != least {
        return None;
    }
    Some((infix_of(&token.kind)?, after))
}

/// An assignment of a value to a target.
fn assignment(alloc: Global, op: AssignOp, target: Expr, value: Expr) -> Result<Expr, NoMemory>
    ensures { IfOk result (λ tree. tree ≡ node.Assign op target value) }
{
    let target = Boxed::new(alloc, target)?;
    let value = Boxed::new(alloc, value)?;
    Ok(Expr::Assign(op, target, value))
}

impl<
    F: Fn(Global, &mut Cursor<'_>, usize, Nested) -> Result<Piece, ParseError>,
    G: Fn(Global, &mut Cursor<'_>, usize, Level) -> Result<Stmt, ParseError>,
> Rules<F, G> {
    // The target behind `++` or `--`.
    fn counted(&self, tokens: &mut Cursor<'_>, op: UpdateOp) -> Result<Piece, ParseError>
        requires exprs { ReadsPieces self.now.depth (F.pre self.now.read_expr) (F.post self.now.read_expr) }
        requires statements { ReadsStatements self.now.depth (G.pre self.now.read_statement) (G.post self.now.read_statement) }
        ensures { Gives (then (spec.left_of depth_limit (inner self.now.depth) (nested self.now.depth) tokens.old) (λ p. spec.counted_by depth_limit (inner self.now.depth) (nested self.now.depth) p.form op p.tree)) result tokens.new }
    {
        let target = self.left(tokens)?;
        match target.form {
            Form::Target => Ok(Piece {
                tree: Expr::Update(op, true, Boxed::new(self.alloc, target.tree)?),
                form: Form::Other,
            }),
            _ => Err(ParseError::Syntax),
        }
    }

    // `++` or `--` behind a target, if it stands there.
    #[tactic(auto, unfolding(ob_grammar::specs::Reading::count_behind))]
    fn count_behind(&self, tokens: &mut Cursor<'_>, piece: Piece) -> Result<Piece, ParseError>
        ensures { Gives (spec.count_behind depth_limit (inner self.now.depth) (nested self.now.depth) piece tokens.old) result tokens.new }
    {
        let Some((token, after)) = tokens.split_first() else {
            return Ok(piece);
        };
        match piece.form {
            Form::Target => {}
            _ => return Ok(piece),
        }
        if token.break_before {
            return Ok(piece);
        }
        let Some(op) = update_of(&token.kind) else {
            return Ok(piece);
        };
        *tokens = after;
        Ok(Piece {
            tree: Expr::Update(op, false, Boxed::new(self.alloc, piece.tree)?),
            form: Form::Updated,
        })
    }

    #[tactic(auto, unfolding(ob_grammar::specs::Reading::updated_of))]
    fn updated(&self, tokens: &mut Cursor<'_>) -> Result<Piece, ParseError>
        requires exprs { ReadsPieces self.now.depth (F.pre self.now.read_expr) (F.post self.now.read_expr) }
        requires statements { ReadsStatements self.now.depth (G.pre self.now.read_statement) (G.post self.now.read_statement) }
        ensures { Gives (spec.updated_of depth_limit (inner self.now.depth) (nested self.now.depth) tokens.old) result tokens.new }
    {
        let Some((token, after)) = tokens.split_first() else {
            return Err(ParseError::Syntax);
        };
        match update_of(&token.kind) {
            Some(op) => {
                *tokens = after;
                self.counted(tokens, op)
            }
            None => {
                let piece = self.left(tokens)?;
                self.count_behind(tokens, piece)
            }
        }
    }

    // The operand of a sign.
    fn signed(&self, tokens: &mut Cursor<'_>, op: UnaryOp) -> Result<Piece, ParseError>
        requires { ReadsPieces self.now.depth (F.pre self.now.read_expr) (F.post self.now.read_expr) }
        ensures { Gives (spec.signed_by depth_limit (inner self.now.depth) (nested self.now.depth) op tokens.old) result tokens.new }
    {
        let operand = self.nested(tokens, Nested::Prefixed)?;
        Ok(Piece {
            tree: Expr::Unary(op, Boxed::new(self.alloc, operand.tree)?),
            form: edge(operand.form),
        })
    }

    /// A unary expression.
    #[tactic(auto, unfolding(ob_grammar::specs::Reading::prefixed_of))]
    pub fn prefixed(&self, tokens: &mut Cursor<'_>) -> Result<Piece, ParseError>
        requires exprs { ReadsPieces self.now.depth (F.pre self.now.read_expr) (F.post self.now.read_expr) }
        requires statements { ReadsStatements self.now.depth (G.pre self.now.read_statement) (G.post self.now.read_statement) }
        ensures { Gives (spec.prefixed_of depth_limit (inner self.now.depth) (nested self.now.depth) tokens.old) result tokens.new }
    {
        let Some((token, after)) = tokens.split_first() else {
            return Err(ParseError::Syntax);
        };
        match unary_of(&token.kind) {
            Some(op) => {
                *tokens = after;
                self.signed(tokens, op)
            }
            None => self.updated(tokens),
        }
    }

    // `**` and its right side, if they stand there.
    #[tactic(auto, unfolding(ob_grammar::specs::Reading::raise))]
    fn raise(&self, tokens: &mut Cursor<'_>, base: Piece) -> Result<Piece, ParseError>
        requires { ReadsPieces self.now.depth (F.pre self.now.read_expr) (F.post self.now.read_expr) }
        ensures { Gives (spec.raise depth_limit (inner self.now.depth) (nested self.now.depth) base tokens.old) result tokens.new }
    {
        if !tokens.take(Expected::StarStar) {
            return Ok(base);
        }
        let power = self.nested(tokens, Nested::Power)?;
        let form = edge(power.form);
        let tree = joined(
            self.alloc,
            Infix::Computes(BinaryOp::Pow),
            base.tree,
            power.tree,
        )?;
        Ok(Piece { tree, form })
    }

    /// An operand of `*`.
    #[tactic(auto, unfolding(ob_grammar::specs::Reading::power_of))]
    pub fn power(&self, tokens: &mut Cursor<'_>) -> Result<Piece, ParseError>
        requires exprs { ReadsPieces self.now.depth (F.pre self.now.read_expr) (F.post self.now.read_expr) }
        requires statements { ReadsStatements self.now.depth (G.pre self.now.read_statement) (G.post self.now.read_statement) }
        ensures { Gives (spec.power_of depth_limit (inner self.now.depth) (nested self.now.depth) tokens.old) result tokens.new }
    {
        let Some((token, after)) = tokens.split_first() else {
            return Err(ParseError::Syntax);
        };
        match unary_of(&token.kind) {
            Some(op) => {
                *tokens = after;
                self.signed(tokens, op)
            }
            None => {
                let base = self.updated(tokens)?;
                self.raise(tokens, base)
            }
        }
    }

    /// An operand of the operators of a level: of `*` (0), of `+` (1), up to `||` (9).
    pub fn operand(&self, tokens: &mut Cursor<'_>, level: u8) -> Result<Piece, ParseError>
        requires exprs { ReadsPieces self.now.depth (F.pre self.now.read_expr) (F.post self.now.read_expr) }
        requires statements { ReadsStatements self.now.depth (G.pre self.now.read_statement) (G.post self.now.read_statement) }
        ensures { Gives (spec.at depth_limit (inner self.now.depth) (nested self.now.depth) (tighter level) tokens.old) result tokens.new }
    {
        let tightest = self.power(tokens)?;
        let mut piece = tightest;
        for below in 0..level {
            piece = self.operands(tokens, below, u16::from(below) + 3, piece)?;
        }
        Ok(piece)
    }

    // The operators of a rank with an operand each that follow the first operand, grouped to the left.
    fn operands(
        &self,
        tokens: &mut Cursor<'_>,
        level: u8,
        least: u16,
        first: Piece,
    ) -> Result<Piece, ParseError>
        requires { ReadsPieces self.now.depth (F.pre self.now.read_expr) (F.post self.now.read_expr) }
        ensures { Gives (spec.operands_from depth_limit (inner self.now.depth) (nested self.now.depth) (inner self.now.depth (tighter level)) least (length tokens.old) first tokens.old) result tokens.new }
    {
        if next_operator(tokens, least).is_none() {
            return Ok(first);
        }
        let mut made = measured(first);
        for _turn in 0..tokens.len() {
            let Some((op, after)) = next_operator(tokens, least) else {
                return Ok(made.piece);
            };
            *tokens = after;
            let right = self.nested(tokens, Nested::Operand(level))?;
            made = join(self.alloc, op, made, right)?;
        }
        Ok(made.piece)
    }

    // Whether the next token has that rank.
    fn has_rank(&self, tokens: &Cursor<'_>, least: u16) -> bool
        ensures { result ≡ spec.has_rank depth_limit (inner self.now.depth) (nested self.now.depth) least tokens.now }
    {
        match tokens.split_first() {
            Some((token, _after)) => u16::from(rank(token)) == least,
            None => false,
        }
    }

    // Chains of `??`, or of `&&` and `||`.
    #[tactic(auto, unfolding(ob_grammar::specs::Reading::short_of, ob_grammar::specs::Reading::operands_of))]
    fn short(&self, tokens: &mut Cursor<'_>) -> Result<Piece, ParseError>
        requires exprs { ReadsPieces self.now.depth (F.pre self.now.read_expr) (F.post self.now.read_expr) }
        requires statements { ReadsStatements self.now.depth (G.pre self.now.read_statement) (G.post self.now.read_statement) }
        ensures { Gives (spec.short_of depth_limit (inner self.now.depth) (nested self.now.depth) tokens.old) result tokens.new }
    {
        let first = self.operand(tokens, 8)?;
        if self.has_rank(tokens, 13) {
            return self.operands(tokens, 8, 13, first);
        }
        let all = self.operands(tokens, 8, 11, first)?;
        self.operands(tokens, 9, 12, all)
    }

    // The two values behind `?`.
    fn branches(&self, tokens: &mut Cursor<'_>, test: Expr) -> Result<Piece, ParseError>
        requires { ReadsPieces self.now.depth (F.pre self.now.read_expr) (F.post self.now.read_expr) }
        ensures { Gives (then (inner self.now.depth whole tokens.old) (λ q mid. if_taken (take is_colon mid) (λ second. mapped (λ r. piece (node.Cond test q.tree r.tree) (edge r.form)) (inner self.now.depth whole second)))) result tokens.new }
    {
        let test = Boxed::new(self.alloc, test)?;
        let yes = self.nested(tokens, Nested::Whole)?;
        let yes = Boxed::new(self.alloc, yes.tree)?;
        self.otherwise(tokens, test, yes)
    }

    // The `:` and the value behind it.
    fn otherwise(
        &self,
        tokens: &mut Cursor<'_>,
        test: Boxed<Expr>,
        yes: Boxed<Expr>,
    ) -> Result<Piece, ParseError>
        requires { ReadsPieces self.now.depth (F.pre self.now.read_expr) (F.post self.now.read_expr) }
        ensures { Gives (if_taken (take is_colon tokens.old) (λ second. mapped (λ r. piece (node.Cond test yes r.tree) (edge r.form)) (inner self.now.depth whole second))) result tokens.new }
    {
        tokens.expect(Expected::Colon)?;
        let no = self.nested(tokens, Nested::Whole)?;
        let form = edge(no.form);
        let no = Boxed::new(self.alloc, no.tree)?;
        Ok(Piece {
            tree: Expr::Cond(test, yes, no),
            form,
        })
    }

    /// An expression without an assignment or an arrow outside its parts.
    #[tactic(auto, unfolding(ob_grammar::specs::Reading::conditional_of))]
    pub fn conditional(&self, tokens: &mut Cursor<'_>) -> Result<Piece, ParseError>
        requires exprs { ReadsPieces self.now.depth (F.pre self.now.read_expr) (F.post self.now.read_expr) }
        requires statements { ReadsStatements self.now.depth (G.pre self.now.read_statement) (G.post self.now.read_statement) }
        ensures { Gives (spec.conditional_of depth_limit (inner self.now.depth) (nested self.now.depth) tokens.old) result tokens.new }
    {
        let test = self.short(tokens)?;
        if !tokens.take(Expected::Question) {
            return Ok(test);
        }
        self.branches(tokens, test.tree)
    }

    /// The assignment to a target, if its operator stands there.
    #[tactic(auto, unfolding(ob_grammar::specs::Reading::assigned_of))]
    pub fn assigned(&self, tokens: &mut Cursor<'_>, piece: Piece) -> Result<Piece, ParseError>
        requires { ReadsPieces self.now.depth (F.pre self.now.read_expr) (F.post self.now.read_expr) }
        ensures { Gives (spec.assigned_of depth_limit (inner self.now.depth) (nested self.now.depth) piece tokens.old) result tokens.new }
    {
        let Some((token, after)) = tokens.split_first() else {
            return Ok(piece);
        };
        match piece.form {
            Form::Target => {}
            _ => return Ok(piece),
        }
        let Some(op) = assign_of(&token.kind) else {
            return Ok(piece);
        };
        *tokens = after;
        let value = self.nested(tokens, Nested::Whole)?;
        let form = edge(value.form);
        let tree = assignment(self.alloc, op, piece.tree, value.tree)?;
        Ok(Piece { tree, form })
    }
}
