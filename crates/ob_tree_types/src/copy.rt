ghost use Rattle.std.specs.Prelude.{◌≡◌, IfOk};

use crate::{Boxed, CatchPart, Decl, DeclValue, Expr, FnBody, ForHead, Function, PropNode, Stmt};
use ob_base::{List, NoMemory, Text};
use std::alloc::Global;

impl Expr {
    /// The same expression.
    ///
    /// # Errors
    /// `NoMemory` where an allocation is refused.
    pub fn copy(&self, alloc: Global) -> Result<Expr, NoMemory>
        ensures { IfOk result (λ copy. copy ≡ self.now) }
    {
        copy_expr(alloc, self)
    }
}

impl PropNode {
    /// The same property.
    ///
    /// # Errors
    /// `NoMemory` where an allocation is refused.
    pub fn copy(&self, alloc: Global) -> Result<PropNode, NoMemory>
        ensures { IfOk result (λ copy. copy ≡ self.now) }
    {
        copy_prop(alloc, self)
    }
}

impl Function {
    /// The same function.
    ///
    /// # Errors
    /// `NoMemory` where an allocation is refused.
    pub fn copy(&self, alloc: Global) -> Result<Function, NoMemory>
        ensures { IfOk result (λ copy. copy ≡ self.now) }
    {
        copy_function(alloc, self)
    }
}

impl FnBody {
    /// The same body.
    ///
    /// # Errors
    /// `NoMemory` where an allocation is refused.
    pub fn copy(&self, alloc: Global) -> Result<FnBody, NoMemory>
        ensures { IfOk result (λ copy. copy ≡ self.now) }
    {
        copy_body(alloc, self)
    }
}

impl Decl {
    /// The same declaration.
    ///
    /// # Errors
    /// `NoMemory` where an allocation is refused.
    pub fn copy(&self, alloc: Global) -> Result<Decl, NoMemory>
        ensures { IfOk result (λ copy. copy ≡ self.now) }
    {
        copy_decl(alloc, self)
    }
}

impl DeclValue {
    /// The same value of a declaration.
    ///
    /// # Errors
    /// `NoMemory` where an allocation is refused.
    pub fn copy(&self, alloc: Global) -> Result<DeclValue, NoMemory>
        ensures { IfOk result (λ copy. copy ≡ self.now) }
    {
        copy_value(alloc, self)
    }
}

impl Stmt {
    /// The same statement.
    ///
    /// # Errors
    /// `NoMemory` where an allocation is refused.
    pub fn copy(&self, alloc: Global) -> Result<Stmt, NoMemory>
        ensures { IfOk result (λ copy. copy ≡ self.now) }
    {
        copy_stmt(alloc, self)
    }
}

impl ForHead {
    /// The same head.
    ///
    /// # Errors
    /// `NoMemory` where an allocation is refused.
    pub fn copy(&self, alloc: Global) -> Result<ForHead, NoMemory>
        ensures { IfOk result (λ copy. copy ≡ self.now) }
    {
        copy_head(alloc, self)
    }
}

impl CatchPart {
    /// The same `catch` part.
    ///
    /// # Errors
    /// `NoMemory` where an allocation is refused.
    pub fn copy(&self, alloc: Global) -> Result<CatchPart, NoMemory>
        ensures { IfOk result (λ copy. copy ≡ self.now) }
    {
        copy_catch(alloc, self)
    }
}

fn copy_name(alloc: Global, name: &Option<Text>) -> Result<Option<Text>, NoMemory>
    ensures { IfOk result (λ copy. copy ≡ name.now) }
{
    match name {
        None => Ok(None),
        Some(name) => Ok(Some(name.copy(alloc)?)),
    }
}

fn copy_names(alloc: Global, names: &[Text]) -> Result<List<Text>, NoMemory>
    ensures { IfOk result (λ copy. copy ≡ names.now) }
{
    let mut copies = List::new(alloc);
    for name in names {
        copies.push(name.copy(alloc)?)?;
    }
    Ok(copies)
}

#[cycle(copies)]
fn copy_expr(alloc: Global, expr: &Expr) -> Result<Expr, NoMemory>
    ensures { IfOk result (λ copy. copy ≡ expr.now) }
{
    match expr {
        Expr::Undefined => Ok(Expr::Undefined),
        Expr::Null => Ok(Expr::Null),
        Expr::Bool(value) => { Ok(Expr::Bool(*value)) }
        Expr::Int(value) => { Ok(Expr::Int(*value)) }
        Expr::Text(units) => {
            let units = units.copy(alloc)?;
            Ok(Expr::Text(units))
        }
        Expr::Name(name) => {
            let name = name.copy(alloc)?;
            Ok(Expr::Name(name))
        }
        Expr::ViewofName(name) => {
            let name = name.copy(alloc)?;
            Ok(Expr::ViewofName(name))
        }
        Expr::Array(items) => {
            let items = copy_exprs(alloc, items.as_slice())?;
            Ok(Expr::Array(items))
        }
        Expr::Object(props) => {
            let props = copy_props(alloc, props.as_slice())?;
            Ok(Expr::Object(props))
        }
        Expr::Function(function) => {
            let function = copy_function(alloc, function)?;
            Ok(Expr::Function(function))
        }
        Expr::Arrow(function) => {
            let function = copy_function(alloc, function)?;
            Ok(Expr::Arrow(function))
        }
        Expr::Unary(op, operand) => {
            let operand = copy_boxed(alloc, operand)?;
            Ok(Expr::Unary(*op, operand))
        }
        Expr::Binary(op, left, right) => {
            let left = copy_boxed(alloc, left)?;
            let right = copy_boxed(alloc, right)?;
            Ok(Expr::Binary(*op, left, right))
        }
        Expr::Compare(op, left, right) => {
            let left = copy_boxed(alloc, left)?;
            let right = copy_boxed(alloc, right)?;
            Ok(Expr::Compare(*op, left, right))
        }
        Expr::Logic(op, left, right) => {
            let left = copy_boxed(alloc, left)?;
            let right = copy_boxed(alloc, right)?;
            Ok(Expr::Logic(*op, left, right))
        }
        Expr::Cond(test, yes, no) => {
            let test = copy_boxed(alloc, test)?;
            let yes = copy_boxed(alloc, yes)?;
            let no = copy_boxed(alloc, no)?;
            Ok(Expr::Cond(test, yes, no))
        }
        Expr::Assign(op, target, value) => {
            let target = copy_boxed(alloc, target)?;
            let value = copy_boxed(alloc, value)?;
            Ok(Expr::Assign(*op, target, value))
        }
        Expr::Update(op, before, target) => {
            let target = copy_boxed(alloc, target)?;
            Ok(Expr::Update(*op, *before, target))
        }
        Expr::Member(object, word) => {
            let object = copy_boxed(alloc, object)?;
            let word = word.copy(alloc)?;
            Ok(Expr::Member(object, word))
        }
        Expr::Index(object, key) => {
            let object = copy_boxed(alloc, object)?;
            let key = copy_boxed(alloc, key)?;
            Ok(Expr::Index(object, key))
        }
        Expr::Call(callee, arguments) => {
            let callee = copy_boxed(alloc, callee)?;
            let arguments = copy_exprs(alloc, arguments.as_slice())?;
            Ok(Expr::Call(callee, arguments))
        }
        Expr::New(name, arguments) => {
            let name = name.copy(alloc)?;
            let arguments = copy_exprs(alloc, arguments.as_slice())?;
            Ok(Expr::New(name, arguments))
        }
    }
}

#[cycle(copies)]
fn copy_prop(alloc: Global, prop: &PropNode) -> Result<PropNode, NoMemory>
    ensures { IfOk result (λ copy. copy ≡ prop.now) }
{
    match prop {
        PropNode::Short(name) => {
            let name = name.copy(alloc)?;
            Ok(PropNode::Short(name))
        }
        PropNode::Fixed(key, value) => {
            let key = key.copy(alloc)?;
            let value = copy_expr(alloc, value)?;
            Ok(PropNode::Fixed(key, value))
        }
        PropNode::Computed(key, value) => {
            let key = copy_expr(alloc, key)?;
            let value = copy_expr(alloc, value)?;
            Ok(PropNode::Computed(key, value))
        }
    }
}

#[cycle(copies)]
fn copy_function(alloc: Global, function: &Function) -> Result<Function, NoMemory>
    ensures { IfOk result (λ copy. copy ≡ function.now) }
{
    let name = copy_name(alloc, &function.name)?;
    let params = copy_names(alloc, function.params.as_slice())?;
    let body = copy_body(alloc, &function.body)?;
    Ok(Function {
        name,
        params,
        generator: function.generator,
        body,
    })
}

#[cycle(copies)]
fn copy_body(alloc: Global, body: &FnBody) -> Result<FnBody, NoMemory>
    ensures { IfOk result (λ copy. copy ≡ body.now) }
{
    match body {
        FnBody::Items(items) => {
            let items = copy_stmts(alloc, items.as_slice())?;
            Ok(FnBody::Items(items))
        }
        FnBody::Value(value) => {
            let value = copy_boxed(alloc, value)?;
            Ok(FnBody::Value(value))
        }
    }
}

#[cycle(copies)]
fn copy_decl(alloc: Global, decl: &Decl) -> Result<Decl, NoMemory>
    ensures { IfOk result (λ copy. copy ≡ decl.now) }
{
    let name = decl.name.copy(alloc)?;
    let value = copy_value(alloc, &decl.value)?;
    Ok(Decl { name, value })
}

#[cycle(copies)]
fn copy_value(alloc: Global, value: &DeclValue) -> Result<DeclValue, NoMemory>
    ensures { IfOk result (λ copy. copy ≡ value.now) }
{
    match value {
        DeclValue::Nothing => Ok(DeclValue::Nothing),
        DeclValue::Value(first) => {
            let first = copy_expr(alloc, first)?;
            Ok(DeclValue::Value(first))
        }
        DeclValue::Yield(given) => {
            let given = copy_optional(alloc, given)?;
            Ok(DeclValue::Yield(given))
        }
    }
}

#[cycle(copies)]
fn copy_stmt(alloc: Global, stmt: &Stmt) -> Result<Stmt, NoMemory>
    ensures { IfOk result (λ copy. copy ≡ stmt.now) }
{
    match stmt {
        Stmt::Block(items) => {
            let items = copy_stmts(alloc, items.as_slice())?;
            Ok(Stmt::Block(items))
        }
        Stmt::Empty => Ok(Stmt::Empty),
        Stmt::Expr(expr) => {
            let expr = copy_expr(alloc, expr)?;
            Ok(Stmt::Expr(expr))
        }
        Stmt::Let(decls) => {
            let decls = copy_decls(alloc, decls.as_slice())?;
            Ok(Stmt::Let(decls))
        }
        Stmt::Const(decls) => {
            let decls = copy_decls(alloc, decls.as_slice())?;
            Ok(Stmt::Const(decls))
        }
        Stmt::Function(function) => {
            let function = copy_function(alloc, function)?;
            Ok(Stmt::Function(function))
        }
        Stmt::Yield(name, given) => {
            let name = copy_name(alloc, name)?;
            let given = copy_optional(alloc, given)?;
            Ok(Stmt::Yield(name, given))
        }
        Stmt::Change(name, op, value) => {
            let name = name.copy(alloc)?;
            let value = copy_optional(alloc, value)?;
            Ok(Stmt::Change(name, *op, value))
        }
        Stmt::If(test, yes, no) => {
            let test = copy_expr(alloc, test)?;
            let yes = copy_inner(alloc, yes)?;
            match no {
                None => Ok(Stmt::If(test, yes, None)),
                Some(no) => {
                    let no = copy_inner(alloc, no)?;
                    Ok(Stmt::If(test, yes, Some(no)))
                }
            }
        }
        Stmt::While(test, turn) => {
            let test = copy_expr(alloc, test)?;
            let turn = copy_inner(alloc, turn)?;
            Ok(Stmt::While(test, turn))
        }
        Stmt::DoWhile(turn, test) => {
            let turn = copy_inner(alloc, turn)?;
            let test = copy_expr(alloc, test)?;
            Ok(Stmt::DoWhile(turn, test))
        }
        Stmt::For(head, test, update, turn) => {
            let head = copy_head(alloc, head)?;
            let test = copy_optional(alloc, test)?;
            let update = copy_optional(alloc, update)?;
            let turn = copy_inner(alloc, turn)?;
            Ok(Stmt::For(head, test, update, turn))
        }
        Stmt::ForOf(constant, name, source, turn) => {
            let name = name.copy(alloc)?;
            let source = copy_expr(alloc, source)?;
            let turn = copy_inner(alloc, turn)?;
            Ok(Stmt::ForOf(*constant, name, source, turn))
        }
        Stmt::Break => Ok(Stmt::Break),
        Stmt::Continue => Ok(Stmt::Continue),
        Stmt::Return(value) => {
            let value = copy_optional(alloc, value)?;
            Ok(Stmt::Return(value))
        }
        Stmt::Throw(value) => {
            let value = copy_expr(alloc, value)?;
            Ok(Stmt::Throw(value))
        }
        Stmt::Try(items, handler, last) => {
            let items = copy_stmts(alloc, items.as_slice())?;
            let handler = copy_handler(alloc, handler)?;
            match last {
                None => Ok(Stmt::Try(items, handler, None)),
                Some(last) => {
                    let last = copy_stmts(alloc, last.as_slice())?;
                    Ok(Stmt::Try(items, handler, Some(last)))
                }
            }
        }
    }
}

#[cycle(copies)]
fn copy_head(alloc: Global, head: &ForHead) -> Result<ForHead, NoMemory>
    ensures { IfOk result (λ copy. copy ≡ head.now) }
{
    match head {
        ForHead::Nothing => Ok(ForHead::Nothing),
        ForHead::Let(decls) => {
            let decls = copy_decls(alloc, decls.as_slice())?;
            Ok(ForHead::Let(decls))
        }
        ForHead::Const(decls) => {
            let decls = copy_decls(alloc, decls.as_slice())?;
            Ok(ForHead::Const(decls))
        }
        ForHead::Expr(expr) => {
            let expr = copy_expr(alloc, expr)?;
            Ok(ForHead::Expr(expr))
        }
    }
}

#[cycle(copies)]
fn copy_catch(alloc: Global, part: &CatchPart) -> Result<CatchPart, NoMemory>
    ensures { IfOk result (λ copy. copy ≡ part.now) }
{
    let name = copy_name(alloc, &part.name)?;
    let items = copy_stmts(alloc, part.items.as_slice())?;
    Ok(CatchPart { name, items })
}

#[cycle(copies)]
fn copy_boxed(alloc: Global, boxed: &Boxed<Expr>) -> Result<Boxed<Expr>, NoMemory>
    ensures { IfOk result (λ copy. copy ≡ boxed.now) }
{
    let inner = copy_expr(alloc, boxed.get())?;
    Ok(Boxed::new(alloc, inner)?)
}

#[cycle(copies)]
fn copy_inner(alloc: Global, boxed: &Boxed<Stmt>) -> Result<Boxed<Stmt>, NoMemory>
    ensures { IfOk result (λ copy. copy ≡ boxed.now) }
{
    let inner = copy_stmt(alloc, boxed.get())?;
    Ok(Boxed::new(alloc, inner)?)
}

#[cycle(copies)]
fn copy_optional(alloc: Global, part: &Option<Expr>) -> Result<Option<Expr>, NoMemory>
    ensures { IfOk result (λ copy. copy ≡ part.now) }
{
    match part {
        None => Ok(None),
        Some(part) => {
            let part = copy_expr(alloc, part)?;
            Ok(Some(part))
        }
    }
}

#[cycle(copies)]
fn copy_handler(alloc: Global, part: &Option<CatchPart>) -> Result<Option<CatchPart>, NoMemory>
    ensures { IfOk result (λ copy. copy ≡ part.now) }
{
    match part {
        None => Ok(None),
        Some(part) => {
            let part = copy_catch(alloc, part)?;
            Ok(Some(part))
        }
    }
}

#[cycle(copies)]
fn copy_exprs(alloc: Global, exprs: &[Expr]) -> Result<List<Expr>, NoMemory>
    ensures { IfOk result (λ copy. copy ≡ exprs.now) }
{
    let mut copies = List::new(alloc);
    for expr in exprs {
        copies.push(copy_expr(alloc, expr)?)?;
    }
    Ok(copies)
}

#[cycle(copies)]
fn copy_props(alloc: Global, props: &[PropNode]) -> Result<List<PropNode>, NoMemory>
    ensures { IfOk result (λ copy. copy ≡ props.now) }
{
    let mut copies = List::new(alloc);
    for prop in props {
        copies.push(copy_prop(alloc, prop)?)?;
    }
    Ok(copies)
}

#[cycle(copies)]
fn copy_stmts(alloc: Global, stmts: &[Stmt]) -> Result<List<Stmt>, NoMemory>
    ensures { IfOk result (λ copy. copy ≡ stmts.now) }
{
    let mut copies = List::new(alloc);
    for stmt in stmts {
        copies.push(copy_stmt(alloc, stmt)?)?;
    }
    Ok(copies)
}

#[cycle(copies)]
fn copy_decls(alloc: Global, decls: &[Decl]) -> Result<List<Decl>, NoMemory>
    ensures { IfOk result (λ copy. copy ≡ decls.now) }
{
    let mut copies = List::new(alloc);
    for decl in decls {
        copies.push(copy_decl(alloc, decl)?)?;
    }
    Ok(copies)
}
