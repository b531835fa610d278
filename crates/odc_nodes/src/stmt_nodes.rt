//! Nodes of statements and declarations.

ghost use Rattle.std.specs.Prelude.{◌≡◌, [], ◌∷◌, ◌++◌, IfOk};
ghost use Rattle.odc_syntax.specs.Tree as tree;
ghost use Rattle.odc_syntax.specs.Grammar.{evaluated_header, declared_stmt, placed};
ghost use Rattle.odc_syntax.specs.View.{else_of, exprs, header_of, stmt_kind, stmts};

use odc_syntax::token::Token;
use odc_syntax::tree::{
    AssignOp, Decl, DeclKind, Else, Expr, Header, Initial, Stmt, StmtKind, Type,
};
use odc_text::place::Place;
use odc_tree::list::push_expr;
use odc_tree::node::{decl_node, stmt_node};
use std::alloc::{AllocError, Global};

/// A list of one expression.
pub fn only(alloc: Global, e: Expr) -> Result<Vec<Expr>, AllocError>
    ensures { IfOk result (λ l. l.items ≡ e ∷ []) }
{
    push_expr(Vec::new(alloc), e)
}

/// Appends to a list of names.
pub fn push_name(mut list: Vec<Token>, name: Token) -> Result<Vec<Token>, AllocError>
    ensures { IfOk result (λ l. l.items ≡ list.items ++ name ∷ []) }
{
    list.push(name)?;
    Ok(list)
}

/// Expressions as a statement.
pub fn eval(alloc: Global, at: Place, list: Vec<Expr>) -> Result<Stmt, AllocError>
    ensures { IfOk result (λ s. s ≡ tree.stmt at (tree.eval (exprs list.items))) }
{
    stmt_node(alloc, at, StmtKind::Eval(list))
}

/// An assignment.
pub fn assign(
    alloc: Global,
    at: Place,
    places: Vec<Expr>,
    op: AssignOp,
    values: Vec<Expr>,
) -> Result<Stmt, AllocError>
    ensures { IfOk result (λ s. s ≡ tree.stmt at (tree.assign (exprs places.items) op (exprs values.items))) }
{
    stmt_node(alloc, at, StmtKind::Assign(places, op, values))
}

/// `return`
pub fn returns(alloc: Global, at: Place, values: Vec<Expr>) -> Result<Stmt, AllocError>
    ensures { IfOk result (λ s. s ≡ tree.stmt at (tree.return (exprs values.items))) }
{
    stmt_node(alloc, at, StmtKind::Return(values))
}

/// A statement without parts.
pub fn leaf(alloc: Global, at: Place, kind: StmtKind) -> Result<Stmt, AllocError>
    ensures { IfOk result (λ s. s ≡ tree.stmt at (stmt_kind kind)) }
{
    stmt_node(alloc, at, kind)
}

/// `defer`
pub fn defer(alloc: Global, at: Place, s: Stmt) -> Result<Stmt, AllocError>
    ensures { IfOk result (λ r. r ≡ tree.stmt at (tree.defer s)) }
{
    stmt_node(alloc, at, StmtKind::Defer(s))
}

/// A declaration as a statement.
pub fn declare(alloc: Global, d: Decl) -> Result<Stmt, AllocError>
    ensures { IfOk result (λ r. r ≡ declared_stmt d) }
{
    let at = d.at;
    stmt_node(alloc, at, StmtKind::Declare(d))
}

/// A constant without a type.
pub fn constant(
    alloc: Global,
    at: Place,
    names: Vec<Token>,
    values: Vec<Expr>,
) -> Result<Decl, AllocError>
    ensures { IfOk result (λ d. d ≡ tree.decl at (tree.constant names.items tree.no_type (exprs values.items))) }
{
    decl_node(alloc, at, DeclKind::Constant(names, None, values))
}

/// A constant with its type.
pub fn typed_constant(
    alloc: Global,
    at: Place,
    names: Vec<Token>,
    t: Type,
    values: Vec<Expr>,
) -> Result<Decl, AllocError>
    ensures { IfOk result (λ d. d ≡ tree.decl at (tree.constant names.items (tree.some_type t) (exprs values.items))) }
{
    decl_node(alloc, at, DeclKind::Constant(names, Some(t), values))
}

/// A variable without a type.
pub fn inferred(
    alloc: Global,
    at: Place,
    names: Vec<Token>,
    values: Vec<Expr>,
) -> Result<Decl, AllocError>
    ensures { IfOk result (λ d. d ≡ tree.decl at (tree.variable names.items tree.no_type (tree.values (exprs values.items)))) }
{
    decl_node(
        alloc,
        at,
        DeclKind::Variable(names, None, Initial::Values(values)),
    )
}

/// A variable with its type and values.
pub fn typed(
    alloc: Global,
    at: Place,
    names: Vec<Token>,
    t: Type,
    values: Vec<Expr>,
) -> Result<Decl, AllocError>
    ensures { IfOk result (λ d. d ≡ tree.decl at (tree.variable names.items (tree.some_type t) (tree.values (exprs values.items)))) }
{
    decl_node(
        alloc,
        at,
        DeclKind::Variable(names, Some(t), Initial::Values(values)),
    )
}

/// A variable that begins with zeros.
pub fn zeros(alloc: Global, at: Place, names: Vec<Token>, t: Type) -> Result<Decl, AllocError>
    ensures { IfOk result (λ d. d ≡ tree.decl at (tree.variable names.items (tree.some_type t) tree.zeros)) }
{
    decl_node(alloc, at, DeclKind::Variable(names, Some(t), Initial::Zero))
}

/// A variable that begins with whatever its memory holds.
pub fn dashes(alloc: Global, at: Place, names: Vec<Token>, t: Type) -> Result<Decl, AllocError>
    ensures { IfOk result (λ d. d ≡ tree.decl at (tree.variable names.items (tree.some_type t) tree.dashes)) }
{
    decl_node(
        alloc,
        at,
        DeclKind::Variable(names, Some(t), Initial::Dashes),
    )
}

/// A block.
pub fn block(
    alloc: Global,
    label: Option<Token>,
    at: Place,
    body: Vec<Stmt>,
) -> Result<Stmt, AllocError>
    ensures { IfOk result (λ s. s ≡ tree.stmt (placed label at) (tree.block label (stmts body.items))) }
{
    stmt_node(alloc, place_of(label, at), StmtKind::Block(label, body))
}

/// The place of a statement: that of its label, where it has one.
pub fn place_of(label: Option<Token>, at: Place) -> Place
    ensures { result ≡ placed label at }
{
    match label {
        Some(name) => name.at,
        None => at,
    }
}

/// An expression alone as a header.
pub fn evaluated(alloc: Global, e: Expr) -> Result<Header, AllocError>
    ensures { IfOk result (λ h. header_of h ≡ evaluated_header e) }
{
    let at = e.first;
    let list = only(alloc, e)?;
    Ok(Header::Simple(eval(alloc, at, list)?))
}

/// `if`, with its `else` or without.
pub fn conditional(
    alloc: Global,
    at: Place,
    header: Header,
    condition: Expr,
    block: Vec<Stmt>,
    other: Else,
) -> Result<Stmt, AllocError>
    ensures { IfOk result (λ s. s ≡ tree.stmt at (tree.if_ (header_of header) condition (stmts block.items) (else_of other))) }
{
    stmt_node(alloc, at, StmtKind::If(header, condition, block, other))
}
