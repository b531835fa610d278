//! Nodes on the heap.

ghost use Rattle.std.specs.Prelude.{◌≡◌, IfOk};
ghost use Rattle.odc_syntax.specs.Tree as tree;
ghost use Rattle.odc_syntax.specs.View.{expr_kind, type_kind, stmt_kind, decl_kind, signature};

use odc_syntax::tree::{Decl, DeclKind, Expr, ExprKind, Signature, Stmt, StmtKind, Type, TypeKind};
use odc_text::place::Place;
use std::alloc::{AllocError, Global};

/// An expression of this kind.
pub fn expr_node(alloc: Global, first: Place, at: Place, kind: ExprKind) -> Result<Expr, AllocError>
    ensures { IfOk result (λ e. e ≡ tree.expr first at (expr_kind kind)) }
{
    let kind = Box::new(alloc, kind)?;
    Ok(Expr { first, at, kind })
}

/// A type of this kind.
pub fn type_node(alloc: Global, at: Place, kind: TypeKind) -> Result<Type, AllocError>
    ensures { IfOk result (λ t. t ≡ tree.type at (type_kind kind)) }
{
    let kind = Box::new(alloc, kind)?;
    Ok(Type { at, kind })
}

/// A statement of this kind.
pub fn stmt_node(alloc: Global, at: Place, kind: StmtKind) -> Result<Stmt, AllocError>
    ensures { IfOk result (λ s. s ≡ tree.stmt at (stmt_kind kind)) }
{
    let kind = Box::new(alloc, kind)?;
    Ok(Stmt { at, kind })
}

/// A declaration of this kind.
pub fn decl_node(alloc: Global, at: Place, kind: DeclKind) -> Result<Decl, AllocError>
    ensures { IfOk result (λ d. d ≡ tree.decl at (decl_kind kind)) }
{
    let kind = Box::new(alloc, kind)?;
    Ok(Decl { at, kind })
}

/// A signature on the heap.
pub fn signature_box(alloc: Global, s: Signature) -> Result<Box<Signature>, AllocError>
    ensures { IfOk result (λ b. signature b.value ≡ signature s) }
{
    Ok(Box::new(alloc, s)?)
}
