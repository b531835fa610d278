//! Nodes on the heap.

ghost use Rattle.std.specs.Prelude.{◌≡◌, IfOk};
ghost use Rattle.odc_program.specs.Trees.Tree as tree;
ghost use Rattle.odc_program.specs.Views.View.{expr_kind};
ghost use Rattle.odc_program.specs.Views.StmtView.{stmt_kind};

use odc_program::tree::{TExpr, TExprKind, TStmt, TStmtKind};
use odc_text::place::Place;
use odc_types::TyId;
use std::alloc::{AllocError, Global};

/// An expression of this type and kind.
pub fn expr_node(alloc: Global, ty: TyId, at: Place, kind: TExprKind) -> Result<TExpr, AllocError>
    ensures { IfOk result (λ e. e ≡ tree.expr ty.index at (expr_kind kind)) }
{
    let kind = Box::new(alloc, kind)?;
    Ok(TExpr { ty, at, kind })
}

/// A statement of this kind.
pub fn stmt_node(alloc: Global, at: Place, kind: TStmtKind) -> Result<TStmt, AllocError>
    ensures { IfOk result (λ s. s ≡ tree.stmt at (stmt_kind kind)) }
{
    let kind = Box::new(alloc, kind)?;
    Ok(TStmt { at, kind })
}
