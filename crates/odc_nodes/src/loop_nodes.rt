//! Nodes of loops.

ghost use Rattle.std.specs.Prelude.{◌≡◌, IfOk};
ghost use Rattle.odc_syntax.specs.Tree as tree;
ghost use Rattle.odc_syntax.specs.Grammar.{placed};
ghost use Rattle.odc_syntax.specs.View.{header_of, maybe_expr, maybe_stmt, span_of, stmts};

use crate::stmt_nodes::place_of;
use odc_syntax::token::Token;
use odc_syntax::tree::{Expr, Header, RangeNames, Span, Stmt, StmtKind};
use odc_text::place::Place;
use odc_tree::node::stmt_node;
use std::alloc::{AllocError, Global};

/// `for` with a header, a condition, what is done after the body, and the body.
pub fn repeat(
    alloc: Global,
    label: Option<Token>,
    at: Place,
    header: Header,
    condition: Option<Expr>,
    step: Option<Stmt>,
    block: Vec<Stmt>,
) -> Result<Stmt, AllocError>
    ensures { IfOk result (λ s. s ≡ tree.stmt (placed label at) (tree.loop label (header_of header) (maybe_expr condition) (maybe_stmt step) (stmts block.items))) }
{
    stmt_node(
        alloc,
        place_of(label, at),
        StmtKind::Loop(label, header, condition, step, block),
    )
}

/// `for` with variables, what they range over, and the body.
pub fn range(
    alloc: Global,
    label: Option<Token>,
    at: Place,
    names: RangeNames,
    over: Span,
    block: Vec<Stmt>,
) -> Result<Stmt, AllocError>
    ensures { IfOk result (λ s. s ≡ tree.stmt (placed label at) (tree.range label names (span_of over) (stmts block.items))) }
{
    stmt_node(
        alloc,
        place_of(label, at),
        StmtKind::Range(label, names, over, block),
    )
}
