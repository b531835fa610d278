//! Nodes of switches and spans.

ghost use Rattle.std.specs.Prelude.{◌≡◌, [], ◌∷◌, IfOk};
ghost use Rattle.odc_syntax.specs.Tree as tree;
ghost use Rattle.odc_syntax.specs.Grammar.{placed};
ghost use Rattle.odc_syntax.specs.View.{cases, header_of, maybe_expr, span_of};

use crate::stmt_nodes::place_of;
use odc_syntax::token::Token;
use odc_syntax::tree::{Case, Expr, Header, Span, SpanEnd, Stmt, StmtKind, SwitchWord};
use odc_text::place::Place;
use odc_tree::list::push_span;
use odc_tree::node::stmt_node;
use std::alloc::{AllocError, Global};

/// A value alone.
pub fn alone(from: Expr) -> Span
    ensures { span_of result ≡ tree.span from tree.alone }
{
    Span {
        from,
        to: SpanEnd::Alone,
    }
}

/// `from ..= to`
pub fn through(from: Expr, to: Expr) -> Span
    ensures { span_of result ≡ tree.span from (tree.through to) }
{
    Span {
        from,
        to: SpanEnd::Through(to),
    }
}

/// `from ..< to`
pub fn below(from: Expr, to: Expr) -> Span
    ensures { span_of result ≡ tree.span from (tree.below to) }
{
    Span {
        from,
        to: SpanEnd::Below(to),
    }
}

/// A list of one span.
pub fn only_span(alloc: Global, s: Span) -> Result<Vec<Span>, AllocError>
    ensures { IfOk result (λ l. l.items ≡ s ∷ []) }
{
    push_span(Vec::new(alloc), s)
}

/// `switch`
pub fn switch(
    alloc: Global,
    label: Option<Token>,
    at: Place,
    word: SwitchWord,
    header: Header,
    value: Option<Expr>,
    list: Vec<Case>,
) -> Result<Stmt, AllocError>
    ensures { IfOk result (λ s. s ≡ tree.stmt (placed label at) (tree.switch label word (header_of header) (maybe_expr value) (cases list.items))) }
{
    stmt_node(
        alloc,
        place_of(label, at),
        StmtKind::Switch(label, word, header, value, list),
    )
}

/// `switch` with a name and `in`.
pub fn type_switch(
    alloc: Global,
    label: Option<Token>,
    at: Place,
    word: SwitchWord,
    name: Token,
    value: Expr,
    list: Vec<Case>,
) -> Result<Stmt, AllocError>
    ensures { IfOk result (λ s. s ≡ tree.stmt (placed label at) (tree.type_switch label word name value (cases list.items))) }
{
    stmt_node(
        alloc,
        place_of(label, at),
        StmtKind::TypeSwitch(label, word, name, value, list),
    )
}
