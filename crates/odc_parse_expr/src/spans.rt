//! Values, values from one to another, and the values of a case.

ghost use Rattle.std.specs.Prelude.{List, ◌<◌, ◌≤◌, ◌+◌, length, IfOk};
ghost use Rattle.odc_syntax.specs.declared.token.Token.{Token as TokenValue};
ghost use Rattle.odc_syntax.specs.Grammar as g;
ghost use Rattle.odc_syntax.specs.View.{expr, span_of};
ghost use Rattle.odc_syntax.specs.declared.grammar.Level.TheVariants as levels;
ghost use Rattle.odc_syntax.specs.declared.grammar.Mode.TheVariants as modes;
ghost use Rattle.odc_lookahead.specs.Exact.{Exact, Found, one};
ghost use Rattle.odc_lookahead.specs.Read.{seen};
ghost use Rattle.odc_lookahead.specs.Sets.{continues};
ghost use Rattle.odc_parse_expr.specs.SwitchForms.{span_list};
ghost use Rattle.odc_lookahead.specs.stmts.SwitchSets.{continues_span, begins_items};

use crate::binary::level;
use crate::block::stands_at;
use odc_lookahead::read::Read;
use odc_lookahead::stop::Stop;
use odc_lookahead::tokens::strip;
use odc_nodes::switch_nodes;
use odc_syntax::grammar::{Level, Mode};
use odc_syntax::token::{Token, TokenKind};
use odc_syntax::tree::{Expr, Span};
use odc_tree::discard::{discard_expr, discard_spans};
use odc_tree::list::push_span;
use std::alloc::Global;

/// A value, or the values from one to another.
#[cycle(parser)]
pub fn span<'a>(
    alloc: Global,
    mode: Mode,
    tokens: &'a [Token],
    depth: u8,
) -> Result<Read<'a, Span>, Stop>
    ensures exact { Exact (one (g.span_ mode)) (continues_span mode) depth tokens.now (seen span_of result) }
    ensures shorter { IfOk result (λ r. length r.rest.now < length tokens.now) }
    ensures low { IfOk result (λ r. r.height ≤ depth + 1) }
{
    match level(alloc, Level::Or, mode, tokens, depth) {
        Ok(
            Read {
                tree: from,
                height,
                rest,
            },
        ) => span_from(alloc, mode, from, height, rest, depth),
        Err(error) => Err(error),
    }
}

/// What stands behind a value.
#[cycle(parser)]
fn span_from<'a>(
    alloc: Global,
    mode: Mode,
    from: Expr,
    height: u16,
    tokens: &'a [Token],
    depth: u8,
) -> Result<Read<'a, Span>, Stop>
    ensures exact { (ts : List TokenValue) → Found (one (g.expression mode)) (continues levels.Or mode) depth ts (expr from) height tokens.now
        → Exact (one (g.span_ mode)) (continues_span mode) depth ts (seen span_of result) }
    ensures shorter { IfOk result (λ r. length r.rest.now ≤ length tokens.now) }
    ensures low { height ≤ depth + 1 → IfOk result (λ r. r.height ≤ depth + 1) }
{
    if let Some((_through, behind)) = strip(tokens, TokenKind::DotDotEqual) {
        if height > u16::from(depth) {
            return Err(discard_expr(from, Stop::Deep(behind.len())));
        }
        return match level(alloc, Level::Or, mode, behind, depth) {
            Ok(
                Read {
                    tree: to,
                    height: n,
                    rest,
                },
            ) => Ok(Read {
                tree: switch_nodes::through(from, to),
                height: height.max(n),
                rest,
            }),
            Err(error) => Err(discard_expr(from, error)),
        };
    }
    if let Some((_below, behind)) = strip(tokens, TokenKind::DotDotLess) {
        if height > u16::from(depth) {
            return Err(discard_expr(from, Stop::Deep(behind.len())));
        }
        return match level(alloc, Level::Or, mode, behind, depth) {
            Ok(
                Read {
                    tree: to,
                    height: n,
                    rest,
                },
            ) => Ok(Read {
                tree: switch_nodes::below(from, to),
                height: height.max(n),
                rest,
            }),
            Err(error) => Err(discard_expr(from, error)),
        };
    }
    Ok(Read {
        tree: switch_nodes::alone(from),
        height,
        rest: tokens,
    })
}

/// The values of a case, if there are any.
#[cycle(parser)]
pub fn items<'a>(alloc: Global, tokens: &'a [Token], depth: u8) -> Result<Read<'a, Vec<Span>>, Stop>
    ensures exact { Exact (one g.items) begins_items depth tokens.now (seen span_list result) }
    ensures shorter { IfOk result (λ r. length r.rest.now ≤ length tokens.now) }
    ensures low { IfOk result (λ r. r.height ≤ depth + 1) }
{
    match span(alloc, Mode::Free, tokens, depth) {
        Ok(
            Read {
                tree: first,
                height,
                rest,
            },
        ) => items_from(alloc, first, height, rest, depth),
        Err(error) => {
            if stands_at(error, tokens.len()) {
                Ok(Read {
                    tree: Vec::new(alloc),
                    height: 0,
                    rest: tokens,
                })
            } else {
                Err(error)
            }
        }
    }
}

/// The values of a case, of which the first is read.
#[cycle(parser)]
fn items_from<'a>(
    alloc: Global,
    first: Span,
    height: u16,
    tokens: &'a [Token],
    depth: u8,
) -> Result<Read<'a, Vec<Span>>, Stop>
    ensures exact { (ts : List TokenValue) → length tokens.now < length ts → Found (one (g.span_ modes.Free)) (continues_span modes.Free) depth ts (span_of first) height tokens.now
        → Exact (one g.items) begins_items depth ts (seen span_list result) }
    ensures shorter { IfOk result (λ r. length r.rest.now ≤ length tokens.now) }
    ensures low { height ≤ depth + 1 → IfOk result (λ r. r.height ≤ depth + 1) }
{
    let mut list = switch_nodes::only_span(alloc, first)?;
    let mut top = height;
    let mut rest = tokens;
    'items: while let Some((_comma, behind)) = strip(rest, TokenKind::Comma) {
        if top > u16::from(depth) {
            return Err(discard_spans(list, Stop::Deep(behind.len())));
        }
        let Read {
            tree: s,
            height: n,
            rest: after,
        } = match span(alloc, Mode::Free, behind, depth) {
            Ok(read) => read,
            Err(error) => return Err(discard_spans(list, error)),
        };
        list = push_span(list, s)?;
        top = top.max(n);
        rest = after;
    }
    Ok(Read {
        tree: list,
        height: top,
        rest,
    })
}
