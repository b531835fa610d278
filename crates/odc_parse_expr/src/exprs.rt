//! Expressions between commas.

ghost use Rattle.std.specs.Prelude.{List, ◌<◌, ◌≤◌, ◌+◌, length, IfOk};
ghost use Rattle.odc_syntax.specs.declared.token.Token.{Token as TokenValue};
ghost use Rattle.odc_syntax.specs.Grammar as g;
ghost use Rattle.odc_syntax.specs.View.{expr};
ghost use Rattle.odc_syntax.specs.declared.grammar.Level.TheVariants as levels;
ghost use Rattle.odc_lookahead.specs.Exact.{Exact, Found, one};
ghost use Rattle.odc_lookahead.specs.Read.{seen};
ghost use Rattle.odc_lookahead.specs.Sets.{continues};
ghost use Rattle.odc_lookahead.specs.stmts.StatementSets.{continues_exprs};
ghost use Rattle.odc_lookahead.specs.stmts.Statements.{expr_list, BeginsWith};

use crate::binary::level;
use odc_lookahead::operators::later;
use odc_lookahead::read::Read;
use odc_lookahead::stop::Stop;
use odc_lookahead::tokens::strip;
use odc_nodes::stmt_nodes;
use odc_syntax::grammar::{Level, Mode};
use odc_syntax::token::{Token, TokenKind};
use odc_syntax::tree::Expr;
use odc_tree::discard::discard_exprs;
use odc_tree::list::push_expr;
use std::alloc::Global;

/// Expressions between commas.
#[cycle(parser)]
pub fn exprs<'a>(
    alloc: Global,
    mode: Mode,
    tokens: &'a [Token],
    depth: u8,
) -> Result<Read<'a, Vec<Expr>>, Stop>
    ensures exact { Exact (one (g.exprs mode)) (continues_exprs mode) depth tokens.now (seen expr_list result) }
    ensures shorter { IfOk result (λ r. length r.rest.now < length tokens.now) }
    ensures low { IfOk result (λ r. r.height ≤ depth + 1) }
{
    match level(alloc, Level::Or, mode, tokens, depth) {
        Ok(
            Read {
                tree: first,
                height,
                rest,
            },
        ) => exprs_from(alloc, mode, first, height, rest, depth),
        Err(error) => Err(error),
    }
}

/// Expressions between commas, of which the first is read.
#[cycle(parser)]
pub fn exprs_from<'a>(
    alloc: Global,
    mode: Mode,
    first: Expr,
    height: u16,
    tokens: &'a [Token],
    depth: u8,
) -> Result<Read<'a, Vec<Expr>>, Stop>
    ensures exact { (ts : List TokenValue) → Found (one (g.expression mode)) (continues levels.Or mode) depth ts (expr first) height tokens.now
        → Exact (one (g.exprs mode)) (continues_exprs mode) depth ts (seen expr_list result) }
    ensures first { IfOk result (λ r. BeginsWith (expr first) r.tree.items) }
    ensures shorter { IfOk result (λ r. length r.rest.now ≤ length tokens.now) }
    ensures low { height ≤ depth + 1 → IfOk result (λ r. r.height ≤ depth + 1) }
{
    let start = stmt_nodes::only(alloc, first)?;
    let mut list = start;
    let mut top = height;
    let mut rest = tokens;
    'items: while let Some((_comma, behind)) = strip(rest, TokenKind::Comma) {
        if top > u16::from(depth) {
            return Err(discard_exprs(list, Stop::Deep(behind.len())));
        }
        let Read {
            tree: e,
            height: n,
            rest: after,
        } = match level(alloc, Level::Or, later(mode), behind, depth) {
            Ok(read) => read,
            Err(error) => return Err(discard_exprs(list, error)),
        };
        list = push_expr(list, e)?;
        top = top.max(n);
        rest = after;
    }
    Ok(Read {
        tree: list,
        height: top,
        rest,
    })
}
