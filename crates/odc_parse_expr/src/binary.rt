//! Chains of binary operators, by how tight they bind.

ghost use Rattle.std.specs.Prelude.{◌≡◌, ◌<◌, ◌≤◌, ◌+◌, length, true, IfOk};
ghost use Rattle.odc_syntax.specs.Grammar as g;
ghost use Rattle.odc_syntax.specs.View.{expr};
ghost use Rattle.odc_syntax.specs.declared.grammar.Level.TheVariants as level;
ghost use Rattle.odc_lookahead.specs.Exact.{Exact, one};
ghost use Rattle.odc_lookahead.specs.Read.{seen};
ghost use Rattle.odc_lookahead.specs.Sets.{continues, continues_item};

use crate::unary::unary;
use odc_lookahead::operators::{later, operator, tighter};
use odc_lookahead::read::Read;
use odc_lookahead::stop::Stop;
use odc_nodes::nodes;
use odc_syntax::grammar::{Level, Mode};
use odc_syntax::token::Token;
use odc_syntax::tree::Expr;
use odc_tree::discard::discard_expr;
use std::alloc::Global;

/// An expression of a level: any expression at the loosest.
#[inline(always)]
#[cycle(parser)]
pub fn level<'a>(
    alloc: Global,
    level: Level,
    mode: Mode,
    tokens: &'a [Token],
    depth: u8,
) -> Result<Read<'a, Expr>, Stop>
    ensures exact { Exact (one (g.chain level mode)) (continues level mode) depth tokens.now (seen expr result) }
    ensures shorter { IfOk result (λ r. length r.rest.now < length tokens.now) }
    ensures low { IfOk result (λ r. r.height ≤ depth + 1) }
    ensures fits { IfOk result (λ r. 0 < depth) }
{
    match level {
        Level::Comparison => comparison(alloc, mode, tokens, depth),
        Level::Or | Level::And | Level::Sum | Level::Product => {
            chained(alloc, level, mode, tokens, depth)
        }
    }
}

/// What the operators of a level stand between.
#[inline(always)]
#[cycle(parser)]
fn item<'a>(
    alloc: Global,
    of: Level,
    mode: Mode,
    tokens: &'a [Token],
    depth: u8,
) -> Result<Read<'a, Expr>, Stop>
    ensures exact { Exact (one (g.item of mode)) (continues_item of mode) depth tokens.now (seen expr result) }
    ensures shorter { IfOk result (λ r. length r.rest.now < length tokens.now) }
    ensures low { IfOk result (λ r. r.height ≤ depth + 1) }
    ensures fits { IfOk result (λ r. 0 < depth) }
{
    match tighter(of) {
        Some(next) => level(alloc, next, mode, tokens, depth),
        None => unary(alloc, mode, tokens, depth),
    }
}

/// Items with any number of operators between them, which group to the left.
#[cycle(parser)]
fn chained<'a>(
    alloc: Global,
    of: Level,
    mode: Mode,
    tokens: &'a [Token],
    depth: u8,
) -> Result<Read<'a, Expr>, Stop>
    ensures exact { g.chains of ≡ true → Exact (one (g.chain of mode)) (continues of mode) depth tokens.now (seen expr result) }
    ensures shorter { IfOk result (λ r. length r.rest.now < length tokens.now) }
    ensures low { IfOk result (λ r. r.height ≤ depth + 1) }
    ensures fits { IfOk result (λ r. 0 < depth) }
{
    let Read {
        tree: mut e,
        height: mut height,
        rest: mut rest,
    } = match item(alloc, of, mode, tokens, depth) {
        Ok(read) => read,
        Err(error) => return Err(error),
    };
    while let Some((op, token, behind)) = operator(of, rest) {
        if height >= u16::from(depth) {
            return Err(discard_expr(e, Stop::Deep(behind.len())));
        }
        let Read {
            tree: right,
            height: n,
            rest: after,
        } = match item(alloc, of, later(mode), behind, depth - 1) {
            Ok(read) => read,
            Err(error) => return Err(discard_expr(e, error)),
        };
        e = nodes::binary(alloc, e, token.at, op, right)?;
        height = height.max(n) + 1;
        rest = after;
    }
    Ok(Read {
        tree: e,
        height,
        rest,
    })
}

/// Two items with a comparison between them, or one alone.
#[cycle(parser)]
fn comparison<'a>(
    alloc: Global,
    mode: Mode,
    tokens: &'a [Token],
    depth: u8,
) -> Result<Read<'a, Expr>, Stop>
    ensures exact { Exact (one (g.chain level.Comparison mode)) (continues level.Comparison mode) depth tokens.now (seen expr result) }
    ensures shorter { IfOk result (λ r. length r.rest.now < length tokens.now) }
    ensures low { IfOk result (λ r. r.height ≤ depth + 1) }
    ensures fits { IfOk result (λ r. 0 < depth) }
{
    let Read {
        tree: e,
        height,
        rest,
    } = match item(alloc, Level::Comparison, mode, tokens, depth) {
        Ok(read) => read,
        Err(error) => return Err(error),
    };
    let (op, token, behind) = match operator(Level::Comparison, rest) {
        Some(found) => found,
        None => return Ok(Read {
            tree: e,
            height,
            rest,
        }),
    };
    if height >= u16::from(depth) {
        return Err(discard_expr(e, Stop::Deep(behind.len())));
    }
    match item(alloc, Level::Comparison, later(mode), behind, depth - 1) {
        Ok(
            Read {
                tree: right,
                height: n,
                rest: after,
            },
        ) => {
            let whole = nodes::binary(alloc, e, token.at, op, right)?;
            Ok(Read {
                tree: whole,
                height: height.max(n) + 1,
                rest: after,
            })
        }
        Err(error) => Err(discard_expr(e, error)),
    }
}
