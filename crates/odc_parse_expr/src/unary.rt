//! Operators before their operand.

ghost use Rattle.std.specs.Prelude.{◌≡◌, ◌∷◌, ◌<◌, ◌≤◌, ◌+◌, suc, length, IfOk};
ghost use Rattle.odc_syntax.specs.Grammar as g;
ghost use Rattle.odc_syntax.specs.View.{expr};
ghost use Rattle.odc_syntax.specs.declared.token.TokenKind.TheVariants as kind;
ghost use Rattle.odc_lookahead.specs.Exact.{Exact, one};
ghost use Rattle.odc_lookahead.specs.Read.{seen};
ghost use Rattle.odc_lookahead.specs.Sets.{starts_suffix};

use crate::postfix::postfix;
use crate::types::ty;
use odc_lookahead::operators::later;
use odc_lookahead::read::Read;
use odc_lookahead::stop::Stop;
use odc_lookahead::tokens::{Fit, expect, first, within};
use odc_lookahead::unary::{UnaryForm, unary_form};
use odc_nodes::nodes;
use odc_syntax::grammar::{Mode, Use};
use odc_syntax::token::{Token, TokenKind};
use odc_syntax::tree::Expr;
use odc_tree::discard::discard_type;
use std::alloc::Global;

/// An operand with operators before it and suffixes behind it.
#[cycle(parser)]
pub fn unary<'a>(
    alloc: Global,
    mode: Mode,
    tokens: &'a [Token],
    depth: u8,
) -> Result<Read<'a, Expr>, Stop>
    ensures exact { Exact (one (g.unary mode)) (starts_suffix mode) depth tokens.now (seen expr result) }
    ensures shorter { IfOk result (λ r. length r.rest.now < length tokens.now) }
    ensures low { IfOk result (λ r. r.height ≤ depth + 1) }
    ensures fits { IfOk result (λ r. 0 < depth) }
{
    let (token, behind) = match first(tokens) {
        Some(found) => found,
        None => return Err(Stop::Syntax(0)),
    };
    match unary_form(token.kind) {
        UnaryForm::Operand => postfix(alloc, mode, tokens, depth),
        UnaryForm::Sign(op) => {
            if depth == 0 {
                return Err(Stop::Deep(behind.len()));
            }
            match unary(alloc, later(mode), behind, depth - 1) {
                Ok(
                    Read {
                        tree: e,
                        height,
                        rest,
                    },
                ) => {
                    Ok(Read {
                        tree: nodes::unary(alloc, token.at, op, e)?,
                        height: height + 1,
                        rest,
                    })
                }
                Err(error) => Err(error),
            }
        }
        UnaryForm::Cast => {
            if depth == 0 {
                return Err(Stop::Deep(behind.len()));
            }
            cast(alloc, mode, token, behind, depth - 1)
        }
    }
}

/// An operand behind `cast` and a type in parentheses, whose parts may have this depth.
#[inline(never)]
#[cycle(parser)]
fn cast<'a>(
    alloc: Global,
    mode: Mode,
    token: Token,
    behind: &'a [Token],
    depth: u8,
) -> Result<Read<'a, Expr>, Stop>
    ensures exact { token.kind ≡ kind.Cast → Exact (one (g.unary mode)) (starts_suffix mode) (suc depth) (token ∷ behind.now) (seen expr result) }
    ensures shorter { IfOk result (λ r. length r.rest.now ≤ length behind.now) }
    ensures low { IfOk result (λ r. r.height ≤ depth + 2) }
{
    let (_open, inner) = match expect(behind, TokenKind::OpenParen, Fit::Within) {
        Ok(found) => found,
        Err(error) => return Err(error),
    };
    let Read {
        tree: t,
        height,
        rest: after,
    } = match ty(alloc, Use::Plain, inner, depth) {
        Ok(read) => read,
        Err(error) => return Err(error),
    };
    let (_close, last) = match expect(after, TokenKind::CloseParen, within(height, depth)) {
        Ok(found) => found,
        Err(error) => return Err(discard_type(t, error)),
    };
    match unary(alloc, later(mode), last, depth) {
        Ok(
            Read {
                tree: e,
                height: n,
                rest,
            },
        ) => Ok(Read {
            tree: nodes::cast(alloc, token.at, t, e)?,
            height: height.max(n) + 1,
            rest,
        }),
        Err(error) => Err(discard_type(t, error)),
    }
}
