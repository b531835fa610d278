//! What procedures take and give.

ghost use Rattle.std.specs.Prelude.{◌≡◌, ◌∷◌, ◌<◌, ◌≤◌, ◌+◌, ℕ, suc, length, IfOk};
ghost use Rattle.odc_syntax.specs.Grammar as g;
ghost use Rattle.odc_syntax.specs.View.{result_kind, params, signature};
ghost use Rattle.odc_syntax.specs.declared.token.TokenKind.TheVariants as kind;
ghost use Rattle.odc_lookahead.specs.Ends.{ExactAs, seen_to, closed_by};
ghost use Rattle.odc_lookahead.specs.Exact.{Exact, one};
ghost use Rattle.odc_lookahead.specs.Sets.{nothing_continues};
ghost use Rattle.odc_lookahead.specs.TypeParts.{params_line, Convention};

use crate::params::params;
use crate::types::type_to;
use odc_lookahead::end::{End, at_end};
use odc_lookahead::read::{Closed, Read, ReadTo};
use odc_lookahead::stop::Stop;
use odc_lookahead::tokens::{Fit, expect, strip};
use odc_nodes::type_nodes;
use odc_syntax::grammar::Use;
use odc_syntax::token::{Token, TokenKind};
use odc_syntax::tree::{Results, Signature};
use odc_tree::discard::discard_params;
use std::alloc::Global;

/// A signature, from behind `proc`.
#[cycle(parser)]
pub fn signature<'a>(
    alloc: Global,
    used: Use,
    proc: Token,
    behind: &'a [Token],
    depth: u8,
) -> Result<ReadTo<'a, Signature>, Stop>
    ensures exact { proc.kind ≡ kind.Proc → ExactAs used (one (g.sig used)) nothing_continues depth (proc ∷ behind.now) (seen_to signature result) }
    ensures shorter { IfOk result (λ r. length r.rest.now ≤ length behind.now) }
    ensures low { IfOk result (λ r. r.height ≤ depth) }
{
    let (convention, after) = convention(behind);
    let (_open, inner) = match expect(after, TokenKind::OpenParen, Fit::Within) {
        Ok(found) => found,
        Err(error) => return Err(error),
    };
    let Read {
        tree: Closed {
            part: list,
            close: _close,
        },
        height: n,
        rest,
    } = match params(alloc, Use::Parameter, inner, depth) {
        Ok(read) => read,
        Err(error) => return Err(error),
    };
    match results(alloc, used, rest, depth) {
        Ok(
            ReadTo {
                tree: given,
                height: m,
                rest: last,
                end,
            },
        ) => Ok(ReadTo {
            tree: type_nodes::signature(proc.at, convention, list, given),
            height: n.max(m),
            rest: last,
            end,
        }),
        Err(error) => Err(discard_params(list, error)),
    }
}

/// The string behind `proc`, if one stands there, and the tokens behind it.
fn convention(tokens: &[Token]) -> (Option<Token>, &[Token])
    ensures is { Convention tokens.now result.0 result.1.now }
    ensures shorter { length result.1.now ≤ length tokens.now }
{
    match strip(tokens, TokenKind::Text) {
        Some((text, rest)) => (Some(text), rest),
        None => (None, tokens),
    }
}

/// What a procedure gives, if it gives something.
#[inline(never)]
#[cycle(parser)]
fn results<'a>(
    alloc: Global,
    used: Use,
    tokens: &'a [Token],
    depth: u8,
) -> Result<ReadTo<'a, Results>, Stop>
    ensures exact { ExactAs used (one (g.results used)) nothing_continues depth tokens.now (seen_to result_kind result) }
    ensures shorter { IfOk result (λ r. length r.rest.now ≤ length tokens.now) }
    ensures low { IfOk result (λ r. r.height ≤ depth) }
{
    let (_arrow, behind) = match strip(tokens, TokenKind::Arrow) {
        Some(found) => found,
        None => return Ok(ReadTo {
            tree: Results::None,
            height: 0,
            rest: tokens,
            end: End::Sure,
        }),
    };
    match strip(behind, TokenKind::OpenParen) {
        Some((_open, inner)) => match strip(inner, TokenKind::CloseParen) {
            Some((_close, _last)) => Err(Stop::Syntax(inner.len())),
            None => match params(alloc, used, inner, depth) {
                Ok(read) => {
                    let Read {
                        tree: Closed {
                            part: list,
                            close: _close,
                        },
                        height,
                        rest,
                    } = read;
                    Ok(ReadTo {
                        tree: Results::List(list),
                        height,
                        rest,
                        end: End::Sure,
                    })
                }
                Err(error) => Err(error),
            },
        },
        None => match type_to(alloc, at_end(used), behind, depth) {
            Ok(
                ReadTo {
                    tree: t,
                    height,
                    rest,
                    end,
                },
            ) => Ok(ReadTo {
                tree: Results::One(t),
                height,
                rest,
                end,
            }),
            Err(error) => Err(error),
        },
    }
}
