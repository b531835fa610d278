//! Arguments of calls and elements of literals.

ghost use Rattle.std.specs.Prelude.{◌≡◌, ◌∷◌, ◌<◌, ◌≤◌, ◌+◌, length, IfOk};
ghost use Rattle.odc_syntax.specs.declared.token.TokenKind.TheVariants as kind;
ghost use Rattle.odc_syntax.specs.Derives.{StartsWithout};
ghost use Rattle.odc_lookahead.specs.Exact.{Exact};
ghost use Rattle.odc_lookahead.specs.Parts.{arguments, arg_item, ClosesArguments};
ghost use Rattle.odc_lookahead.specs.Read.{seen};
ghost use Rattle.odc_lookahead.specs.Sets.{continues_argument, nothing_continues};
ghost use Rattle.odc_parse_expr.specs.Suffixes.{argument, argument_list};

use crate::binary::level;
use crate::lists::items_up_to;
use odc_lookahead::lists::after_item;
use odc_lookahead::operators::going_on;
use odc_lookahead::read::{Closed, Read};
use odc_lookahead::stop::Stop;
use odc_lookahead::tokens::{strip, within};
use odc_nodes::nodes;
use odc_syntax::grammar::{Level, Mode};
use odc_syntax::token::{Token, TokenKind};
use odc_syntax::tree::{Arg, ExprKind};
use odc_tree::discard::discard_args;
use odc_tree::list::push_arg;
use std::alloc::Global;

/// Arguments between commas, up to the closing token.
#[cycle(parser)]
pub fn arguments<'a>(
    alloc: Global,
    close: TokenKind,
    tokens: &'a [Token],
    depth: u8,
) -> Result<Read<'a, Closed<Vec<Arg>>>, Stop>
    ensures exact { ClosesArguments close → Exact (arguments close) nothing_continues depth tokens.now (seen argument_list result) }
    ensures shorter { IfOk result (λ r. length r.rest.now < length tokens.now) }
    ensures low { IfOk result (λ r. r.height ≤ depth + 1) }
{
    let mut args = Vec::new(alloc);
    if let Some((token, rest)) = strip(tokens, close) {
        return Ok(Read {
            tree: Closed {
                part: args,
                close: token,
            },
            height: 0,
            rest,
        });
    }
    let mut height: u16 = 0;
    let mut rest = tokens;
    items_up_to!(
        close,
        depth,
        args,
        height,
        rest,
        item = argument(alloc, rest, depth),
        push_arg(args, item)?,
        discard_args
    )
}

/// An argument: an expression, which may stand behind a name and `=`.
#[cycle(parser)]
fn argument<'a>(alloc: Global, tokens: &'a [Token], depth: u8) -> Result<Read<'a, Arg>, Stop>
    ensures exact { Exact arg_item continues_argument depth tokens.now (seen argument result) }
    ensures shorter { IfOk result (λ r. length r.rest.now < length tokens.now) }
    ensures low { IfOk result (λ r. r.height ≤ depth + 1) }
{
    let (name, behind) = match strip(tokens, TokenKind::Name) {
        Some(found) => found,
        None => {
            return match level(alloc, Level::Or, Mode::Free, tokens, depth) {
                Ok(
                    Read {
                        tree: value,
                        height,
                        rest: after,
                    },
                ) => Ok(Read {
                    tree: Arg { name: None, value },
                    height,
                    rest: after,
                }),
                Err(error) => Err(error),
            };
        }
    };
    if let Some((_assign, rest)) = strip(behind, TokenKind::Assign) {
        return match level(alloc, Level::Or, Mode::Free, rest, depth) {
            Ok(
                Read {
                    tree: value,
                    height,
                    rest: after,
                },
            ) => Ok(Read {
                tree: Arg {
                    name: Some(name),
                    value,
                },
                height,
                rest: after,
            }),
            Err(error) => Err(error),
        };
    }
    if depth == 0 {
        return name_alone(alloc, name, behind);
    }
    match level(alloc, Level::Or, Mode::Free, tokens, depth) {
        Ok(
            Read {
                tree: value,
                height,
                rest: after,
            },
        ) => Ok(Read {
            tree: Arg { name: None, value },
            height,
            rest: after,
        }),
        Err(error) => Err(error),
    }
}

/// A name where no expression may stand any more: it may be the name of an argument, and as an expression
/// it is too deep.
fn name_alone(alloc: Global, name: Token, behind: &[Token]) -> Result<Read<'_, Arg>, Stop>
    ensures exact { name.kind ≡ kind.Name → StartsWithout kind.Assign behind.now
        → Exact arg_item continues_argument 0 (name ∷ behind.now) (seen argument result) }
    ensures shorter { IfOk result (λ r. length r.rest.now ≤ length behind.now) }
    ensures low { IfOk result (λ r. r.height ≤ 1) }
{
    match going_on(Mode::Free, behind) {
        Some((_token, rest)) => Err(Stop::Deep(rest.len())),
        None => {
            let value = nodes::leaf(alloc, name.at, ExprKind::Name(name))?;
            Ok(Read {
                tree: Arg { name: None, value },
                height: 1,
                rest: behind,
            })
        }
    }
}
