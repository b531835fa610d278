//! Procedures, with their bodies or as types.

ghost use Rattle.std.specs.Prelude.{◌≡◌, ◌∷◌, ◌<◌, ◌≤◌, ◌+◌, List, suc, length, true, false, IfOk};
ghost use Rattle.odc_syntax.specs.Grammar as g;
ghost use Rattle.odc_syntax.specs.View.{expr, signature};
ghost use Rattle.odc_syntax.specs.declared.grammar.Mode.TheVariants.{Free};
ghost use Rattle.odc_syntax.specs.declared.grammar.Use.TheVariants.{Operand};
ghost use Rattle.odc_syntax.specs.declared.token.Token.{Token as SpecToken};
ghost use Rattle.odc_syntax.specs.declared.token.TokenKind.TheVariants as kind;
ghost use Rattle.odc_lookahead.specs.Ends.{ExactTo, seen_to};
ghost use Rattle.odc_lookahead.specs.Exact.{Exact, Found, one};
ghost use Rattle.odc_lookahead.specs.Read.{StartsWith, seen};
ghost use Rattle.odc_lookahead.specs.Sets.{nothing_continues};

use crate::block::block;
use crate::signatures::signature;
use odc_lookahead::end::End;
use odc_lookahead::operators::takes_braces;
use odc_lookahead::read::{Read, ReadTo};
use odc_lookahead::stop::Stop;
use odc_lookahead::tokens::strip;
use odc_nodes::type_nodes;
use odc_syntax::grammar::{Mode, Use};
use odc_syntax::token::{Token, TokenKind};
use odc_syntax::tree::{Expr, Signature};
use odc_tree::discard::discard_signature;
use std::alloc::Global;

/// A procedure with its body, or its type, whose parts may have this depth.
#[cycle(parser)]
pub fn procedure<'a>(
    alloc: Global,
    mode: Mode,
    tokens: &'a [Token],
    depth: u8,
) -> Result<ReadTo<'a, Expr>, Stop>
    ensures exact { StartsWith kind.Proc tokens.now → ExactTo (one (g.operand mode)) nothing_continues (suc depth) tokens.now (seen_to expr result) }
    ensures shorter { IfOk result (λ r. length r.rest.now < length tokens.now) }
    ensures low { IfOk result (λ r. r.height ≤ depth + 2) }
{
    match strip(tokens, TokenKind::Proc) {
        Some((proc, behind)) => lambda(alloc, mode, proc, behind, depth),
        None => Err(Stop::Syntax(tokens.len())),
    }
}

/// The same, from behind `proc`.
#[cycle(parser)]
fn lambda<'a>(
    alloc: Global,
    mode: Mode,
    proc: Token,
    behind: &'a [Token],
    depth: u8,
) -> Result<ReadTo<'a, Expr>, Stop>
    ensures exact { proc.kind ≡ kind.Proc → ExactTo (one (g.operand mode)) nothing_continues (suc depth) (proc ∷ behind.now) (seen_to expr result) }
    ensures shorter { IfOk result (λ r. length r.rest.now ≤ length behind.now) }
    ensures low { IfOk result (λ r. r.height ≤ depth + 2) }
{
    let ReadTo {
        tree: s,
        height,
        rest,
        end,
    } = match signature(alloc, Use::Operand, proc, behind, depth) {
        Ok(read) => read,
        Err(error) => return Err(error),
    };
    match strip(rest, TokenKind::OpenBrace) {
        Some((_open, _inner)) => {
            if takes_braces(mode) {
                with_body(alloc, s, height, rest, depth)
            } else {
                Err(discard_signature(s, Stop::Syntax(rest.len())))
            }
        }
        None => Ok(ReadTo {
            tree: type_nodes::proc_type(alloc, s)?,
            height: height + 2,
            rest,
            end,
        }),
    }
}

/// A signature that was read, and the body behind it.
#[inline(never)]
#[cycle(parser)]
fn with_body<'a>(
    alloc: Global,
    s: Signature,
    height: u16,
    tokens: &'a [Token],
    depth: u8,
) -> Result<ReadTo<'a, Expr>, Stop>
    ensures exact { height ≤ depth → (mode : Mode) (ts : List SpecToken) → g.later mode ≡ Free → StartsWith kind.Proc ts → Found (one (g.sig Operand)) nothing_continues depth ts (signature s) height tokens.now → StartsWith kind.OpenBrace tokens.now
        → ExactTo (one (g.operand mode)) nothing_continues (suc depth) ts (seen_to expr result) }
    ensures shorter { IfOk result (λ r. length r.rest.now < length tokens.now) }
    ensures low { height ≤ depth → IfOk result (λ r. r.height ≤ depth + 2) }
{
    match block(alloc, tokens, depth) {
        Ok(
            Read {
                tree: body,
                height: n,
                rest,
            },
        ) => Ok(ReadTo {
            tree: type_nodes::proc_literal(alloc, s, body)?,
            height: height.max(n).saturating_add(1),
            rest,
            end: End::Sure,
        }),
        Err(error) => Err(discard_signature(s, error)),
    }
}
