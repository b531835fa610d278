//! Types with square brackets, and their lengths.

ghost use Rattle.std.specs.Prelude.{◌≡◌, ◌∷◌, ◌<◌, ◌≤◌, ◌+◌, ℕ, List, suc, IfOk};
ghost use Rattle.std.specs.Prelude as prelude;
ghost use Rattle.odc_syntax.specs.Grammar as g;
ghost use Rattle.odc_syntax.specs.Tree as tree;
ghost use Rattle.odc_syntax.specs.View.{type, length};
ghost use Rattle.odc_syntax.specs.declared.grammar.Use.TheVariants.{Parameter};
ghost use Rattle.odc_syntax.specs.declared.token.Token.{Token as SpecToken};
ghost use Rattle.odc_syntax.specs.declared.token.TokenKind.TheVariants as kind;
ghost use Rattle.odc_syntax.specs.Derives.{StartsWithout};
ghost use Rattle.odc_lookahead.specs.Ends.{ExactAs, seen_to, closed_by};
ghost use Rattle.odc_lookahead.specs.Exact.{Exact, one};
ghost use Rattle.odc_lookahead.specs.Sets.{nothing_continues};
ghost use Rattle.odc_lookahead.specs.TypeParts.{length_line, shaped, Bracketed, Questioned};

use crate::binary::level;
use crate::types::{ty, type_to};
use odc_lookahead::end::{End, at_end};
use odc_lookahead::read::{Closed, Read, ReadTo};
use odc_lookahead::shape::{Shape, counts, strip_dollar};
use odc_lookahead::stop::Stop;
use odc_lookahead::tokens::{Fit, expect, strip, within};
use odc_nodes::type_nodes;
use odc_syntax::grammar::{Level, Mode, Use};
use odc_syntax::token::{Token, TokenKind};
use odc_syntax::tree::{Length, Type};
use odc_text::place::Place;
use odc_tree::discard::{discard_expr, discard_length, discard_type};
use std::alloc::{AllocError, Global};

/// A type with square brackets, from behind the opening one.
#[cycle(parser)]
pub fn array<'a>(
    alloc: Global,
    used: Use,
    shape: Shape,
    at: Place,
    tokens: &'a [Token],
    depth: u8,
) -> Result<ReadTo<'a, Type>, Stop>
    ensures exact { (ts : List SpecToken) → Bracketed shape at ts tokens.now → ExactAs used (one (g.constructed used)) nothing_continues (suc depth) ts (seen_to type result) }
    ensures shorter { IfOk result (λ r. prelude.length r.rest.now ≤ prelude.length tokens.now) }
    ensures low { IfOk result (λ r. r.height ≤ depth + 1) }
{
    match strip(tokens, TokenKind::Question) {
        Some((_question, behind)) => counted(alloc, used, shape, at, behind, depth),
        None => sized(alloc, used, shape, at, tokens, depth),
    }
}

/// A type whose brackets don't begin with `?`, from behind the opening one.
#[cycle(parser)]
fn sized<'a>(
    alloc: Global,
    used: Use,
    shape: Shape,
    at: Place,
    tokens: &'a [Token],
    depth: u8,
) -> Result<ReadTo<'a, Type>, Stop>
    ensures exact { (ts : List SpecToken) → Bracketed shape at ts tokens.now → StartsWithout kind.Question tokens.now → ExactAs used (one (g.constructed used)) nothing_continues (suc depth) ts (seen_to type result) }
    ensures shorter { IfOk result (λ r. prelude.length r.rest.now ≤ prelude.length tokens.now) }
    ensures low { IfOk result (λ r. r.height ≤ depth + 1) }
{
    let Read {
        tree: Closed {
            part: count,
            close: _close,
        },
        height: n,
        rest: after,
    } = match length(alloc, used, tokens, depth) {
        Ok(read) => read,
        Err(error) => return Err(error),
    };
    match type_to(alloc, at_end(used), after, depth) {
        Ok(
            ReadTo {
                tree: t,
                height: m,
                rest,
                end,
            },
        ) => Ok(ReadTo {
            tree: bracketed(alloc, at, shape, count, t)?,
            height: n.max(m) + 1,
            rest,
            end,
        }),
        Err(error) => Err(discard_length(count, error)),
    }
}

/// A type whose brackets begin with `?`, from behind it.
#[cycle(parser)]
fn counted<'a>(
    alloc: Global,
    used: Use,
    shape: Shape,
    at: Place,
    tokens: &'a [Token],
    depth: u8,
) -> Result<ReadTo<'a, Type>, Stop>
    ensures exact { (ts : List SpecToken) → Questioned shape at ts tokens.now → ExactAs used (one (g.constructed used)) nothing_continues (suc depth) ts (seen_to type result) }
    ensures shorter { IfOk result (λ r. prelude.length r.rest.now ≤ prelude.length tokens.now) }
    ensures low { IfOk result (λ r. r.height ≤ depth + 1) }
{
    let (_close, inner) = match expect(tokens, TokenKind::CloseBracket, Fit::Within) {
        Ok(found) => found,
        Err(error) => return Err(error),
    };
    let Read {
        tree: t,
        height,
        rest,
    } = match ty(alloc, used, inner, depth) {
        Ok(read) => read,
        Err(error) => return Err(error),
    };
    if counts(used, rest) {
        Ok(ReadTo {
            tree: bracketed(alloc, at, shape, Length::Counted, t)?,
            height: height + 1,
            rest,
            end: End::Sure,
        })
    } else {
        Err(discard_type(t, Stop::Syntax(rest.len())))
    }
}

/// What stands in square brackets, and the closing one.
#[cycle(parser)]
fn length<'a>(
    alloc: Global,
    used: Use,
    tokens: &'a [Token],
    depth: u8,
) -> Result<Read<'a, Closed<Length>>, Stop>
    ensures exact { Exact (length_line used) nothing_continues depth tokens.now (closed_by length result) }
    ensures shorter { IfOk result (λ r. prelude.length r.rest.now < prelude.length tokens.now) }
    ensures low { IfOk result (λ r. r.height ≤ depth) }
{
    match strip(tokens, TokenKind::CloseBracket) {
        Some((close, rest)) => Ok(Read {
            tree: Closed {
                part: Length::Slice,
                close,
            },
            height: 0,
            rest,
        }),
        None => match strip(tokens, TokenKind::Dynamic) {
            Some((_dynamic, behind)) => match expect(behind, TokenKind::CloseBracket, Fit::Within) {
                Ok((close, rest)) => Ok(Read {
                    tree: Closed {
                        part: Length::Dynamic,
                        close,
                    },
                    height: 0,
                    rest,
                }),
                Err(error) => Err(error),
            },
            None => match strip_dollar(used, tokens) {
                Some((token, behind)) => parametric(used, tokens, token, behind),
                None => fixed(alloc, used, tokens, depth),
            },
        },
    }
}

/// `$N` and the closing bracket.
fn parametric<'a>(
    used: Use,
    tokens: &'a [Token],
    token: Token,
    behind: &'a [Token],
) -> Result<Read<'a, Closed<Length>>, Stop>
    ensures exact { used ≡ Parameter → tokens.now ≡ token ∷ behind.now → token.kind ≡ kind.Dollar → (b : ℕ) → Exact (length_line used) nothing_continues b tokens.now (closed_by length result) }
    ensures shorter { IfOk result (λ r. prelude.length r.rest.now ≤ prelude.length behind.now) }
    ensures low { IfOk result (λ r. r.height ≤ 0) }
{
    let (name, after) = match expect(behind, TokenKind::Name, Fit::Within) {
        Ok(found) => found,
        Err(error) => return Err(error),
    };
    match expect(after, TokenKind::CloseBracket, Fit::Within) {
        Ok((close, rest)) => Ok(Read {
            tree: Closed {
                part: Length::Dollar(name),
                close,
            },
            height: 0,
            rest,
        }),
        Err(error) => Err(error),
    }
}

/// An expression and the closing bracket.
#[cycle(parser)]
fn fixed<'a>(
    alloc: Global,
    used: Use,
    tokens: &'a [Token],
    depth: u8,
) -> Result<Read<'a, Closed<Length>>, Stop>
    ensures exact { StartsWithout kind.CloseBracket tokens.now → StartsWithout kind.Dynamic tokens.now → (used ≡ Parameter → StartsWithout kind.Dollar tokens.now)
        → Exact (length_line used) nothing_continues depth tokens.now (closed_by length result) }
    ensures shorter { IfOk result (λ r. prelude.length r.rest.now < prelude.length tokens.now) }
    ensures low { IfOk result (λ r. r.height ≤ depth) }
{
    let Read {
        tree: e,
        height,
        rest: after,
    } = match level(alloc, Level::Or, Mode::Free, tokens, depth) {
        Ok(read) => read,
        Err(error) => return Err(error),
    };
    match expect(after, TokenKind::CloseBracket, within(height, depth)) {
        Ok((close, rest)) => Ok(Read {
            tree: Closed {
                part: Length::Fixed(e),
                close,
            },
            height,
            rest,
        }),
        Err(error) => Err(discard_expr(e, error)),
    }
}

/// The type of a shape, with its length.
fn bracketed(
    alloc: Global,
    at: Place,
    shape: Shape,
    count: Length,
    ty: Type,
) -> Result<Type, AllocError>
    ensures { IfOk result (λ t. type t ≡ tree.type at (shaped shape (length count) (type ty))) }
{
    match shape {
        Shape::Array => type_nodes::array(alloc, at, count, ty),
        Shape::Soa => type_nodes::soa(alloc, at, count, ty),
    }
}
