//! What stands behind operands.

ghost use Rattle.std.specs.Prelude.{◌≡◌, ◌∷◌, ◌<◌, ◌≤◌, ◌+◌, length, true, IfOk};
ghost use Rattle.odc_syntax.specs.Grammar as g;
ghost use Rattle.odc_syntax.specs.Grammar.{suffixed};
ghost use Rattle.odc_syntax.specs.View.{expr};
ghost use Rattle.odc_syntax.specs.declared.token.TokenKind.TheVariants as kind;
ghost use Rattle.odc_lookahead.specs.Exact.{Exact, one};
ghost use Rattle.odc_lookahead.specs.Forms.{suffix_form};
ghost use Rattle.odc_lookahead.specs.Parts.{high_line};
ghost use Rattle.odc_lookahead.specs.Read.{seen};
ghost use Rattle.odc_lookahead.specs.Sets.{starts_suffix, nothing_continues};
ghost use Rattle.odc_parse_expr.specs.Suffixes.{suffix, high_of};

use crate::arguments::arguments;
use crate::binary::level;
use crate::operand::operand;
use crate::types::ty;
use odc_lookahead::end::{End, over};
use odc_lookahead::read::{Closed, Read, ReadTo};
use odc_lookahead::stop::Stop;
use odc_lookahead::suffix::{SuffixForm, next_suffix};
use odc_lookahead::tokens::{expect, strip, within};
use odc_nodes::nodes;
use odc_syntax::grammar::{Level, Mode, Use};
use odc_syntax::token::{Token, TokenKind};
use odc_syntax::tree::{Arg, Expr, Type};
use odc_text::place::Place;
use odc_tree::discard::{discard_expr, discard_type};
use std::alloc::{AllocError, Global};

/// What stands behind an operand, with the place of its first token where the node has that place.
pub enum Suffix {
    /// `.x`
    Select(Place, Token),
    /// `.(T)`
    Assert(Place, Type),
    /// `^`
    Deref(Place),
    /// `[i]`
    Index(Place, Expr),
    /// `[a:b]`
    Cut(Place, Option<Expr>, Option<Expr>),
    /// `(x, ..)`
    Call(Vec<Arg>),
    /// `or_return`
    OrReturn,
    /// `{x, ..}`
    Literal(Vec<Arg>),
}

/// An operand with what stands behind it.
#[cycle(parser)]
pub fn postfix<'a>(
    alloc: Global,
    mode: Mode,
    tokens: &'a [Token],
    depth: u8,
) -> Result<Read<'a, Expr>, Stop>
    ensures exact { Exact (one (g.postfix mode)) (starts_suffix mode) depth tokens.now (seen expr result) }
    ensures shorter { IfOk result (λ r. length r.rest.now < length tokens.now) }
    ensures low { IfOk result (λ r. r.height ≤ depth + 1) }
    ensures fits { IfOk result (λ r. 0 < depth) }
{
    let ReadTo {
        tree: mut e,
        height: mut height,
        rest: mut rest,
        end: mut end,
    } = match operand(alloc, mode, tokens, depth) {
        Ok(read) => read,
        Err(error) => return Err(error),
    };
    while let Some((form, token, behind)) = next_suffix(mode, rest) {
        if height >= u16::from(depth) {
            return Err(discard_expr(e, over(end, behind)));
        }
        let Read {
            tree: s,
            height: n,
            rest: after,
        } = match read_suffix(alloc, mode, form, token, behind, depth - 1) {
            Ok(read) => read,
            Err(error) => return Err(discard_expr(e, error)),
        };
        e = applied(alloc, e, s)?;
        height = height.max(n) + 1;
        rest = after;
        end = End::Sure;
    }
    Ok(Read {
        tree: e,
        height,
        rest,
    })
}

/// What stands behind an operand, from its first token on.
#[inline(never)]
#[cycle(parser)]
fn read_suffix<'a>(
    alloc: Global,
    mode: Mode,
    form: SuffixForm,
    token: Token,
    behind: &'a [Token],
    depth: u8,
) -> Result<Read<'a, Suffix>, Stop>
    ensures exact { suffix_form mode token.kind ≡ form → starts_suffix mode token.kind ≡ true → Exact (one (g.suffix mode)) nothing_continues depth (token ∷ behind.now) (seen suffix result) }
    ensures shorter { IfOk result (λ r. length r.rest.now ≤ length behind.now) }
    ensures low { IfOk result (λ r. r.height ≤ depth + 1) }
{
    match form {
        SuffixForm::Deref => Ok(Read {
            tree: Suffix::Deref(token.at),
            height: 0,
            rest: behind,
        }),
        SuffixForm::OrReturn => Ok(Read {
            tree: Suffix::OrReturn,
            height: 0,
            rest: behind,
        }),
        SuffixForm::Member => member(alloc, mode, token, behind, depth),
        SuffixForm::Bracket => bracket(alloc, mode, token, behind, depth),
        SuffixForm::Call => match arguments(alloc, TokenKind::CloseParen, behind, depth) {
            Ok(
                Read {
                    tree: list,
                    height,
                    rest,
                },
            ) => {
                let Closed {
                    part: args,
                    close: _,
                } = list;
                Ok(Read {
                    tree: Suffix::Call(args),
                    height,
                    rest,
                })
            }
            Err(error) => Err(error),
        },
        SuffixForm::Literal => match arguments(alloc, TokenKind::CloseBrace, behind, depth) {
            Ok(
                Read {
                    tree: list,
                    height,
                    rest,
                },
            ) => {
                let Closed {
                    part: args,
                    close: _,
                } = list;
                Ok(Read {
                    tree: Suffix::Literal(args),
                    height,
                    rest,
                })
            }
            Err(error) => Err(error),
        },
        SuffixForm::Nothing => Err(Stop::Syntax(behind.len())),
    }
}

/// `.` with a name, or with a type in parentheses.
#[cycle(parser)]
fn member<'a>(
    alloc: Global,
    mode: Mode,
    dot: Token,
    behind: &'a [Token],
    depth: u8,
) -> Result<Read<'a, Suffix>, Stop>
    ensures exact { dot.kind ≡ kind.Dot → Exact (one (g.suffix mode)) nothing_continues depth (dot ∷ behind.now) (seen suffix result) }
    ensures shorter { IfOk result (λ r. length r.rest.now ≤ length behind.now) }
    ensures low { IfOk result (λ r. r.height ≤ depth + 1) }
{
    if let Some((name, rest)) = strip(behind, TokenKind::Name) {
        return Ok(Read {
            tree: Suffix::Select(dot.at, name),
            height: 0,
            rest,
        });
    }
    let (_open, inner) = match strip(behind, TokenKind::OpenParen) {
        Some(found) => found,
        None => return Err(Stop::Syntax(behind.len())),
    };
    let Read {
        tree: t,
        height,
        rest: after,
    } = match ty(alloc, Use::Plain, inner, depth) {
        Ok(read) => read,
        Err(error) => return Err(error),
    };
    match expect(after, TokenKind::CloseParen, within(height, depth)) {
        Ok((_close, rest)) => Ok(Read {
            tree: Suffix::Assert(dot.at, t),
            height,
            rest,
        }),
        Err(error) => Err(discard_type(t, error)),
    }
}

/// An index or a cut.
#[cycle(parser)]
fn bracket<'a>(
    alloc: Global,
    mode: Mode,
    bracket: Token,
    behind: &'a [Token],
    depth: u8,
) -> Result<Read<'a, Suffix>, Stop>
    ensures exact { bracket.kind ≡ kind.OpenBracket → Exact (one (g.suffix mode)) nothing_continues depth (bracket ∷ behind.now) (seen suffix result) }
    ensures shorter { IfOk result (λ r. length r.rest.now ≤ length behind.now) }
    ensures low { IfOk result (λ r. r.height ≤ depth + 1) }
{
    if let Some((_colon, rest)) = strip(behind, TokenKind::Colon) {
        return match high(alloc, rest, depth) {
            Ok(
                Read {
                    tree: end,
                    height,
                    rest: after,
                },
            ) => {
                let Closed {
                    part: value,
                    close: _,
                } = end;
                Ok(Read {
                    tree: Suffix::Cut(bracket.at, None, value),
                    height,
                    rest: after,
                })
            }
            Err(error) => Err(error),
        };
    }
    let Read {
        tree: e,
        height: n,
        rest: after,
    } = match level(alloc, Level::Or, Mode::Free, behind, depth) {
        Ok(read) => read,
        Err(error) => return Err(error),
    };
    if let Some((_close, rest)) = strip(after, TokenKind::CloseBracket) {
        if n <= u16::from(depth) {
            return Ok(Read {
                tree: Suffix::Index(bracket.at, e),
                height: n,
                rest,
            });
        }
        return Err(discard_expr(e, Stop::Deep(rest.len())));
    }
    let (_colon, rest) = match expect(after, TokenKind::Colon, within(n, depth)) {
        Ok(found) => found,
        Err(error) => return Err(discard_expr(e, error)),
    };
    match high(alloc, rest, depth) {
        Ok(
            Read {
                tree: end,
                height: m,
                rest: last,
            },
        ) => {
            let Closed {
                part: value,
                close: _,
            } = end;
            Ok(Read {
                tree: Suffix::Cut(bracket.at, Some(e), value),
                height: n.max(m),
                rest: last,
            })
        }
        Err(error) => Err(discard_expr(e, error)),
    }
}

/// The high end of a cut, if it is given, up to the closing bracket.
#[cycle(parser)]
fn high<'a>(
    alloc: Global,
    tokens: &'a [Token],
    depth: u8,
) -> Result<Read<'a, Closed<Option<Expr>>>, Stop>
    ensures exact { Exact high_line nothing_continues depth tokens.now (seen high_of result) }
    ensures shorter { IfOk result (λ r. length r.rest.now < length tokens.now) }
    ensures low { IfOk result (λ r. r.height ≤ depth + 1) }
{
    if let Some((close, rest)) = strip(tokens, TokenKind::CloseBracket) {
        return Ok(Read {
            tree: Closed { part: None, close },
            height: 0,
            rest,
        });
    }
    let Read {
        tree: e,
        height,
        rest: after,
    } = match level(alloc, Level::Or, Mode::Free, tokens, depth) {
        Ok(read) => read,
        Err(error) => return Err(error),
    };
    match expect(after, TokenKind::CloseBracket, within(height, depth)) {
        Ok((close, rest)) => Ok(Read {
            tree: Closed {
                part: Some(e),
                close,
            },
            height,
            rest,
        }),
        Err(error) => Err(discard_expr(e, error)),
    }
}

/// An expression with what stands behind it.
#[inline(never)]
fn applied(alloc: Global, e: Expr, s: Suffix) -> Result<Expr, AllocError>
    ensures { IfOk result (λ u. expr u ≡ suffixed (expr e) (suffix s)) }
{
    match s {
        Suffix::Select(at, name) => nodes::select(alloc, e, at, name),
        Suffix::Assert(at, ty) => nodes::assert(alloc, e, at, ty),
        Suffix::Deref(at) => nodes::deref(alloc, e, at),
        Suffix::Index(at, index) => nodes::element(alloc, e, at, index),
        Suffix::Cut(at, low, high) => nodes::cut(alloc, e, at, low, high),
        Suffix::Call(list) => nodes::call(alloc, e, list),
        Suffix::OrReturn => nodes::or_return(alloc, e),
        Suffix::Literal(list) => nodes::literal_of(alloc, e, list),
    }
}
