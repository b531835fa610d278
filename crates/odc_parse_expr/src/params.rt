//! Parameters: all have names, or none has.

ghost use Rattle.std.specs.Prelude.{◌≡◌, ◌<◌, ◌≤◌, ◌+◌, ◌∷◌, List, length, suc, IfOk};
ghost use Rattle.odc_syntax.specs.Grammar as g;
ghost use Rattle.odc_syntax.specs.declared.grammar.Use.TheVariants.{Parameter};
ghost use Rattle.odc_syntax.specs.declared.token.Token.{Token as SpecToken};
ghost use Rattle.odc_syntax.specs.declared.token.TokenKind.TheVariants as kind;
ghost use Rattle.odc_syntax.specs.Derives.{StartsWithout};
ghost use Rattle.odc_lookahead.specs.Ends.{closed_by};
ghost use Rattle.odc_lookahead.specs.Exact.{Exact, one};
ghost use Rattle.odc_lookahead.specs.ParamForms.{Front, Crossed};
ghost use Rattle.odc_lookahead.specs.stmts.Runs.{Undeclared};
ghost use Rattle.odc_lookahead.specs.Read.{seen};
ghost use Rattle.odc_lookahead.specs.Sets.{continues_argument, nothing_continues};
ghost use Rattle.odc_parse_expr.specs.Fields.{typed_read};
ghost use Rattle.odc_lookahead.specs.TypeParts.{params_line, named_line, bare_line, typed_line};
ghost use Rattle.odc_syntax.specs.View.{param, params};

use crate::binary::level;
use crate::fields::given;
use crate::lists::items_up_to;
use crate::types::ty;
use odc_lookahead::end::inside;
use odc_lookahead::lists::after_item;
use odc_lookahead::name_lists::{behind_dollar, names, names_end, strip_int};
use odc_lookahead::read::{Closed, Read};
use odc_lookahead::shape::strip_dollar;
use odc_lookahead::stop::Stop;
use odc_lookahead::tokens::{strip, within};
use odc_nodes::type_nodes;
use odc_syntax::grammar::{Level, Mode, Use};
use odc_syntax::token::{Token, TokenKind};
use odc_syntax::tree::{Expr, Param, Type};
use odc_tree::discard::{discard_params, discard_type};
use odc_tree::list::push_param;
use std::alloc::Global;

/// Parameters between commas, up to the closing parenthesis.
#[cycle(parser)]
pub fn params<'a>(
    alloc: Global,
    used: Use,
    tokens: &'a [Token],
    depth: u8,
) -> Result<Read<'a, Closed<Vec<Param>>>, Stop>
    ensures exact { Exact (params_line (g.inside used)) nothing_continues depth tokens.now (closed_by (λ l. params l.items) result) }
    ensures shorter { IfOk result (λ r. length r.rest.now < length tokens.now) }
    ensures low { IfOk result (λ r. r.height ≤ depth) }
{
    match names_end(behind_dollar(inside(used), tokens)) {
        Ok(_after) => named_list(alloc, used, tokens, depth),
        Err(at) => {
            if at.len() == tokens.len() {
                return bare_list(alloc, used, tokens, depth);
            }
            if depth == 0 {
                return crossed(alloc, used, tokens, at);
            }
            bare_list(alloc, used, tokens, depth)
        }
    }
}

/// Names in front where no type may stand any more: they may be names of parameters, and as types they are
/// too deep. Where a type may stand tells which it is.
#[inline(never)]
#[cycle(parser)]
fn crossed<'a>(
    alloc: Global,
    used: Use,
    tokens: &'a [Token],
    at: &'a [Token],
) -> Result<Read<'a, Closed<Vec<Param>>>, Stop>
    ensures exact { (us : List SpecToken) → Front (g.inside used) tokens.now us → Undeclared us at.now → length at.now < length tokens.now → Exact (params_line (g.inside used)) nothing_continues 0 tokens.now (closed_by (λ l. params l.items) result) }
    ensures shorter { IfOk result (λ r. length r.rest.now < length tokens.now) }
    ensures low { IfOk result (λ r. r.height ≤ 0) }
{
    match bare_list(alloc, used, tokens, 1) {
        Ok(
            Read {
                tree: Closed {
                    part: list,
                    close: _close,
                },
                height: _height,
                rest: _rest,
            },
        ) => Err(discard_params(list, Stop::Deep(at.len().saturating_sub(1)))),
        Err(error) => Err(crossed_by(error, at.len())),
    }
}

/// Why such a list is not read, if at a bound of 1 this is why it is not read without names; behind the names
/// so many tokens are left.
fn crossed_by(error: Stop, at: usize) -> Stop
    ensures { Crossed at error result }
{
    match error {
        Stop::Syntax(left) => {
            if left < at {
                Stop::Deep(at.saturating_sub(1))
            } else {
                Stop::Syntax(left)
            }
        }
        Stop::Deep(_left) => Stop::Deep(at.saturating_sub(1)),
        Stop::Memory => Stop::Memory,
    }
}

/// Parameters with names between commas, up to the closing parenthesis.
#[cycle(parser)]
fn named_list<'a>(
    alloc: Global,
    used: Use,
    tokens: &'a [Token],
    depth: u8,
) -> Result<Read<'a, Closed<Vec<Param>>>, Stop>
    ensures exact { StartsWithout kind.CloseParen tokens.now → Exact (named_line (g.inside used)) nothing_continues depth tokens.now (closed_by (λ l. params l.items) result) }
    ensures shorter { IfOk result (λ r. length r.rest.now < length tokens.now) }
    ensures low { IfOk result (λ r. r.height ≤ depth) }
{
    let mut list = Vec::new(alloc);
    let mut height: u16 = 0;
    let mut rest = tokens;
    items_up_to!(
        TokenKind::CloseParen,
        depth,
        list,
        height,
        rest,
        item = named(alloc, used, rest, depth),
        push_param(list, item)?,
        discard_params
    )
}

/// Parameters without names between commas, or none, up to the closing parenthesis.
#[cycle(parser)]
fn bare_list<'a>(
    alloc: Global,
    used: Use,
    tokens: &'a [Token],
    depth: u8,
) -> Result<Read<'a, Closed<Vec<Param>>>, Stop>
    ensures exact { Exact (bare_line (g.inside used)) nothing_continues depth tokens.now (closed_by (λ l. params l.items) result) }
    ensures shorter { IfOk result (λ r. length r.rest.now < length tokens.now) }
    ensures low { IfOk result (λ r. r.height ≤ depth) }
{
    let mut list = Vec::new(alloc);
    if let Some((close, rest)) = strip(tokens, TokenKind::CloseParen) {
        return Ok(Read {
            tree: Closed { part: list, close },
            height: 0,
            rest,
        });
    }
    let mut height: u16 = 0;
    let mut rest = tokens;
    items_up_to!(
        TokenKind::CloseParen,
        depth,
        list,
        height,
        rest,
        item = bare(alloc, used, rest, depth),
        push_param(list, item)?,
        discard_params
    )
}

/// A type alone.
#[cycle(parser)]
fn bare<'a>(
    alloc: Global,
    used: Use,
    tokens: &'a [Token],
    depth: u8,
) -> Result<Read<'a, Param>, Stop>
    ensures exact { Exact (one (g.bare_param (g.inside used))) nothing_continues depth tokens.now (seen param result) }
    ensures shorter { IfOk result (λ r. length r.rest.now < length tokens.now) }
    ensures low { IfOk result (λ r. r.height ≤ depth + 1) }
{
    match ty(alloc, used, tokens, depth) {
        Ok(
            Read {
                tree: t,
                height,
                rest,
            },
        ) => Ok(Read {
            tree: type_nodes::bare_param(alloc, t),
            height,
            rest,
        }),
        Err(error) => Err(error),
    }
}

/// Names with their type, and what they are given by default.
#[cycle(parser)]
fn named<'a>(
    alloc: Global,
    used: Use,
    tokens: &'a [Token],
    depth: u8,
) -> Result<Read<'a, Param>, Stop>
    ensures exact { Exact (one (g.named_param (g.inside used))) continues_argument depth tokens.now (seen param result) }
    ensures shorter { IfOk result (λ r. length r.rest.now < length tokens.now) }
    ensures low { IfOk result (λ r. r.height ≤ depth + 1) }
{
    match strip_dollar(inside(used), tokens) {
        Some((dollar, behind)) => parametric(alloc, dollar, behind, depth),
        None => plain(alloc, used, tokens, depth),
    }
}

/// Names without `$` before them, with their type, and what they are given by default.
#[cycle(parser)]
fn plain<'a>(
    alloc: Global,
    used: Use,
    tokens: &'a [Token],
    depth: u8,
) -> Result<Read<'a, Param>, Stop>
    ensures exact { (g.inside used ≡ Parameter → StartsWithout kind.Dollar tokens.now) → Exact (one (g.named_param (g.inside used))) continues_argument depth tokens.now (seen param result) }
    ensures shorter { IfOk result (λ r. length r.rest.now < length tokens.now) }
    ensures low { IfOk result (λ r. r.height ≤ depth + 1) }
{
    let (list, _colon, after) = match names(alloc, tokens) {
        Ok(read) => read,
        Err(error) => return Err(error),
    };
    match strip(after, TokenKind::Typeid) {
        Some((_typeid, behind)) => match given(alloc, behind, depth) {
            Ok(
                Read {
                    tree: default,
                    height,
                    rest,
                },
            ) => {
                Ok(Read {
                    tree: type_nodes::typeid_param(false, list, default),
                    height,
                    rest,
                })
            }
            Err(error) => Err(error),
        },
        None => match strip(after, TokenKind::Assign) {
            Some((_assign, behind)) => match level(alloc, Level::Or, Mode::Free, behind, depth) {
                Ok(
                    Read {
                        tree: e,
                        height,
                        rest,
                    },
                ) => {
                    Ok(Read {
                        tree: type_nodes::inferred_param(list, e),
                        height,
                        rest,
                    })
                }
                Err(error) => Err(error),
            },
            None => match typed(alloc, used, after, depth) {
                Ok(read) => {
                    let Read {
                        tree: TypeAndDefault { ty: t, default },
                        height,
                        rest,
                    } = read;
                    Ok(Read {
                        tree: type_nodes::typed_param(list, t, default),
                        height,
                        rest,
                    })
                }
                Err(error) => Err(error),
            },
        },
    }
}

/// The type of names, and what they are given by default.
pub struct TypeAndDefault {
    pub ty: Type,
    pub default: Option<Expr>,
}

/// The type of names, and what they are given by default.
#[inline(never)]
#[cycle(parser)]
fn typed<'a>(
    alloc: Global,
    used: Use,
    tokens: &'a [Token],
    depth: u8,
) -> Result<Read<'a, TypeAndDefault>, Stop>
    ensures exact { Exact (typed_line (g.inside used)) continues_argument depth tokens.now (seen typed_read result) }
    ensures shorter { IfOk result (λ r. length r.rest.now < length tokens.now) }
    ensures low { IfOk result (λ r. r.height ≤ depth + 1) }
{
    let Read {
        tree: t,
        height: n,
        rest: behind,
    } = match ty(alloc, used, tokens, depth) {
        Ok(read) => read,
        Err(error) => return Err(error),
    };
    match given(alloc, behind, depth) {
        Ok(
            Read {
                tree: default,
                height: m,
                rest,
            },
        ) => Ok(Read {
            tree: TypeAndDefault { ty: t, default },
            height: n.max(m),
            rest,
        }),
        Err(error) => Err(discard_type(t, error)),
    }
}

/// Names behind `$`, which stand for types, or for integers.
#[inline(never)]
#[cycle(parser)]
fn parametric<'a>(
    alloc: Global,
    dollar: Token,
    behind: &'a [Token],
    depth: u8,
) -> Result<Read<'a, Param>, Stop>
    ensures exact { dollar.kind ≡ kind.Dollar → Exact (one (g.named_param Parameter)) continues_argument depth (dollar ∷ behind.now) (seen param result) }
    ensures shorter { IfOk result (λ r. length r.rest.now < length behind.now) }
    ensures low { IfOk result (λ r. r.height ≤ depth + 1) }
{
    let (list, _colon, after) = match names(alloc, behind) {
        Ok(read) => read,
        Err(error) => return Err(error),
    };
    match strip(after, TokenKind::Typeid) {
        Some((_typeid, rest)) => match given(alloc, rest, depth) {
            Ok(
                Read {
                    tree: default,
                    height,
                    rest: last,
                },
            ) => {
                Ok(Read {
                    tree: type_nodes::typeid_param(true, list, default),
                    height,
                    rest: last,
                })
            }
            Err(error) => Err(error),
        },
        None => match strip_int(after) {
            Some((int, rest)) => {
                if depth == 0 {
                    return Err(Stop::Deep(rest.len()));
                }
                match given(alloc, rest, depth) {
                    Ok(
                        Read {
                            tree: default,
                            height,
                            rest: last,
                        },
                    ) => {
                        Ok(Read {
                            tree: type_nodes::int_param(alloc, list, int, default)?,
                            height: height.max(1),
                            rest: last,
                        })
                    }
                    Err(error) => Err(error),
                }
            }
            None => Err(Stop::Syntax(after.len())),
        },
    }
}
