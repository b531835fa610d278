//! Structs, unions and enums, with their lists.

ghost use Rattle.std.specs.Prelude.{◌≡◌, ◌∷◌, ◌<◌, ◌≤◌, ◌+◌, ℕ, suc, length, IfOk};
ghost use Rattle.odc_syntax.specs.Grammar as g;
ghost use Rattle.odc_syntax.specs.View.{type, types, fields, maybe_expr, maybe_type, enumerators};
ghost use Rattle.odc_syntax.specs.declared.token.TokenKind.TheVariants as kind;
ghost use Rattle.odc_syntax.specs.Derives.{StartsWithout};
ghost use Rattle.odc_lookahead.specs.Ends.{ExactAs, seen_to, closed_by};
ghost use Rattle.odc_lookahead.specs.Exact.{Exact, one};
ghost use Rattle.odc_lookahead.specs.Read.{seen};
ghost use Rattle.odc_lookahead.specs.Sets.{continues_argument, nothing_continues};
ghost use Rattle.odc_parse_expr.specs.Fields.{field_read};
ghost use Rattle.odc_lookahead.specs.TypeParts.{field_item, enumerator_item, fields_line, types_line, enumerators_line, base_line, enumerator};

use crate::binary::level;
use crate::lists::items_up_to;
use crate::types::ty;
use odc_lookahead::end::End;
use odc_lookahead::lists::after_item;
use odc_lookahead::name_lists::names;
use odc_lookahead::read::{Closed, Read, ReadTo};
use odc_lookahead::stop::Stop;
use odc_lookahead::tokens::{Fit, expect, strip, within};
use odc_nodes::type_nodes;
use odc_syntax::grammar::{Level, Mode, Use};
use odc_syntax::token::{Token, TokenKind};
use odc_syntax::tree::{Enumerator, Expr, Field, Type};
use odc_tree::discard::{
    discard_enumerators, discard_fields, discard_optional_type, discard_type, discard_types,
};
use odc_tree::list::{push_enumerator, push_field, push_type};
use std::alloc::Global;

/// `struct {..}`
#[cycle(parser)]
pub fn struct_type<'a>(
    alloc: Global,
    used: Use,
    token: Token,
    behind: &'a [Token],
    depth: u8,
) -> Result<ReadTo<'a, Type>, Stop>
    ensures exact { token.kind ≡ kind.Struct → ExactAs used (one (g.constructed used)) nothing_continues (suc depth) (token ∷ behind.now) (seen_to type result) }
    ensures shorter { IfOk result (λ r. length r.rest.now ≤ length behind.now) }
    ensures low { IfOk result (λ r. r.height ≤ depth + 1) }
{
    let (_open, inner) = match expect(behind, TokenKind::OpenBrace, Fit::Within) {
        Ok(found) => found,
        Err(error) => return Err(error),
    };
    match field_list(alloc, used, inner, depth) {
        Ok(read) => {
            let Read {
                tree: Closed {
                    part: list,
                    close: _close,
                },
                height,
                rest,
            } = read;
            Ok(ReadTo {
                tree: type_nodes::structure(alloc, token.at, list)?,
                height: height + 1,
                rest,
                end: End::Sure,
            })
        }
        Err(error) => Err(error),
    }
}

/// Fields between commas, up to the closing brace.
#[cycle(parser)]
fn field_list<'a>(
    alloc: Global,
    used: Use,
    tokens: &'a [Token],
    depth: u8,
) -> Result<Read<'a, Closed<Vec<Field>>>, Stop>
    ensures exact { Exact (fields_line (g.inside used)) nothing_continues depth tokens.now (closed_by (λ l. fields l.items) result) }
    ensures shorter { IfOk result (λ r. length r.rest.now < length tokens.now) }
    ensures low { IfOk result (λ r. r.height ≤ depth) }
{
    let mut list = Vec::new(alloc);
    if let Some((close, rest)) = strip(tokens, TokenKind::CloseBrace) {
        return Ok(Read {
            tree: Closed { part: list, close },
            height: 0,
            rest,
        });
    }
    let mut height: u16 = 0;
    let mut rest = tokens;
    items_up_to!(
        TokenKind::CloseBrace,
        depth,
        list,
        height,
        rest,
        FieldRead {
            field: item,
            colon: _colon
        } = field(alloc, used, rest, depth),
        push_field(list, item)?,
        discard_fields
    )
}

/// A field, with the colon behind its names, which its tree does not keep.
pub struct FieldRead {
    pub field: Field,
    pub colon: Token,
}

/// Names and their type, with the colon between them.
#[cycle(parser)]
fn field<'a>(
    alloc: Global,
    used: Use,
    tokens: &'a [Token],
    depth: u8,
) -> Result<Read<'a, FieldRead>, Stop>
    ensures exact { Exact (field_item (g.inside used)) nothing_continues depth tokens.now (seen field_read result) }
    ensures shorter { IfOk result (λ r. length r.rest.now < length tokens.now) }
    ensures low { IfOk result (λ r. r.height ≤ depth) }
{
    let (names, colon, after) = match names(alloc, tokens) {
        Ok(read) => read,
        Err(error) => return Err(error),
    };
    match ty(alloc, used, after, depth) {
        Ok(
            Read {
                tree: t,
                height,
                rest,
            },
        ) => Ok(Read {
            tree: FieldRead {
                field: Field { names, ty: t },
                colon,
            },
            height,
            rest,
        }),
        Err(error) => Err(error),
    }
}

/// `union {..}`
#[cycle(parser)]
pub fn union_type<'a>(
    alloc: Global,
    used: Use,
    token: Token,
    behind: &'a [Token],
    depth: u8,
) -> Result<ReadTo<'a, Type>, Stop>
    ensures exact { token.kind ≡ kind.Union → ExactAs used (one (g.constructed used)) nothing_continues (suc depth) (token ∷ behind.now) (seen_to type result) }
    ensures shorter { IfOk result (λ r. length r.rest.now ≤ length behind.now) }
    ensures low { IfOk result (λ r. r.height ≤ depth + 1) }
{
    let (_open, inner) = match expect(behind, TokenKind::OpenBrace, Fit::Within) {
        Ok(found) => found,
        Err(error) => return Err(error),
    };
    match type_list(alloc, used, inner, depth) {
        Ok(read) => {
            let Read {
                tree: Closed {
                    part: list,
                    close: _close,
                },
                height,
                rest,
            } = read;
            Ok(ReadTo {
                tree: type_nodes::union_of(alloc, token.at, list)?,
                height: height + 1,
                rest,
                end: End::Sure,
            })
        }
        Err(error) => Err(error),
    }
}

/// Types between commas, up to the closing brace.
#[cycle(parser)]
fn type_list<'a>(
    alloc: Global,
    used: Use,
    tokens: &'a [Token],
    depth: u8,
) -> Result<Read<'a, Closed<Vec<Type>>>, Stop>
    ensures exact { Exact (types_line (g.inside used)) nothing_continues depth tokens.now (closed_by (λ l. types l.items) result) }
    ensures shorter { IfOk result (λ r. length r.rest.now < length tokens.now) }
    ensures low { IfOk result (λ r. r.height ≤ depth) }
{
    let mut list = Vec::new(alloc);
    if let Some((close, rest)) = strip(tokens, TokenKind::CloseBrace) {
        return Ok(Read {
            tree: Closed { part: list, close },
            height: 0,
            rest,
        });
    }
    let mut height: u16 = 0;
    let mut rest = tokens;
    items_up_to!(
        TokenKind::CloseBrace,
        depth,
        list,
        height,
        rest,
        item = ty(alloc, used, rest, depth),
        push_type(list, item)?,
        discard_types
    )
}

/// `enum T {..}`
#[cycle(parser)]
pub fn enum_type<'a>(
    alloc: Global,
    used: Use,
    token: Token,
    behind: &'a [Token],
    depth: u8,
) -> Result<ReadTo<'a, Type>, Stop>
    ensures exact { token.kind ≡ kind.Enum → ExactAs used (one (g.constructed used)) nothing_continues (suc depth) (token ∷ behind.now) (seen_to type result) }
    ensures shorter { IfOk result (λ r. length r.rest.now ≤ length behind.now) }
    ensures low { IfOk result (λ r. r.height ≤ depth + 1) }
{
    let Read {
        tree: Closed {
            part: base,
            close: _open,
        },
        height: n,
        rest: inner,
    } = match base_type(alloc, used, behind, depth) {
        Ok(read) => read,
        Err(error) => return Err(error),
    };
    match enumerator_list(alloc, inner, depth) {
        Ok(read) => {
            let Read {
                tree: Closed {
                    part: list,
                    close: _close,
                },
                height: m,
                rest,
            } = read;
            Ok(ReadTo {
                tree: type_nodes::enumeration(alloc, token.at, base, list)?,
                height: n.max(m) + 1,
                rest,
                end: End::Sure,
            })
        }
        Err(error) => Err(discard_optional_type(base, error)),
    }
}

/// The type of an enum, if it is given, and the opening brace.
#[cycle(parser)]
fn base_type<'a>(
    alloc: Global,
    used: Use,
    tokens: &'a [Token],
    depth: u8,
) -> Result<Read<'a, Closed<Option<Type>>>, Stop>
    ensures exact { Exact (base_line (g.inside used)) nothing_continues depth tokens.now (closed_by maybe_type result) }
    ensures shorter { IfOk result (λ r. length r.rest.now < length tokens.now) }
    ensures low { IfOk result (λ r. r.height ≤ depth) }
{
    match strip(tokens, TokenKind::OpenBrace) {
        Some((open, inner)) => Ok(Read {
            tree: Closed {
                part: None,
                close: open,
            },
            height: 0,
            rest: inner,
        }),
        None => base(alloc, used, tokens, depth),
    }
}

/// The type of an enum, and the opening brace.
#[cycle(parser)]
fn base<'a>(
    alloc: Global,
    used: Use,
    tokens: &'a [Token],
    depth: u8,
) -> Result<Read<'a, Closed<Option<Type>>>, Stop>
    ensures exact { StartsWithout kind.OpenBrace tokens.now → Exact (base_line (g.inside used)) nothing_continues depth tokens.now (closed_by maybe_type result) }
    ensures shorter { IfOk result (λ r. length r.rest.now < length tokens.now) }
    ensures low { IfOk result (λ r. r.height ≤ depth) }
{
    let Read {
        tree: t,
        height,
        rest: after,
    } = match ty(alloc, used, tokens, depth) {
        Ok(read) => read,
        Err(error) => return Err(error),
    };
    match expect(after, TokenKind::OpenBrace, within(height, depth)) {
        Ok((open, inner)) => Ok(Read {
            tree: Closed {
                part: Some(t),
                close: open,
            },
            height,
            rest: inner,
        }),
        Err(error) => Err(discard_type(t, error)),
    }
}

/// Enumerators between commas, up to the closing brace.
#[cycle(parser)]
fn enumerator_list<'a>(
    alloc: Global,
    tokens: &'a [Token],
    depth: u8,
) -> Result<Read<'a, Closed<Vec<Enumerator>>>, Stop>
    ensures exact { Exact enumerators_line nothing_continues depth tokens.now (closed_by (λ l. enumerators l.items) result) }
    ensures shorter { IfOk result (λ r. length r.rest.now < length tokens.now) }
    ensures low { IfOk result (λ r. r.height ≤ depth) }
{
    let mut list = Vec::new(alloc);
    if let Some((close, rest)) = strip(tokens, TokenKind::CloseBrace) {
        return Ok(Read {
            tree: Closed { part: list, close },
            height: 0,
            rest,
        });
    }
    let mut height: u16 = 0;
    let mut rest = tokens;
    items_up_to!(
        TokenKind::CloseBrace,
        depth,
        list,
        height,
        rest,
        item = enumerator(alloc, rest, depth),
        push_enumerator(list, item)?,
        discard_enumerators
    )
}

/// A name, and the value that it is given.
#[cycle(parser)]
fn enumerator<'a>(
    alloc: Global,
    tokens: &'a [Token],
    depth: u8,
) -> Result<Read<'a, Enumerator>, Stop>
    ensures exact { Exact enumerator_item continues_argument depth tokens.now (seen enumerator result) }
    ensures shorter { IfOk result (λ r. length r.rest.now < length tokens.now) }
    ensures low { IfOk result (λ r. r.height ≤ depth + 1) }
{
    let (name, behind) = match expect(tokens, TokenKind::Name, Fit::Within) {
        Ok(found) => found,
        Err(error) => return Err(error),
    };
    match given(alloc, behind, depth) {
        Ok(
            Read {
                tree: value,
                height,
                rest,
            },
        ) => Ok(Read {
            tree: Enumerator { name, value },
            height,
            rest,
        }),
        Err(error) => Err(error),
    }
}

/// `=` and an expression, if it stands here.
#[cycle(parser)]
pub fn given<'a>(
    alloc: Global,
    tokens: &'a [Token],
    depth: u8,
) -> Result<Read<'a, Option<Expr>>, Stop>
    ensures exact { Exact (one g.given) continues_argument depth tokens.now (seen maybe_expr result) }
    ensures shorter { IfOk result (λ r. length r.rest.now ≤ length tokens.now) }
    ensures low { IfOk result (λ r. r.height ≤ depth + 1) }
{
    match strip(tokens, TokenKind::Assign) {
        Some((_assign, behind)) => match level(alloc, Level::Or, Mode::Free, behind, depth) {
            Ok(
                Read {
                    tree: e,
                    height,
                    rest,
                },
            ) => Ok(Read {
                tree: Some(e),
                height,
                rest,
            }),
            Err(error) => Err(error),
        },
        None => Ok(Read {
            tree: None,
            height: 0,
            rest: tokens,
        }),
    }
}
