//! Declarations of constants and variables.

ghost use Rattle.std.specs.Prelude.{List, ℕ, ◌<◌, ◌≤◌, ◌+◌, suc, length, IfOk, IfErr};
ghost use Rattle.odc_syntax.specs.declared.token.Token.{Token as TokenValue};
ghost use Rattle.odc_syntax.specs.Grammar as g;
ghost use Rattle.odc_syntax.specs.View.{type, decl};
ghost use Rattle.odc_lookahead.specs.stmts.DeclarationParts.{name_list, continues_names, Headed, Typed};
ghost use Rattle.odc_lookahead.specs.Exact.{Exact, Found, one};
ghost use Rattle.odc_lookahead.specs.Read.{seen, refused};
ghost use Rattle.odc_lookahead.specs.stmts.StatementSets.{continues_declaration};

use crate::exprs::exprs;
use crate::types::ty;
use odc_lookahead::read::Read;
use odc_lookahead::stop::Stop;
use odc_lookahead::tokens::{Fit, expect, strip};
use odc_nodes::stmt_nodes;
use odc_syntax::grammar::{Mode, Use};
use odc_syntax::token::{Token, TokenKind};
use odc_syntax::tree::{Decl, Type};
use odc_text::place::Place;
use odc_tree::discard::discard_type;
use std::alloc::Global;

/// A declaration of constants or variables.
#[cycle(parser)]
pub fn declaration<'a>(
    alloc: Global,
    mode: Mode,
    tokens: &'a [Token],
    depth: u8,
) -> Result<Read<'a, Decl>, Stop>
    ensures exact { Exact (one (g.declaration mode)) (continues_declaration mode) depth tokens.now (seen decl result) }
    ensures shorter { IfOk result (λ r. length r.rest.now < length tokens.now) }
    ensures low { IfOk result (λ r. r.height ≤ depth + 1) }
{
    let (name, behind) = match strip(tokens, TokenKind::Name) {
        Some(found) => found,
        None => return Err(Stop::Syntax(tokens.len())),
    };
    if depth == 0 {
        return Err(Stop::Deep(behind.len()));
    }
    let (names, rest) = match names(alloc, tokens) {
        Ok(read) => read,
        Err(error) => return Err(error),
    };
    match expect(rest, TokenKind::Colon, Fit::Within) {
        Ok((_colon, after)) => behind_colon(alloc, mode, name.at, names, after, depth - 1),
        Err(error) => Err(error),
    }
}

/// Names between commas.
pub fn names<'a>(alloc: Global, tokens: &'a [Token]) -> Result<(Vec<Token>, &'a [Token]), Stop>
    ensures found { IfOk result (λ r. (b : ℕ) → Found (one name_list) continues_names b tokens.now r.0.items 0 r.1.now) }
    ensures refused { IfErr result (λ e. (b : ℕ) → Exact (one name_list) continues_names b tokens.now (refused e)) }
    ensures shorter { IfOk result (λ r. length r.1.now < length tokens.now) }
{
    let mut names = Vec::new(alloc);
    let mut rest = tokens;
    'names: loop {
        let (name, behind) = match expect(rest, TokenKind::Name, Fit::Within) {
            Ok(found) => found,
            Err(error) => return Err(error),
        };
        names = stmt_nodes::push_name(names, name)?;
        match strip(behind, TokenKind::Comma) {
            Some((_comma, after)) => rest = after,
            None => return Ok((names, behind)),
        }
    }
}

/// What stands behind the names of a declaration and `:`, whose parts may have this depth.
#[cycle(parser)]
fn behind_colon<'a>(
    alloc: Global,
    mode: Mode,
    at: Place,
    names: Vec<Token>,
    tokens: &'a [Token],
    depth: u8,
) -> Result<Read<'a, Decl>, Stop>
    ensures exact { (ts : List TokenValue) → Headed depth ts at names.items tokens.now
        → Exact (one (g.declaration mode)) (continues_declaration mode) (suc depth) ts (seen decl result) }
    ensures shorter { IfOk result (λ r. length r.rest.now ≤ length tokens.now) }
    ensures low { IfOk result (λ r. r.height ≤ depth + 2) }
{
    if let Some((_assign, rest)) = strip(tokens, TokenKind::Assign) {
        return match exprs(alloc, mode, rest, depth) {
            Ok(
                Read {
                    tree: values,
                    height,
                    rest: after,
                },
            ) => {
                Ok(Read {
                    tree: stmt_nodes::inferred(alloc, at, names, values)?,
                    height: height + 1,
                    rest: after,
                })
            }
            Err(error) => Err(error),
        };
    }
    if let Some((_colon, rest)) = strip(tokens, TokenKind::Colon) {
        return match exprs(alloc, mode, rest, depth) {
            Ok(
                Read {
                    tree: values,
                    height,
                    rest: after,
                },
            ) => {
                Ok(Read {
                    tree: stmt_nodes::constant(alloc, at, names, values)?,
                    height: height + 1,
                    rest: after,
                })
            }
            Err(error) => Err(error),
        };
    }
    match ty(alloc, Use::Plain, tokens, depth) {
        Ok(
            Read {
                tree: t,
                height,
                rest,
            },
        ) => behind_type(alloc, mode, at, names, t, height, rest, depth),
        Err(error) => Err(error),
    }
}

/// What stands behind the type of a declaration, whose parts may have this depth.
#[cycle(parser)]
fn behind_type<'a>(
    alloc: Global,
    mode: Mode,
    at: Place,
    names: Vec<Token>,
    t: Type,
    height: u16,
    tokens: &'a [Token],
    depth: u8,
) -> Result<Read<'a, Decl>, Stop>
    requires { height ≤ depth + 1 }
    ensures exact { (ts : List TokenValue) → Typed depth ts at names.items (type t) height tokens.now
        → Exact (one (g.declaration mode)) (continues_declaration mode) (suc depth) ts (seen decl result) }
    ensures shorter { IfOk result (λ r. length r.rest.now ≤ length tokens.now) }
    ensures low { IfOk result (λ r. r.height ≤ depth + 2) }
{
    if let Some((_colon, rest)) = strip(tokens, TokenKind::Colon) {
        if height > u16::from(depth) {
            return Err(discard_type(t, Stop::Deep(rest.len())));
        }
        return match exprs(alloc, mode, rest, depth) {
            Ok(
                Read {
                    tree: values,
                    height: n,
                    rest: after,
                },
            ) => Ok(Read {
                tree: stmt_nodes::typed_constant(alloc, at, names, t, values)?,
                height: height.max(n) + 1,
                rest: after,
            }),
            Err(error) => Err(discard_type(t, error)),
        };
    }
    let rest = match strip(tokens, TokenKind::Assign) {
        Some((_assign, rest)) => rest,
        None => return Ok(Read {
            tree: stmt_nodes::zeros(alloc, at, names, t)?,
            height: height + 1,
            rest: tokens,
        }),
    };
    if height > u16::from(depth) {
        return Err(discard_type(t, Stop::Deep(rest.len())));
    }
    if let Some((_dashes, after)) = strip(rest, TokenKind::Dashes) {
        return Ok(Read {
            tree: stmt_nodes::dashes(alloc, at, names, t)?,
            height: height + 1,
            rest: after,
        });
    }
    match exprs(alloc, mode, rest, depth) {
        Ok(
            Read {
                tree: values,
                height: n,
                rest: after,
            },
        ) => Ok(Read {
            tree: stmt_nodes::typed(alloc, at, names, t, values)?,
            height: height.max(n) + 1,
            rest: after,
        }),
        Err(error) => Err(discard_type(t, error)),
    }
}
