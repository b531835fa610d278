//! Statements with semicolons between them, blocks and bodies.

ghost use Rattle.std.specs.Prelude.{◌≡◌, ◌↔◌, ◌<◌, ◌≤◌, ◌+◌, length, IsTrue, IfOk};
ghost use Rattle.odc_lookahead.specs.declared.stop.Stop.TheVariants as stops;
ghost use Rattle.odc_lookahead.specs.stmts.Runs.{Skips};
ghost use Rattle.odc_syntax.specs.Grammar as g;
ghost use Rattle.odc_lookahead.specs.stmts.BodyParts.{braces_line};
ghost use Rattle.odc_lookahead.specs.Exact.{Exact, one};
ghost use Rattle.odc_lookahead.specs.Read.{seen};
ghost use Rattle.odc_lookahead.specs.Sets.{nothing_continues};
ghost use Rattle.odc_lookahead.specs.stmts.Statements.{stmt_list};
ghost use Rattle.odc_parse_expr.specs.Blocks.{braces_of, BodyOver};
ghost use Rattle.odc_syntax.specs.declared.grammar.Mode.TheVariants.{Free};
ghost use Rattle.odc_lookahead.specs.stmts.StatementSets.{continues_statement, continues_statements};

use crate::statement::statement;
use odc_lookahead::read::{Closed, Read};
use odc_lookahead::stop::Stop;
use odc_lookahead::tokens::{expect, strip, within};
use odc_syntax::token::{Token, TokenKind};
use odc_syntax::tree::Stmt;
use odc_tree::discard::discard_stmts;
use odc_tree::list::push_stmt;
use std::alloc::Global;

/// Statements, up to what begins none.
#[cycle(parser)]
pub fn stmts<'a>(alloc: Global, tokens: &'a [Token], depth: u8) -> Result<Read<'a, Vec<Stmt>>, Stop>
    ensures exact { Exact (one g.stmts) continues_statements depth tokens.now (seen stmt_list result) }
    ensures shorter { IfOk result (λ r. length r.rest.now ≤ length tokens.now) }
    ensures low { IfOk result (λ r. r.height ≤ depth + 1) }
{
    let mut list = Vec::new(alloc);
    let mut height: u16 = 0;
    let mut rest = tokens;
    'statements: loop {
        let start = behind_semicolons(rest);
        let Read {
            tree: s,
            height: n,
            rest: after,
        } = match statement(alloc, start, depth) {
            Ok(read) => read,
            Err(error) => {
                if stands_at(error, start.len()) {
                    return Ok(Read {
                        tree: list,
                        height,
                        rest: start,
                    });
                }
                return Err(discard_stmts(list, error));
            }
        };
        list = push_stmt(list, s)?;
        height = height.max(n);
        match strip(after, TokenKind::Semicolon) {
            Some((_semicolon, behind)) => {
                if height > u16::from(depth) {
                    return Err(discard_stmts(list, Stop::Deep(behind.len())));
                }
                rest = behind;
            }
            None => return Ok(Read {
                tree: list,
                height,
                rest: after,
            }),
        }
    }
}

/// Statements up to the closing brace.
#[cycle(parser)]
pub fn braces<'a>(
    alloc: Global,
    tokens: &'a [Token],
    depth: u8,
) -> Result<Read<'a, Closed<Vec<Stmt>>>, Stop>
    ensures exact { Exact braces_line nothing_continues depth tokens.now (seen braces_of result) }
    ensures shorter { IfOk result (λ r. length r.rest.now < length tokens.now) }
    ensures low { IfOk result (λ r. r.height ≤ depth) }
{
    let Read {
        tree: list,
        height,
        rest,
    } = match stmts(alloc, tokens, depth) {
        Ok(read) => read,
        Err(error) => return Err(error),
    };
    match expect(rest, TokenKind::CloseBrace, within(height, depth)) {
        Ok((close, after)) => Ok(Read {
            tree: Closed { part: list, close },
            height,
            rest: after,
        }),
        Err(error) => Err(discard_stmts(list, error)),
    }
}

/// A body: a block, or one statement behind `do`.
#[cycle(parser)]
pub fn body<'a>(alloc: Global, tokens: &'a [Token], depth: u8) -> Result<Read<'a, Vec<Stmt>>, Stop>
    ensures exact { Exact (one g.body) continues_statement depth tokens.now (seen stmt_list result) }
    ensures shorter { IfOk result (λ r. length r.rest.now < length tokens.now) }
    ensures low { IfOk result (λ r. r.height ≤ depth + 1) }
{
    if let Some((_open, inner)) = strip(tokens, TokenKind::OpenBrace) {
        return match braces(alloc, inner, depth) {
            Ok(
                Read {
                    tree: block,
                    height,
                    rest,
                },
            ) => {
                let Closed {
                    part: stmts,
                    close: _,
                } = block;
                Ok(Read {
                    tree: stmts,
                    height,
                    rest,
                })
            }
            Err(error) => Err(error),
        };
    }
    let behind = match strip(tokens, TokenKind::Do) {
        Some((_do, behind)) => behind,
        None => return Err(Stop::Syntax(tokens.len())),
    };
    match statement(alloc, behind, depth) {
        Ok(
            Read {
                tree: s,
                height,
                rest,
            },
        ) => {
            let none = Vec::new(alloc);
            let list = push_stmt(none, s)?;
            Ok(Read {
                tree: list,
                height,
                rest,
            })
        }
        Err(error) => Err(error),
    }
}

/// The block of a procedure.
#[cycle(parser)]
pub fn block<'a>(alloc: Global, tokens: &'a [Token], depth: u8) -> Result<Read<'a, Vec<Stmt>>, Stop>
    ensures exact { Exact (one (g.block_ Free)) nothing_continues depth tokens.now (seen stmt_list result) }
    ensures shorter { IfOk result (λ r. length r.rest.now < length tokens.now) }
    ensures low { IfOk result (λ r. r.height ≤ depth + 1) }
{
    let inner = match strip(tokens, TokenKind::OpenBrace) {
        Some((_open, inner)) => inner,
        None => return Err(Stop::Syntax(tokens.len())),
    };
    match braces(alloc, inner, depth) {
        Ok(
            Read {
                tree: block,
                height,
                rest,
            },
        ) => {
            let Closed {
                part: stmts,
                close: _,
            } = block;
            Ok(Read {
                tree: stmts,
                height,
                rest,
            })
        }
        Err(error) => Err(error),
    }
}

/// Why no body is read here, where what stands before it is already too deep.
pub fn body_over(tokens: &[Token]) -> Stop
    ensures { BodyOver tokens.now result }
{
    match strip(tokens, TokenKind::OpenBrace) {
        Some((_open, rest)) => Stop::Deep(rest.len()),
        None => match strip(tokens, TokenKind::Do) {
            Some((_do, rest)) => Stop::Deep(rest.len()),
            None => Stop::Syntax(tokens.len()),
        },
    }
}

/// The tokens behind semicolons.
fn behind_semicolons(tokens: &[Token]) -> &[Token]
    ensures skips { Skips tokens.now result.now }
    ensures shorter { length result.now ≤ length tokens.now }
{
    let mut rest = tokens;
    'skip: while let Some((_semicolon, behind)) = strip(rest, TokenKind::Semicolon) {
        rest = behind;
    }
    rest
}

/// Whether nothing goes on with the token before which so many are left.
pub fn stands_at(stop: Stop, left: usize) -> bool
    ensures { IsTrue result ↔ (stop ≡ stops.Syntax left) }
{
    match stop {
        Stop::Syntax(at) => at == left,
        _ => false,
    }
}
