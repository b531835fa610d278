//! `if`, and what stands before bodies.

ghost use Rattle.std.specs.Prelude.{List, ◌≡◌, ◌∷◌, ◌<◌, ◌≤◌, ◌+◌, suc, length, true, IfOk, IfSome, IfNone};
ghost use Rattle.odc_syntax.specs.declared.token.Token.{Token as TokenValue};
ghost use Rattle.odc_syntax.specs.Grammar as g;
ghost use Rattle.odc_syntax.specs.Tree as tree;
ghost use Rattle.odc_syntax.specs.View.{expr, stmt, stmts, header_of, else_of};
ghost use Rattle.odc_lookahead.specs.stmts.BodyParts.{head_line};
ghost use Rattle.odc_parse_expr.specs.Conditionals.{head_of, IfRead};
ghost use Rattle.odc_lookahead.specs.stmts.Headers.{HeadExpression, ClosedFrom, ConditionFrom};
ghost use Rattle.odc_lookahead.specs.Exact.{Exact, one};
ghost use Rattle.odc_lookahead.specs.Read.{seen};
ghost use Rattle.odc_lookahead.specs.stmts.StatementSets.{continues_statement, continues_head, continues_clause, EndsClause};

use crate::binary::level;
use crate::block::{body, body_over};
use crate::declaration::declaration;
use crate::run_bounds::run_over;
use crate::runs::{NamesEnd, names_in};
use crate::simple::{assignment_of, nothing_fits, simple, simple_from};
use odc_lookahead::read::Read;
use odc_lookahead::stop::Stop;
use odc_lookahead::tokens::{expect, first, same_kind, strip, within};
use odc_nodes::stmt_nodes;
use odc_syntax::grammar::{Level, Mode};
use odc_syntax::token::{Token, TokenKind};
use odc_syntax::tree::{Else, Expr, Header, Stmt};
use odc_text::place::Place;
use odc_tree::discard::{discard_expr, discard_header, discard_stmts};
use std::alloc::{AllocError, Global};

/// What stands before a body: a declaration or a simple statement if there is one, and the condition.
pub struct Head {
    pub header: Header,
    pub condition: Expr,
}

/// `if`
#[cycle(parser)]
pub fn if_statement<'a>(
    alloc: Global,
    tokens: &'a [Token],
    depth: u8,
) -> Result<Read<'a, Stmt>, Stop>
    ensures exact { Exact (one g.if_statement) continues_statement depth tokens.now (seen stmt result) }
    ensures shorter { IfOk result (λ r. length r.rest.now < length tokens.now) }
    ensures low { IfOk result (λ r. r.height ≤ depth + 1) }
{
    let (token, behind) = match strip(tokens, TokenKind::If) {
        Some(found) => found,
        None => return Err(Stop::Syntax(tokens.len())),
    };
    if depth == 0 {
        return Err(Stop::Deep(behind.len()));
    }
    let Read {
        tree: head,
        height: n,
        rest,
    } = match before_body(alloc, behind, depth - 1) {
        Ok(read) => read,
        Err(error) => return Err(error),
    };
    if n >= u16::from(depth) {
        return Err(discard_head(head, body_over(rest)));
    }
    match body(alloc, rest, depth - 1) {
        Ok(
            Read {
                tree: block,
                height: m,
                rest: after,
            },
        ) => otherwise(alloc, token.at, head, block, n.max(m), after, depth - 1),
        Err(error) => Err(discard_head(head, error)),
    }
}

/// What stands behind the body of an `if`, whose parts may have this depth.
#[cycle(parser)]
fn otherwise<'a>(
    alloc: Global,
    at: Place,
    head: Head,
    block: Vec<Stmt>,
    height: u16,
    tokens: &'a [Token],
    depth: u8,
) -> Result<Read<'a, Stmt>, Stop>
    requires { height ≤ depth + 1 }
    ensures exact { (ts : List TokenValue) → IfRead depth ts at (head_of head) (stmts block.items) height tokens.now
        → Exact (one g.if_statement) continues_statement (suc depth) ts (seen stmt result) }
    ensures shorter { IfOk result (λ r. length r.rest.now ≤ length tokens.now) }
    ensures low { IfOk result (λ r. r.height ≤ depth + 2) }
{
    let (_else, behind) = match strip(tokens, TokenKind::Else) {
        Some(found) => found,
        None => {
            let s = conditional(alloc, at, head, block, Else::None)?;
            return Ok(Read {
                tree: s,
                height: height + 1,
                rest: tokens,
            });
        }
    };
    if height > u16::from(depth) {
        return Err(discard_if(head, block, Stop::Deep(behind.len())));
    }
    if let Some((_if, _after)) = strip(behind, TokenKind::If) {
        return match if_statement(alloc, behind, depth) {
            Ok(
                Read {
                    tree: s,
                    height: n,
                    rest: after,
                },
            ) => Ok(Read {
                tree: conditional(alloc, at, head, block, Else::If(s))?,
                height: height.max(n) + 1,
                rest: after,
            }),
            Err(error) => Err(discard_if(head, block, error)),
        };
    }
    match body(alloc, behind, depth) {
        Ok(
            Read {
                tree: other,
                height: n,
                rest: after,
            },
        ) => Ok(Read {
            tree: conditional(alloc, at, head, block, Else::Body(other))?,
            height: height.max(n) + 1,
            rest: after,
        }),
        Err(error) => Err(discard_if(head, block, error)),
    }
}

/// What stands before a body, up to it.
#[cycle(parser)]
pub fn before_body<'a>(
    alloc: Global,
    tokens: &'a [Token],
    depth: u8,
) -> Result<Read<'a, Head>, Stop>
    ensures exact { Exact head_line continues_head depth tokens.now (seen head_of result) }
    ensures shorter { IfOk result (λ r. length r.rest.now < length tokens.now) }
    ensures low { IfOk result (λ r. r.height ≤ depth + 1) }
{
    if depth == 0 {
        return Err(nothing_fits(alloc, Mode::Header, tokens));
    }
    match names_in(tokens) {
        NamesEnd::Declared => match declaration(alloc, Mode::Header, tokens, depth) {
            Ok(
                Read {
                    tree: d,
                    height: n,
                    rest,
                },
            ) => closed(alloc, Header::Decl(d), n, rest, depth),
            Err(error) => Err(error),
        },
        NamesEnd::Listed => {
            if depth == 1 {
                return Err(run_over(alloc, tokens));
            }
            match simple(alloc, Mode::Header, tokens, depth) {
                Ok(
                    Read {
                        tree: s,
                        height: n,
                        rest,
                    },
                ) => closed(alloc, Header::Simple(s), n, rest, depth),
                Err(error) => Err(error),
            }
        }
        NamesEnd::Single => match level(alloc, Level::Or, Mode::Header, tokens, depth) {
            Ok(
                Read {
                    tree: e,
                    height: n,
                    rest,
                },
            ) => behind_expression(alloc, e, n, rest, depth),
            Err(error) => Err(error),
        },
    }
}

/// What stands behind the first expression of a header.
#[cycle(parser)]
fn behind_expression<'a>(
    alloc: Global,
    e: Expr,
    height: u16,
    tokens: &'a [Token],
    depth: u8,
) -> Result<Read<'a, Head>, Stop>
    ensures exact { (ts place : List TokenValue) → HeadExpression depth ts place (expr e) height tokens.now → Exact head_line continues_head depth ts (seen head_of result) }
    ensures shorter { IfOk result (λ r. length r.rest.now ≤ length tokens.now) }
    ensures low { height ≤ depth + 1 → IfOk result (λ r. r.height ≤ depth + 1) }
{
    let (token, behind) = match clause_end(tokens) {
        Some(found) => found,
        None => return Ok(Read {
            tree: bare(e),
            height,
            rest: tokens,
        }),
    };
    if height >= u16::from(depth) {
        return Err(discard_expr(e, Stop::Deep(behind.len())));
    }
    if same_kind(token.kind, TokenKind::Semicolon) {
        let header = stmt_nodes::evaluated(alloc, e)?;
        return condition(alloc, header, height + 1, behind, depth);
    }
    match simple_from(alloc, Mode::Header, e, height, tokens, depth - 1) {
        Ok(
            Read {
                tree: s,
                height: n,
                rest,
            },
        ) => closed(alloc, Header::Simple(s), n, rest, depth),
        Err(error) => Err(error),
    }
}

/// A first token that goes on with a simple statement behind its first expression, or its `;`.
pub fn clause_end(tokens: &[Token]) -> Option<(Token, &[Token])>
    ensures is { IfSome result (λ r. tokens.now ≡ r.0 ∷ r.1.now) }
    ensures on { IfSome result (λ r. continues_clause r.0.kind ≡ true) }
    ensures none { IfNone result (EndsClause tokens.now) }
{
    let (token, rest) = first(tokens)?;
    let goes_on = same_kind(token.kind, TokenKind::Comma)
        || same_kind(token.kind, TokenKind::Semicolon)
        || assignment_of(token.kind).is_some();
    if goes_on { Some((token, rest)) } else { None }
}

/// The `;` of a header, and the condition.
#[cycle(parser)]
fn closed<'a>(
    alloc: Global,
    header: Header,
    height: u16,
    tokens: &'a [Token],
    depth: u8,
) -> Result<Read<'a, Head>, Stop>
    ensures exact { (ts : List TokenValue) → ClosedFrom depth ts (header_of header) height tokens.now → Exact head_line continues_head depth ts (seen head_of result) }
    ensures shorter { IfOk result (λ r. length r.rest.now ≤ length tokens.now) }
    ensures low { IfOk result (λ r. r.height ≤ depth + 1) }
{
    match expect(tokens, TokenKind::Semicolon, within(height, depth)) {
        Ok((_semicolon, rest)) => condition(alloc, header, height, rest, depth),
        Err(error) => Err(discard_header(header, error)),
    }
}

/// The condition behind the `;` of a header.
#[cycle(parser)]
fn condition<'a>(
    alloc: Global,
    header: Header,
    height: u16,
    tokens: &'a [Token],
    depth: u8,
) -> Result<Read<'a, Head>, Stop>
    ensures exact { (ts : List TokenValue) → ConditionFrom depth ts (header_of header) height tokens.now → Exact head_line continues_head depth ts (seen head_of result) }
    ensures shorter { IfOk result (λ r. length r.rest.now < length tokens.now) }
    ensures low { height ≤ depth → IfOk result (λ r. r.height ≤ depth + 1) }
{
    match level(alloc, Level::Or, Mode::Header, tokens, depth) {
        Ok(
            Read {
                tree: e,
                height: n,
                rest,
            },
        ) => Ok(Read {
            tree: Head {
                header,
                condition: e,
            },
            height: height.max(n),
            rest,
        }),
        Err(error) => Err(discard_header(header, error)),
    }
}

/// A condition with nothing before it.
fn bare(e: Expr) -> Head
    ensures { head_of result ≡ (tree.no_header, (expr e, tt)) }
{
    Head {
        header: Header::None,
        condition: e,
    }
}

/// `if`, with its `else` or without.
#[inline(never)]
fn conditional(
    alloc: Global,
    at: Place,
    head: Head,
    block: Vec<Stmt>,
    other: Else,
) -> Result<Stmt, AllocError>
    ensures { IfOk result (λ s. stmt s ≡ tree.stmt at (tree.if_ (head_of head).0 (head_of head).1.0 (stmts block.items) (else_of other))) }
{
    let Head { header, condition } = head;
    stmt_nodes::conditional(alloc, at, header, condition, block, other)
}

/// The reason why what stands before a body is not used.
fn discard_head(head: Head, why: Stop) -> Stop
    ensures { result ≡ why }
{
    let Head { header, condition } = head;
    discard_header(header, discard_expr(condition, why))
}

/// The reason why what was read of an `if` is not used.
fn discard_if(head: Head, block: Vec<Stmt>, why: Stop) -> Stop
    ensures { result ≡ why }
{
    discard_head(head, discard_stmts(block, why))
}
