//! Assignments, and expressions that stand alone.

ghost use Rattle.std.specs.Prelude.{List, ◌≡◌, ◌∷◌, ◌<◌, ◌≤◌, ◌+◌, suc, length, Some, IfOk, IfSome, IfNone};
ghost use Rattle.odc_syntax.specs.declared.token.Token.{Token as TokenValue};
ghost use Rattle.odc_syntax.specs.Grammar as g;
ghost use Rattle.odc_syntax.specs.Operators.{assignment_of};
ghost use Rattle.odc_syntax.specs.View.{expr, stmt};
ghost use Rattle.odc_syntax.specs.declared.grammar.Level.TheVariants as levels;
ghost use Rattle.odc_lookahead.specs.Exact.{Exact, Found, one};
ghost use Rattle.odc_lookahead.specs.Read.{seen, refused};
ghost use Rattle.odc_lookahead.specs.Sets.{continues};
ghost use Rattle.odc_lookahead.specs.stmts.StatementSets.{continues_simple, NoAssignment};

use crate::binary::level;
use crate::exprs::{exprs, exprs_from};
use odc_lookahead::operators::later;
use odc_lookahead::read::Read;
use odc_lookahead::stop::Stop;
use odc_lookahead::tokens::first;
use odc_nodes::stmt_nodes;
use odc_syntax::grammar::{Level, Mode};
use odc_syntax::token::{Token, TokenKind};
use odc_syntax::tree::{AssignOp, BinaryOp, Expr, Stmt};
use odc_tree::discard::discard_exprs;
use std::alloc::Global;

/// An assignment, or expressions alone.
#[cycle(parser)]
pub fn simple<'a>(
    alloc: Global,
    mode: Mode,
    tokens: &'a [Token],
    depth: u8,
) -> Result<Read<'a, Stmt>, Stop>
    ensures exact { Exact (one (g.simple mode)) (continues_simple mode) depth tokens.now (seen stmt result) }
    ensures shorter { IfOk result (λ r. length r.rest.now < length tokens.now) }
    ensures low { IfOk result (λ r. r.height ≤ depth + 1) }
{
    if depth == 0 {
        return Err(nothing_fits(alloc, mode, tokens));
    }
    match level(alloc, Level::Or, mode, tokens, depth - 1) {
        Ok(
            Read {
                tree: first,
                height,
                rest,
            },
        ) => simple_from(alloc, mode, first, height, rest, depth - 1),
        Err(error) => Err(error),
    }
}

/// Why no expression is read here where no level is left.
#[cycle(parser)]
pub fn nothing_fits(alloc: Global, mode: Mode, tokens: &[Token]) -> Stop
    ensures exact { Exact (one (g.expression mode)) (continues levels.Or mode) 0 tokens.now (refused result) }
{
    match level(alloc, Level::Or, mode, tokens, 0) {
        Ok(_read) => unreachable!(),
        Err(error) => error,
    }
}

/// An assignment, or expressions alone, of which the first expression is read; its parts may have this
/// depth.
#[cycle(parser)]
pub fn simple_from<'a>(
    alloc: Global,
    mode: Mode,
    first: Expr,
    height: u16,
    tokens: &'a [Token],
    depth: u8,
) -> Result<Read<'a, Stmt>, Stop>
    requires { height ≤ depth + 1 }
    ensures exact { (ts : List TokenValue) → Found (one (g.expression mode)) (continues levels.Or mode) depth ts (expr first) height tokens.now
        → Exact (one (g.simple mode)) (continues_simple mode) (suc depth) ts (seen stmt result) }
    ensures shorter { IfOk result (λ r. length r.rest.now ≤ length tokens.now) }
    ensures low { IfOk result (λ r. r.height ≤ depth + 2) }
{
    let at = first.first;
    let Read {
        tree: places,
        height: n,
        rest,
    } = match exprs_from(alloc, mode, first, height, tokens, depth) {
        Ok(read) => read,
        Err(error) => return Err(error),
    };
    let (op, token, behind) = match assignment(rest) {
        Some(found) => found,
        None => return Ok(Read {
            tree: stmt_nodes::eval(alloc, at, places)?,
            height: n + 1,
            rest,
        }),
    };
    if n > u16::from(depth) {
        return Err(discard_exprs(places, Stop::Deep(behind.len())));
    }
    match exprs(alloc, later(mode), behind, depth) {
        Ok(
            Read {
                tree: values,
                height: m,
                rest: after,
            },
        ) => Ok(Read {
            tree: stmt_nodes::assign(alloc, token.at, places, op, values)?,
            height: n.max(m) + 1,
            rest: after,
        }),
        Err(error) => Err(discard_exprs(places, error)),
    }
}

/// The operator of an assignment.
pub fn assignment_of(kind: TokenKind) -> Option<AssignOp>
    ensures { result ≡ assignment_of kind }
{
    match kind {
        TokenKind::Assign => Some(AssignOp::Set),
        TokenKind::PlusAssign => Some(AssignOp::By(BinaryOp::Add)),
        TokenKind::MinusAssign => Some(AssignOp::By(BinaryOp::Subtract)),
        TokenKind::StarAssign => Some(AssignOp::By(BinaryOp::Multiply)),
        TokenKind::SlashAssign => Some(AssignOp::By(BinaryOp::Divide)),
        TokenKind::PercentAssign => Some(AssignOp::By(BinaryOp::Remainder)),
        TokenKind::PercentPercentAssign => Some(AssignOp::By(BinaryOp::Modulo)),
        TokenKind::AndAssign => Some(AssignOp::By(BinaryOp::BitAnd)),
        TokenKind::OrAssign => Some(AssignOp::By(BinaryOp::BitOr)),
        TokenKind::XorAssign => Some(AssignOp::By(BinaryOp::BitXor)),
        TokenKind::AndNotAssign => Some(AssignOp::By(BinaryOp::AndNot)),
        TokenKind::ShiftLeftAssign => Some(AssignOp::By(BinaryOp::ShiftLeft)),
        TokenKind::ShiftRightAssign => Some(AssignOp::By(BinaryOp::ShiftRight)),
        _ => None,
    }
}

/// The operator of an assignment that stands first, its token, and the tokens behind it.
pub fn assignment(tokens: &[Token]) -> Option<(AssignOp, Token, &[Token])>
    ensures is { IfSome result (λ r. tokens.now ≡ r.1 ∷ r.2.now) }
    ensures op { IfSome result (λ r. assignment_of r.1.kind ≡ Some r.0) }
    ensures none { IfNone result (NoAssignment tokens.now) }
{
    let (token, rest) = first(tokens)?;
    let op = assignment_of(token.kind)?;
    Some((op, token, rest))
}
