//! `for`.

ghost use Rattle.std.specs.Prelude.{List, ◌≡◌, ◌∷◌, ◌<◌, ◌≤◌, ◌+◌, length, true, IfOk, IfErr, IfSome, IfNone};
ghost use Rattle.odc_syntax.specs.declared.token.Token.{Token as TokenValue};
ghost use Rattle.odc_syntax.specs.declared.token.TokenKind.TheVariants as kind;
ghost use Rattle.odc_syntax.specs.declared.grammar.Mode.TheVariants as modes;
ghost use Rattle.odc_syntax.specs.Derives.{StartsWithout};
ghost use Rattle.odc_syntax.specs.Grammar as g;
ghost use Rattle.odc_syntax.specs.View.{expr, stmt, maybe_expr, header_of};
ghost use Rattle.odc_lookahead.specs.Exact.{Exact, Found, one};
ghost use Rattle.odc_lookahead.specs.stmts.Headers.{HeadExpression};
ghost use Rattle.odc_parse_expr.specs.LoopForms.{end_of, steps_of, loop_of, refers, BeginsBody, FrontIs, LoopStart, LoopClosed, LoopCondition, ConditionRead};
ghost use Rattle.odc_lookahead.specs.stmts.LoopStarts.{Signed, Ranged, MoreNames, OneOver, MoreOver, NameBefore, NoNameBefore, asks, cost, list_cost, goes_one};
ghost use Rattle.odc_lookahead.specs.stmts.Loops.{steps_line, after_line};
ghost use Rattle.odc_lookahead.specs.Read.{seen, refused};
ghost use Rattle.odc_lookahead.specs.Sets.{starts_suffix};
ghost use Rattle.odc_lookahead.specs.stmts.Statements.{LabelledRead, labelled_part, labelled_node};
ghost use Rattle.odc_lookahead.specs.stmts.StatementSets.{continues_statement, continues_simple, EndsClause};

use crate::binary::level;
use crate::block::{body, body_over, stands_at};
use crate::conditional::clause_end;
use crate::declaration::declaration;
use crate::run_bounds::{goes_on_closed, last_over, run_over};
use crate::runs::{NamesEnd, names_in};
use crate::simple::{nothing_fits, simple, simple_from};
use crate::spans::span;
use crate::unary::unary;
use odc_lookahead::read::Read;
use odc_lookahead::stop::Stop;
use odc_lookahead::tokens::{expect, first, same_kind, strip, within};
use odc_nodes::{loop_nodes, stmt_nodes};
use odc_syntax::grammar::{Level, Mode};
use odc_syntax::token::{Token, TokenKind};
use odc_syntax::tree::{Expr, Header, RangeNames, Span, Stmt};
use odc_text::place::Place;
use odc_tree::discard::{
    discard_expr, discard_header, discard_optional_expr, discard_span, discard_stmt,
};
use std::alloc::{AllocError, Global};

/// What is done behind the body of a loop, and its body.
pub struct LoopEnd {
    pub step: Option<Stmt>,
    pub body: Vec<Stmt>,
}

/// What stands behind the first `;` of a loop.
pub struct LoopSteps {
    pub condition: Option<Expr>,
    pub semicolon: Token,
    pub end: LoopEnd,
}

/// What stands behind `for`.
pub enum Loop {
    /// A body.
    Ever(Vec<Stmt>),
    /// A condition and a body.
    While(Expr, Vec<Stmt>),
    /// What stands before the first `;`, and behind it.
    Steps(Header, LoopSteps),
    /// Variables, what they range over, and a body.
    Range(RangeNames, Span, Vec<Stmt>),
}

/// What stands before the first variable of a loop.
#[derive(Clone, Copy)]
pub enum Sign {
    /// Nothing.
    Plain,
    /// `&`
    Reference,
}

/// What stands first behind `for`, as far as it may be variables.
#[derive(Clone, Copy)]
pub enum Front {
    /// Variables and `in`.
    Range(RangeNames),
    /// A name, or `&` and a name, behind which neither a comma nor `in` stands.
    One(Sign),
    /// A name, or `&` and a name, and a comma, behind which no name and `in` stand.
    More(Sign),
    /// `&`, behind which no name stands.
    Address,
    /// Neither a name nor `&`.
    Other,
}

/// `for` as a statement with this label, whose parts may have this depth.
#[cycle(parser)]
pub fn loop_statement<'a>(
    alloc: Global,
    label: Option<Token>,
    token: Token,
    behind: &'a [Token],
    depth: u8,
) -> Result<Read<'a, Stmt>, Stop>
    ensures read { token.kind ≡ kind.For → IfOk result (λ r. LabelledRead label depth (token ∷ behind.now) (stmt r.tree) r.height r.rest.now) }
    ensures refused { token.kind ≡ kind.For → IfErr result (λ e. Exact (one labelled_part) continues_statement depth (token ∷ behind.now) (refused e)) }
    ensures shorter { IfOk result (λ r. length r.rest.now ≤ length behind.now) }
    ensures low { IfOk result (λ r. r.height ≤ depth + 1) }
{
    match looped(alloc, token, behind, depth) {
        Ok(
            Read {
                tree: read,
                height,
                rest,
            },
        ) => Ok(Read {
            tree: built(alloc, label, token.at, read)?,
            height,
            rest,
        }),
        Err(error) => Err(error),
    }
}

/// What stands behind `for`.
#[cycle(parser)]
fn looped<'a>(
    alloc: Global,
    token: Token,
    tokens: &'a [Token],
    depth: u8,
) -> Result<Read<'a, Loop>, Stop>
    ensures exact { token.kind ≡ kind.For → Exact (one labelled_part) continues_statement depth (token ∷ tokens.now) (seen (loop_of token.at) result) }
    ensures shorter { IfOk result (λ r. length r.rest.now ≤ length tokens.now) }
    ensures low { IfOk result (λ r. r.height ≤ depth + 1) }
{
    if begins_body(tokens) {
        return match body(alloc, tokens, depth) {
            Ok(
                Read {
                    tree: block,
                    height,
                    rest,
                },
            ) => Ok(Read {
                tree: Loop::Ever(block),
                height,
                rest,
            }),
            Err(error) => Err(error),
        };
    }
    match strip(tokens, TokenKind::Semicolon) {
        Some((_semicolon, behind)) => match steps(alloc, behind, depth) {
            Ok(
                Read {
                    tree: read,
                    height,
                    rest,
                },
            ) => Ok(Read {
                tree: Loop::Steps(Header::None, read),
                height,
                rest,
            }),
            Err(error) => Err(error),
        },
        None => clauses(alloc, token, tokens, depth),
    }
}

/// Whether a body stands first.
fn begins_body(tokens: &[Token]) -> bool
    ensures { BeginsBody tokens.now result }
{
    match strip(tokens, TokenKind::OpenBrace) {
        Some(_found) => true,
        None => match strip(tokens, TokenKind::Do) {
            Some(_found) => true,
            None => false,
        },
    }
}

/// What stands behind `for` and is neither a body nor a `;`.
#[cycle(parser)]
fn clauses<'a>(
    alloc: Global,
    token: Token,
    tokens: &'a [Token],
    depth: u8,
) -> Result<Read<'a, Loop>, Stop>
    ensures exact { token.kind ≡ kind.For → StartsWithout kind.OpenBrace tokens.now → StartsWithout kind.Do tokens.now → StartsWithout kind.Semicolon tokens.now
        → Exact (one labelled_part) continues_statement depth (token ∷ tokens.now) (seen (loop_of token.at) result) }
    ensures shorter { IfOk result (λ r. length r.rest.now ≤ length tokens.now) }
    ensures low { IfOk result (λ r. r.height ≤ depth + 1) }
{
    let (found, rest) = front_of(tokens);
    match found {
        Front::Range(names) => over(alloc, token, names, rest, depth),
        Front::One(sign) => {
            if depth < cost(sign) {
                Err(one_over(sign, rest))
            } else {
                clause(alloc, token, tokens, depth)
            }
        }
        Front::More(sign) => {
            if depth < list_cost(sign) {
                Err(more_over(alloc, sign, rest))
            } else {
                match sign {
                    Sign::Reference => list(alloc, token, tokens, depth),
                    Sign::Plain => clause(alloc, token, tokens, depth),
                }
            }
        }
        Front::Address => {
            if depth == 0 {
                Err(no_operand(alloc, rest))
            } else {
                clause(alloc, token, tokens, depth)
            }
        }
        Front::Other => {
            if depth == 0 {
                Err(nothing_fits(alloc, Mode::Header, tokens))
            } else {
                clause(alloc, token, tokens, depth)
            }
        }
    }
}

/// What stands first behind `for`, as far as it may be variables, and the tokens behind it.
fn front_of(tokens: &[Token]) -> (Front, &[Token])
    ensures { FrontIs tokens.now result.0 result.1.now }
{
    let (sign, rest) = signed(tokens);
    match strip(rest, TokenKind::Name) {
        Some((name, behind)) => behind_name(sign, name, behind),
        None => (unnamed(sign), rest),
    }
}

/// Whether `&` stands first, and the tokens behind it.
fn signed(tokens: &[Token]) -> (Sign, &[Token])
    ensures { Signed (refers result.0) tokens.now result.1.now }
{
    match strip(tokens, TokenKind::Ampersand) {
        Some((_sign, rest)) => (Sign::Reference, rest),
        None => (Sign::Plain, tokens),
    }
}

/// Whether this is `&`.
fn refers(sign: Sign) -> bool
    ensures { result ≡ refers sign }
{
    match sign {
        Sign::Plain => false,
        Sign::Reference => true,
    }
}

/// What stands first where no name stands behind what may be `&`.
fn unnamed(sign: Sign) -> Front
    ensures { (ts rest : List TokenValue) → Signed (refers sign) ts rest → StartsWithout kind.Name rest → FrontIs ts result rest }
{
    match sign {
        Sign::Reference => Front::Address,
        Sign::Plain => Front::Other,
    }
}

/// What stands first where a name does.
fn behind_name(sign: Sign, name: Token, tokens: &[Token]) -> (Front, &[Token])
    ensures { (ts : List TokenValue) → Signed (refers sign) ts (name ∷ tokens.now) → name.kind ≡ kind.Name → FrontIs ts result.0 result.1.now }
{
    match strip(tokens, TokenKind::In) {
        Some((_in, rest)) => (Front::Range(variables(sign, name, None)), rest),
        None => match strip(tokens, TokenKind::Comma) {
            Some((_comma, last)) => match second(last) {
                Some((other, rest)) => (Front::Range(variables(sign, name, Some(other))), rest),
                None => (Front::More(sign), last),
            },
            None => (Front::One(sign), tokens),
        },
    }
}

/// The variables of a loop.
fn variables(sign: Sign, first: Token, second: Option<Token>) -> RangeNames
    ensures { result ≡ record { by_reference = refers sign; first = first; second = second } }
{
    RangeNames {
        by_reference: refers(sign),
        first,
        second,
    }
}

/// A name before `in`, and the tokens behind it.
fn second(tokens: &[Token]) -> Option<(Token, &[Token])>
    ensures is { IfSome result (λ r. NameBefore kind.In tokens.now r.0 r.1.now) }
    ensures none { IfNone result (NoNameBefore kind.In tokens.now) }
{
    match strip(tokens, TokenKind::Name) {
        Some((name, behind)) => match strip(behind, TokenKind::In) {
            Some((_in, rest)) => Some((name, rest)),
            None => None,
        },
        None => None,
    }
}

/// What a name costs as an expression, or `&` and a name.
fn cost(sign: Sign) -> u8
    ensures { result ≡ cost (refers sign) }
{
    match sign {
        Sign::Plain => 1,
        Sign::Reference => 2,
    }
}

/// What clauses cost that begin with a name and a comma, or with `&`, a name and a comma.
fn list_cost(sign: Sign) -> u8
    ensures { result ≡ list_cost (refers sign) }
{
    match sign {
        Sign::Plain => 1,
        Sign::Reference => 3,
    }
}

/// Why nothing is read behind a name, or `&` and a name, that cost too much as an expression.
fn one_over(sign: Sign, tokens: &[Token]) -> Stop
    ensures { OneOver (refers sign) tokens.now result }
{
    match first(tokens) {
        Some((next, rest)) => {
            if goes_one(sign, next.kind) {
                Stop::Deep(rest.len())
            } else {
                Stop::Syntax(tokens.len())
            }
        }
        None => Stop::Syntax(0),
    }
}

/// Whether a loop may go on with a token of this kind behind a name, or `&` and a name.
fn goes_one(sign: Sign, kind: TokenKind) -> bool
    ensures { result ≡ goes_one (refers sign) kind }
{
    match kind {
        TokenKind::OpenBrace | TokenKind::Do => true,
        TokenKind::Colon => match sign {
            Sign::Plain => true,
            Sign::Reference => false,
        },
        _ => goes_on_closed(kind),
    }
}

/// Why nothing is read behind a name and a comma, or `&`, a name and a comma, where clauses cost too much.
#[cycle(parser)]
fn more_over(alloc: Global, sign: Sign, tokens: &[Token]) -> Stop
    ensures { MoreOver (refers sign) tokens.now result }
{
    match sign {
        Sign::Reference => last_over(alloc, tokens),
        Sign::Plain => match declared(tokens) {
            Some((_name, rest)) => Stop::Deep(rest.len()),
            None => last_over(alloc, tokens),
        },
    }
}

/// A name before `:`, and the tokens behind it.
fn declared(tokens: &[Token]) -> Option<(Token, &[Token])>
    ensures is { IfSome result (λ r. NameBefore kind.Colon tokens.now r.0 r.1.now) }
    ensures none { IfNone result (NoNameBefore kind.Colon tokens.now) }
{
    match strip(tokens, TokenKind::Name) {
        Some((name, behind)) => match strip(behind, TokenKind::Colon) {
            Some((_colon, rest)) => Some((name, rest)),
            None => None,
        },
        None => None,
    }
}

/// Why no operand is read where no level is left.
#[cycle(parser)]
fn no_operand(alloc: Global, tokens: &[Token]) -> Stop
    ensures { Exact (one (g.unary modes.Header)) (starts_suffix modes.Header) 0 tokens.now (refused result) }
{
    match unary(alloc, Mode::Header, tokens, 0) {
        Ok(_read) => unreachable!(),
        Err(error) => error,
    }
}

/// What variables range over, and the body.
#[cycle(parser)]
fn over<'a>(
    alloc: Global,
    token: Token,
    names: RangeNames,
    tokens: &'a [Token],
    depth: u8,
) -> Result<Read<'a, Loop>, Stop>
    ensures exact { (ts : List TokenValue) → token.kind ≡ kind.For → Ranged ts names tokens.now → Exact (one labelled_part) continues_statement depth (token ∷ ts) (seen (loop_of token.at) result) }
    ensures shorter { IfOk result (λ r. length r.rest.now ≤ length tokens.now) }
    ensures low { IfOk result (λ r. r.height ≤ depth + 1) }
{
    let Read {
        tree: value,
        height: n,
        rest,
    } = match span(alloc, Mode::Header, tokens, depth) {
        Ok(read) => read,
        Err(error) => return Err(error),
    };
    if n > u16::from(depth) {
        return Err(discard_span(value, body_over(rest)));
    }
    match body(alloc, rest, depth) {
        Ok(
            Read {
                tree: block,
                height: m,
                rest: after,
            },
        ) => Ok(Read {
            tree: Loop::Range(names, value, block),
            height: n.max(m),
            rest: after,
        }),
        Err(error) => Err(discard_span(value, error)),
    }
}

/// What stands before the first `;`, or a condition, and what stands behind it.
#[cycle(parser)]
fn clause<'a>(
    alloc: Global,
    token: Token,
    tokens: &'a [Token],
    depth: u8,
) -> Result<Read<'a, Loop>, Stop>
    ensures exact { (place : List TokenValue) → (s : LoopStart token tokens.now place) → asks s.unranged ≤ depth → asks s.unranged ≤ 2
        → Exact (one labelled_part) continues_statement depth (token ∷ tokens.now) (seen (loop_of token.at) result) }
    ensures shorter { IfOk result (λ r. length r.rest.now ≤ length tokens.now) }
    ensures low { IfOk result (λ r. r.height ≤ depth + 1) }
{
    match names_in(tokens) {
        NamesEnd::Declared => match declaration(alloc, Mode::Header, tokens, depth) {
            Ok(
                Read {
                    tree: d,
                    height: n,
                    rest,
                },
            ) => {
                let header = Header::Decl(d);
                closed(alloc, token, header, n, rest, depth)
            }
            Err(error) => Err(error),
        },
        NamesEnd::Listed => {
            if depth == 1 {
                return Err(run_over(alloc, tokens));
            }
            match simple(alloc, Mode::Header, tokens, depth) {
                Ok(
                    Read {
                        tree: s,
                        height: n,
                        rest,
                    },
                ) => {
                    let header = Header::Simple(s);
                    closed(alloc, token, header, n, rest, depth)
                }
                Err(error) => Err(error),
            }
        }
        NamesEnd::Single => match level(alloc, Level::Or, Mode::Header, tokens, depth) {
            Ok(
                Read {
                    tree: e,
                    height: n,
                    rest,
                },
            ) => behind_expression(alloc, token, e, n, rest, depth),
            Err(error) => Err(error),
        },
    }
}

/// A simple statement that begins with `&`, a name and a comma, and what stands behind it.
#[cycle(parser)]
fn list<'a>(
    alloc: Global,
    token: Token,
    tokens: &'a [Token],
    depth: u8,
) -> Result<Read<'a, Loop>, Stop>
    ensures exact { (place last : List TokenValue) → LoopStart token tokens.now place → MoreNames true tokens.now last → 2 < depth
        → Exact (one labelled_part) continues_statement depth (token ∷ tokens.now) (seen (loop_of token.at) result) }
    ensures shorter { IfOk result (λ r. length r.rest.now ≤ length tokens.now) }
    ensures low { IfOk result (λ r. r.height ≤ depth + 1) }
{
    match simple(alloc, Mode::Header, tokens, depth) {
        Ok(
            Read {
                tree: s,
                height: n,
                rest,
            },
        ) => {
            let header = Header::Simple(s);
            closed(alloc, token, header, n, rest, depth)
        }
        Err(error) => Err(error),
    }
}

/// What stands behind the first expression of a loop.
#[cycle(parser)]
fn behind_expression<'a>(
    alloc: Global,
    token: Token,
    e: Expr,
    height: u16,
    tokens: &'a [Token],
    depth: u8,
) -> Result<Read<'a, Loop>, Stop>
    ensures exact { (ts place p : List TokenValue) → (s : LoopStart token ts place) → asks s.unranged ≤ depth → asks s.unranged ≤ 2 → HeadExpression depth ts p (expr e) height tokens.now
        → Exact (one labelled_part) continues_statement depth (token ∷ ts) (seen (loop_of token.at) result) }
    ensures shorter { IfOk result (λ r. length r.rest.now ≤ length tokens.now) }
    ensures low { height ≤ depth + 1 → IfOk result (λ r. r.height ≤ depth + 1) }
{
    let (next, behind) = match clause_end(tokens) {
        Some(found) => found,
        None => return with_condition(alloc, token, e, height, tokens, depth),
    };
    if height >= u16::from(depth) {
        return Err(discard_expr(e, Stop::Deep(behind.len())));
    }
    if same_kind(next.kind, TokenKind::Semicolon) {
        let header = stmt_nodes::evaluated(alloc, e)?;
        return stepped(alloc, token, header, height + 1, behind, depth);
    }
    match simple_from(alloc, Mode::Header, e, height, tokens, depth - 1) {
        Ok(
            Read {
                tree: s,
                height: n,
                rest,
            },
        ) => {
            let header = Header::Simple(s);
            closed(alloc, token, header, n, rest, depth)
        }
        Err(error) => Err(error),
    }
}

/// The body behind a condition.
#[cycle(parser)]
fn with_condition<'a>(
    alloc: Global,
    token: Token,
    e: Expr,
    height: u16,
    tokens: &'a [Token],
    depth: u8,
) -> Result<Read<'a, Loop>, Stop>
    ensures exact { (ts place p : List TokenValue) → (s : LoopStart token ts place) → asks s.unranged ≤ depth → asks s.unranged ≤ 2 → HeadExpression depth ts p (expr e) height tokens.now → EndsClause tokens.now
        → Exact (one labelled_part) continues_statement depth (token ∷ ts) (seen (loop_of token.at) result) }
    ensures shorter { IfOk result (λ r. length r.rest.now ≤ length tokens.now) }
    ensures low { height ≤ depth + 1 → IfOk result (λ r. r.height ≤ depth + 1) }
{
    if height > u16::from(depth) {
        return Err(discard_expr(e, body_over(tokens)));
    }
    match body(alloc, tokens, depth) {
        Ok(
            Read {
                tree: block,
                height: n,
                rest,
            },
        ) => Ok(Read {
            tree: Loop::While(e, block),
            height: height.max(n),
            rest,
        }),
        Err(error) => Err(discard_expr(e, error)),
    }
}

/// The first `;` of a loop, and what stands behind it.
#[cycle(parser)]
fn closed<'a>(
    alloc: Global,
    token: Token,
    header: Header,
    height: u16,
    tokens: &'a [Token],
    depth: u8,
) -> Result<Read<'a, Loop>, Stop>
    ensures exact { (ts place : List TokenValue) → (s : LoopStart token ts place) → LoopClosed depth ts place s.unranged (header_of header) height tokens.now
        → Exact (one labelled_part) continues_statement depth (token ∷ ts) (seen (loop_of token.at) result) }
    ensures shorter { IfOk result (λ r. length r.rest.now ≤ length tokens.now) }
    ensures low { IfOk result (λ r. r.height ≤ depth + 1) }
{
    match expect(tokens, TokenKind::Semicolon, within(height, depth)) {
        Ok((_semicolon, rest)) => stepped(alloc, token, header, height, rest, depth),
        Err(error) => Err(discard_header(header, error)),
    }
}

/// What stands behind the first `;` of a loop.
#[cycle(parser)]
fn stepped<'a>(
    alloc: Global,
    token: Token,
    header: Header,
    height: u16,
    tokens: &'a [Token],
    depth: u8,
) -> Result<Read<'a, Loop>, Stop>
    ensures exact { (ts place : List TokenValue) → (s : LoopStart token ts place) → LoopCondition depth ts place s.unranged (header_of header) height tokens.now
        → Exact (one labelled_part) continues_statement depth (token ∷ ts) (seen (loop_of token.at) result) }
    ensures shorter { IfOk result (λ r. length r.rest.now ≤ length tokens.now) }
    ensures low { height ≤ depth → IfOk result (λ r. r.height ≤ depth + 1) }
{
    match steps(alloc, tokens, depth) {
        Ok(
            Read {
                tree: read,
                height: n,
                rest,
            },
        ) => Ok(Read {
            tree: Loop::Steps(header, read),
            height: height.max(n),
            rest,
        }),
        Err(error) => Err(discard_header(header, error)),
    }
}

/// The condition if there is one, its `;`, what is done behind the body if anything is, and the body.
#[cycle(parser)]
fn steps<'a>(alloc: Global, tokens: &'a [Token], depth: u8) -> Result<Read<'a, LoopSteps>, Stop>
    ensures exact { Exact steps_line continues_statement depth tokens.now (seen steps_of result) }
    ensures shorter { IfOk result (λ r. length r.rest.now ≤ length tokens.now) }
    ensures low { IfOk result (λ r. r.height ≤ depth + 1) }
{
    match level(alloc, Level::Or, Mode::Header, tokens, depth) {
        Ok(
            Read {
                tree: e,
                height,
                rest,
            },
        ) => behind_condition(alloc, Some(e), height, rest, depth),
        Err(error) => {
            if stands_at(error, tokens.len()) {
                behind_condition(alloc, None, 0, tokens, depth)
            } else {
                Err(error)
            }
        }
    }
}

/// The `;` behind the condition, and what stands behind it.
#[cycle(parser)]
fn behind_condition<'a>(
    alloc: Global,
    condition: Option<Expr>,
    height: u16,
    tokens: &'a [Token],
    depth: u8,
) -> Result<Read<'a, LoopSteps>, Stop>
    ensures exact { (ts : List TokenValue) → ConditionRead depth ts (maybe_expr condition) height tokens.now → Exact steps_line continues_statement depth ts (seen steps_of result) }
    ensures shorter { IfOk result (λ r. length r.rest.now ≤ length tokens.now) }
    ensures low { IfOk result (λ r. r.height ≤ depth + 1) }
{
    match expect(tokens, TokenKind::Semicolon, within(height, depth)) {
        Ok((semicolon, behind)) => match ending(alloc, behind, depth) {
            Ok(
                Read {
                    tree: end,
                    height: n,
                    rest,
                },
            ) => {
                let read = LoopSteps {
                    condition,
                    semicolon,
                    end,
                };
                Ok(Read {
                    tree: read,
                    height: height.max(n),
                    rest,
                })
            }
            Err(error) => Err(discard_optional_expr(condition, error)),
        },
        Err(error) => Err(discard_optional_expr(condition, error)),
    }
}

/// What is done behind the body of a loop if anything is, and the body.
#[cycle(parser)]
fn ending<'a>(alloc: Global, tokens: &'a [Token], depth: u8) -> Result<Read<'a, LoopEnd>, Stop>
    ensures exact { Exact after_line continues_statement depth tokens.now (seen end_of result) }
    ensures shorter { IfOk result (λ r. length r.rest.now ≤ length tokens.now) }
    ensures low { IfOk result (λ r. r.height ≤ depth + 1) }
{
    match simple(alloc, Mode::Header, tokens, depth) {
        Ok(
            Read {
                tree: s,
                height,
                rest,
            },
        ) => behind_step(alloc, s, height, rest, depth),
        Err(error) => {
            if stands_at(error, tokens.len()) {
                return match body(alloc, tokens, depth) {
                    Ok(
                        Read {
                            tree: block,
                            height: n,
                            rest: after,
                        },
                    ) => {
                        let end = LoopEnd {
                            step: None,
                            body: block,
                        };
                        Ok(Read {
                            tree: end,
                            height: n,
                            rest: after,
                        })
                    }
                    Err(stop) => Err(stop),
                };
            }
            Err(error)
        }
    }
}

/// The body of a loop, behind what is done behind it.
#[cycle(parser)]
fn behind_step<'a>(
    alloc: Global,
    s: Stmt,
    height: u16,
    tokens: &'a [Token],
    depth: u8,
) -> Result<Read<'a, LoopEnd>, Stop>
    ensures exact { (ts : List TokenValue) → Found (one (g.simple modes.Header)) (continues_simple modes.Header) depth ts (stmt s) height tokens.now → length tokens.now < length ts
        → Exact after_line continues_statement depth ts (seen end_of result) }
    ensures shorter { IfOk result (λ r. length r.rest.now ≤ length tokens.now) }
    ensures low { height ≤ depth + 1 → IfOk result (λ r. r.height ≤ depth + 1) }
{
    if height > u16::from(depth) {
        return Err(discard_stmt(s, body_over(tokens)));
    }
    match body(alloc, tokens, depth) {
        Ok(
            Read {
                tree: block,
                height: n,
                rest: after,
            },
        ) => {
            let end = LoopEnd {
                step: Some(s),
                body: block,
            };
            Ok(Read {
                tree: end,
                height: height.max(n),
                rest: after,
            })
        }
        Err(error) => Err(discard_stmt(s, error)),
    }
}

/// The statement that was read.
#[inline(never)]
fn built(alloc: Global, label: Option<Token>, at: Place, read: Loop) -> Result<Stmt, AllocError>
    ensures { IfOk result (λ s. stmt s ≡ labelled_node label (loop_of at read)) }
{
    match read {
        Loop::Ever(block) => loop_nodes::repeat(alloc, label, at, Header::None, None, None, block),
        Loop::While(e, block) => {
            loop_nodes::repeat(alloc, label, at, Header::None, Some(e), None, block)
        }
        Loop::Steps(header, read) => {
            let LoopSteps {
                condition,
                semicolon: _,
                end,
            } = read;
            let LoopEnd { step, body } = end;
            loop_nodes::repeat(alloc, label, at, header, condition, step, body)
        }
        Loop::Range(names, value, block) => loop_nodes::range(
            alloc, label, at, names, value, block,
        ),
    }
}
