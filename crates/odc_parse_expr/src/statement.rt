//! Statements.

ghost use Rattle.std.specs.Prelude.{◌≡◌, ◌∷◌, ◌<◌, ◌≤◌, ◌+◌, length, true, IfOk, IfErr, IfSome, IfNone};
ghost use Rattle.odc_syntax.specs.Grammar as g;
ghost use Rattle.odc_syntax.specs.View.{stmt};
ghost use Rattle.odc_syntax.specs.declared.token.TokenKind.TheVariants as kind;
ghost use Rattle.odc_lookahead.specs.declared.statement_form.StatementForm.TheVariants as forms;
ghost use Rattle.odc_lookahead.specs.Exact.{Exact, one};
ghost use Rattle.odc_lookahead.specs.Read.{seen, refused};
ghost use Rattle.odc_lookahead.specs.stmts.Runs.{NotLabelled};
ghost use Rattle.odc_lookahead.specs.stmts.StatementForms.{statement_form};
ghost use Rattle.odc_lookahead.specs.stmts.Statements.{LabelledRead, labelled_part};
ghost use Rattle.odc_lookahead.specs.stmts.StatementSets.{continues_statement, continues_simple, EndsSimple};

use crate::block::{braces, stands_at};
use crate::conditional::if_statement;
use crate::declaration::declaration;
use crate::exprs::exprs;
use crate::loops::loop_statement;
use crate::runs::label;
use crate::simple::{assignment_of, simple};
use crate::switches::switch_statement;
use crate::types::ty;
use odc_lookahead::name_lists::names_end;
use odc_lookahead::operators::goes_on;
use odc_lookahead::read::{Closed, Read};
use odc_lookahead::statement_form::{StatementForm, statement_form};
use odc_lookahead::stop::Stop;
use odc_lookahead::tokens::{first, same_kind, strip};
use odc_nodes::{nodes, stmt_nodes};
use odc_syntax::grammar::{Mode, Use};
use odc_syntax::token::{Token, TokenKind};
use odc_syntax::tree::{ExprKind, Stmt, StmtKind};
use std::alloc::Global;

/// A statement.
#[cycle(parser)]
pub fn statement<'a>(alloc: Global, tokens: &'a [Token], depth: u8) -> Result<Read<'a, Stmt>, Stop>
    ensures exact { Exact (one g.statement) continues_statement depth tokens.now (seen stmt result) }
    ensures shorter { IfOk result (λ r. length r.rest.now < length tokens.now) }
    ensures low { IfOk result (λ r. r.height ≤ depth + 1) }
{
    let (token, behind) = match first(tokens) {
        Some(found) => found,
        None => return Err(Stop::Syntax(0)),
    };
    match statement_form(token) {
        StatementForm::Simple => simple(alloc, Mode::Start, tokens, depth),
        StatementForm::If => if_statement(alloc, tokens, depth),
        StatementForm::Named => named(alloc, token, behind, tokens, depth),
        StatementForm::Labelled => bare(alloc, token, behind, tokens, depth),
        StatementForm::Defer => defer(alloc, token, behind, depth),
        StatementForm::Return => returns(alloc, token, behind, depth),
        StatementForm::Break => breaks(alloc, token, behind, depth),
        StatementForm::Continue => continues(alloc, token, behind, depth),
        StatementForm::Fallthrough => fallthrough(alloc, token, behind, depth),
    }
}

/// A statement that begins with a name: a declaration, a label, an assignment or expressions.
#[cycle(parser)]
fn named<'a>(
    alloc: Global,
    name: Token,
    behind: &'a [Token],
    tokens: &'a [Token],
    depth: u8,
) -> Result<Read<'a, Stmt>, Stop>
    ensures exact { tokens.now ≡ name ∷ behind.now → name.kind ≡ kind.Name → Exact (one g.statement) continues_statement depth tokens.now (seen stmt result) }
    ensures shorter { tokens.now ≡ name ∷ behind.now → IfOk result (λ r. length r.rest.now < length tokens.now) }
    ensures low { IfOk result (λ r. r.height ≤ depth + 1) }
{
    if depth == 0 {
        return Err(Stop::Deep(behind.len()));
    }
    if let Some((mark, rest)) = label(tokens) {
        return match labelled(alloc, Some(mark), rest, depth - 1) {
            Ok(
                Read {
                    tree: s,
                    height,
                    rest: after,
                },
            ) => Ok(Read {
                tree: s,
                height: height + 1,
                rest: after,
            }),
            Err(error) => Err(error),
        };
    }
    if depth == 1 {
        return last_level(alloc, name, behind);
    }
    match names_end(tokens) {
        Ok(_rest) => match declaration(alloc, Mode::Free, tokens, depth - 1) {
            Ok(
                Read {
                    tree: d,
                    height,
                    rest: after,
                },
            ) => Ok(Read {
                tree: stmt_nodes::declare(alloc, d)?,
                height: height + 1,
                rest: after,
            }),
            Err(error) => Err(error),
        },
        Err(_rest) => simple(alloc, Mode::Start, tokens, depth),
    }
}

/// A name that begins a statement where one level is left: it may be a label, which it is not here, and all
/// else is too deep.
#[cycle(parser)]
fn last_level(alloc: Global, name: Token, behind: &[Token]) -> Result<Read<'_, Stmt>, Stop>
    ensures exact { name.kind ≡ kind.Name → NotLabelled (name ∷ behind.now) → Exact (one g.statement) continues_statement 1 (name ∷ behind.now) (seen stmt result) }
    ensures shorter { IfOk result (λ r. length r.rest.now ≤ length behind.now) }
    ensures low { IfOk result (λ r. r.height ≤ 2) }
{
    if let Some((colon, rest)) = strip(behind, TokenKind::Colon) {
        return Err(declared_too_deep(alloc, name, colon, rest));
    }
    match clause_on(Mode::Start, behind) {
        Some((_token, rest)) => Err(Stop::Deep(rest.len())),
        None => {
            let e = nodes::leaf(alloc, name.at, ExprKind::Name(name))?;
            let list = stmt_nodes::only(alloc, e)?;
            Ok(Read {
                tree: stmt_nodes::eval(alloc, name.at, list)?,
                height: 2,
                rest: behind,
            })
        }
    }
}

/// Why nothing is declared by a name and `:` where one level is left.
#[cycle(parser)]
fn declared_too_deep(alloc: Global, name: Token, colon: Token, tokens: &[Token]) -> Stop
    ensures exact { name.kind ≡ kind.Name → colon.kind ≡ kind.Colon → NotLabelled (name ∷ colon ∷ tokens.now)
        → Exact (one g.statement) continues_statement 1 (name ∷ colon ∷ tokens.now) (refused result) }
{
    if let Some((_assign, rest)) = strip(tokens, TokenKind::Assign) {
        return Stop::Deep(rest.len());
    }
    if let Some((_colon, rest)) = strip(tokens, TokenKind::Colon) {
        return Stop::Deep(rest.len());
    }
    match ty(alloc, Use::Plain, tokens, 0) {
        Ok(_read) => unreachable!(),
        Err(error) => error,
    }
}

/// Whether an assignment or expressions that stand so may go on with a token of this kind.
pub fn goes_on_simple(mode: Mode, kind: TokenKind) -> bool
    ensures { result ≡ continues_simple mode kind }
{
    same_kind(kind, TokenKind::Comma) || goes_on(mode, kind) || assignment_of(kind).is_some()
}

/// A first token with which an assignment or expressions may go on, and the tokens behind it.
fn clause_on(mode: Mode, tokens: &[Token]) -> Option<(Token, &[Token])>
    ensures is { IfSome result (λ r. tokens.now ≡ r.0 ∷ r.1.now) }
    ensures on { IfSome result (λ r. continues_simple mode r.0.kind ≡ true) }
    ensures none { IfNone result (EndsSimple mode tokens.now) }
{
    let (token, rest) = first(tokens)?;
    if goes_on_simple(mode, token.kind) {
        Some((token, rest))
    } else {
        None
    }
}

/// A block, a loop or a switch without a label.
#[cycle(parser)]
fn bare<'a>(
    alloc: Global,
    token: Token,
    behind: &'a [Token],
    tokens: &'a [Token],
    depth: u8,
) -> Result<Read<'a, Stmt>, Stop>
    ensures exact { tokens.now ≡ token ∷ behind.now → statement_form token ≡ forms.Labelled → Exact (one g.statement) continues_statement depth tokens.now (seen stmt result) }
    ensures shorter { IfOk result (λ r. length r.rest.now < length tokens.now) }
    ensures low { IfOk result (λ r. r.height ≤ depth + 1) }
{
    if depth == 0 {
        return Err(Stop::Deep(behind.len()));
    }
    match labelled(alloc, None, tokens, depth - 1) {
        Ok(
            Read {
                tree: s,
                height,
                rest: after,
            },
        ) => Ok(Read {
            tree: s,
            height: height + 1,
            rest: after,
        }),
        Err(error) => Err(error),
    }
}

/// `defer`
#[cycle(parser)]
fn defer<'a>(
    alloc: Global,
    token: Token,
    behind: &'a [Token],
    depth: u8,
) -> Result<Read<'a, Stmt>, Stop>
    ensures exact { statement_form token ≡ forms.Defer → Exact (one g.statement) continues_statement depth (token ∷ behind.now) (seen stmt result) }
    ensures shorter { IfOk result (λ r. length r.rest.now ≤ length behind.now) }
    ensures low { IfOk result (λ r. r.height ≤ depth + 1) }
{
    if depth == 0 {
        return Err(Stop::Deep(behind.len()));
    }
    match statement(alloc, behind, depth - 1) {
        Ok(
            Read {
                tree: s,
                height,
                rest: after,
            },
        ) => Ok(Read {
            tree: stmt_nodes::defer(alloc, token.at, s)?,
            height: height + 1,
            rest: after,
        }),
        Err(error) => Err(error),
    }
}

/// `return`
#[cycle(parser)]
fn returns<'a>(
    alloc: Global,
    token: Token,
    behind: &'a [Token],
    depth: u8,
) -> Result<Read<'a, Stmt>, Stop>
    ensures exact { statement_form token ≡ forms.Return → Exact (one g.statement) continues_statement depth (token ∷ behind.now) (seen stmt result) }
    ensures shorter { IfOk result (λ r. length r.rest.now ≤ length behind.now) }
    ensures low { IfOk result (λ r. r.height ≤ depth + 1) }
{
    if depth == 0 {
        return Err(Stop::Deep(behind.len()));
    }
    match exprs(alloc, Mode::Free, behind, depth - 1) {
        Ok(
            Read {
                tree: values,
                height,
                rest: after,
            },
        ) => {
            Ok(Read {
                tree: stmt_nodes::returns(alloc, token.at, values)?,
                height: height + 1,
                rest: after,
            })
        }
        Err(error) => {
            if stands_at(error, behind.len()) {
                let nothing = Vec::new(alloc);
                Ok(Read {
                    tree: stmt_nodes::returns(alloc, token.at, nothing)?,
                    height: 1,
                    rest: behind,
                })
            } else {
                Err(error)
            }
        }
    }
}

/// `break`, with a label or without.
fn breaks(alloc: Global, token: Token, behind: &[Token], depth: u8) -> Result<Read<'_, Stmt>, Stop>
    ensures exact { statement_form token ≡ forms.Break → Exact (one g.statement) continues_statement depth (token ∷ behind.now) (seen stmt result) }
    ensures shorter { IfOk result (λ r. length r.rest.now ≤ length behind.now) }
    ensures low { IfOk result (λ r. r.height ≤ depth + 1) }
{
    if depth == 0 {
        return Err(Stop::Deep(behind.len()));
    }
    match strip(behind, TokenKind::Name) {
        Some((name, rest)) => {
            let s = stmt_nodes::leaf(alloc, token.at, StmtKind::Break(Some(name)))?;
            Ok(Read {
                tree: s,
                height: 1,
                rest,
            })
        }
        None => Ok(Read {
            tree: stmt_nodes::leaf(alloc, token.at, StmtKind::Break(None))?,
            height: 1,
            rest: behind,
        }),
    }
}

/// `continue`, with a label or without.
fn continues(
    alloc: Global,
    token: Token,
    behind: &[Token],
    depth: u8,
) -> Result<Read<'_, Stmt>, Stop>
    ensures exact { statement_form token ≡ forms.Continue → Exact (one g.statement) continues_statement depth (token ∷ behind.now) (seen stmt result) }
    ensures shorter { IfOk result (λ r. length r.rest.now ≤ length behind.now) }
    ensures low { IfOk result (λ r. r.height ≤ depth + 1) }
{
    if depth == 0 {
        return Err(Stop::Deep(behind.len()));
    }
    match strip(behind, TokenKind::Name) {
        Some((name, rest)) => {
            let s = stmt_nodes::leaf(alloc, token.at, StmtKind::Continue(Some(name)))?;
            Ok(Read {
                tree: s,
                height: 1,
                rest,
            })
        }
        None => Ok(Read {
            tree: stmt_nodes::leaf(alloc, token.at, StmtKind::Continue(None))?,
            height: 1,
            rest: behind,
        }),
    }
}

/// `fallthrough`
fn fallthrough(
    alloc: Global,
    token: Token,
    behind: &[Token],
    depth: u8,
) -> Result<Read<'_, Stmt>, Stop>
    ensures exact { statement_form token ≡ forms.Fallthrough → Exact (one g.statement) continues_statement depth (token ∷ behind.now) (seen stmt result) }
    ensures shorter { IfOk result (λ r. length r.rest.now ≤ length behind.now) }
    ensures low { IfOk result (λ r. r.height ≤ depth + 1) }
{
    if depth == 0 {
        return Err(Stop::Deep(behind.len()));
    }
    Ok(Read {
        tree: stmt_nodes::leaf(alloc, token.at, StmtKind::Fallthrough)?,
        height: 1,
        rest: behind,
    })
}

/// A block, a loop or a switch, as a statement with this label, whose parts may have this depth.
#[cycle(parser)]
fn labelled<'a>(
    alloc: Global,
    label: Option<Token>,
    tokens: &'a [Token],
    depth: u8,
) -> Result<Read<'a, Stmt>, Stop>
    ensures read { IfOk result (λ r. LabelledRead label depth tokens.now (stmt r.tree) r.height r.rest.now) }
    ensures refused { IfErr result (λ e. Exact (one labelled_part) continues_statement depth tokens.now (refused e)) }
    ensures shorter { IfOk result (λ r. length r.rest.now < length tokens.now) }
    ensures low { IfOk result (λ r. r.height ≤ depth + 1) }
{
    if let Some((open, inner)) = strip(tokens, TokenKind::OpenBrace) {
        return match braces(alloc, inner, depth) {
            Ok(
                Read {
                    tree: body,
                    height,
                    rest,
                },
            ) => {
                let Closed {
                    part: stmts,
                    close: _,
                } = body;
                Ok(Read {
                    tree: stmt_nodes::block(alloc, label, open.at, stmts)?,
                    height,
                    rest,
                })
            }
            Err(error) => Err(error),
        };
    }
    match strip(tokens, TokenKind::For) {
        Some((token, behind)) => loop_statement(alloc, label, token, behind, depth),
        None => switch_statement(alloc, label, tokens, depth),
    }
}
