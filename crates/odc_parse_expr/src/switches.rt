//! `switch`.

ghost use Rattle.std.specs.Prelude.{List, ◌≡◌, ◌∷◌, ◌<◌, ◌≤◌, ◌+◌, length, true, ℕ, IfOk, IfErr, IfSome, IfNone};
ghost use Rattle.odc_syntax.specs.declared.token.Token.{Token as TokenValue};
ghost use Rattle.odc_syntax.specs.declared.token.TokenKind.TheVariants as kind;
ghost use Rattle.odc_syntax.specs.declared.token.Word.TheVariants as words;
ghost use Rattle.odc_syntax.specs.Derives.{StartsWithout};
ghost use Rattle.odc_syntax.specs.Tree as tree;
ghost use Rattle.odc_syntax.specs.View.{expr, stmt, header_of, cases as case_tree};
ghost use Rattle.odc_lookahead.specs.Exact.{Exact, one};
ghost use Rattle.odc_lookahead.specs.stmts.Headers.{Listed, HeadExpression, ClosedFrom, ConditionFrom};
ghost use Rattle.odc_lookahead.specs.Read.{seen, refused};
ghost use Rattle.odc_lookahead.specs.stmts.Statements.{LabelledRead, labelled_part, labelled_node};
ghost use Rattle.odc_lookahead.specs.stmts.StatementSets.{continues_statement, continues_head};
ghost use Rattle.odc_parse_expr.specs.SwitchForms.{head_of};
ghost use Rattle.odc_lookahead.specs.stmts.SwitchParts.{by_value, switch_head, switched, NotTyped, NotPartial, WordRead};
ghost use Rattle.odc_lookahead.specs.stmts.SwitchSets.{before_cases, EndsHead};

use crate::binary::level;
use crate::block::stands_at;
use crate::cases::cases;
use crate::conditional::clause_end;
use crate::declaration::declaration;
use crate::run_bounds::run_over;
use crate::runs::{NamesEnd, names_in};
use crate::simple::{nothing_fits, simple, simple_from};
use crate::statement::goes_on_simple;
use odc_lookahead::read::Read;
use odc_lookahead::stop::Stop;
use odc_lookahead::tokens::{Fit, expect, first, same_kind, strip, within};
use odc_nodes::{nodes, stmt_nodes, switch_nodes};
use odc_syntax::grammar::{Level, Mode};
use odc_syntax::token::{Token, TokenKind, Word};
use odc_syntax::tree::{Case, Expr, ExprKind, Header, Stmt, SwitchWord};
use odc_text::place::Place;
use odc_tree::discard::{discard_cases, discard_expr, discard_header, discard_optional_expr};
use std::alloc::{AllocError, Global};

/// What stands between `switch` and its cases.
pub enum SwitchHead {
    /// What stands before the value, and the value.
    Value(Header, Option<Expr>),
    /// A name, `in`, and the value.
    Type(Token, Token, Expr),
}

/// `switch` as a statement with this label, whose parts may have this depth.
#[cycle(parser)]
pub fn switch_statement<'a>(
    alloc: Global,
    label: Option<Token>,
    tokens: &'a [Token],
    depth: u8,
) -> Result<Read<'a, Stmt>, Stop>
    ensures read { StartsWithout kind.OpenBrace tokens.now → StartsWithout kind.For tokens.now → IfOk result (λ r. LabelledRead label depth tokens.now (stmt r.tree) r.height r.rest.now) }
    ensures refused { StartsWithout kind.OpenBrace tokens.now → StartsWithout kind.For tokens.now → IfErr result (λ e. Exact (one labelled_part) continues_statement depth tokens.now (refused e)) }
    ensures shorter { IfOk result (λ r. length r.rest.now < length tokens.now) }
    ensures low { IfOk result (λ r. r.height ≤ depth + 1) }
{
    let (at, word, behind) = match switch_word(tokens) {
        Ok(found) => found,
        Err(error) => return Err(error),
    };
    let Read {
        tree: head,
        height: n,
        rest,
    } = match before_cases(alloc, behind, depth) {
        Ok(read) => read,
        Err(error) => return Err(error),
    };
    let inner = match expect(rest, TokenKind::OpenBrace, within(n, depth)) {
        Ok((_open, inner)) => inner,
        Err(error) => return Err(discard_head(head, error)),
    };
    let Read {
        tree: list,
        height: m,
        rest: after,
    } = match cases(alloc, inner, depth) {
        Ok(read) => read,
        Err(error) => return Err(discard_head(head, error)),
    };
    let height = n.max(m);
    match expect(after, TokenKind::CloseBrace, within(height, depth)) {
        Ok((_close, end)) => Ok(Read {
            tree: switched(alloc, label, at, word, head, list)?,
            height,
            rest: end,
        }),
        Err(error) => Err(discard_head(head, discard_cases(list, error))),
    }
}

/// The place of `switch`, with what stands before it, the word, and the tokens behind it.
fn switch_word(tokens: &[Token]) -> Result<(Place, SwitchWord, &[Token]), Stop>
    ensures word { IfOk result (λ r. WordRead tokens.now r.0 r.1 r.2.now) }
    ensures refused { IfErr result (λ e. (b : ℕ) → StartsWithout kind.OpenBrace tokens.now → StartsWithout kind.For tokens.now → Exact (one labelled_part) continues_statement b tokens.now (refused e)) }
    ensures shorter { IfOk result (λ r. length r.2.now < length tokens.now) }
{
    if let Some((token, rest)) = strip(tokens, TokenKind::Switch) {
        let word = SwitchWord {
            at: token.at,
            partial: false,
        };
        return Ok((token.at, word, rest));
    }
    let (mark, behind) = match partial(tokens) {
        Some(found) => found,
        None => return Err(Stop::Syntax(tokens.len())),
    };
    match expect(behind, TokenKind::Switch, Fit::Within) {
        Ok((token, rest)) => {
            let word = SwitchWord {
                at: token.at,
                partial: true,
            };
            Ok((mark.at, word, rest))
        }
        Err(error) => Err(error),
    }
}

/// `#partial`, and the tokens behind it.
fn partial(tokens: &[Token]) -> Option<(Token, &[Token])>
    ensures is { IfSome result (λ r. tokens.now ≡ r.0 ∷ r.1.now) }
    ensures kind { IfSome result (λ r. r.0.kind ≡ kind.Directive) }
    ensures word { IfSome result (λ r. r.0.word ≡ words.Partial) }
    ensures none { IfNone result (NotPartial tokens.now) }
{
    let (token, rest) = strip(tokens, TokenKind::Directive)?;
    match token.word {
        Word::Partial => Some((token, rest)),
        _ => None,
    }
}

/// A name, the `in` behind it, and the tokens behind both.
fn name_in(tokens: &[Token]) -> Option<(Token, Token, &[Token])>
    ensures is { IfSome result (λ r. tokens.now ≡ r.0 ∷ r.1 ∷ r.2.now) }
    ensures name { IfSome result (λ r. r.0.kind ≡ kind.Name) }
    ensures mark { IfSome result (λ r. r.1.kind ≡ kind.In) }
    ensures none { IfNone result (NotTyped tokens.now) }
{
    let (name, behind) = strip(tokens, TokenKind::Name)?;
    let (mark, rest) = strip(behind, TokenKind::In)?;
    Some((name, mark, rest))
}

/// What stands between `switch` and its cases, up to them.
#[inline(never)]
#[cycle(parser)]
fn before_cases<'a>(
    alloc: Global,
    tokens: &'a [Token],
    depth: u8,
) -> Result<Read<'a, SwitchHead>, Stop>
    ensures exact { Exact switch_head before_cases depth tokens.now (seen head_of result) }
    ensures shorter { IfOk result (λ r. length r.rest.now ≤ length tokens.now) }
    ensures low { IfOk result (λ r. r.height ≤ depth + 1) }
{
    if let Some((name, mark, rest)) = name_in(tokens) {
        return match level(alloc, Level::Or, Mode::Header, rest, depth) {
            Ok(
                Read {
                    tree: e,
                    height: n,
                    rest: after,
                },
            ) => Ok(Read {
                tree: SwitchHead::Type(name, mark, e),
                height: n,
                rest: after,
            }),
            Err(error) => Err(error),
        };
    }
    if depth == 0 {
        return no_level(alloc, tokens);
    }
    match names_in(tokens) {
        NamesEnd::Declared => match declaration(alloc, Mode::Header, tokens, depth) {
            Ok(
                Read {
                    tree: d,
                    height: n,
                    rest,
                },
            ) => closed(alloc, Header::Decl(d), n, rest, depth),
            Err(error) => Err(error),
        },
        NamesEnd::Listed => listed(alloc, tokens, depth),
        NamesEnd::Single => match level(alloc, Level::Or, Mode::Header, tokens, depth) {
            Ok(
                Read {
                    tree: e,
                    height: n,
                    rest,
                },
            ) => behind_value(alloc, e, n, rest, depth),
            Err(error) => {
                if stands_at(error, tokens.len()) {
                    Ok(Read {
                        tree: nothing(),
                        height: 0,
                        rest: tokens,
                    })
                } else {
                    Err(error)
                }
            }
        },
    }
}

/// Nothing stands there.
fn nothing() -> SwitchHead
    ensures { head_of result ≡ by_value tree.no_header tree.no_expr }
{
    SwitchHead::Value(Header::None, None)
}

/// A value alone.
fn value_alone(e: Expr) -> SwitchHead
    ensures { head_of result ≡ by_value tree.no_header (tree.some_expr (expr e)) }
{
    SwitchHead::Value(Header::None, Some(e))
}

/// What stands there where no level is left: a name may still stand before `in`, which does not follow it.
#[cycle(parser)]
fn no_level<'a>(alloc: Global, tokens: &'a [Token]) -> Result<Read<'a, SwitchHead>, Stop>
    ensures exact { NotTyped tokens.now → Exact switch_head before_cases 0 tokens.now (seen head_of result) }
    ensures shorter { IfOk result (λ r. length r.rest.now ≤ length tokens.now) }
    ensures low { IfOk result (λ r. r.height ≤ 1) }
{
    let (name, behind) = match strip(tokens, TokenKind::Name) {
        Some(found) => found,
        None => {
            let stop = nothing_fits(alloc, Mode::Header, tokens);
            if stands_at(stop, tokens.len()) {
                return Ok(Read {
                    tree: nothing(),
                    height: 0,
                    rest: tokens,
                });
            }
            return Err(stop);
        }
    };
    match head_on(behind) {
        Some((_token, rest)) => Err(Stop::Deep(rest.len())),
        None => {
            let e = nodes::leaf(alloc, name.at, ExprKind::Name(name))?;
            Ok(Read {
                tree: value_alone(e),
                height: 1,
                rest: behind,
            })
        }
    }
}

/// A first token with which the start of a header may go on behind a name, and the tokens behind it.
fn head_on(tokens: &[Token]) -> Option<(Token, &[Token])>
    ensures is { IfSome result (λ r. tokens.now ≡ r.0 ∷ r.1.now) }
    ensures on { IfSome result (λ r. continues_head r.0.kind ≡ true) }
    ensures none { IfNone result (EndsHead tokens.now) }
{
    let (token, rest) = first(tokens)?;
    if goes_on_head(token.kind) {
        Some((token, rest))
    } else {
        None
    }
}

/// Whether the start of a header may go on with a token of this kind.
fn goes_on_head(kind: TokenKind) -> bool
    ensures { result ≡ continues_head kind }
{
    match kind {
        TokenKind::Semicolon | TokenKind::Colon => true,
        _ => goes_on_simple(Mode::Header, kind),
    }
}

/// Several names, behind which nothing is declared any more.
#[cycle(parser)]
fn listed<'a>(alloc: Global, tokens: &'a [Token], depth: u8) -> Result<Read<'a, SwitchHead>, Stop>
    ensures exact { (place : List TokenValue) → 0 < depth → NotTyped tokens.now → Listed tokens.now place → Exact switch_head before_cases depth tokens.now (seen head_of result) }
    ensures shorter { IfOk result (λ r. length r.rest.now ≤ length tokens.now) }
    ensures low { IfOk result (λ r. r.height ≤ depth + 1) }
{
    if depth <= 1 {
        return Err(run_over(alloc, tokens));
    }
    match simple(alloc, Mode::Header, tokens, depth) {
        Ok(
            Read {
                tree: s,
                height: n,
                rest,
            },
        ) => closed(alloc, Header::Simple(s), n, rest, depth),
        Err(error) => Err(error),
    }
}

/// What stands behind the first expression.
#[cycle(parser)]
fn behind_value<'a>(
    alloc: Global,
    e: Expr,
    height: u16,
    tokens: &'a [Token],
    depth: u8,
) -> Result<Read<'a, SwitchHead>, Stop>
    ensures exact { (ts place : List TokenValue) → NotTyped ts → length tokens.now < length ts → HeadExpression depth ts place (expr e) height tokens.now
        → Exact switch_head before_cases depth ts (seen head_of result) }
    ensures shorter { IfOk result (λ r. length r.rest.now ≤ length tokens.now) }
    ensures low { height ≤ depth + 1 → IfOk result (λ r. r.height ≤ depth + 1) }
{
    let (token, behind) = match clause_end(tokens) {
        Some(found) => found,
        None => return Ok(Read {
            tree: value_alone(e),
            height,
            rest: tokens,
        }),
    };
    if height >= u16::from(depth) {
        return Err(discard_expr(e, Stop::Deep(behind.len())));
    }
    if same_kind(token.kind, TokenKind::Semicolon) {
        let header = stmt_nodes::evaluated(alloc, e)?;
        return value(alloc, header, height + 1, behind, depth);
    }
    match simple_from(alloc, Mode::Header, e, height, tokens, depth - 1) {
        Ok(
            Read {
                tree: s,
                height: n,
                rest,
            },
        ) => closed(alloc, Header::Simple(s), n, rest, depth),
        Err(error) => Err(error),
    }
}

/// The `;` behind a declaration or a simple statement, and the value.
#[cycle(parser)]
fn closed<'a>(
    alloc: Global,
    header: Header,
    height: u16,
    tokens: &'a [Token],
    depth: u8,
) -> Result<Read<'a, SwitchHead>, Stop>
    ensures exact { (ts : List TokenValue) → NotTyped ts → ClosedFrom depth ts (header_of header) height tokens.now → Exact switch_head before_cases depth ts (seen head_of result) }
    ensures shorter { IfOk result (λ r. length r.rest.now ≤ length tokens.now) }
    ensures low { IfOk result (λ r. r.height ≤ depth + 1) }
{
    match expect(tokens, TokenKind::Semicolon, within(height, depth)) {
        Ok((_semicolon, rest)) => value(alloc, header, height, rest, depth),
        Err(error) => Err(discard_header(header, error)),
    }
}

/// The value behind the `;`, if there is one.
#[cycle(parser)]
fn value<'a>(
    alloc: Global,
    header: Header,
    height: u16,
    tokens: &'a [Token],
    depth: u8,
) -> Result<Read<'a, SwitchHead>, Stop>
    ensures exact { (ts : List TokenValue) → NotTyped ts → ConditionFrom depth ts (header_of header) height tokens.now → Exact switch_head before_cases depth ts (seen head_of result) }
    ensures shorter { IfOk result (λ r. length r.rest.now ≤ length tokens.now) }
    ensures low { height ≤ depth → IfOk result (λ r. r.height ≤ depth + 1) }
{
    match level(alloc, Level::Or, Mode::Header, tokens, depth) {
        Ok(
            Read {
                tree: e,
                height: n,
                rest,
            },
        ) => Ok(Read {
            tree: SwitchHead::Value(header, Some(e)),
            height: height.max(n),
            rest,
        }),
        Err(error) => {
            if stands_at(error, tokens.len()) {
                Ok(Read {
                    tree: SwitchHead::Value(header, None),
                    height,
                    rest: tokens,
                })
            } else {
                Err(discard_header(header, error))
            }
        }
    }
}

/// `switch`, of its parts.
#[inline(never)]
fn switched(
    alloc: Global,
    label: Option<Token>,
    at: Place,
    word: SwitchWord,
    head: SwitchHead,
    list: Vec<Case>,
) -> Result<Stmt, AllocError>
    ensures { IfOk result (λ s. stmt s ≡ labelled_node label (at, switched word (head_of head) (case_tree list.items))) }
{
    match head {
        SwitchHead::Value(header, value) => {
            switch_nodes::switch(alloc, label, at, word, header, value, list)
        }
        SwitchHead::Type(name, _mark, value) => {
            switch_nodes::type_switch(alloc, label, at, word, name, value, list)
        }
    }
}

/// The reason why what stands before the cases is not used.
fn discard_head(head: SwitchHead, why: Stop) -> Stop
    ensures { result ≡ why }
{
    match head {
        SwitchHead::Value(header, value) => {
            discard_header(header, discard_optional_expr(value, why))
        }
        SwitchHead::Type(_name, _mark, value) => discard_expr(value, why),
    }
}
