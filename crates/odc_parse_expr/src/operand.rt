//! Operands.

ghost use Rattle.std.specs.Prelude.{◌≡◌, ◌∷◌, ◌<◌, ◌≤◌, ◌+◌, ◌↔◌, suc, length, IsTrue, IfOk, None};
ghost use Rattle.odc_syntax.specs.Grammar as g;
ghost use Rattle.odc_syntax.specs.View.{expr};
ghost use Rattle.odc_lookahead.specs.Ends.{ExactTo, seen_to};
ghost use Rattle.odc_lookahead.specs.Exact.{one};
ghost use Rattle.odc_lookahead.specs.Forms.{operand_form, leaf_of, leaf_view};
ghost use Rattle.odc_lookahead.specs.Sets.{nothing_continues};
ghost use Rattle.odc_lookahead.specs.declared.operand.OperandForm.TheVariants as forms;

use crate::arguments::arguments;
use crate::binary::level;
use crate::procedure::procedure;
use crate::types::constructed;
use odc_lookahead::end::End;
use odc_lookahead::operand::{OperandForm, operand_form};
use odc_lookahead::read::{Closed, Read, ReadTo};
use odc_lookahead::stop::Stop;
use odc_lookahead::tokens::{Fit, expect, first, within};
use odc_nodes::nodes;
use odc_syntax::grammar::{Level, Mode, Use};
use odc_syntax::token::{Token, TokenKind};
use odc_syntax::tree::{Expr, ExprKind};
use odc_tree::discard::discard_expr;
use std::alloc::Global;

/// An operand.
#[cycle(parser)]
pub fn operand<'a>(
    alloc: Global,
    mode: Mode,
    tokens: &'a [Token],
    depth: u8,
) -> Result<ReadTo<'a, Expr>, Stop>
    ensures exact { ExactTo (one (g.operand mode)) nothing_continues depth tokens.now (seen_to expr result) }
    ensures shorter { IfOk result (λ r. length r.rest.now < length tokens.now) }
    ensures low { IfOk result (λ r. r.height ≤ depth + 1) }
    ensures fits { IfOk result (λ r. 0 < depth) }
{
    let (token, behind) = match first(tokens) {
        Some(found) => found,
        None => return Err(Stop::Syntax(0)),
    };
    let form = operand_form(mode, token);
    if is_nothing(form) {
        return Err(Stop::Syntax(tokens.len()));
    }
    if depth == 0 {
        return Err(Stop::Deep(behind.len()));
    }
    match leaf_kind(form, token) {
        Some(kind) => Ok(ReadTo {
            tree: nodes::leaf(alloc, token.at, kind)?,
            height: 1,
            rest: behind,
            end: End::Sure,
        }),
        None => compound(alloc, mode, form, tokens, token, behind, depth - 1),
    }
}

/// Whether it is no operand.
fn is_nothing(form: OperandForm) -> bool
    ensures { IsTrue result ↔ (form ≡ forms.Nothing) }
{
    match form {
        OperandForm::Nothing => true,
        _ => false,
    }
}

/// The kind of an operand of one token.
fn leaf_kind(form: OperandForm, token: Token) -> Option<ExprKind>
    ensures { leaf_view result ≡ leaf_of form token }
{
    match form {
        OperandForm::Name => Some(ExprKind::Name(token)),
        OperandForm::Int => Some(ExprKind::Int(token)),
        OperandForm::Rune => Some(ExprKind::Rune(token)),
        OperandForm::Text => Some(ExprKind::Text(token)),
        OperandForm::Context => Some(ExprKind::Context),
        OperandForm::Location => Some(ExprKind::Location),
        _ => None,
    }
}

/// Where a type stands that is an operand. In a header no literal follows it.
fn operand_use(mode: Mode) -> Use
    ensures { result ≡ g.operand_use mode }
{
    match mode {
        Mode::Free | Mode::Start => Use::Operand,
        Mode::Header => Use::OperandEnd,
    }
}

/// An operand of several tokens, whose parts may have this depth.
#[cycle(parser)]
fn compound<'a>(
    alloc: Global,
    mode: Mode,
    form: OperandForm,
    tokens: &'a [Token],
    token: Token,
    behind: &'a [Token],
    depth: u8,
) -> Result<ReadTo<'a, Expr>, Stop>
    ensures exact { tokens.now ≡ token ∷ behind.now → operand_form mode token ≡ form → leaf_of form token ≡ None → (form ≡ forms.Nothing → ⊥)
        → ExactTo (one (g.operand mode)) nothing_continues (suc depth) (token ∷ behind.now) (seen_to expr result) }
    ensures shorter { tokens.now ≡ token ∷ behind.now → IfOk result (λ r. length r.rest.now ≤ length behind.now) }
    ensures low { IfOk result (λ r. r.height ≤ depth + 2) }
{
    match form {
        OperandForm::Dot => match expect(behind, TokenKind::Name, Fit::Within) {
            Ok((name, rest)) => Ok(ReadTo {
                tree: nodes::leaf(alloc, token.at, ExprKind::Dot(name))?,
                height: 1,
                rest,
                end: End::Sure,
            }),
            Err(error) => Err(error),
        },
        OperandForm::Group => group(alloc, mode, token, behind, depth),
        OperandForm::Literal => match arguments(alloc, TokenKind::CloseBrace, behind, depth) {
            Ok(
                Read {
                    tree: list,
                    height,
                    rest,
                },
            ) => {
                let Closed {
                    part: args,
                    close: _,
                } = list;
                Ok(ReadTo {
                    tree: nodes::literal(alloc, token.at, args)?,
                    height: height + 1,
                    rest,
                    end: End::Sure,
                })
            }
            Err(error) => Err(error),
        },
        OperandForm::Type => match constructed(alloc, operand_use(mode), tokens, depth) {
            Ok(
                ReadTo {
                    tree: t,
                    height,
                    rest,
                    end,
                },
            ) => {
                Ok(ReadTo {
                    tree: nodes::type_tree(alloc, t)?,
                    height: height + 1,
                    rest,
                    end,
                })
            }
            Err(error) => Err(error),
        },
        OperandForm::Proc => procedure(alloc, mode, tokens, depth),
        _ => Err(Stop::Syntax(behind.len())),
    }
}

/// An expression in parentheses, which may have this depth.
#[cycle(parser)]
fn group<'a>(
    alloc: Global,
    mode: Mode,
    paren: Token,
    behind: &'a [Token],
    depth: u8,
) -> Result<ReadTo<'a, Expr>, Stop>
    ensures exact { operand_form mode paren ≡ forms.Group → ExactTo (one (g.operand mode)) nothing_continues (suc depth) (paren ∷ behind.now) (seen_to expr result) }
    ensures shorter { IfOk result (λ r. length r.rest.now ≤ length behind.now) }
    ensures low { IfOk result (λ r. r.height ≤ depth + 2) }
{
    let Read {
        tree: e,
        height,
        rest: after,
    } = match level(alloc, Level::Or, Mode::Free, behind, depth) {
        Ok(read) => read,
        Err(error) => return Err(error),
    };
    match expect(after, TokenKind::CloseParen, within(height, depth)) {
        Ok((_close, rest)) => Ok(ReadTo {
            tree: nodes::open(paren.at, e),
            height: height + 1,
            rest,
            end: End::Sure,
        }),
        Err(error) => Err(discard_expr(e, error)),
    }
}
