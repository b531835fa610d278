//! Types.

ghost use Rattle.std.specs.Prelude.{◌≡◌, ◌∷◌, ◌<◌, ◌≤◌, ◌+◌, ℕ, suc, length, IfOk, Some};
ghost use Rattle.odc_syntax.specs.Grammar as g;
ghost use Rattle.odc_syntax.specs.View.{type};
ghost use Rattle.odc_syntax.specs.declared.token.TokenKind.TheVariants as kind;
ghost use Rattle.odc_lookahead.specs.Ends.{ExactAs, seen_to};
ghost use Rattle.odc_lookahead.specs.Exact.{Exact, one};
ghost use Rattle.odc_lookahead.specs.Read.{seen};
ghost use Rattle.odc_lookahead.specs.Sets.{nothing_continues};
ghost use Rattle.odc_lookahead.specs.TypeForms.{own_form, built_form};
ghost use Rattle.odc_lookahead.specs.declared.type_form.BuiltForm.TheVariants as built;

use crate::arrays::array;
use crate::fields::{enum_type, struct_type, union_type};
use crate::signatures::signature;
use odc_lookahead::end::{End, at_end, ends_operand, inside};
use odc_lookahead::read::{Read, ReadTo};
use odc_lookahead::shape::Shape;
use odc_lookahead::stop::Stop;
use odc_lookahead::tokens::{Fit, expect, first, strip, within};
use odc_lookahead::type_form::{BuiltForm, OwnForm, built_form, own_form};
use odc_nodes::type_nodes;
use odc_syntax::grammar::Use;
use odc_syntax::token::{Token, TokenKind};
use odc_syntax::tree::Type;
use odc_tree::discard::discard_type;
use std::alloc::Global;

/// A type that stands in brackets of one that stands so, or where no expression may stand.
#[cycle(parser)]
pub fn ty<'a>(
    alloc: Global,
    used: Use,
    tokens: &'a [Token],
    depth: u8,
) -> Result<Read<'a, Type>, Stop>
    ensures exact { Exact (one (g.type_ (g.inside used))) nothing_continues depth tokens.now (seen type result) }
    ensures shorter { IfOk result (λ r. length r.rest.now < length tokens.now) }
    ensures low { IfOk result (λ r. r.height ≤ depth) }
    ensures fits { IfOk result (λ r. 0 < depth) }
{
    match type_to(alloc, inside(used), tokens, depth) {
        Ok(
            ReadTo {
                tree: t,
                height,
                rest,
                end: _end,
            },
        ) => Ok(Read {
            tree: t,
            height,
            rest,
        }),
        Err(error) => Err(error),
    }
}

/// A type, and how it ends.
#[cycle(parser)]
pub fn type_to<'a>(
    alloc: Global,
    used: Use,
    tokens: &'a [Token],
    depth: u8,
) -> Result<ReadTo<'a, Type>, Stop>
    ensures exact { ExactAs used (one (g.type_ used)) nothing_continues depth tokens.now (seen_to type result) }
    ensures shorter { IfOk result (λ r. length r.rest.now < length tokens.now) }
    ensures low { IfOk result (λ r. r.height ≤ depth) }
    ensures fits { IfOk result (λ r. 0 < depth) }
{
    let (token, behind) = match first(tokens) {
        Some(found) => found,
        None => return Err(Stop::Syntax(0)),
    };
    match own_form(token.kind) {
        Some(form) => {
            if depth == 0 {
                return Err(Stop::Deep(behind.len()));
            }
            own(alloc, used, form, token, behind, depth - 1)
        }
        None => constructed(alloc, used, tokens, depth),
    }
}

/// A type that begins as an operand of another kind may, whose parts may have this depth.
#[cycle(parser)]
fn own<'a>(
    alloc: Global,
    used: Use,
    form: OwnForm,
    token: Token,
    behind: &'a [Token],
    depth: u8,
) -> Result<ReadTo<'a, Type>, Stop>
    ensures exact { own_form token.kind ≡ Some form → ExactAs used (one (g.type_ used)) nothing_continues (suc depth) (token ∷ behind.now) (seen_to type result) }
    ensures shorter { IfOk result (λ r. length r.rest.now ≤ length behind.now) }
    ensures low { IfOk result (λ r. r.height ≤ depth + 1) }
{
    match form {
        OwnForm::Name => name(alloc, used, token, behind),
        OwnForm::Group => group(alloc, used, token, behind, depth),
        OwnForm::Proc => match signature(alloc, used, token, behind, depth) {
            Ok(
                ReadTo {
                    tree: s,
                    height,
                    rest,
                    end,
                },
            ) => Ok(ReadTo {
                tree: type_nodes::procedure(alloc, token.at, s)?,
                height: height + 1,
                rest,
                end,
            }),
            Err(error) => Err(error),
        },
    }
}

/// A name, or one of another package.
fn name(alloc: Global, used: Use, token: Token, behind: &[Token]) -> Result<ReadTo<'_, Type>, Stop>
    ensures exact { token.kind ≡ kind.Name → (b : ℕ) → ExactAs used (one (g.type_ used)) nothing_continues (suc b) (token ∷ behind.now) (seen_to type result) }
    ensures shorter { IfOk result (λ r. length r.rest.now ≤ length behind.now) }
    ensures low { IfOk result (λ r. r.height ≤ 1) }
{
    match strip(behind, TokenKind::Dot) {
        None => Ok(ReadTo {
            tree: type_nodes::named(alloc, token)?,
            height: 1,
            rest: behind,
            end: End::Sure,
        }),
        Some((_dot, rest)) => match strip(rest, TokenKind::Name) {
            Some((second, after)) => Ok(ReadTo {
                tree: type_nodes::member(alloc, token, second)?,
                height: 1,
                rest: after,
                end: End::Sure,
            }),
            None => {
                if ends_operand(used) {
                    Ok(ReadTo {
                        tree: type_nodes::named(alloc, token)?,
                        height: 1,
                        rest: behind,
                        end: End::BeforeDot,
                    })
                } else {
                    Err(Stop::Syntax(rest.len()))
                }
            }
        },
    }
}

/// A type in parentheses, which may have this depth.
#[cycle(parser)]
fn group<'a>(
    alloc: Global,
    used: Use,
    paren: Token,
    behind: &'a [Token],
    depth: u8,
) -> Result<ReadTo<'a, Type>, Stop>
    ensures exact { paren.kind ≡ kind.OpenParen → ExactAs used (one (g.type_ used)) nothing_continues (suc depth) (paren ∷ behind.now) (seen_to type result) }
    ensures shorter { IfOk result (λ r. length r.rest.now ≤ length behind.now) }
    ensures low { IfOk result (λ r. r.height ≤ depth + 1) }
{
    let Read {
        tree: t,
        height,
        rest: after,
    } = match ty(alloc, used, behind, depth) {
        Ok(read) => read,
        Err(error) => return Err(error),
    };
    match expect(after, TokenKind::CloseParen, within(height, depth)) {
        Ok((_close, rest)) => Ok(ReadTo {
            tree: t,
            height: height + 1,
            rest,
            end: End::Sure,
        }),
        Err(error) => Err(discard_type(t, error)),
    }
}

/// A type but one that begins with a name, a parenthesis or `proc`.
#[cycle(parser)]
pub fn constructed<'a>(
    alloc: Global,
    used: Use,
    tokens: &'a [Token],
    depth: u8,
) -> Result<ReadTo<'a, Type>, Stop>
    ensures exact { ExactAs used (one (g.constructed used)) nothing_continues depth tokens.now (seen_to type result) }
    ensures shorter { IfOk result (λ r. length r.rest.now < length tokens.now) }
    ensures low { IfOk result (λ r. r.height ≤ depth) }
    ensures fits { IfOk result (λ r. 0 < depth) }
{
    let (token, behind) = match first(tokens) {
        Some(found) => found,
        None => return Err(Stop::Syntax(0)),
    };
    let form = match built_form(used, token) {
        Some(form) => form,
        None => return Err(Stop::Syntax(tokens.len())),
    };
    if depth == 0 {
        return Err(Stop::Deep(behind.len()));
    }
    build(alloc, used, form, token, behind, depth - 1)
}

/// A type of this form, whose parts may have this depth.
#[cycle(parser)]
fn build<'a>(
    alloc: Global,
    used: Use,
    form: BuiltForm,
    token: Token,
    behind: &'a [Token],
    depth: u8,
) -> Result<ReadTo<'a, Type>, Stop>
    ensures exact { built_form used token ≡ Some form → ExactAs used (one (g.constructed used)) nothing_continues (suc depth) (token ∷ behind.now) (seen_to type result) }
    ensures shorter { IfOk result (λ r. length r.rest.now ≤ length behind.now) }
    ensures low { IfOk result (λ r. r.height ≤ depth + 1) }
{
    match form {
        BuiltForm::Pointer => pointer(alloc, used, token, behind, depth),
        BuiltForm::Distinct => distinct(alloc, used, token, behind, depth),
        BuiltForm::Dollar => dollar(alloc, used, token, behind),
        BuiltForm::WordProc => word_proc(alloc, used, token, behind, depth),
        BuiltForm::Array => array(alloc, used, Shape::Array, token.at, behind, depth),
        BuiltForm::Soa => soa(alloc, used, token, behind, depth),
        BuiltForm::Struct => struct_type(alloc, used, token, behind, depth),
        BuiltForm::Union => union_type(alloc, used, token, behind, depth),
        BuiltForm::Enum => enum_type(alloc, used, token, behind, depth),
    }
}

/// `^T`
#[cycle(parser)]
fn pointer<'a>(
    alloc: Global,
    used: Use,
    token: Token,
    behind: &'a [Token],
    depth: u8,
) -> Result<ReadTo<'a, Type>, Stop>
    ensures exact { token.kind ≡ kind.Caret → ExactAs used (one (g.constructed used)) nothing_continues (suc depth) (token ∷ behind.now) (seen_to type result) }
    ensures shorter { IfOk result (λ r. length r.rest.now ≤ length behind.now) }
    ensures low { IfOk result (λ r. r.height ≤ depth + 1) }
{
    match type_to(alloc, at_end(used), behind, depth) {
        Ok(
            ReadTo {
                tree: t,
                height,
                rest,
                end,
            },
        ) => Ok(ReadTo {
            tree: type_nodes::pointer(alloc, token.at, t)?,
            height: height + 1,
            rest,
            end,
        }),
        Err(error) => Err(error),
    }
}

/// `distinct T`
#[cycle(parser)]
fn distinct<'a>(
    alloc: Global,
    used: Use,
    token: Token,
    behind: &'a [Token],
    depth: u8,
) -> Result<ReadTo<'a, Type>, Stop>
    ensures exact { token.kind ≡ kind.Distinct → ExactAs used (one (g.constructed used)) nothing_continues (suc depth) (token ∷ behind.now) (seen_to type result) }
    ensures shorter { IfOk result (λ r. length r.rest.now ≤ length behind.now) }
    ensures low { IfOk result (λ r. r.height ≤ depth + 1) }
{
    match type_to(alloc, at_end(used), behind, depth) {
        Ok(
            ReadTo {
                tree: t,
                height,
                rest,
                end,
            },
        ) => Ok(ReadTo {
            tree: type_nodes::distinct(alloc, token.at, t)?,
            height: height + 1,
            rest,
            end,
        }),
        Err(error) => Err(error),
    }
}

/// `$T`
fn dollar(
    alloc: Global,
    used: Use,
    token: Token,
    behind: &[Token],
) -> Result<ReadTo<'_, Type>, Stop>
    ensures exact { built_form used token ≡ Some built.Dollar → (b : ℕ) → ExactAs used (one (g.constructed used)) nothing_continues (suc b) (token ∷ behind.now) (seen_to type result) }
    ensures shorter { IfOk result (λ r. length r.rest.now ≤ length behind.now) }
    ensures low { IfOk result (λ r. r.height ≤ 1) }
{
    match expect(behind, TokenKind::Name, Fit::Within) {
        Ok((name, rest)) => Ok(ReadTo {
            tree: type_nodes::dollar(alloc, token.at, name)?,
            height: 1,
            rest,
            end: End::Sure,
        }),
        Err(error) => Err(error),
    }
}

/// `#type` and a procedure's type.
#[cycle(parser)]
fn word_proc<'a>(
    alloc: Global,
    used: Use,
    token: Token,
    behind: &'a [Token],
    depth: u8,
) -> Result<ReadTo<'a, Type>, Stop>
    ensures exact { built_form used token ≡ Some built.WordProc → ExactAs used (one (g.constructed used)) nothing_continues (suc depth) (token ∷ behind.now) (seen_to type result) }
    ensures shorter { IfOk result (λ r. length r.rest.now ≤ length behind.now) }
    ensures low { IfOk result (λ r. r.height ≤ depth + 1) }
{
    let (proc, inner) = match expect(behind, TokenKind::Proc, Fit::Within) {
        Ok(found) => found,
        Err(error) => return Err(error),
    };
    match signature(alloc, used, proc, inner, depth) {
        Ok(
            ReadTo {
                tree: s,
                height,
                rest,
                end,
            },
        ) => Ok(ReadTo {
            tree: type_nodes::procedure(alloc, token.at, s)?,
            height: height + 1,
            rest,
            end,
        }),
        Err(error) => Err(error),
    }
}

/// `#soa` and a type with square brackets.
#[cycle(parser)]
fn soa<'a>(
    alloc: Global,
    used: Use,
    token: Token,
    behind: &'a [Token],
    depth: u8,
) -> Result<ReadTo<'a, Type>, Stop>
    ensures exact { built_form used token ≡ Some built.Soa → ExactAs used (one (g.constructed used)) nothing_continues (suc depth) (token ∷ behind.now) (seen_to type result) }
    ensures shorter { IfOk result (λ r. length r.rest.now ≤ length behind.now) }
    ensures low { IfOk result (λ r. r.height ≤ depth + 1) }
{
    match expect(behind, TokenKind::OpenBracket, Fit::Within) {
        Ok((_open, inner)) => array(alloc, used, Shape::Soa, token.at, inner, depth),
        Err(error) => Err(error),
    }
}
