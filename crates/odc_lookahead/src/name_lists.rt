//! Names between commas.

ghost use Rattle.std.specs.Prelude.{◌≡◌, [], ◌∷◌, ◌++◌, ◌<◌, ◌↔◌, ℕ, List, length, IsTrue, IfOk, IfErr, IfSome, IfNone};
ghost use Rattle.odc_syntax.specs.declared.token.Token.{Token as TokenValue};
ghost use Rattle.odc_syntax.specs.declared.token.TokenKind.TheVariants as kind;
ghost use Rattle.odc_syntax.specs.declared.token.Word.TheVariants as word;
ghost use Rattle.odc_lookahead.specs.Exact.{Exact};
ghost use Rattle.odc_lookahead.specs.ParamForms.{Front};
ghost use Rattle.odc_lookahead.specs.stmts.Runs.{Declares, Undeclared};
ghost use Rattle.odc_lookahead.specs.Sets.{nothing_continues};
ghost use Rattle.odc_lookahead.specs.TypeParts.{names_line, named_by};

use crate::shape::strip_dollar;
use crate::stop::Stop;
use crate::tokens::{Fit, expect, strip};
use odc_syntax::grammar::Use;
use odc_syntax::token::{Token, TokenKind, Word};
use std::alloc::{AllocError, Global};

/// Names between commas, and the colon behind them.
pub fn names<'a>(
    alloc: Global,
    tokens: &'a [Token],
) -> Result<(Vec<Token>, Token, &'a [Token]), Stop>
    ensures exact { (b : ℕ) → Exact names_line nothing_continues b tokens.now (named_by result) }
    ensures shorter { IfOk result (λ r. length r.2.now < length tokens.now) }
{
    let mut list = Vec::new(alloc);
    let mut rest = tokens;
    'names: loop {
        let (name, behind) = match strip(rest, TokenKind::Name) {
            Some(found) => found,
            None => return Err(Stop::Syntax(rest.len())),
        };
        list = push(list, name)?;
        match strip(behind, TokenKind::Comma) {
            Some((_comma, after)) => rest = after,
            None => match expect(behind, TokenKind::Colon, Fit::Within) {
                Ok((colon, after)) => return Ok((list, colon, after)),
                Err(error) => return Err(error),
            },
        }
    }
}

/// Names with one more.
fn push(mut list: Vec<Token>, name: Token) -> Result<Vec<Token>, AllocError>
    ensures { IfOk result (λ l. l.items ≡ list.items ++ name ∷ []) }
{
    list.push(name)?;
    Ok(list)
}

/// Looks past names between commas: the tokens behind the `:` that follows them, or those at which neither
/// a further name nor a `:` stands.
pub fn names_end(tokens: &[Token]) -> Result<&[Token], &[Token]>
    ensures declares { IfOk result (λ r. Declares tokens.now r.now) }
    ensures undeclared { IfErr result (λ r. Undeclared tokens.now r.now) }
{
    let mut rest = tokens;
    'names: loop {
        let behind = match strip(rest, TokenKind::Name) {
            Some((_name, behind)) => behind,
            None => return Err(rest),
        };
        if let Some((_colon, after)) = strip(behind, TokenKind::Colon) {
            return Ok(after);
        }
        match strip(behind, TokenKind::Comma) {
            Some((_comma, after)) => rest = after,
            None => return Err(behind),
        }
    }
}

/// The tokens behind `$`, if it stands in front where it may.
pub fn behind_dollar(used: Use, tokens: &[Token]) -> &[Token]
    ensures front { Front used tokens.now result.now }
{
    match strip_dollar(used, tokens) {
        Some((_dollar, behind)) => behind,
        None => tokens,
    }
}

/// The word `int` in front, and the tokens behind it.
pub fn strip_int(tokens: &[Token]) -> Option<(Token, &[Token])>
    ensures is { IfSome result (λ r. tokens.now ≡ r.0 ∷ r.1.now) }
    ensures kind { IfSome result (λ r. r.0.kind ≡ kind.Name) }
    ensures word { IfSome result (λ r. r.0.word ≡ word.Int) }
    ensures none { IfNone result ((t : TokenValue) (us : List TokenValue) → tokens.now ≡ t ∷ us → t.kind ≡ kind.Name → t.word ≡ word.Int → ⊥) }
{
    match strip(tokens, TokenKind::Name) {
        Some((name, rest)) => {
            if is_int(name.word) {
                Some((name, rest))
            } else {
                None
            }
        }
        None => None,
    }
}

/// Whether a token says `int`.
fn is_int(said: Word) -> bool
    ensures { IsTrue result ↔ (said ≡ word.Int) }
{
    match said {
        Word::Int => true,
        _ => false,
    }
}
