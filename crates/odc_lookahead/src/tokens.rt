//! What tokens begin with.

ghost use Rattle.std.specs.Prelude.{◌≡◌, ◌≤◌, [], ◌∷◌, ◌↔◌, IsTrue, IfSome, IfNone, IfOk, IfErr};
ghost use Rattle.odc_syntax.specs.Derives.{StartsWithout};
ghost use Rattle.odc_lookahead.specs.Read.{NotExpected};
ghost use Rattle.odc_lookahead.specs.declared.tokens.Fit.TheVariants.{Within};

use crate::stop::Stop;
use odc_syntax::token::{Token, TokenKind};

/// Whether a part is no deeper than it may be, so that anything may follow it.
#[derive(Clone, Copy)]
pub enum Fit {
    /// It is no deeper.
    Within,
    /// It is too deep.
    Over,
}

/// Whether two kinds are the same.
pub fn same_kind(a: TokenKind, b: TokenKind) -> bool
    ensures { IsTrue result ↔ (a ≡ b) }
{
    a as u8 == b as u8
}

/// The first token, and the tokens behind it.
pub fn first(tokens: &[Token]) -> Option<(Token, &[Token])>
    ensures some { IfSome result (λ r. tokens.now ≡ r.0 ∷ r.1.now) }
    ensures none { IfNone result (tokens.now ≡ []) }
{
    match tokens {
        [first, rest @ ..] => Some((*first, rest)),
        [] => None,
    }
}

/// A first token of this kind, and the tokens behind it.
pub fn strip(tokens: &[Token], kind: TokenKind) -> Option<(Token, &[Token])>
    ensures is { IfSome result (λ r. tokens.now ≡ r.0 ∷ r.1.now) }
    ensures kind { IfSome result (λ r. r.0.kind ≡ kind) }
    ensures none { IfNone result (StartsWithout kind tokens.now) }
{
    match tokens {
        [first, rest @ ..] => {
            if same_kind(first.kind, kind) {
                Some((*first, rest))
            } else {
                None
            }
        }
        [] => None,
    }
}

/// Whether a part of this height is no deeper than `depth`.
pub fn within(height: u16, depth: u8) -> Fit
    ensures { (result ≡ Within) ↔ (height ≤ depth) }
{
    if height <= u16::from(depth) {
        Fit::Within
    } else {
        Fit::Over
    }
}

/// A first token of this kind, which must stand here, behind a part that fits so.
pub fn expect(tokens: &[Token], kind: TokenKind, fit: Fit) -> Result<(Token, &[Token]), Stop>
    ensures is { IfOk result (λ r. tokens.now ≡ r.0 ∷ r.1.now) }
    ensures kind { IfOk result (λ r. r.0.kind ≡ kind) }
    ensures within { IfOk result (λ r. fit ≡ Within) }
    ensures refused { IfErr result (NotExpected kind fit tokens.now) }
{
    match strip(tokens, kind) {
        Some((first, rest)) => match fit {
            Fit::Within => Ok((first, rest)),
            Fit::Over => Err(Stop::Deep(rest.len())),
        },
        None => Err(Stop::Syntax(tokens.len())),
    }
}
