//! Types with square brackets.

ghost use Rattle.std.specs.Prelude.{◌≡◌, ◌∷◌, IfSome, IfNone};
ghost use Rattle.odc_syntax.specs.declared.grammar.Use.TheVariants.{Parameter};
ghost use Rattle.odc_syntax.specs.declared.token.TokenKind.TheVariants as kind;
ghost use Rattle.odc_syntax.specs.Derives.{StartsWithout};
ghost use Rattle.odc_lookahead.specs.TypeParts.{counts};

use crate::tokens::{first, strip};
use odc_syntax::grammar::Use;
use odc_syntax::token::{Token, TokenKind};

/// What stands before the square brackets of a type.
#[derive(Clone, Copy)]
pub enum Shape {
    /// Nothing.
    Array,
    /// `#soa`
    Soa,
}

/// Whether the elements of a type whose length is `?`, and behind which these tokens stand, are counted:
/// those of the literal that follows.
pub fn counts(used: Use, tokens: &[Token]) -> bool
    ensures { result ≡ counts used tokens.now }
{
    match used {
        Use::Operand => match first(tokens) {
            Some((token, _rest)) => match token.kind {
                TokenKind::OpenBrace => true,
                _ => false,
            },
            None => false,
        },
        Use::Plain | Use::Parameter | Use::OperandEnd => false,
    }
}

/// `$` in front, where it may stand, and the tokens behind it.
pub fn strip_dollar(used: Use, tokens: &[Token]) -> Option<(Token, &[Token])>
    ensures used { IfSome result (λ r. used ≡ Parameter) }
    ensures is { IfSome result (λ r. tokens.now ≡ r.0 ∷ r.1.now) }
    ensures kind { IfSome result (λ r. r.0.kind ≡ kind.Dollar) }
    ensures none { IfNone result (used ≡ Parameter → StartsWithout kind.Dollar tokens.now) }
{
    match used {
        Use::Parameter => strip(tokens, TokenKind::Dollar),
        Use::Plain | Use::Operand | Use::OperandEnd => None,
    }
}
