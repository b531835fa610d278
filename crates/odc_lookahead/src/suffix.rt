//! How what stands behind an operand begins.

ghost use Rattle.std.specs.Prelude.{◌≡◌, ◌∷◌, IfSome, IfNone, true};
ghost use Rattle.odc_lookahead.specs.Forms.{suffix_form};
ghost use Rattle.odc_lookahead.specs.Read.{NoSuffix};
ghost use Rattle.odc_lookahead.specs.Sets.{starts_suffix};

use crate::tokens::first;
use odc_syntax::grammar::Mode;
use odc_syntax::token::{Token, TokenKind};

/// What stands behind an operand, by its first token.
#[derive(Clone, Copy)]
pub enum SuffixForm {
    /// `.`, with a name or a type in parentheses.
    Member,
    /// `^`
    Deref,
    /// An index or a cut.
    Bracket,
    /// A call.
    Call,
    /// `or_return`
    OrReturn,
    /// A literal's elements in braces.
    Literal,
    /// Nothing.
    Nothing,
}

/// What stands behind an operand that begins with a token of this kind.
pub fn suffix_form(mode: Mode, kind: TokenKind) -> SuffixForm
    ensures { result ≡ suffix_form mode kind }
{
    match kind {
        TokenKind::Dot => SuffixForm::Member,
        TokenKind::Caret => SuffixForm::Deref,
        TokenKind::OpenBracket => SuffixForm::Bracket,
        TokenKind::OpenParen => SuffixForm::Call,
        TokenKind::OrReturn => SuffixForm::OrReturn,
        TokenKind::OpenBrace => match mode {
            Mode::Free | Mode::Start => SuffixForm::Literal,
            Mode::Header => SuffixForm::Nothing,
        },
        _ => SuffixForm::Nothing,
    }
}

/// Whether what begins with a token of this kind may stand behind an operand.
pub fn starts_suffix(mode: Mode, kind: TokenKind) -> bool
    ensures { result ≡ starts_suffix mode kind }
{
    match kind {
        TokenKind::Dot
        | TokenKind::Caret
        | TokenKind::OpenBracket
        | TokenKind::OpenParen
        | TokenKind::OrReturn => true,
        TokenKind::OpenBrace => match mode {
            Mode::Free | Mode::Start => true,
            Mode::Header => false,
        },
        _ => false,
    }
}

/// A first token that begins what stands behind an operand, its form, and the tokens behind it.
pub fn next_suffix(mode: Mode, tokens: &[Token]) -> Option<(SuffixForm, Token, &[Token])>
    ensures is { IfSome result (λ r. tokens.now ≡ r.1 ∷ r.2.now) }
    ensures form { IfSome result (λ r. suffix_form mode r.1.kind ≡ r.0) }
    ensures starts { IfSome result (λ r. starts_suffix mode r.1.kind ≡ true) }
    ensures none { IfNone result (NoSuffix mode tokens.now) }
{
    let (token, rest) = first(tokens)?;
    if starts_suffix(mode, token.kind) {
        Some((suffix_form(mode, token.kind), token, rest))
    } else {
        None
    }
}
