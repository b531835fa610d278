//! The forms that the language refuses: where the first of them begins.

ghost use Rattle.std.specs.Prelude.{◌≡◌, ◌<◌, ◌↔◌, IsTrue, IfSome, IfNone, length};
ghost use Rattle.odc_text.specs.declared.code.Code.{Code};
ghost use Rattle.odc_lookahead.specs.Refused.{Stands, BehindDollar, Bracketed, Refused, FirstRefused, NoneRefused, is_convention};
ghost use Rattle.odc_lookahead.specs.RefusedForms.{refused_form, Unconventional, BehindProc, Pointed, Refuses};

use crate::tokens::same_kind;
use odc_syntax::token::{Token, TokenKind, Word};
use odc_text::code::Code;

/// Whether a token begins a refused form, by itself.
#[derive(Clone, Copy)]
pub enum RefusedForm {
    /// It does, whatever stands around it.
    Always(Code),
    /// It does where a token of this kind comes next.
    Before(TokenKind, Code),
    /// `typeid`, which stands behind `$`, a name and `:` alone.
    Typeid,
    /// `[`, before which `^` and `]` may not come.
    Bracket,
    /// `proc`, before which neither `{` may come nor a string that is no convention.
    Proc,
    /// `?`, which stands between `[` and `]` alone.
    Question,
    /// It does not.
    Nothing,
}

/// What refused form may begin with this token.
pub fn refused_form(token: Token) -> RefusedForm
    ensures { result ≡ refused_form token }
{
    match token.kind {
        TokenKind::Float => RefusedForm::Always(Code::N01),
        TokenKind::Matrix => RefusedForm::Always(Code::N02),
        TokenKind::Map => RefusedForm::Always(Code::N03),
        TokenKind::Typeid => RefusedForm::Typeid,
        TokenKind::Transmute | TokenKind::AutoCast => RefusedForm::Always(Code::N05),
        TokenKind::OpenBracket => RefusedForm::Bracket,
        TokenKind::BitSet | TokenKind::BitField => RefusedForm::Always(Code::N08),
        TokenKind::Using => RefusedForm::Always(Code::N09),
        TokenKind::Directive => match token.word {
            Word::Soa => RefusedForm::Before(TokenKind::Caret, Code::N14),
            Word::Partial | Word::Type | Word::CallerLocation => RefusedForm::Nothing,
            _ => RefusedForm::Always(Code::N10),
        },
        TokenKind::Where | TokenKind::DotDot => RefusedForm::Always(Code::N11),
        TokenKind::Struct | TokenKind::Union => {
            RefusedForm::Before(TokenKind::OpenParen, Code::N11)
        }
        TokenKind::Proc => RefusedForm::Proc,
        TokenKind::Foreign | TokenKind::Asm => RefusedForm::Always(Code::N12),
        TokenKind::Ampersand => RefusedForm::Before(TokenKind::Context, Code::N15),
        TokenKind::When | TokenKind::OrElse | TokenKind::OrBreak | TokenKind::OrContinue => {
            RefusedForm::Always(Code::N16)
        }
        TokenKind::Question => RefusedForm::Question,
        TokenKind::At | TokenKind::HashPlus => RefusedForm::Always(Code::N17),
        TokenKind::NotIn => RefusedForm::Always(Code::N18),
        _ => RefusedForm::Nothing,
    }
}

/// Whether the token at this position is of this kind.
fn stands(tokens: &[Token], at: usize, kind: TokenKind) -> bool
    ensures { IsTrue result ↔ Stands tokens.now at kind }
{
    match tokens.get(at) {
        Some(token) => same_kind(token.kind, kind),
        None => false,
    }
}

/// Whether `$`, a name and `:` stand directly before this position.
fn behind_dollar(tokens: &[Token], at: usize) -> bool
    ensures { IsTrue result ↔ BehindDollar tokens.now at }
{
    if at >= 3 {
        stands(tokens, at - 3, TokenKind::Dollar)
            && stands(tokens, at - 2, TokenKind::Name)
            && stands(tokens, at - 1, TokenKind::Colon)
    } else {
        false
    }
}

/// Whether `[` stands directly before this position and `]` directly behind it.
fn bracketed(tokens: &[Token], at: usize) -> bool
    requires { at < length tokens.now }
    ensures { IsTrue result ↔ Bracketed tokens.now at }
{
    if at >= 1 {
        stands(tokens, at - 1, TokenKind::OpenBracket)
            && stands(tokens, at + 1, TokenKind::CloseBracket)
    } else {
        false
    }
}

/// Whether the token at this position is a string that names no convention of procedures.
fn unconventional(tokens: &[Token], at: usize) -> bool
    ensures { IsTrue result ↔ Unconventional tokens.now at }
{
    match tokens.get(at) {
        Some(token) => same_kind(token.kind, TokenKind::Text) && !is_convention(token.word),
        None => false,
    }
}

/// Whether a string that says this names a convention of procedures.
fn is_convention(word: Word) -> bool
    ensures { result ≡ is_convention word }
{
    match word {
        Word::Odin | Word::Contextless => true,
        _ => false,
    }
}

/// The code where the test holds.
fn code_if(holds: bool, code: Code) -> Option<Code>
    ensures some { IfSome result (λ c. (c ≡ code) × IsTrue holds) }
    ensures none { IfNone result (IsTrue holds → ⊥) }
{
    if holds { Some(code) } else { None }
}

/// The code where the test fails.
fn code_unless(holds: bool, code: Code) -> Option<Code>
    ensures some { IfSome result (λ c. (c ≡ code) × (IsTrue holds → ⊥)) }
    ensures none { IfNone result (IsTrue holds) }
{
    if holds { None } else { Some(code) }
}

/// The code of the refused form that begins with `proc` at the position before this one.
fn behind_proc(tokens: &[Token], at: usize) -> Option<Code>
    ensures some { IfSome result (λ c. BehindProc tokens.now at c) }
    ensures none { IfNone result ((c : Code) → BehindProc tokens.now at c → ⊥) }
{
    if stands(tokens, at, TokenKind::OpenBrace) {
        Some(Code::N11)
    } else {
        code_if(unconventional(tokens, at), Code::N12)
    }
}

/// Whether `^` and `]` stand directly behind this position.
fn pointed(tokens: &[Token], at: usize) -> bool
    requires { at < length tokens.now }
    ensures { IsTrue result ↔ Pointed tokens.now at }
{
    stands(tokens, at + 1, TokenKind::Caret) && stands(tokens, at + 2, TokenKind::CloseBracket)
}

/// The code of a form that may begin at this position, if it is refused there.
fn code_of(tokens: &[Token], at: usize, form: RefusedForm) -> Option<Code>
    requires { at < length tokens.now }
    ensures some { IfSome result (λ c. Refuses tokens.now at form c) }
    ensures none { IfNone result ((c : Code) → Refuses tokens.now at form c → ⊥) }
{
    match form {
        RefusedForm::Always(code) => Some(code),
        RefusedForm::Before(kind, code) => code_if(stands(tokens, at + 1, kind), code),
        RefusedForm::Typeid => code_unless(behind_dollar(tokens, at), Code::N04),
        RefusedForm::Bracket => code_if(pointed(tokens, at), Code::N05),
        RefusedForm::Proc => behind_proc(tokens, at + 1),
        RefusedForm::Question => code_unless(bracketed(tokens, at), Code::N16),
        RefusedForm::Nothing => None,
    }
}

/// The code of the refused form that begins at this position, if one does.
pub fn refused_at(tokens: &[Token], at: usize) -> Option<Code>
    ensures some { IfSome result (λ c. Refused tokens.now at c) }
    ensures none { IfNone result ((c : Code) → Refused tokens.now at c → ⊥) }
{
    match tokens.get(at) {
        Some(token) => code_of(tokens, at, refused_form(*token)),
        None => None,
    }
}

/// The first refused form that begins from position `from` on and before position `end`, with its code.
pub fn first_refused_between(tokens: &[Token], from: usize, end: usize) -> Option<(usize, Code)>
    ensures some { IfSome result (λ r. FirstRefused tokens.now from end r.0 r.1) }
    ensures none { IfNone result (NoneRefused tokens.now from end) }
{
    for at in from..end {
        if let Some(code) = refused_at(tokens, at) {
            return Some((at, code));
        }
    }
    None
}

/// The first refused form in the tokens, with its code.
pub fn first_refused(tokens: &[Token]) -> Option<(usize, Code)>
    ensures some { IfSome result (λ r. FirstRefused tokens.now 0 (length tokens.now) r.0 r.1) }
    ensures none { IfNone result (NoneRefused tokens.now 0 (length tokens.now)) }
{
    first_refused_between(tokens, 0, tokens.len())
}
