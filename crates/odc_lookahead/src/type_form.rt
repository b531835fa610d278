//! How types begin.

ghost use Rattle.std.specs.Prelude.{◌≡◌};
ghost use Rattle.odc_lookahead.specs.TypeForms.{own_form, built_form};

use odc_syntax::grammar::Use;
use odc_syntax::token::{Token, TokenKind, Word};

/// What a type is that begins as an operand of another kind may.
#[derive(Clone, Copy)]
pub enum OwnForm {
    /// A name, or one of another package.
    Name,
    /// A type in parentheses.
    Group,
    /// A procedure's type.
    Proc,
}

/// What a type is that nothing else begins as.
#[derive(Clone, Copy)]
pub enum BuiltForm {
    /// `^T`
    Pointer,
    /// `distinct T`
    Distinct,
    /// `$T`
    Dollar,
    /// `#type`, before a procedure's type.
    WordProc,
    /// `[..]T`
    Array,
    /// `#soa[..]T`
    Soa,
    /// `struct {..}`
    Struct,
    /// `union {..}`
    Union,
    /// `enum T {..}`
    Enum,
}

/// What a type that begins with a token of this kind is, if an operand of another kind may begin with it.
pub fn own_form(kind: TokenKind) -> Option<OwnForm>
    ensures { result ≡ own_form kind }
{
    match kind {
        TokenKind::Name => Some(OwnForm::Name),
        TokenKind::OpenParen => Some(OwnForm::Group),
        TokenKind::Proc => Some(OwnForm::Proc),
        _ => None,
    }
}

/// What a type that begins with this token is, if nothing else begins with it.
pub fn built_form(used: Use, token: Token) -> Option<BuiltForm>
    ensures { result ≡ built_form used token }
{
    match token.kind {
        TokenKind::Caret => Some(BuiltForm::Pointer),
        TokenKind::Distinct => Some(BuiltForm::Distinct),
        TokenKind::OpenBracket => Some(BuiltForm::Array),
        TokenKind::Struct => Some(BuiltForm::Struct),
        TokenKind::Union => Some(BuiltForm::Union),
        TokenKind::Enum => Some(BuiltForm::Enum),
        TokenKind::Directive => match token.word {
            Word::Soa => Some(BuiltForm::Soa),
            Word::Type => Some(BuiltForm::WordProc),
            _ => None,
        },
        TokenKind::Dollar => match used {
            Use::Parameter => Some(BuiltForm::Dollar),
            Use::Plain | Use::Operand | Use::OperandEnd => None,
        },
        _ => None,
    }
}
