//! Operands.

ghost use Rattle.std.specs.Prelude.{◌≡◌};
ghost use Rattle.odc_lookahead.specs.Forms.{operand_form};

use odc_syntax::grammar::Mode;
use odc_syntax::token::{Token, TokenKind, Word};

/// What an operand is, by its first token.
#[derive(Clone, Copy)]
pub enum OperandForm {
    /// A name.
    Name,
    /// An integer.
    Int,
    /// A character.
    Rune,
    /// A string.
    Text,
    /// `context`
    Context,
    /// `#caller_location`
    Location,
    /// `.` and a name.
    Dot,
    /// A literal in braces.
    Literal,
    /// An expression in parentheses.
    Group,
    /// A type that begins neither with a name, nor with a parenthesis, nor with `proc`.
    Type,
    /// A procedure, or its type.
    Proc,
    /// No operand.
    Nothing,
}

/// What an operand is that begins with this token.
pub fn operand_form(mode: Mode, token: Token) -> OperandForm
    ensures { result ≡ operand_form mode token }
{
    match token.kind {
        TokenKind::Name => OperandForm::Name,
        TokenKind::Int => OperandForm::Int,
        TokenKind::Rune => OperandForm::Rune,
        TokenKind::Text => OperandForm::Text,
        TokenKind::Context => OperandForm::Context,
        TokenKind::Dot => OperandForm::Dot,
        TokenKind::OpenParen => OperandForm::Group,
        TokenKind::Proc => OperandForm::Proc,
        TokenKind::Caret
        | TokenKind::Distinct
        | TokenKind::OpenBracket
        | TokenKind::Struct
        | TokenKind::Union
        | TokenKind::Enum => OperandForm::Type,
        TokenKind::Directive => match token.word {
            Word::CallerLocation => OperandForm::Location,
            Word::Soa | Word::Type => OperandForm::Type,
            _ => OperandForm::Nothing,
        },
        TokenKind::OpenBrace => match mode {
            Mode::Free => OperandForm::Literal,
            Mode::Header | Mode::Start => OperandForm::Nothing,
        },
        _ => OperandForm::Nothing,
    }
}
