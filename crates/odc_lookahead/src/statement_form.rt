//! What statements are, by their first token.

ghost use Rattle.std.specs.Prelude.{◌≡◌};
ghost use Rattle.odc_lookahead.specs.stmts.StatementForms.{statement_form};
ghost use Rattle.odc_lookahead.specs.stmts.Runs.{is_labelled};

use odc_syntax::token::{Token, TokenKind, Word};

/// What a statement is, by its first token.
#[derive(Clone, Copy)]
pub enum StatementForm {
    /// An assignment or expressions, which begin with no name.
    Simple,
    /// What begins with a name: a declaration, a label, an assignment or expressions.
    Named,
    /// `if`
    If,
    /// A block, a loop or a switch.
    Labelled,
    /// `defer`
    Defer,
    /// `return`
    Return,
    /// `break`
    Break,
    /// `continue`
    Continue,
    /// `fallthrough`
    Fallthrough,
}

/// What a statement is that begins with this token.
pub fn statement_form(token: Token) -> StatementForm
    ensures { result ≡ statement_form token }
{
    match token.kind {
        TokenKind::Name => StatementForm::Named,
        TokenKind::If => StatementForm::If,
        TokenKind::Defer => StatementForm::Defer,
        TokenKind::Return => StatementForm::Return,
        TokenKind::Break => StatementForm::Break,
        TokenKind::Continue => StatementForm::Continue,
        TokenKind::Fallthrough => StatementForm::Fallthrough,
        TokenKind::OpenBrace | TokenKind::For | TokenKind::Switch => StatementForm::Labelled,
        TokenKind::Directive => match token.word {
            Word::Partial => StatementForm::Labelled,
            _ => StatementForm::Simple,
        },
        _ => StatementForm::Simple,
    }
}

/// Whether a label may stand before what begins with this token.
pub fn is_labelled(token: Token) -> bool
    ensures { result ≡ is_labelled token }
{
    match token.kind {
        TokenKind::OpenBrace | TokenKind::For | TokenKind::Switch => true,
        TokenKind::Directive => match token.word {
            Word::Partial => true,
            _ => false,
        },
        _ => false,
    }
}
