//! How an expression of one operand begins.

ghost use Rattle.std.specs.Prelude.{◌≡◌};
ghost use Rattle.odc_lookahead.specs.Read.{unary_form};

use crate::operators::prefix_of;
use odc_syntax::token::TokenKind;
use odc_syntax::tree::UnaryOp;

/// How a unary expression begins.
#[derive(Clone, Copy)]
pub enum UnaryForm {
    /// With an operator.
    Sign(UnaryOp),
    /// With `cast`.
    Cast,
    /// With an operand.
    Operand,
}

/// How an expression begins whose first token is of this kind.
pub fn unary_form(kind: TokenKind) -> UnaryForm
    ensures { result ≡ unary_form kind }
{
    match prefix_of(kind) {
        Some(op) => UnaryForm::Sign(op),
        None => match kind {
            TokenKind::Cast => UnaryForm::Cast,
            _ => UnaryForm::Operand,
        },
    }
}
