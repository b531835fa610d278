//! Where types that are operands end.

ghost use Rattle.std.specs.Prelude.{◌≡◌};
ghost use Rattle.odc_syntax.specs.Grammar.{at_end, inside};
ghost use Rattle.odc_lookahead.specs.Ends.{Over, ends_operand};

use crate::stop::Stop;
use crate::tokens::strip;
use odc_syntax::grammar::Use;
use odc_syntax::token::{Token, TokenKind};

/// Whether what was read ends where it was left.
#[derive(Clone, Copy)]
pub enum End {
    /// It does.
    Sure,
    /// It ends with a name that is a type, before a `.` that no name follows. With the `.` alone the
    /// type might still be a name of a package.
    BeforeDot,
}

/// Why nothing is read behind what ends so, where it is already as deep as it may be; a token that may
/// follow it stands before these.
pub fn over(end: End, behind: &[Token]) -> Stop
    ensures { Over end behind.now result }
{
    match end {
        End::Sure => Stop::Deep(behind.len()),
        End::BeforeDot => match strip(behind, TokenKind::OpenParen) {
            Some((_open, rest)) => Stop::Deep(rest.len()),
            None => Stop::Syntax(behind.len()),
        },
    }
}

/// Where a type stands that ends one that stands so.
pub fn at_end(used: Use) -> Use
    ensures { result ≡ at_end used }
{
    match used {
        Use::Plain => Use::Plain,
        Use::Parameter => Use::Parameter,
        Use::Operand | Use::OperandEnd => Use::OperandEnd,
    }
}

/// Where a type stands that is in brackets of one that stands so.
pub fn inside(used: Use) -> Use
    ensures { result ≡ inside used }
{
    match used {
        Use::Plain | Use::Operand | Use::OperandEnd => Use::Plain,
        Use::Parameter => Use::Parameter,
    }
}

/// Whether the type is an operand, or its end.
pub fn ends_operand(used: Use) -> bool
    ensures { result ≡ ends_operand used }
{
    match used {
        Use::Plain | Use::Parameter => false,
        Use::Operand | Use::OperandEnd => true,
    }
}
