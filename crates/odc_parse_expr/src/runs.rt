//! Names at the start of a statement.

ghost use Rattle.std.specs.Prelude.{◌<◌, length, IfSome, IfNone};
ghost use Rattle.odc_lookahead.specs.stmts.Runs.{Labels, NotLabelled};
ghost use Rattle.odc_parse_expr.specs.Conditionals.{NamesIn};

use odc_lookahead::name_lists::names_end;
use odc_lookahead::statement_form::is_labelled;
use odc_lookahead::tokens::{first, strip};
use odc_syntax::token::{Token, TokenKind};

/// A label, and the tokens behind its `:`.
pub fn label(tokens: &[Token]) -> Option<(Token, &[Token])>
    ensures labels { IfSome result (λ r. Labels tokens.now r.0 r.1.now) }
    ensures none { IfNone result (NotLabelled tokens.now) }
    ensures shorter { IfSome result (λ r. length r.1.now < length tokens.now) }
{
    let (name, behind) = match strip(tokens, TokenKind::Name) {
        Some(found) => found,
        None => return None,
    };
    let rest = match strip(behind, TokenKind::Colon) {
        Some((_colon, rest)) => rest,
        None => return None,
    };
    match first(rest) {
        Some((next, _after)) => {
            if is_labelled(next) {
                Some((name, rest))
            } else {
                None
            }
        }
        None => None,
    }
}

/// What names at the start of a header are.
#[derive(Clone, Copy)]
pub enum NamesEnd {
    /// A `:` follows them.
    Declared,
    /// Several, behind which nothing is declared any more.
    Listed,
    /// None, or one behind which neither a comma nor a `:` stands.
    Single,
}

/// What names at the start of a header are.
pub fn names_in(tokens: &[Token]) -> NamesEnd
    ensures { NamesIn tokens.now result }
{
    match names_end(tokens) {
        Ok(_rest) => NamesEnd::Declared,
        Err(_rest) => match strip(tokens, TokenKind::Name) {
            Some((_name, behind)) => match strip(behind, TokenKind::Comma) {
                Some(_found) => NamesEnd::Listed,
                None => NamesEnd::Single,
            },
            None => NamesEnd::Single,
        },
    }
}
