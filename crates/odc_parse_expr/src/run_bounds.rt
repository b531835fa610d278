//! Expressions with commas at the start of a header where too few levels are left for them.

ghost use Rattle.std.specs.Prelude.{List, ◌≡◌, ◌∷◌, true, IfSome, IfNone};
ghost use Rattle.odc_syntax.specs.declared.token.Token.{Token as TokenValue};
ghost use Rattle.odc_syntax.specs.declared.token.TokenKind.TheVariants as kind;
ghost use Rattle.odc_lookahead.specs.stmts.RunBounds.{Run, LastOver, RunOver, continues_closed, EndsClosed};

use crate::simple::{assignment_of, nothing_fits};
use odc_lookahead::operators::goes_on;
use odc_lookahead::stop::Stop;
use odc_lookahead::tokens::{first, strip};
use odc_syntax::grammar::Mode;
use odc_syntax::token::{Token, TokenKind};
use std::alloc::Global;

/// Why several names at the start of a header are not read where one level is left: they may still be
/// declared, and all else is too deep.
#[cycle(parser)]
pub fn run_over(alloc: Global, tokens: &[Token]) -> Stop
    ensures { RunOver tokens.now result }
{
    let last = last_item(tokens);
    last_over(alloc, last)
}

/// Why the last of some expressions is not read where too few levels are left for them.
#[cycle(parser)]
pub fn last_over(alloc: Global, tokens: &[Token]) -> Stop
    ensures { LastOver tokens.now result }
{
    let behind = match strip(tokens, TokenKind::Name) {
        Some((_name, behind)) => behind,
        None => return nothing_fits(alloc, Mode::Header, tokens),
    };
    match closed_on(behind) {
        Some((_token, rest)) => Stop::Deep(rest.len()),
        None => Stop::Syntax(behind.len()),
    }
}

/// The tokens behind names that each have a comma.
fn last_item(tokens: &[Token]) -> &[Token]
    ensures run { Run tokens.now result.now }
    ensures alone { (t c : TokenValue) (us : List TokenValue) → result.now ≡ t ∷ c ∷ us → t.kind ≡ kind.Name → c.kind ≡ kind.Comma → ⊥ }
{
    let mut rest = tokens;
    'names: loop {
        let behind = match strip(rest, TokenKind::Name) {
            Some((_name, behind)) => behind,
            None => return rest,
        };
        match strip(behind, TokenKind::Comma) {
            Some((_comma, after)) => rest = after,
            None => return rest,
        }
    }
}

/// A first token that goes on with a simple statement of a header, or its `;`, and the tokens behind it.
fn closed_on(tokens: &[Token]) -> Option<(Token, &[Token])>
    ensures is { IfSome result (λ r. tokens.now ≡ r.0 ∷ r.1.now) }
    ensures on { IfSome result (λ r. continues_closed r.0.kind ≡ true) }
    ensures none { IfNone result (EndsClosed tokens.now) }
{
    let (token, rest) = first(tokens)?;
    if goes_on_closed(token.kind) {
        Some((token, rest))
    } else {
        None
    }
}

/// Whether a token of this kind goes on with a simple statement of a header, or is its `;`.
pub fn goes_on_closed(kind: TokenKind) -> bool
    ensures { result ≡ continues_closed kind }
{
    match kind {
        TokenKind::Semicolon | TokenKind::Comma => true,
        _ => goes_on(Mode::Header, kind) || assignment_of(kind).is_some(),
    }
}
