//! How lists between commas go on.

ghost use Rattle.std.specs.Prelude.{◌≡◌, ◌<◌, ◌≤◌, length, IfSome, IfNone, IfOk, IfErr};
ghost use Rattle.odc_lookahead.specs.Lists.{Closed, Open, Ended, Again, NotGoing};
ghost use Rattle.odc_lookahead.specs.declared.tokens.Fit.TheVariants.{Within};

use crate::stop::Stop;
use crate::tokens::{Fit, strip};
use odc_syntax::token::{Token, TokenKind};

/// How a list goes on behind an item: with its closing token, before which a comma may stand, or with a
/// comma and a further item. With it come the tokens behind that. `fit` tells whether anything may follow
/// the item.
pub fn after_item(
    tokens: &[Token],
    close: TokenKind,
    fit: Fit,
) -> Result<(Option<Token>, &[Token]), Stop>
    ensures ended { IfOk result (λ r. IfSome r.0 (λ t. Ended close tokens.now t r.1.now)) }
    ensures again { IfOk result (λ r. IfNone r.0 (Again close tokens.now r.1.now)) }
    ensures within { IfOk result (λ r. fit ≡ Within) }
    ensures shorter { IfOk result (λ r. length r.1.now < length tokens.now) }
    ensures refused { IfErr result (NotGoing close fit tokens.now) }
{
    match strip(tokens, close) {
        Some((token, rest)) => match fit {
            Fit::Within => Ok((Some(token), rest)),
            Fit::Over => Err(Stop::Deep(rest.len())),
        },
        None => match strip(tokens, TokenKind::Comma) {
            Some((_comma, rest)) => match fit {
                Fit::Within => Ok(behind_comma(rest, close)),
                Fit::Over => Err(Stop::Deep(rest.len())),
            },
            None => Err(Stop::Syntax(tokens.len())),
        },
    }
}

/// The closing token behind a comma, if it stands there, and the tokens behind it.
fn behind_comma(tokens: &[Token], close: TokenKind) -> (Option<Token>, &[Token])
    ensures ended { IfSome result.0 (λ t. Closed close tokens.now t result.1.now) }
    ensures again { IfNone result.0 (Open close tokens.now result.1.now) }
    ensures shorter { length result.1.now ≤ length tokens.now }
{
    match strip(tokens, close) {
        Some((token, rest)) => (Some(token), rest),
        None => (None, tokens),
    }
}
