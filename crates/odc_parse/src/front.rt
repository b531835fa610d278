//! Trees of the front of some tokens.

ghost use Rattle.std.specs.Prelude.{◌≡◌, ◌≤◌, length, drop, IfOk, IfErr};
ghost use Rattle.odc_syntax.specs.Grammar.{expression};
ghost use Rattle.odc_syntax.specs.Grammar as g;
ghost use Rattle.odc_syntax.specs.View.{expr, decl};
ghost use Rattle.odc_syntax.specs.declared.grammar.Mode.TheVariants.{Free};
ghost use Rattle.odc_lookahead.specs.Law.{IsRead};
ghost use Rattle.odc_lookahead.specs.Blame.{NotRead};

use odc_lookahead::blame::{end_of, stopped};
use odc_lookahead::error::ParseError;
use odc_lookahead::read::Read;
use odc_parse_expr::binary::level;
use odc_parse_expr::declaration::declaration;
use odc_syntax::grammar::{Level, Mode};
use odc_syntax::token::{Token, Tokens};
use odc_syntax::tree::{Decl, Expr};
use odc_tree::discard::{discard_decl, discard_expr};
use std::alloc::Global;

/// A tree, and the position of the token behind it.
pub struct Parsed<T> {
    pub tree: T,
    pub next: usize,
}

/// The expression that stands from this position on. It ends where nothing can go on with it.
pub fn parse_expr(alloc: Global, t: &Tokens, from: usize) -> Result<Parsed<Expr>, ParseError>
    requires { from ≤ length t.now.list.items }
    ensures read { IfOk result (λ r. IsRead (expression Free) t.now.list.items from (expr r.tree) r.next) }
    ensures not_read { IfErr result (NotRead (expression Free) t.now.list.items t.now.end from) }
{
    match level(alloc, Level::Or, Mode::Free, tokens_from(t, from), 200) {
        Ok(
            Read {
                tree,
                height: depth,
                rest,
            },
        ) => match end_of(t, from, depth, rest.len()) {
            Ok(next) => Ok(Parsed { tree, next }),
            Err(fault) => Err(discard_expr(tree, ParseError::Fault(fault))),
        },
        Err(stop) => Err(stopped(t, from, stop)),
    }
}

/// The declaration that stands from this position on. It ends where nothing can go on with it.
pub fn parse_decl(alloc: Global, t: &Tokens, from: usize) -> Result<Parsed<Decl>, ParseError>
    requires { from ≤ length t.now.list.items }
    ensures read { IfOk result (λ r. IsRead (g.declaration Free) t.now.list.items from (decl r.tree) r.next) }
    ensures not_read { IfErr result (NotRead (g.declaration Free) t.now.list.items t.now.end from) }
{
    match declaration(alloc, Mode::Free, tokens_from(t, from), 200) {
        Ok(
            Read {
                tree,
                height: depth,
                rest,
            },
        ) => match end_of(t, from, depth, rest.len()) {
            Ok(next) => Ok(Parsed { tree, next }),
            Err(fault) => Err(discard_decl(tree, ParseError::Fault(fault))),
        },
        Err(stop) => Err(stopped(t, from, stop)),
    }
}

/// The tokens from this position on.
fn tokens_from(t: &Tokens, from: usize) -> &[Token]
    requires { from ≤ length t.now.list.items }
    ensures { result.now ≡ drop from t.now.list.items }
{
    &t.list.as_slice()[from..]
}
