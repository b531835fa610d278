//! What stands in a file behind its head.

ghost use Rattle.std.specs.Prelude.{◌≡◌, ◌<◌, ◌≤◌, ◌↔◌, length, true, false, IsTrue, IfOk};
ghost use Rattle.odc_syntax.specs.declared.token.TokenKind.TheVariants as kind;
ghost use Rattle.odc_syntax.specs.Derives.{StartsWithout};
ghost use Rattle.odc_syntax.specs.Grammar as g;
ghost use Rattle.odc_syntax.specs.View.{decl, decls};
ghost use Rattle.odc_lookahead.specs.Exact.{Exact, one};
ghost use Rattle.odc_lookahead.specs.Read.{seen, StartsWith};
ghost use Rattle.odc_parse.specs.Read.{BeginsItem, ItemRead, list_view, starts_item};

use crate::import::import;
use odc_lookahead::read::Read;
use odc_lookahead::stop::Stop;
use odc_lookahead::tokens::{expect, first, same_kind, within};
use odc_parse_expr::declaration::declaration;
use odc_syntax::grammar::Mode;
use odc_syntax::token::{Token, TokenKind};
use odc_syntax::tree::Decl;
use odc_tree::discard::{discard_decl, discard_decls};
use odc_tree::list::push_decl;
use std::alloc::Global;

/// The imports and declarations at the front of the tokens, each with its semicolon.
pub fn items<'a>(alloc: Global, tokens: &'a [Token]) -> Result<Read<'a, Vec<Decl>>, Stop>
    ensures exact { Exact (one g.decls) starts_item 200 tokens.now (seen list_view result) }
    ensures low { IfOk result (λ r. r.height ≤ 200) }
{
    let mut list = Vec::new(alloc);
    let mut height: u16 = 0;
    let mut rest = tokens;
    'list: while begins_item(rest) {
        let Read {
            tree: one,
            height: depth,
            rest: behind,
        } = match item(alloc, rest) {
            Ok(read) => read,
            Err(stop) => return Err(discard_decls(list, stop)),
        };
        let after = match expect(behind, TokenKind::Semicolon, within(depth, 200)) {
            Ok((_semicolon, after)) => after,
            Err(stop) => return Err(discard_decls(list, discard_decl(one, stop))),
        };
        list = push_decl(list, one)?;
        height = height.max(depth);
        rest = after;
    }
    Ok(Read {
        tree: list,
        height,
        rest,
    })
}

/// Whether an import or a declaration may stand here.
fn begins_item(tokens: &[Token]) -> bool
    ensures { IsTrue result ↔ BeginsItem tokens.now }
{
    match first(tokens) {
        Some((token, _rest)) => starts_item(token.kind),
        None => false,
    }
}

/// Whether an import or a declaration begins with a token of this kind.
fn starts_item(kind: TokenKind) -> bool
    ensures { result ≡ starts_item kind }
{
    match kind {
        TokenKind::Name | TokenKind::Import => true,
        _ => false,
    }
}

/// An import or a declaration.
fn item<'a>(alloc: Global, tokens: &'a [Token]) -> Result<Read<'a, Decl>, Stop>
    ensures exact { BeginsItem tokens.now → ItemRead tokens.now (seen decl result) }
    ensures shorter { IfOk result (λ r. length r.rest.now < length tokens.now) }
{
    if begins_import(tokens) {
        import(alloc, tokens)
    } else {
        declaration(alloc, Mode::Free, tokens, 200)
    }
}

/// Whether `import` stands first.
fn begins_import(tokens: &[Token]) -> bool
    ensures is { result ≡ true → StartsWith kind.Import tokens.now }
    ensures not { result ≡ false → StartsWithout kind.Import tokens.now }
{
    match first(tokens) {
        Some((token, _rest)) => same_kind(token.kind, TokenKind::Import),
        None => false,
    }
}
