//! Imports.

ghost use Rattle.std.specs.Prelude.{◌≡◌, ◌<◌, ◌≤◌, length, IfOk};
ghost use Rattle.odc_syntax.specs.Grammar as g;
ghost use Rattle.odc_syntax.specs.Tree as tree;
ghost use Rattle.odc_syntax.specs.View.{decl};
ghost use Rattle.odc_lookahead.specs.Exact.{Exact, one};
ghost use Rattle.odc_lookahead.specs.Read.{seen};
ghost use Rattle.odc_parse.specs.Read.{NameRead, nothing_follows};

use odc_lookahead::read::Read;
use odc_lookahead::stop::Stop;
use odc_lookahead::tokens::{Fit, expect, strip};
use odc_syntax::token::{Token, TokenKind};
use odc_syntax::tree::{Decl, DeclKind};
use odc_tree::node::decl_node;
use std::alloc::{AllocError, Global};

/// An import at the front of the tokens.
pub fn import<'a>(alloc: Global, tokens: &'a [Token]) -> Result<Read<'a, Decl>, Stop>
    ensures exact { Exact (one g.import_) nothing_follows 200 tokens.now (seen decl result) }
    ensures shorter { IfOk result (λ r. length r.rest.now < length tokens.now) }
    ensures low { IfOk result (λ r. r.height ≤ 1) }
{
    let (word, behind) = expect(tokens, TokenKind::Import, Fit::Within)?;
    let (name, behind_name) = optional_name(behind);
    let (path, rest) = expect(behind_name, TokenKind::Text, Fit::Within)?;
    Ok(Read {
        tree: import_of(alloc, word, name, path)?,
        height: 1,
        rest,
    })
}

/// A name, where one stands first, and the tokens behind it.
fn optional_name(tokens: &[Token]) -> (Option<Token>, &[Token])
    ensures read { NameRead tokens.now result.0 result.1.now }
    ensures short { length result.1.now ≤ length tokens.now }
{
    match strip(tokens, TokenKind::Name) {
        Some((name, rest)) => (Some(name), rest),
        None => (None, tokens),
    }
}

/// The declaration of an import.
fn import_of(
    alloc: Global,
    word: Token,
    name: Option<Token>,
    path: Token,
) -> Result<Decl, AllocError>
    ensures { IfOk result (λ d. d ≡ tree.decl word.at (tree.import name path)) }
{
    decl_node(alloc, word.at, DeclKind::Import(name, path))
}
