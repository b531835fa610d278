//! A file as a part of the grammar.

ghost use Rattle.std.specs.Prelude.{◌≤◌, IfOk, IfErr};
ghost use Rattle.odc_lookahead.specs.Exact.{Exact, one};
ghost use Rattle.odc_lookahead.specs.Read.{seen, refused};
ghost use Rattle.odc_parse.specs.File.{file_of};
ghost use Rattle.odc_parse.specs.Read.{file_view, starts_item, HeadRead};

use crate::items::items;
use odc_lookahead::read::Read;
use odc_lookahead::stop::Stop;
use odc_lookahead::tokens::{Fit, expect};
use odc_syntax::token::{Token, TokenKind};
use odc_syntax::tree::Decl;
use std::alloc::Global;

/// The package's name and the declarations of a file.
pub struct Contents {
    pub package: Token,
    pub decls: Vec<Decl>,
}

/// The contents of a file.
pub fn file<'a>(alloc: Global, tokens: &'a [Token]) -> Result<Read<'a, Contents>, Stop>
    ensures exact { Exact (one file_of) starts_item 200 tokens.now (seen file_view result) }
    ensures low { IfOk result (λ r. r.height ≤ 200) }
{
    let (package, behind) = head(tokens)?;
    let Read {
        tree: decls,
        height,
        rest,
    } = items(alloc, behind)?;
    Ok(Read {
        tree: Contents { package, decls },
        height,
        rest,
    })
}

/// The name of the package, from `package` to the semicolon, and the tokens behind it.
fn head(tokens: &[Token]) -> Result<(Token, &[Token]), Stop>
    ensures read { IfOk result (λ r. HeadRead tokens.now r.0 r.1.now) }
    ensures refused { IfErr result (λ e. Exact (one file_of) starts_item 200 tokens.now (refused e)) }
{
    let (_package, behind) = expect(tokens, TokenKind::Package, Fit::Within)?;
    let (name, after) = expect(behind, TokenKind::Name, Fit::Within)?;
    let (_semicolon, rest) = expect(after, TokenKind::Semicolon, Fit::Within)?;
    Ok((name, rest))
}
