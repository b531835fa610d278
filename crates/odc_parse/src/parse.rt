//! The tree of a file.

ghost use Rattle.std.specs.Prelude.{◌≡◌, length, IfOk, IfErr};
ghost use Rattle.odc_syntax.specs.View.{decls};
ghost use Rattle.odc_parse.specs.File.{IsFile, NoFile};
ghost use Rattle.odc_lookahead.specs.Refused.{NoneRefused};
ghost use Rattle.odc_parse.specs.Read.{Unread};

use crate::file::{Contents, file};
use odc_lookahead::blame::place_of;
use odc_lookahead::error::ParseError;
use odc_lookahead::read::Read;
use odc_lookahead::refused::first_refused;
use odc_lookahead::stop::Stop;
use odc_syntax::token::Tokens;
use odc_syntax::tree::FileTree;
use odc_text::code::{Code, Fault};
use odc_tree::discard::discard_decls;
use std::alloc::Global;

/// The tree of the tokens of a file. A refused form comes before all else. Otherwise the fault stands at
/// the first token such that no file of a depth of at most 200 begins with the tokens up to it, or at the
/// end.
pub fn parse_file(alloc: Global, t: &Tokens) -> Result<FileTree, ParseError>
    ensures file { IfOk result (λ f. IsFile t.now.list.items f.name (decls f.decls.items)) }
    ensures end { IfOk result (λ f. f.end ≡ t.now.end) }
    ensures no_file { IfErr result (NoFile t.now.list.items t.now.end) }
{
    match first_refused(t.list.as_slice()) {
        Some((at, code)) => Err(ParseError::Fault(Fault {
            code,
            at: place_of(t, at),
        })),
        None => clean_file(alloc, t),
    }
}

/// The same where no form is refused.
fn clean_file(alloc: Global, t: &Tokens) -> Result<FileTree, ParseError>
    ensures file { NoneRefused t.now.list.items 0 (length t.now.list.items) → IfOk result (λ f. IsFile t.now.list.items f.name (decls f.decls.items)) }
    ensures end { IfOk result (λ f. f.end ≡ t.now.end) }
    ensures no_file { NoneRefused t.now.list.items 0 (length t.now.list.items) → IfErr result (NoFile t.now.list.items t.now.end) }
{
    let Read {
        tree: Contents { package, decls },
        height: _height,
        rest,
    } = match file(alloc, t.list.as_slice()) {
        Ok(read) => read,
        Err(stop) => return Err(unread(t, stop)),
    };
    if rest.is_empty() {
        Ok(FileTree {
            name: package,
            decls,
            end: t.end,
        })
    } else {
        Err(discard_decls(decls, unread(t, Stop::Syntax(rest.len()))))
    }
}

/// What is answered where the file is not read.
fn unread(t: &Tokens, stop: Stop) -> ParseError
    ensures { Unread t.now.list.items t.now.end stop result }
{
    match stop {
        Stop::Syntax(left) => ParseError::Fault(Fault {
            code: Code::G01,
            at: place_of(t, t.list.len().saturating_sub(left)),
        }),
        Stop::Deep(left) => ParseError::Fault(Fault {
            code: Code::L05,
            at: place_of(t, t.list.len().saturating_sub(left).saturating_sub(1)),
        }),
        Stop::Memory => ParseError::Memory,
    }
}
