//! Whole texts, read into programs.

ghost use Rattle.std.specs.Prelude.{◌≡◌, ◌+◌, ◌<◌, ◌^◌, ◌∷◌, [], List, IfOk, MatchOption, codes, length, map};
ghost use Rattle.odc_typed.specs.View.{proc, program};
ghost use Rattle.odc_text.specs.declared.path.PathText.{PathText};
ghost use Rattle.odc_small.specs.Grammar.{LineAt, Tree};
ghost use Rattle.odc_small.specs.Names.{names_of as names_of_all};
ghost use Rattle.odc_small.specs.Text.{IsKnownText, MainAt, ReadsFuncs, ReadsMain, ReadsText, Spells};
ghost use Rattle.odc_small.specs.Typing.{typed};
ghost use Rattle.odc_small.specs.View.{callable as callable_tree, AreFew};

use crate::funcs::{are_different, func_at};
use crate::lines::{Progress, block_at};
use crate::pieces::strip;
use crate::scope::{Callable, Signature};
use crate::sums::at;
use odc_text::path::PathText;
use odc_typed::tree::{Procedure, Program};
use std::alloc::{AllocError, Global};

/// The most bytes of a text.
pub const LIMIT: usize = 16384;

const HEAD: &[u8] = b"package main\nimport \"core:fmt\"\n";

/// The path of the only file.
const MAIN: &str = "main.odin";

// The procedures at the front, which begin on the third line, with their signatures, the number of the
// line behind them, and what follows.
fn funcs_at<'a>(
    alloc: Global,
    callable: &Callable,
    bytes: &'a [u8],
) -> Result<(Vec<Procedure>, Vec<Signature>, u32, &'a [u8]), AllocError>
    requires few { AreFew callable.now }
    requires fits { 3 + length bytes.now < 2 ^ 28 }
    ensures { IfOk result (λ p. ReadsFuncs (callable_tree callable.now) p.2 bytes.now p.3.now (map proc p.0.items) p.1.items) }
{
    let mut procedures = Vec::new(alloc);
    let mut signatures = Vec::new(alloc);
    let mut line = 3u32;
    let mut rest = bytes;
    'procedures: while let Some((procedure, signature, next, after)) = func_at(
        alloc, callable, line, rest,
    )? {
        procedures.push(procedure)?;
        signatures.push(signature)?;
        line = next;
        rest = after;
    }
    Ok((procedures, signatures, line, rest))
}

// `main`, whose first line is this one, to the end of the text.
fn main_at(
    alloc: Global,
    callable: &Callable,
    line: u32,
    bytes: &[u8],
) -> Result<Option<Procedure>, AllocError>
    requires few { AreFew callable.now }
    requires fits { line + length bytes.now < 2 ^ 28 }
    ensures { IfOk result (λ o. MatchOption o
        ((ls : List (LineAt 7)) → ¬ MainAt (callable_tree callable.now) bytes.now ls)
        (λ p. ReadsMain (callable_tree callable.now) line bytes.now (proc p))) }
{
    let Some(inner) = strip(b"main :: proc() {\n", bytes) else {
        return Ok(None);
    };
    let mut state = Progress {
        names: Vec::new(alloc),
        locals: Vec::new(alloc),
        next: 0,
        line: line + 1,
    };
    let (body, rest) = block_at(alloc, callable, 0, &mut state, 8, inner)?;
    if rest != b"}\n".as_slice() {
        return Ok(None);
    }
    Ok(Some(Procedure {
        name: String::from_str(alloc, "main.main")?,
        at: at(line, 9),
        parameters: Vec::new(alloc),
        results: Vec::new(alloc),
        locals: state.locals,
        body,
    }))
}

// The procedures of a text, `main` last, where these may be called; with the signatures of the others.
fn text_at(
    alloc: Global,
    callable: &Callable,
    bytes: &[u8],
) -> Result<Option<(Vec<Procedure>, Vec<Signature>)>, AllocError>
    requires few { AreFew callable.now }
    requires fits { length bytes.now < 2 ^ 27 }
    ensures { IfOk result (λ o. MatchOption o
        ((tree : Tree) → ¬ IsKnownText (callable_tree callable.now) bytes.now tree)
        (λ p. ReadsText (callable_tree callable.now) bytes.now (map proc p.0.items) p.1.items)) }
{
    let Some(body) = strip(HEAD, bytes) else {
        return Ok(None);
    };
    let (mut procedures, signatures, line, rest) = funcs_at(alloc, callable, body)?;
    let Some(main) = main_at(alloc, callable, line, rest)? else {
        return Ok(None);
    };
    procedures.push(main)?;
    Ok(Some((procedures, signatures)))
}

// The names of procedures.
fn names_of(alloc: Global, signatures: &[Signature]) -> Result<Vec<u8>, AllocError>
    ensures { IfOk result (λ v. v.items ≡ names_of_all signatures.now) }
{
    let mut names = Vec::new(alloc);
    for signature in signatures {
        names.push(signature.name)?;
    }
    Ok(names)
}

/// The program of a text of the small grammar, with at most 16,384 bytes; None exactly where the text
/// is none. It is read twice: first with calls of any procedures, for the list of those that there are.
pub fn read_program(alloc: Global, text: &[u8]) -> Result<Option<Program>, AllocError>
    ensures exact { IfOk result (λ o. MatchOption o
        ((tree : Tree) → ¬ Spells text.now tree)
        (λ p. (tree : Tree) × Spells text.now tree × (program p ≡ typed tree))) }
    ensures paths { IfOk result (λ o. MatchOption o (Unit {0}) (λ p. p.paths.items ≡ codes "main.odin" ∷ [])) }
{
    if text.len() > LIMIT {
        return Ok(None);
    }
    let Some((_, signatures)) = text_at(alloc, &Callable::Any, text)? else {
        return Ok(None);
    };
    let names = names_of(alloc, &signatures)?;
    if !are_different(&names) {
        return Ok(None);
    }
    let callable = Callable::Listed(signatures);
    let Some((procedures, _)) = text_at(alloc, &callable, text)? else {
        return Ok(None);
    };
    let main = procedures.len() as u32 - 1;
    let paths = vec![in alloc; PathText::copied(alloc, MAIN)?]?;
    Ok(Some(Program {
        procedures,
        main,
        paths,
    }))
}
