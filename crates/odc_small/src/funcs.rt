//! Procedures that stand at the front of a text.

ghost use Rattle.std.specs.Prelude.{◌≡◌, ◌+◌, ◌<◌, ◌≤◌, ◌^◌, ◌↔◌, ◌++◌, ◌∷◌, [], IfOk, IsTrue, MatchOption, codes, length, string_bytes};
ghost use Rattle.std.specs.List.{Contains};
ghost use Rattle.odc_typed.specs.View.{expr, proc, stmts};
ghost use Rattle.odc_small.specs.Forms.{NoneAt, FoundAt};
ghost use Rattle.odc_small.specs.Names.{AreDifferent, parameter_names};
ghost use Rattle.odc_small.specs.Reading.{ReadsAt, closed_by, nexts_of};
ghost use Rattle.odc_small.specs.Text.{parameters as parameter_forms, parameters_close, headings, footings, footing_told, ReadsMore, known_funcs, started, ReadsFunc};
ghost use Rattle.odc_small.specs.Progress.{reached};
ghost use Rattle.odc_small.specs.Typing.{parameters_at as parameter_locals};
ghost use Rattle.odc_small.specs.View.{callable as callable_tree, AreFew};

use crate::lines::{Progress, block_at};
use crate::pieces::{name_at, strip, upper_at};
use crate::scope::{Binding, Callable, Signature};
use crate::sums::{at, sum_at};
use odc_typed::tree::{Local, Procedure, StmtKind, TExpr, TStmt};
use std::alloc::{AllocError, Global};

// The parameter at the front, and what follows it.
fn parameter_at(bytes: &[u8]) -> Option<(u8, &[u8])>
    ensures { MatchOption result (NoneAt parameter_forms bytes.now) (λ p. FoundAt parameter_forms bytes.now p.0 p.1.now) }
{
    let (name, rest) = name_at(bytes)?;
    let rest = strip(b": int", rest)?;
    Some((name, rest))
}

// A further parameter behind its comma.
fn next_parameter_at(bytes: &[u8]) -> Option<(u8, &[u8])>
    ensures { MatchOption result (NoneAt (nexts_of parameter_forms) bytes.now) (λ p. FoundAt (nexts_of parameter_forms) bytes.now p.0 p.1.now) }
{
    parameter_at(strip(b", ", bytes)?)
}

// The parameters up to the end of the line, and what follows it.
fn parameters_at(alloc: Global, bytes: &[u8]) -> Result<Option<(Vec<u8>, &[u8])>, AllocError>
    ensures { IfOk result (λ o. MatchOption o (NoneAt (closed_by parameters_close parameter_forms) bytes.now)
        (λ p. FoundAt (closed_by parameters_close parameter_forms) bytes.now p.0.items p.1.now)) }
{
    if let Some(rest) = strip(b") -> int {\n", bytes) {
        return Ok(Some((Vec::new(alloc), rest)));
    }
    let Some((first, after)) = parameter_at(bytes) else {
        return Ok(None);
    };
    let (names, rest) = more_at(alloc, first, after)?;
    match strip(b") -> int {\n", rest) {
        Some(rest) => Ok(Some((names, rest))),
        None => Ok(None),
    }
}

// A first parameter with all further ones, and what follows them.
fn more_at(alloc: Global, first: u8, bytes: &[u8]) -> Result<(Vec<u8>, &[u8]), AllocError>
    ensures { IfOk result (λ p. ReadsMore first bytes.now p.0.items p.1.now) }
{
    let mut names = vec![in alloc; first]?;
    let mut rest = bytes;
    'names: while let Some((name, after)) = next_parameter_at(rest) {
        names.push(name)?;
        rest = after;
    }
    Ok((names, rest))
}

// The first line of a procedure, and what follows it.
fn heading_at(alloc: Global, bytes: &[u8]) -> Result<Option<(u8, Vec<u8>, &[u8])>, AllocError>
    ensures { IfOk result (λ o. MatchOption o (NoneAt headings bytes.now) (λ p. FoundAt headings bytes.now (p.0, (tt, p.1.items)) p.2.now)) }
{
    let Some((name, rest)) = upper_at(bytes) else {
        return Ok(None);
    };
    let Some(rest) = strip(b" :: proc(", rest) else {
        return Ok(None);
    };
    match parameters_at(alloc, rest)? {
        Some((parameters, rest)) => Ok(Some((name, parameters, rest))),
        None => Ok(None),
    }
}

// The answer of a procedure and its end, and what follows them.
fn footing_at<'a>(
    alloc: Global,
    callable: &Callable,
    names: &[Binding],
    line: u32,
    origin: u32,
    bytes: &'a [u8],
) -> Result<Option<(TExpr, &'a [u8])>, AllocError>
    requires few { AreFew callable.now }
    requires within { length bytes.now ≤ origin }
    requires bounded { origin < 2 ^ 31 }
    ensures { IfOk result (λ o. MatchOption o
        (NoneAt (footings (callable_tree callable.now) names.now) bytes.now)
        (λ p. ReadsAt (footings (callable_tree callable.now) names.now) (footing_told (callable_tree callable.now) names.now line) origin bytes.now p.1.now (expr p.0))) }
{
    let Some(rest) = strip(b"\treturn ", bytes) else {
        return Ok(None);
    };
    let Some((answer, rest)) = sum_at(alloc, callable, names, line, origin, 4, rest)? else {
        return Ok(None);
    };
    match strip(b"\n}\n", rest) {
        Some(rest) => Ok(Some((answer, rest))),
        None => Ok(None),
    }
}

// Whether a name is among these.
fn is_among(name: u8, names: &[u8]) -> bool
    ensures { IsTrue result ↔ Contains names.now name }
{
    names.contains(&name)
}

/// Whether these names differ: at most the first 27 of them are compared with those behind them.
pub fn are_different(names: &[u8]) -> bool
    ensures { IsTrue result ↔ AreDifferent names.now }
{
    match names.split_first() {
        Some((first, others)) => !is_among(*first, others) && are_different(others),
        None => true,
    }
}

// The open names of a procedure's parameters.
fn bindings_of(alloc: Global, names: &[u8]) -> Result<Vec<Binding>, AllocError>
    requires { length names.now < 2 ^ 31 }
    ensures { IfOk result (λ v. v.items ≡ parameter_names 0 names.now) }
{
    let mut bindings = Vec::new(alloc);
    let mut variable = 0;
    for name in names {
        bindings.push(Binding {
            name: *name,
            variable,
        })?;
        variable += 1;
    }
    Ok(bindings)
}

// The variables of a procedure's parameters, which stand on this line.
fn locals_of(alloc: Global, line: u32, names: &[u8]) -> Result<Vec<Local>, AllocError>
    requires { length names.now < 2 ^ 28 }
    ensures { IfOk result (λ v. v.items ≡ parameter_locals line 11 names.now) }
{
    let mut locals = Vec::new(alloc);
    let mut column = 11u32;
    for parameter in names {
        let _name = *parameter;
        locals.push(Local {
            at: at(line, column),
        })?;
        column += 8;
    }
    Ok(locals)
}

// The full name of a procedure.
fn full_name(alloc: Global, name: u8) -> Result<String, AllocError>
    requires { name < 128 }
    ensures { IfOk result (λ s. string_bytes s ≡ codes "main." ++ name ∷ []) }
{
    let mut text = String::from_str(alloc, "main.")?;
    text.push(char::from(name))?;
    Ok(text)
}

// What has been read where the lines of a procedure with these parameters begin.
fn started_at(alloc: Global, line: u32, names: &[u8]) -> Result<Progress, AllocError>
    requires names { length names.now < 2 ^ 28 }
    requires line { line < 2 ^ 28 }
    ensures { IfOk result (λ p. reached p ≡ started names.now line) }
{
    Ok(Progress {
        names: bindings_of(alloc, names)?,
        locals: Vec::new(alloc),
        next: names.len() as u32 + 1,
        line: line + 1,
    })
}

/// The procedure at the front, the first line of which is this one; with its signature, the number of
/// the line behind it, and what follows it.
pub fn func_at<'a>(
    alloc: Global,
    callable: &Callable,
    line: u32,
    bytes: &'a [u8],
) -> Result<Option<(Procedure, Signature, u32, &'a [u8])>, AllocError>
    requires few { AreFew callable.now }
    requires fits { line + length bytes.now < 2 ^ 28 }
    ensures { IfOk result (λ o. MatchOption o
        (NoneAt (known_funcs (callable_tree callable.now)) bytes.now)
        (λ p. ReadsFunc (callable_tree callable.now) line p.2 bytes.now p.3.now (proc p.0) p.1)) }
{
    let Some((name, parameters, inner)) = heading_at(alloc, bytes)? else {
        return Ok(None);
    };
    if !are_different(&parameters) {
        return Ok(None);
    }
    let count = parameters.len() as u32;
    let mut state = started_at(alloc, line, &parameters)?;
    let (mut body, last) = block_at(alloc, callable, count, &mut state, 8, inner)?;
    let origin = last.len() as u32 + 1;
    let Some((answer, rest)) = footing_at(alloc, callable, &state.names, state.line, origin, last)?
    else {
        return Ok(None);
    };
    body.push(TStmt {
        at: at(state.line, 2),
        kind: StmtKind::Return(answer),
    })?;
    let column = (bytes.len() - inner.len()) as u32 - 5;
    let procedure = Procedure {
        name: full_name(alloc, name)?,
        at: at(line, 6),
        parameters: locals_of(alloc, line, &parameters)?,
        results: vec![in alloc;
            Local {
                at: at(line, column)
            },
        ]?,
        locals: state.locals,
        body,
    };
    let signature = Signature {
        name,
        parameters: count,
    };
    Ok(Some((procedure, signature, state.line + 2, rest)))
}
