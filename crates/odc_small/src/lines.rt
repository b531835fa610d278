//! Lines that stand at the front of a text, read into statements.

ghost use Rattle.std.specs.Prelude.{◌≡◌, ◌≢◌, ◌+◌, ◌-◌, ◌<◌, ◌≤◌, ◌^◌, ◌++◌, ℕ, List, IfOk, OnOk, MatchOption, codes, length, [], ◌∷◌};
ghost use Rattle.odc_typed.specs.Tree.{eval as eval_tree, builtin as builtin_tree};
ghost use Rattle.odc_typed.specs.declared.tree.Builtin.TheVariants.{Println};
ghost use Rattle.odc_typed.specs.View.{expr, exprs, stmt, stmts};
ghost use Rattle.odc_small.specs.Forms.{NoneAt, FoundAt};
ghost use Rattle.odc_small.specs.Grammar.{Value, declare as declare_tree, assign as assign_tree, newline, tabs};
ghost use Rattle.odc_small.specs.Names.{bound};
ghost use Rattle.odc_small.specs.Progress.{keywords, settings, declarations, assignments, assigned_told, begun, NoSimple, NoBlock, NoLine, setting_told, prints, printing_told, conditions, condition_told, Reached, reached, InnerAt, NoInner, NoOuter, ReadsInner, ReadsOuter, ReadsBody, around_by};
ghost use Rattle.odc_small.specs.Reading.{column_at, ReadsAt};
ghost use Rattle.odc_small.specs.Typing.{compared as compared_at, holds as holds_at, nested as nested_at, related_by, at as place_at};
ghost use Rattle.odc_small.specs.View.{callable as callable_tree, AreFew};

use crate::grammar::{Keyword, Relation};
use crate::pieces::{name_at, relation_at, strip};
use crate::scope::{Binding, Callable, variable_at};
use crate::sums::{at, binary, column, constant_of, items_at, sum_at};
use odc_text::place::Place;
use odc_typed::tree::{BinaryOp, Builtin, Constant, ExprKind, Local, StmtKind, TExpr, TStmt};
use std::alloc::{AllocError, Global};

/// What has been read of the lines of a procedure.
#[derive(Drop)]
pub struct Progress {
    /// The names of the open blocks, the oldest first.
    pub names: Vec<Binding>,
    /// The variables that lines have declared.
    pub locals: Vec<Local>,
    /// The number of the next variable.
    pub next: u32,
    /// The line that comes next, from 1.
    pub line: u32,
}

// A name, a sign, and a value to the end of the line, and what follows them.
fn setting_at<'a>(
    alloc: Global,
    callable: &Callable,
    names: &[Binding],
    line: u32,
    origin: u32,
    sign: &[u8],
    bytes: &'a [u8],
) -> Result<Option<(u8, TExpr, &'a [u8])>, AllocError>
    requires few { AreFew callable.now }
    requires within { length bytes.now ≤ origin }
    requires bounded { origin < 2 ^ 31 }
    ensures { IfOk result (λ o. MatchOption o
        (NoneAt (settings (callable_tree callable.now) names.now sign.now) bytes.now)
        (λ p. ReadsAt (settings (callable_tree callable.now) names.now sign.now)
        (setting_told (callable_tree callable.now) names.now line (length sign.now)) origin bytes.now p.2.now (p.0, expr p.1))) }
{
    let Some((name, rest)) = name_at(bytes) else {
        return Ok(None);
    };
    let Some(rest) = strip(sign, rest) else {
        return Ok(None);
    };
    let Some((value, rest)) = sum_at(alloc, callable, names, line, origin, 4, rest)? else {
        return Ok(None);
    };
    match strip(b"\n", rest) {
        Some(rest) => Ok(Some((name, value, rest))),
        None => Ok(None),
    }
}

// The values that a line prints, and what follows it.
fn print_at<'a>(
    alloc: Global,
    callable: &Callable,
    names: &[Binding],
    line: u32,
    origin: u32,
    bytes: &'a [u8],
) -> Result<Option<(Vec<TExpr>, &'a [u8])>, AllocError>
    requires few { AreFew callable.now }
    requires within { length bytes.now ≤ origin }
    requires bounded { origin < 2 ^ 31 }
    ensures { IfOk result (λ o. MatchOption o
        (NoneAt (prints (callable_tree callable.now) names.now) bytes.now)
        (λ p. ReadsAt (prints (callable_tree callable.now) names.now)
        (printing_told (callable_tree callable.now) names.now line) origin bytes.now p.1.now (exprs p.0.items))) }
{
    let Some(rest) = strip(b"fmt.println(", bytes) else {
        return Ok(None);
    };
    let Some((values, rest)) = items_at(alloc, callable, names, line, origin, 5, rest)? else {
        return Ok(None);
    };
    match strip(b")\n", rest) {
        Some(rest) => Ok(Some((values, rest))),
        None => Ok(None),
    }
}

// Whether two integers are so related.
fn holds(relation: Relation, left: i64, right: i64) -> bool
    ensures { result ≡ holds_at relation left right }
{
    match relation {
        Relation::Less => left < right,
        Relation::Same => left == right,
    }
}

// The operation of a comparison.
fn related(relation: Relation) -> BinaryOp
    ensures { result ≡ related_by relation }
{
    match relation {
        Relation::Less => BinaryOp::Less,
        Relation::Same => BinaryOp::Equal,
    }
}

// Two operands of a comparison, at its place; two constants are one.
fn compared(
    alloc: Global,
    place: Place,
    relation: Relation,
    left: TExpr,
    right: TExpr,
) -> Result<TExpr, AllocError>
    ensures { IfOk result (λ e. expr e ≡ compared_at place relation (expr left) (expr right)) }
{
    if let Some(y) = constant_of(&left) {
        if let Some(z) = constant_of(&right) {
            let value = holds(relation, y, z);
            return Ok(TExpr {
                at: place,
                kind: ExprKind::Const(Constant::Bool { value }),
            });
        }
    }
    binary(alloc, place, related(relation), left, right)
}

// A condition and the brace behind it, and what follows them.
fn condition_at<'a>(
    alloc: Global,
    callable: &Callable,
    names: &[Binding],
    line: u32,
    origin: u32,
    bytes: &'a [u8],
) -> Result<Option<(TExpr, &'a [u8])>, AllocError>
    requires few { AreFew callable.now }
    requires within { length bytes.now ≤ origin }
    requires bounded { origin < 2 ^ 31 }
    ensures { IfOk result (λ o. MatchOption o
        (NoneAt (conditions (callable_tree callable.now) names.now) bytes.now)
        (λ p. ReadsAt (conditions (callable_tree callable.now) names.now)
        (condition_told (callable_tree callable.now) names.now line) origin bytes.now p.1.now (expr p.0))) }
{
    let Some((left, behind)) = sum_at(alloc, callable, names, line, origin, 4, bytes)? else {
        return Ok(None);
    };
    let Some((relation, rest)) = relation_at(behind) else {
        return Ok(None);
    };
    let Some((right, rest)) = sum_at(alloc, callable, names, line, origin, 4, rest)? else {
        return Ok(None);
    };
    let Some(rest) = strip(b" {\n", rest) else {
        return Ok(None);
    };
    let place = at(line, column(origin, behind) + 1);
    let whole = compared(alloc, place, relation, left, right)?;
    Ok(Some((whole, rest)))
}

// What follows so many tabs.
fn strip_tabs(depth: u32, bytes: &[u8]) -> Option<&[u8]>
    requires { depth ≤ 8 }
    ensures { MatchOption result ((rest : List ℕ) → bytes.now ≢ tabs depth ++ rest) (λ rest. bytes.now ≡ tabs depth ++ rest.now) }
{
    let all = b"\t\t\t\t\t\t\t\t";
    strip(&all[..depth as usize], bytes)
}

// What follows the end of a body that began behind so many tabs.
fn end_at(depth: u32, bytes: &[u8]) -> Option<&[u8]>
    requires { depth ≤ 8 }
    ensures { MatchOption result ((rest : List ℕ) → bytes.now ≢ (tabs depth ++ (codes "}" ++ newline)) ++ rest)
        (λ rest. bytes.now ≡ (tabs depth ++ (codes "}" ++ newline)) ++ rest.now) }
{
    let Some(rest) = strip_tabs(depth, bytes) else {
        return None;
    };
    let Some(rest) = strip(b"}\n", rest) else {
        return None;
    };
    Some(rest)
}

// The word that begins a line with a body, and what follows it.
fn keyword_at(bytes: &[u8]) -> Option<(Keyword, &[u8])>
    ensures { MatchOption result (NoneAt keywords bytes.now) (λ p. FoundAt keywords bytes.now p.0 p.1.now) }
{
    if let Some(rest) = strip(b"if ", bytes) {
        return Some((Keyword::If, rest));
    }
    let rest = strip(b"for ", bytes)?;
    Some((Keyword::For, rest))
}

// The name that a line declares and its value, and what follows it.
fn declare_at<'a>(
    alloc: Global,
    callable: &Callable,
    names: &[Binding],
    line: u32,
    origin: u32,
    bytes: &'a [u8],
) -> Result<Option<(u8, TExpr, &'a [u8])>, AllocError>
    requires few { AreFew callable.now }
    requires within { length bytes.now ≤ origin }
    requires bounded { origin < 2 ^ 31 }
    ensures { IfOk result (λ o. MatchOption o
        (NoneAt (declarations (callable_tree callable.now) names.now) bytes.now)
        (λ p. ReadsAt (declarations (callable_tree callable.now) names.now) (setting_told (callable_tree callable.now) names.now line 4) origin bytes.now p.2.now (p.0, expr p.1))) }
{
    let Some((name, value, rest)) = setting_at(
        alloc, callable, names, line, origin, b" := ", bytes,
    )?
    else {
        return Ok(None);
    };
    match variable_at(name, names) {
        Some(_) => Ok(None),
        None => Ok(Some((name, value, rest))),
    }
}

// The variable that a line assigns to and its value, and what follows it.
fn assign_at<'a>(
    alloc: Global,
    callable: &Callable,
    parameters: u32,
    names: &[Binding],
    line: u32,
    origin: u32,
    bytes: &'a [u8],
) -> Result<Option<(u32, TExpr, &'a [u8])>, AllocError>
    requires few { AreFew callable.now }
    requires within { length bytes.now ≤ origin }
    requires bounded { origin < 2 ^ 31 }
    ensures { IfOk result (λ o. MatchOption o
        (NoneAt (assignments (callable_tree callable.now) parameters names.now) bytes.now)
        (λ p. ReadsAt (assignments (callable_tree callable.now) parameters names.now) (assigned_told (callable_tree callable.now) names.now line) origin bytes.now p.2.now (p.0, expr p.1))) }
{
    let Some((name, value, rest)) = setting_at(alloc, callable, names, line, origin, b" = ", bytes)?
    else {
        return Ok(None);
    };
    let Some(variable) = variable_at(name, names) else {
        return Ok(None);
    };
    if parameters <= variable {
        Ok(Some((variable, value, rest)))
    } else {
        Ok(None)
    }
}

// A variable begins: its name is open, and its number.
fn begin(state: &mut Progress, name: u8, place: Place) -> Result<u32, AllocError>
    requires next { (reached state.old).next < 2 ^ 30 }
    requires line { (reached state.old).line < 2 ^ 31 }
    ensures number { IfOk result (λ x. x ≡ (reached state.old).next) }
    ensures state { OnOk result (reached state.new ≡ begun (reached state.old) name place) }
{
    let variable = state.next;
    state.names.push(Binding { name, variable })?;
    state.locals.push(Local { at: place })?;
    state.next += 1;
    state.line += 1;
    Ok(variable)
}

// The statement that prints these values.
fn printed(place: Place, values: Vec<TExpr>) -> TStmt
    ensures { stmt result ≡ eval_tree place (builtin_tree place Println (exprs values.items)) }
{
    let value = TExpr {
        at: place,
        kind: ExprKind::Builtin(Builtin::Println, values),
    };
    TStmt {
        at: place,
        kind: StmtKind::Eval(value),
    }
}

// The statement of a line with a body.
fn nested(keyword: Keyword, place: Place, condition: TExpr, body: Vec<TStmt>) -> TStmt
    ensures { stmt result ≡ nested_at keyword place (expr condition) (stmts body.items) }
{
    match keyword {
        Keyword::If => TStmt {
            at: place,
            kind: StmtKind::If(condition, body),
        },
        Keyword::For => TStmt {
            at: place,
            kind: StmtKind::Loop(condition, body),
        },
    }
}

// A line without a body, behind its tabs, and what follows it.
fn simple_at<'a>(
    alloc: Global,
    callable: &Callable,
    parameters: u32,
    state: &mut Progress,
    room: u32,
    origin: u32,
    bytes: &'a [u8],
) -> Result<Option<(TStmt, &'a [u8])>, AllocError>
    requires few { AreFew callable.now }
    requires within { length bytes.now ≤ origin }
    requires bounded { origin < 2 ^ 31 }
    requires begins { column_at origin bytes.now ≡ 8 - room + 1 }
    requires shallow { room ≤ 7 }
    requires next { (reached state.old).next + length bytes.now < 2 ^ 30 }
    requires line { (reached state.old).line + length bytes.now < 2 ^ 30 }
    ensures { IfOk result (λ o. MatchOption o
        (NoSimple (around_by (callable_tree callable.now) parameters) (reached state.old) (reached state.new) bytes.now)
        (λ p. ReadsInner (around_by (callable_tree callable.now) parameters) room (reached state.old) (reached state.new) bytes.now p.1.now (stmt p.0))) }
{
    let line = state.line;
    let place = at(line, 9 - room);
    if let Some((name, value, rest)) = declare_at(
        alloc,
        callable,
        &state.names,
        line,
        origin,
        bytes,
    )? {
        let variable = begin(state, name, place)?;
        let statement = TStmt {
            at: place,
            kind: StmtKind::Declare(variable, value),
        };
        return Ok(Some((statement, rest)));
    }
    if let Some((variable, value, rest)) = assign_at(
        alloc,
        callable,
        parameters,
        &state.names,
        line,
        origin,
        bytes,
    )? {
        state.line += 1;
        let target = TExpr {
            at: place,
            kind: ExprKind::Local(variable),
        };
        let sign = at(line, 11 - room);
        let statement = TStmt {
            at: sign,
            kind: StmtKind::Assign(target, value),
        };
        return Ok(Some((statement, rest)));
    }
    match print_at(alloc, callable, &state.names, line, origin, bytes)? {
        Some((values, rest)) => {
            state.line += 1;
            Ok(Some((printed(place, values), rest)))
        }
        None => Ok(None),
    }
}

// A line with a body, behind its tabs, and what follows it.
#[cycle(lines)]
fn nest_at<'a>(
    alloc: Global,
    callable: &Callable,
    parameters: u32,
    state: &mut Progress,
    room: u32,
    origin: u32,
    bytes: &'a [u8],
) -> Result<Option<(TStmt, &'a [u8])>, AllocError>
    requires few { AreFew callable.now }
    requires within { length bytes.now ≤ origin }
    requires bounded { origin < 2 ^ 31 }
    requires begins { column_at origin bytes.now ≡ 8 - room + 1 }
    requires shallow { room ≤ 7 }
    requires next { (reached state.old).next + length bytes.now < 2 ^ 30 }
    requires line { (reached state.old).line + length bytes.now < 2 ^ 30 }
    ensures { IfOk result (λ o. MatchOption o
        (NoBlock (around_by (callable_tree callable.now) parameters) room (reached state.old) (reached state.new) bytes.now)
        (λ p. ReadsInner (around_by (callable_tree callable.now) parameters) room (reached state.old) (reached state.new) bytes.now p.1.now (stmt p.0))) }
{
    let line = state.line;
    let Some((keyword, rest)) = keyword_at(bytes) else {
        return Ok(None);
    };
    let Some((condition, rest)) = condition_at(alloc, callable, &state.names, line, origin, rest)?
    else {
        return Ok(None);
    };
    let names = state.names.len();
    let locals = state.locals.len();
    let next = state.next;
    state.line += 1;
    let (body, rest) = block_at(alloc, callable, parameters, state, room, rest)?;
    state.names.truncate(names);
    let Some(rest) = end_at(8 - room, rest) else {
        state.locals.truncate(locals);
        state.next = next;
        state.line = line;
        return Ok(None);
    };
    state.line += 1;
    Ok(Some((nested(keyword, at(line, 9 - room), condition, body), rest)))
}

// The line at the front, where lines may nest so deep inside it, and what follows it.
#[cycle(lines)]
fn line_at<'a>(
    alloc: Global,
    callable: &Callable,
    parameters: u32,
    state: &mut Progress,
    room: u32,
    bytes: &'a [u8],
) -> Result<Option<(TStmt, &'a [u8])>, AllocError>
    requires few { AreFew callable.now }
    requires shallow { room ≤ 7 }
    requires next { (reached state.old).next + length bytes.now < 2 ^ 30 }
    requires line { (reached state.old).line + length bytes.now < 2 ^ 30 }
    ensures { IfOk result (λ o. MatchOption o
        (NoLine (around_by (callable_tree callable.now) parameters) room (reached state.old) (reached state.new) bytes.now)
        (λ p. ReadsOuter (around_by (callable_tree callable.now) parameters) room (reached state.old) (reached state.new) bytes.now p.1.now (stmt p.0))) }
{
    let Some(inner) = strip_tabs(8 - room, bytes) else {
        return Ok(None);
    };
    let origin = bytes.len() as u32 + 1;
    if let Some((statement, rest)) = simple_at(
        alloc, callable, parameters, state, room, origin, inner,
    )? {
        return Ok(Some((statement, rest)));
    }
    match nest_at(alloc, callable, parameters, state, room, origin, inner)? {
        Some((statement, rest)) => Ok(Some((statement, rest))),
        None => Ok(None),
    }
}

/// The lines at the front, where they may nest so deep, and what follows them.
#[cycle(lines)]
pub fn block_at<'a>(
    alloc: Global,
    callable: &Callable,
    parameters: u32,
    state: &mut Progress,
    room: u32,
    bytes: &'a [u8],
) -> Result<(Vec<TStmt>, &'a [u8]), AllocError>
    requires few { AreFew callable.now }
    requires shallow { room ≤ 8 }
    requires next { (reached state.old).next + length bytes.now < 2 ^ 30 }
    requires line { (reached state.old).line + length bytes.now < 2 ^ 30 }
    ensures { IfOk result (λ p. ReadsBody (around_by (callable_tree callable.now) parameters) room (reached state.old) (reached state.new) bytes.now p.1.now (stmts p.0.items)) }
{
    let mut body = Vec::new(alloc);
    let mut rest = bytes;
    if room == 0 {
        return Ok((body, rest));
    }
    'lines: while let Some((statement, after)) = line_at(
        alloc,
        callable,
        parameters,
        state,
        room - 1,
        rest,
    )? {
        body.push(statement)?;
        rest = after;
    }
    Ok((body, rest))
}
