//! Sums that stand at the front of a text, read into expressions. The column of a byte is the column at
//! which the line begins to be counted, less the bytes from there on: `origin` is that of the text's end.

ghost use Rattle.std.specs.Prelude.{◌≡◌, ◌↔◌, ◌<◌, ◌≤◌, ◌^◌, IfOk, IsTrue, MatchOption, codes, is_some, length, true};
ghost use Rattle.odc_typed.specs.Source.{exact};
ghost use Rattle.odc_typed.specs.Tree.{binary as binary_tree};
ghost use Rattle.odc_typed.specs.View.{expr, exprs};
ghost use Rattle.odc_small.specs.Forms.{NoneAt};
ghost use Rattle.odc_small.specs.Grammar.{muls_over, terms_over};
ghost use Rattle.odc_small.specs.Reading.{ints, known_names, known_calls, known_atoms, known_factors, known_sums, known_arguments, nexts_of, lists_of, closed_by, column_at, ReadsAt, ReadsFactor, ReadsTerm, name_told, int_told, items_told, list_told, next_told, call_told, mul_told};
ghost use Rattle.odc_small.specs.Small.{Below, IsSmall, MayScaleBy};
ghost use Rattle.odc_small.specs.Typing.{at as place_at, added_by, scaled_by, constant_of as constant_value, joined as joined_at, argument_expr, atom_at as atom_expr, sum_at as sum_expr};
ghost use Rattle.odc_small.specs.View.{callable as callable_tree, AreFew};

use crate::grammar::{Scale, Sign};
use crate::pieces::{begins_without_digit, int_at, name_at, scale_at, sign_at, strip, upper_at};
use crate::scope::{Binding, Callable, procedure_at, variable_at};
use odc_text::place::{FileId, Place};
use odc_typed::tree::{BinaryOp, Constant, ExprKind, TExpr};
use std::alloc::{AllocError, Global};

/// A place of the only file.
pub fn at(line: u32, column: u32) -> Place
    ensures { result ≡ place_at line column }
{
    Place {
        file: FileId { number: 0 },
        line,
        column,
    }
}

/// The column at which these bytes begin.
pub fn column(origin: u32, bytes: &[u8]) -> u32
    requires { length bytes.now ≤ origin }
    ensures { result ≡ column_at origin bytes.now }
{
    origin - bytes.len() as u32
}

/// Two operands and their operator, at its place.
pub fn binary(
    alloc: Global,
    place: Place,
    op: BinaryOp,
    left: TExpr,
    right: TExpr,
) -> Result<TExpr, AllocError>
    ensures { IfOk result (λ e. expr e ≡ binary_tree place op (expr left) (expr right)) }
{
    let left = Box::new(alloc, left)?;
    let right = Box::new(alloc, right)?;
    Ok(TExpr {
        at: place,
        kind: ExprKind::Binary(op, left, right),
    })
}

/// The value of an integer constant; other expressions have none.
pub fn constant_of(e: &TExpr) -> Option<i64>
    ensures { result ≡ constant_value (expr e.now) }
{
    match &e.kind {
        ExprKind::Const(Constant::Int { value }) => Some(*value),
        ExprKind::Const(Constant::Bool { .. })
        | ExprKind::Local(_)
        | ExprKind::Binary(..)
        | ExprKind::Call(..)
        | ExprKind::Builtin(..) => None,
    }
}

// The operation of a sign between products.
fn added(sign: Sign) -> BinaryOp
    ensures { result ≡ added_by sign }
{
    match sign {
        Sign::Plus => BinaryOp::Add,
        Sign::Minus => BinaryOp::Subtract,
    }
}

// The operation of a sign between factors.
fn scaled(scale: Scale) -> BinaryOp
    ensures { result ≡ scaled_by scale }
{
    match scale {
        Scale::Times => BinaryOp::Multiply,
        Scale::Over => BinaryOp::Divide,
        Scale::Rest => BinaryOp::Remainder,
    }
}

// The sum or the difference of a small integer and one of the grammar.
fn folded(sign: Sign, left: i64, right: i64) -> i64
    requires left { Below 4294967296000000000 left }
    requires right { Below 1000000000 right }
    ensures { result ≡ exact (added_by sign) left right }
{
    match sign {
        Sign::Plus => left + right,
        Sign::Minus => left - right,
    }
}

// Two operands of a sign, at its place; two constants are one.
fn joined(
    alloc: Global,
    place: Place,
    sign: Sign,
    left: TExpr,
    right: TExpr,
) -> Result<TExpr, AllocError>
    requires left { IsSmall 4294967296 (expr left) }
    requires right { IsSmall 1 (expr right) }
    ensures { IfOk result (λ e. expr e ≡ joined_at place (added_by sign) (expr left) (expr right)) }
{
    if let Some(y) = constant_of(&left) {
        if let Some(z) = constant_of(&right) {
            let value = folded(sign, y, z);
            return Ok(TExpr {
                at: place,
                kind: ExprKind::Const(Constant::Int { value }),
            });
        }
    }
    binary(alloc, place, added(sign), left, right)
}

// The variable at the front, and what follows it.
fn local_at<'a>(
    names: &[Binding],
    line: u32,
    origin: u32,
    bytes: &'a [u8],
) -> Option<(TExpr, &'a [u8])>
    requires { length bytes.now ≤ origin }
    ensures { MatchOption result (NoneAt (known_names names.now) bytes.now)
        (λ p. ReadsAt (known_names names.now) (name_told names.now line) origin bytes.now p.1.now (expr p.0)) }
{
    let (name, rest) = name_at(bytes)?;
    let variable = variable_at(name, names)?;
    if !begins_without_digit(rest) {
        return None;
    }
    let value = TExpr {
        at: at(line, column(origin, bytes)),
        kind: ExprKind::Local(variable),
    };
    Some((value, rest))
}

// The integer at the front, and what follows it.
fn number_at(line: u32, origin: u32, bytes: &[u8]) -> Option<(TExpr, &[u8])>
    requires { length bytes.now ≤ origin }
    ensures { MatchOption result (NoneAt ints bytes.now)
        (λ p. ReadsAt ints (int_told line) origin bytes.now p.1.now (expr p.0)) }
{
    let (number, rest) = int_at(bytes)?;
    let value = TExpr {
        at: at(line, column(origin, bytes)),
        kind: ExprKind::Const(Constant::Int {
            value: i64::from(number),
        }),
    };
    Some((value, rest))
}

// Whether a factor may stand behind this sign: an integer that divides isn't 0.
fn may_scale(scale: Scale, right: &TExpr) -> bool
    ensures { IsTrue result ↔ MayScaleBy scale (constant_value (expr right.now)) }
{
    match scale {
        Scale::Times => true,
        Scale::Over | Scale::Rest => constant_of(right) != Some(0),
    }
}

// Whether an expression is an integer constant.
fn is_constant(e: &TExpr) -> bool
    ensures { result ≡ is_some (constant_value (expr e.now)) }
{
    constant_of(e).is_some()
}

// Whether a product may have so many further factors: an integer that comes first stands alone.
fn may_end(alone: bool, count: usize) -> bool
    ensures { IsTrue result ↔ ((count ≤ 7) × (alone ≡ true → count ≡ 0)) }
{
    count <= 7 && (!alone || count == 0)
}

// The argument at the front of a list, in calls that may nest so deep.
#[cycle(sums)]
fn argument_at<'a>(
    alloc: Global,
    callable: &Callable,
    names: &[Binding],
    line: u32,
    origin: u32,
    depth: u32,
    bytes: &'a [u8],
) -> Result<Option<(TExpr, &'a [u8])>, AllocError>
    requires few { AreFew callable.now }
    requires within { length bytes.now ≤ origin }
    requires bounded { origin < 2 ^ 31 }
    ensures { IfOk result (λ o. MatchOption o
        (NoneAt (known_arguments (callable_tree callable.now) names.now depth) bytes.now)
        (λ p. ReadsAt (known_arguments (callable_tree callable.now) names.now depth) (argument_expr (callable_tree callable.now) names.now line depth) origin bytes.now p.1.now (expr p.0))) }
{
    if depth == 0 {
        return Ok(None);
    }
    match sum_at(alloc, callable, names, line, origin, depth - 1, bytes)? {
        Some((value, rest)) => Ok(Some((value, rest))),
        None => Ok(None),
    }
}

// A further argument behind its comma.
#[cycle(sums)]
fn next_at<'a>(
    alloc: Global,
    callable: &Callable,
    names: &[Binding],
    line: u32,
    origin: u32,
    depth: u32,
    bytes: &'a [u8],
) -> Result<Option<(TExpr, &'a [u8])>, AllocError>
    requires few { AreFew callable.now }
    requires within { length bytes.now ≤ origin }
    requires bounded { origin < 2 ^ 31 }
    ensures { IfOk result (λ o. MatchOption o
        (NoneAt (nexts_of (known_arguments (callable_tree callable.now) names.now depth)) bytes.now)
        (λ p. ReadsAt (nexts_of (known_arguments (callable_tree callable.now) names.now depth)) (next_told (callable_tree callable.now) names.now line depth) origin bytes.now p.1.now (expr p.0))) }
{
    match strip(b", ", bytes) {
        Some(rest) => match argument_at(alloc, callable, names, line, origin, depth, rest)? {
            Some((value, rest)) => Ok(Some((value, rest))),
            None => Ok(None),
        },
        None => Ok(None),
    }
}

/// The arguments at the front, at least one, and what follows them.
#[cycle(sums)]
pub fn items_at<'a>(
    alloc: Global,
    callable: &Callable,
    names: &[Binding],
    line: u32,
    origin: u32,
    depth: u32,
    bytes: &'a [u8],
) -> Result<Option<(Vec<TExpr>, &'a [u8])>, AllocError>
    requires few { AreFew callable.now }
    requires within { length bytes.now ≤ origin }
    requires bounded { origin < 2 ^ 31 }
    ensures { IfOk result (λ o. MatchOption o
        (NoneAt (lists_of (known_arguments (callable_tree callable.now) names.now depth)) bytes.now)
        (λ p. ReadsAt (lists_of (known_arguments (callable_tree callable.now) names.now depth)) (list_told (callable_tree callable.now) names.now line depth) origin bytes.now p.1.now (exprs p.0.items))) }
{
    let Some((first, after)) = argument_at(alloc, callable, names, line, origin, depth, bytes)?
    else {
        return Ok(None);
    };
    let mut values = vec![in alloc; first]?;
    let mut rest = after;
    'items: while let Some((value, after)) = next_at(
        alloc, callable, names, line, origin, depth, rest,
    )? {
        values.push(value)?;
        rest = after;
    }
    Ok(Some((values, rest)))
}

// The arguments up to the end of a call, and what follows it.
#[cycle(sums)]
fn closed_at<'a>(
    alloc: Global,
    callable: &Callable,
    names: &[Binding],
    line: u32,
    origin: u32,
    depth: u32,
    bytes: &'a [u8],
) -> Result<Option<(Vec<TExpr>, &'a [u8])>, AllocError>
    requires few { AreFew callable.now }
    requires within { length bytes.now ≤ origin }
    requires bounded { origin < 2 ^ 31 }
    ensures { IfOk result (λ o. MatchOption o
        (NoneAt (closed_by (codes ")") (known_arguments (callable_tree callable.now) names.now depth)) bytes.now)
        (λ p. ReadsAt (closed_by (codes ")") (known_arguments (callable_tree callable.now) names.now depth)) (items_told (callable_tree callable.now) names.now line depth) origin bytes.now p.1.now (exprs p.0.items))) }
{
    if let Some(rest) = strip(b")", bytes) {
        return Ok(Some((Vec::new(alloc), rest)));
    }
    let Some((values, rest)) = items_at(alloc, callable, names, line, origin, depth, bytes)? else {
        return Ok(None);
    };
    match strip(b")", rest) {
        Some(rest) => Ok(Some((values, rest))),
        None => Ok(None),
    }
}

// The call at the front, and what follows it.
#[cycle(sums)]
fn call_at<'a>(
    alloc: Global,
    callable: &Callable,
    names: &[Binding],
    line: u32,
    origin: u32,
    depth: u32,
    bytes: &'a [u8],
) -> Result<Option<(TExpr, &'a [u8])>, AllocError>
    requires few { AreFew callable.now }
    requires within { length bytes.now ≤ origin }
    requires bounded { origin < 2 ^ 31 }
    ensures { IfOk result (λ o. MatchOption o
        (NoneAt (known_calls (callable_tree callable.now) names.now depth) bytes.now)
        (λ p. ReadsAt (known_calls (callable_tree callable.now) names.now depth) (call_told (callable_tree callable.now) names.now line depth) origin bytes.now p.1.now (expr p.0))) }
{
    if depth == 0 {
        return Ok(None);
    }
    let Some((name, rest)) = upper_at(bytes) else {
        return Ok(None);
    };
    let Some(rest) = strip(b"(", rest) else {
        return Ok(None);
    };
    let Some((values, rest)) = closed_at(alloc, callable, names, line, origin, depth, rest)? else {
        return Ok(None);
    };
    let Some(procedure) = procedure_at(name, values.len(), callable) else {
        return Ok(None);
    };
    if !begins_without_digit(rest) {
        return Ok(None);
    }
    let value = TExpr {
        at: at(line, column(origin, bytes)),
        kind: ExprKind::Call(procedure, values),
    };
    Ok(Some((value, rest)))
}

// The variable, integer or call at the front, and what follows it.
#[cycle(sums)]
fn atom_at<'a>(
    alloc: Global,
    callable: &Callable,
    names: &[Binding],
    line: u32,
    origin: u32,
    depth: u32,
    bytes: &'a [u8],
) -> Result<Option<(TExpr, &'a [u8])>, AllocError>
    requires few { AreFew callable.now }
    requires within { length bytes.now ≤ origin }
    requires bounded { origin < 2 ^ 31 }
    ensures { IfOk result (λ o. MatchOption o
        (NoneAt (known_atoms (callable_tree callable.now) names.now depth) bytes.now)
        (λ p. ReadsAt (known_atoms (callable_tree callable.now) names.now depth) (atom_expr (callable_tree callable.now) names.now line depth) origin bytes.now p.1.now (expr p.0))) }
{
    if let Some((value, rest)) = local_at(names, line, origin, bytes) {
        return Ok(Some((value, rest)));
    }
    if let Some((value, rest)) = number_at(line, origin, bytes) {
        return Ok(Some((value, rest)));
    }
    match call_at(alloc, callable, names, line, origin, depth, bytes)? {
        Some((value, rest)) => Ok(Some((value, rest))),
        None => Ok(None),
    }
}

// A further factor: its sign, and what it is.
#[cycle(sums)]
fn factor_at<'a>(
    alloc: Global,
    callable: &Callable,
    names: &[Binding],
    line: u32,
    origin: u32,
    depth: u32,
    bytes: &'a [u8],
) -> Result<Option<(Scale, TExpr, &'a [u8])>, AllocError>
    requires few { AreFew callable.now }
    requires within { length bytes.now ≤ origin }
    requires bounded { origin < 2 ^ 31 }
    ensures { IfOk result (λ o. MatchOption o
        (NoneAt (known_factors (callable_tree callable.now) names.now depth) bytes.now)
        (λ p. ReadsFactor (known_atoms (callable_tree callable.now) names.now depth) (atom_expr (callable_tree callable.now) names.now line depth) origin bytes.now p.2.now p.0 (expr p.1))) }
{
    let Some((scale, rest)) = scale_at(bytes) else {
        return Ok(None);
    };
    let Some((right, rest)) = atom_at(alloc, callable, names, line, origin, depth, rest)? else {
        return Ok(None);
    };
    if may_scale(scale, &right) {
        Ok(Some((scale, right, rest)))
    } else {
        Ok(None)
    }
}

// The product at the front, and what follows it: an integer that comes first stands alone, and there
// are at most eight factors.
#[cycle(sums)]
fn mul_at<'a>(
    alloc: Global,
    callable: &Callable,
    names: &[Binding],
    line: u32,
    origin: u32,
    depth: u32,
    bytes: &'a [u8],
) -> Result<Option<(TExpr, &'a [u8])>, AllocError>
    requires few { AreFew callable.now }
    requires within { length bytes.now ≤ origin }
    requires bounded { origin < 2 ^ 31 }
    ensures { IfOk result (λ o. MatchOption o
        (NoneAt (muls_over (known_atoms (callable_tree callable.now) names.now depth)) bytes.now)
        (λ p. ReadsAt (muls_over (known_atoms (callable_tree callable.now) names.now depth)) (mul_told (callable_tree callable.now) names.now line depth) origin bytes.now p.1.now (expr p.0))) }
{
    let Some((first, after)) = atom_at(alloc, callable, names, line, origin, depth, bytes)? else {
        return Ok(None);
    };
    let alone = is_constant(&first);
    let mut left = first;
    let mut rest = after;
    let mut count = 0usize;
    'factors: while let Some((scale, right, after)) = factor_at(
        alloc, callable, names, line, origin, depth, rest,
    )? {
        left = binary(
            alloc,
            at(line, column(origin, rest) + 1),
            scaled(scale),
            left,
            right,
        )?;
        rest = after;
        count += 1;
    }
    if may_end(alone, count) {
        Ok(Some((left, rest)))
    } else {
        Ok(None)
    }
}

// A further product: its sign, and what it is.
#[cycle(sums)]
fn term_at<'a>(
    alloc: Global,
    callable: &Callable,
    names: &[Binding],
    line: u32,
    origin: u32,
    depth: u32,
    bytes: &'a [u8],
) -> Result<Option<(Sign, TExpr, &'a [u8])>, AllocError>
    requires few { AreFew callable.now }
    requires within { length bytes.now ≤ origin }
    requires bounded { origin < 2 ^ 31 }
    ensures { IfOk result (λ o. MatchOption o
        (NoneAt (terms_over (known_atoms (callable_tree callable.now) names.now depth)) bytes.now)
        (λ p. ReadsTerm (known_atoms (callable_tree callable.now) names.now depth) (mul_told (callable_tree callable.now) names.now line depth) origin bytes.now p.2.now p.0 (expr p.1))) }
{
    let Some((sign, rest)) = sign_at(bytes) else {
        return Ok(None);
    };
    match mul_at(alloc, callable, names, line, origin, depth, rest)? {
        Some((right, rest)) => Ok(Some((sign, right, rest))),
        None => Ok(None),
    }
}

/// The sum at the front, in which calls nest at most so deep, and what follows it.
#[cycle(sums)]
pub fn sum_at<'a>(
    alloc: Global,
    callable: &Callable,
    names: &[Binding],
    line: u32,
    origin: u32,
    depth: u32,
    bytes: &'a [u8],
) -> Result<Option<(TExpr, &'a [u8])>, AllocError>
    requires few { AreFew callable.now }
    requires within { length bytes.now ≤ origin }
    requires bounded { origin < 2 ^ 31 }
    ensures { IfOk result (λ o. MatchOption o
        (NoneAt (known_sums (callable_tree callable.now) names.now depth) bytes.now)
        (λ p. ReadsAt (known_sums (callable_tree callable.now) names.now depth) (sum_expr (callable_tree callable.now) names.now line depth) origin bytes.now p.1.now (expr p.0))) }
{
    let Some((first, after)) = mul_at(alloc, callable, names, line, origin, depth, bytes)? else {
        return Ok(None);
    };
    let mut left = first;
    let mut rest = after;
    let mut count = 0usize;
    'terms: while let Some((sign, right, after)) = term_at(
        alloc, callable, names, line, origin, depth, rest,
    )? {
        left = joined(alloc, at(line, column(origin, rest) + 1), sign, left, right)?;
        rest = after;
        count += 1;
    }
    if count > 7 {
        Ok(None)
    } else {
        Ok(Some((left, rest)))
    }
}
