//! The first node, in the program's order, of a form that the road to core code doesn't carry.

ghost use Rattle.std.specs.Prelude.{◌≡◌, ◌&&◌, ◌||◌, [], Some, map, slice_get};
ghost use Rattle.odc_types.specs.Widths.{is_signed};
ghost use Rattle.std.specs.Option.{option_map};
ghost use Rattle.odc_program.specs.Trees.Tree.{left_, no_lefts};
ghost use Rattle.odc_program.specs.Views.Instances.{local, procedure};
ghost use Rattle.odc_program.specs.Views.ProgramView.{program};
ghost use Rattle.odc_program.specs.Views.View.{exprs, maybe};
ghost use Rattle.odc_program.specs.Views.StmtView.{lefts, rights, maybe_stmt, stmts};
ghost use Rattle.odc_carried.specs.Carried as spec;
ghost use Rattle.odc_carried.specs.Refusal as refusal;
ghost use Rattle.odc_carried.specs.TableView.{head_in};

use crate::operands::is_connective;
use crate::single::{named, only};
use crate::tables::position;
use odc_program::ops::{BinaryOp, Builtin, Constant, UnaryOp};
use odc_program::program::{Local, Procedure, Program, TypeKind};
use odc_program::tree::{Rights, TExpr, TExprKind, TStmt, TStmtKind};
use odc_text::place::Place;
use odc_types::{TyId, Width};

/// Whether integers of a width have a sign.
fn has_sign(width: Width) -> bool
    ensures { result ≡ is_signed width }
{
    matches!(
        width,
        Width::Int | Width::I8 | Width::I16 | Width::I32 | Width::I64
    )
}

/// Whether a type is one of integers of eight bytes with a sign.
fn is_int(w: &Program, t: TyId) -> bool
    ensures { result ≡ spec.is_int (program w.now).tables t.index }
{
    match w.types.get(t.index as usize) {
        Some(row) => {
            match &row.kind {
                TypeKind::Int(width) => row.size == 8 && has_sign(*width),
                _ => false,
            }
        }
        None => false,
    }
}

/// Whether a type is that of truth values, of one byte.
fn is_bool(w: &Program, t: TyId) -> bool
    ensures { result ≡ spec.is_bool (program w.now).tables t.index }
{
    match w.types.get(t.index as usize) {
        Some(row) => {
            match &row.kind {
                TypeKind::Bool => row.size == 1,
                _ => false,
            }
        }
        None => false,
    }
}

/// Whether an expression of a type has no values.
fn is_nothing(w: &Program, t: TyId) -> bool
    ensures { result ≡ spec.is_nothing (program w.now).tables t.index }
{
    match w.types.get(t.index as usize) {
        Some(row) => {
            match &row.kind {
                TypeKind::Several(types) => types.is_empty(),
                _ => false,
            }
        }
        None => false,
    }
}

/// A variable of a procedure: its parameters, its results and then its locals.
fn local_at(p: &Procedure, x: u32) -> Option<Local>
    ensures { option_map local result ≡ slice_get (head_in [] p.now).locals x }
{
    let x = x as usize;
    let results = p.params.len();
    if x < results {
        return Some(p.params[x]);
    }
    let x = x - results;
    let locals = p.results.len();
    if x < locals {
        return Some(p.results[x]);
    }
    let x = x - locals;
    if x < p.locals.len() {
        return Some(p.locals[x]);
    }
    None
}

/// Whether a variable of a procedure is an integer.
fn names_int(w: &Program, p: &Procedure, x: u32) -> bool
    ensures { result ≡ spec.names_int (program w.now).tables (head_in w.now.procedures.items p.now) x }
{
    match local_at(p, x) {
        Some(l) => is_int(w, l.ty),
        None => false,
    }
}

/// Whether all variables are integers.
fn are_ints(w: &Program, locals: &[Local]) -> bool
    ensures { result ≡ spec.are_ints (program w.now).tables (map local locals.now) }
{
    for l in locals {
        if !is_int(w, l.ty) {
            return false;
        }
    }
    true
}

/// Whether a procedure has integers as parameters, and at most one result, an integer.
fn is_head(w: &Program, p: &Procedure) -> bool
    ensures { result ≡ spec.is_head (program w.now).tables (head_in w.now.procedures.items p.now) }
{
    if p.results.len() > 1 {
        return false;
    }
    if !are_ints(w, &p.params) {
        return false;
    }
    are_ints(w, &p.results)
}

/// The position of the procedure that a need names.
fn needed(w: &Program, p: &Procedure, need: u32) -> usize
    ensures { result ≡ spec.needed (head_in w.now.procedures.items p.now) need }
{
    let need = need as usize;
    if need < p.needs.len() {
        position(&w.procedures, &p.needs[need].inst)
    } else {
        0
    }
}

/// Whether a procedure takes so many arguments and has so many results.
fn takes(q: &Procedure, count: usize, results: usize) -> bool
    ensures { result ≡ spec.takes count results (Some (head_in [] q.now)) }
{
    if q.params.len() == count {
        q.results.len() == results
    } else {
        false
    }
}

/// Whether the procedure that a need names takes so many arguments and has so many results.
fn can_call(w: &Program, p: &Procedure, need: u32, count: usize, results: usize) -> bool
    ensures { result ≡ spec.can_call (program w.now).tables (head_in w.now.procedures.items p.now) need count results }
{
    let f = needed(w, p, need);
    if f < w.procedures.len() {
        takes(&w.procedures[f], count, results)
    } else {
        false
    }
}

/// Whether arguments stand in the order of the parameters.
fn in_place(order: &[u32]) -> bool
    ensures { result ≡ spec.in_place order.now }
{
    match order {
        [] => true,
        [_, ..] => false,
    }
}

/// How many expressions there are.
fn count(es: &[TExpr]) -> usize
    ensures { result ≡ spec.count (exprs es.now) }
{
    es.len()
}

/// Whether a call gives an integer, with its arguments in the order of the parameters.
fn gives_int(w: &Program, p: &Procedure, need: u32, order: &[u32], es: &[TExpr]) -> bool
    ensures { result ≡ (spec.in_place order.now && spec.can_call (program w.now).tables (head_in w.now.procedures.items p.now) need (spec.count (exprs es.now)) 1) }
{
    if in_place(order) {
        can_call(w, p, need, count(es), 1)
    } else {
        false
    }
}

/// Whether a call whose type has no values gives none.
fn gives_nothing(w: &Program, p: &Procedure, t: TyId, need: u32, es: &[TExpr]) -> bool
    ensures { result ≡ (spec.is_nothing (program w.now).tables t.index && spec.can_call (program w.now).tables (head_in w.now.procedures.items p.now) need (spec.count (exprs es.now)) 0) }
{
    if is_nothing(w, t) {
        can_call(w, p, need, count(es), 0)
    } else {
        false
    }
}

/// Whether a call whose type is that of integers gives one.
fn drops_int(w: &Program, p: &Procedure, t: TyId, need: u32, es: &[TExpr]) -> bool
    ensures { result ≡ (spec.is_int (program w.now).tables t.index && spec.can_call (program w.now).tables (head_in w.now.procedures.items p.now) need (spec.count (exprs es.now)) 1) }
{
    if is_int(w, t) {
        can_call(w, p, need, count(es), 1)
    } else {
        false
    }
}

/// Whether a call gives nothing, or an integer that is dropped.
fn stands_alone(w: &Program, p: &Procedure, t: TyId, need: u32, es: &[TExpr]) -> bool
    ensures { result ≡ ((spec.is_nothing (program w.now).tables t.index && spec.can_call (program w.now).tables (head_in w.now.procedures.items p.now) need (spec.count (exprs es.now)) 0) || (spec.is_int (program w.now).tables t.index && spec.can_call (program w.now).tables (head_in w.now.procedures.items p.now) need (spec.count (exprs es.now)) 1)) }
{
    if gives_nothing(w, p, t, need, es) {
        true
    } else {
        drops_int(w, p, t, need, es)
    }
}

/// Whether an operator on integers is carried.
fn is_operation(op: BinaryOp) -> bool
    ensures { result ≡ (spec.is_plain op || spec.is_quotient op) }
{
    matches!(
        op,
        BinaryOp::Add
            | BinaryOp::Subtract
            | BinaryOp::Multiply
            | BinaryOp::Divide
            | BinaryOp::Remainder
    )
}

/// Whether an operator compares.
fn is_comparison(op: BinaryOp) -> bool
    ensures { result ≡ spec.is_comparison op }
{
    matches!(
        op,
        BinaryOp::Equal
            | BinaryOp::Unequal
            | BinaryOp::Less
            | BinaryOp::Greater
            | BinaryOp::AtMost
            | BinaryOp::AtLeast
    )
}

/// What is refused of an integer.
#[cycle(integers)]
fn refused_int(w: &Program, p: &Procedure, e: &TExpr) -> Option<Place>
    ensures { result ≡ spec.refused_int (program w.now).tables (head_in w.now.procedures.items p.now) e.now }
{
    if !is_int(w, e.ty) {
        return Some(e.at);
    }
    match &*e.kind {
        TExprKind::Const(constant) => {
            match constant {
                Constant::Int(_) => None,
                _ => Some(e.at),
            }
        }
        TExprKind::Local(x) => {
            if names_int(w, p, *x) {
                None
            } else {
                Some(e.at)
            }
        }
        TExprKind::Unary(op, inner) => {
            match op {
                UnaryOp::Plus | UnaryOp::Negate => refused_int(w, p, inner),
                UnaryOp::Not | UnaryOp::Complement => Some(e.at),
            }
        }
        TExprKind::Binary(op, left, right) => {
            if is_operation(*op) {
                match refused_int(w, p, left) {
                    Some(at) => Some(at),
                    None => refused_int(w, p, right),
                }
            } else {
                Some(e.at)
            }
        }
        TExprKind::Call(need, order, es) => {
            if gives_int(w, p, *need, order.as_slice(), es.as_slice()) {
                refused_ints(w, p, es.as_slice())
            } else {
                Some(e.at)
            }
        }
        _ => Some(e.at),
    }
}

/// What is refused of integers.
#[cycle(integers)]
fn refused_ints(w: &Program, p: &Procedure, es: &[TExpr]) -> Option<Place>
    ensures { result ≡ spec.refused_ints (program w.now).tables (head_in w.now.procedures.items p.now) (exprs es.now) }
{
    for e in es {
        let first = refused_int(w, p, e);
        if first.is_some() {
            return first;
        }
    }
    None
}

/// What is refused of a condition.
#[cycle(truths)]
fn refused_truth(w: &Program, p: &Procedure, e: &TExpr) -> Option<Place>
    ensures { result ≡ spec.refused_truth (program w.now).tables (head_in w.now.procedures.items p.now) e.now }
{
    if !is_bool(w, e.ty) {
        return Some(e.at);
    }
    match &*e.kind {
        TExprKind::Const(constant) => {
            match constant {
                Constant::Bool(_) => None,
                _ => Some(e.at),
            }
        }
        TExprKind::Unary(op, inner) => {
            match op {
                UnaryOp::Not => refused_truth(w, p, inner),
                UnaryOp::Plus | UnaryOp::Negate | UnaryOp::Complement => Some(e.at),
            }
        }
        TExprKind::Binary(op, left, right) => {
            if is_comparison(*op) {
                match refused_int(w, p, left) {
                    Some(at) => Some(at),
                    None => refused_int(w, p, right),
                }
            } else if is_connective(*op) {
                match refused_truth(w, p, left) {
                    Some(at) => Some(at),
                    None => refused_truth(w, p, right),
                }
            } else {
                Some(e.at)
            }
        }
        _ => Some(e.at),
    }
}

/// What is refused of an expression that stands as a statement.
fn refused_eval(w: &Program, p: &Procedure, e: &TExpr) -> Option<Place>
    ensures { result ≡ spec.refused_eval (program w.now).tables (head_in w.now.procedures.items p.now) e.now }
{
    match &*e.kind {
        TExprKind::Call(need, order, es) => {
            if !in_place(order.as_slice()) {
                Some(e.at)
            } else if stands_alone(w, p, e.ty, *need, es.as_slice()) {
                refused_ints(w, p, es.as_slice())
            } else {
                Some(e.at)
            }
        }
        TExprKind::Builtin(which, order, es) => {
            match which {
                Builtin::Println => {
                    if !in_place(order.as_slice()) {
                        Some(e.at)
                    } else if is_nothing(w, e.ty) {
                        refused_ints(w, p, es.as_slice())
                    } else {
                        Some(e.at)
                    }
                }
                _ => Some(e.at),
            }
        }
        _ => Some(e.at),
    }
}

/// What is refused of the value that stands alone, and the place given where none does.
fn refused_only(w: &Program, p: &Procedure, at: Place, values: &Rights) -> Option<Place>
    ensures { result ≡ refusal.refused_only (program w.now).tables (head_in w.now.procedures.items p.now) at (rights values.now) }
{
    match only(values) {
        Some(e) => refused_int(w, p, e),
        None => Some(at),
    }
}

/// What is refused of a declaration.
fn refused_declared(
    w: &Program,
    p: &Procedure,
    at: Place,
    names: &[Option<u32>],
    values: &Rights,
) -> Option<Place>
    ensures { result ≡ spec.refused_declared (program w.now).tables (head_in w.now.procedures.items p.now) at names.now (rights values.now) }
{
    match named(names) {
        Some(x) => {
            if names_int(w, p, x) {
                match values {
                    Rights::None => None,
                    _ => refused_only(w, p, at, values),
                }
            } else {
                Some(at)
            }
        }
        None => Some(at),
    }
}

/// Whether an expression is a variable that is an integer.
fn is_variable(w: &Program, p: &Procedure, e: &TExpr) -> bool
    ensures { result ≡ refusal.is_target (program w.now).tables (head_in w.now.procedures.items p.now) (left_ e.now no_lefts) }
{
    match &*e.kind {
        TExprKind::Local(x) => {
            if is_int(w, e.ty) {
                names_int(w, p, *x)
            } else {
                false
            }
        }
        _ => false,
    }
}

/// Whether there is one left side, a variable that is an integer.
fn is_target(w: &Program, p: &Procedure, targets: &[Option<TExpr>]) -> bool
    ensures { result ≡ refusal.is_target (program w.now).tables (head_in w.now.procedures.items p.now) (lefts targets.now) }
{
    match targets {
        [] => false,
        [left] => {
            match left {
                Some(e) => is_variable(w, p, e),
                None => false,
            }
        }
        [_, _, ..] => false,
    }
}

/// What is refused of an assignment.
fn refused_assigned(
    w: &Program,
    p: &Procedure,
    at: Place,
    targets: &[Option<TExpr>],
    values: &Rights,
) -> Option<Place>
    ensures { result ≡ spec.refused_assigned (program w.now).tables (head_in w.now.procedures.items p.now) at (lefts targets.now) (rights values.now) }
{
    if is_target(w, p, targets) {
        refused_only(w, p, at, values)
    } else {
        Some(at)
    }
}

/// What is refused of a `return`.
fn refused_return(w: &Program, p: &Procedure, at: Place, values: &Rights) -> Option<Place>
    ensures { result ≡ spec.refused_return (program w.now).tables (head_in w.now.procedures.items p.now) at (rights values.now) }
{
    match values {
        Rights::None => None,
        _ => {
            if p.results.len() == 1 {
                refused_only(w, p, at, values)
            } else {
                Some(at)
            }
        }
    }
}

/// What is refused of a condition, where there is one.
fn refused_condition(w: &Program, p: &Procedure, e: &Option<TExpr>) -> Option<Place>
    ensures { result ≡ spec.refused_condition (program w.now).tables (head_in w.now.procedures.items p.now) (maybe e.now) }
{
    match e {
        None => None,
        Some(e) => refused_truth(w, p, e),
    }
}

/// What is refused of a statement.
#[cycle(refused_statements)]
fn refused_stmt(w: &Program, p: &Procedure, s: &TStmt) -> Option<Place>
    ensures { result ≡ spec.refused_stmt (program w.now).tables (head_in w.now.procedures.items p.now) s.now }
{
    match &*s.kind {
        TStmtKind::Declare(names, values) => {
            refused_declared(w, p, s.at, names.as_slice(), values)
        }
        TStmtKind::Assign(targets, values) => {
            refused_assigned(w, p, s.at, targets.as_slice(), values)
        }
        TStmtKind::Eval(e) => refused_eval(w, p, e),
        TStmtKind::Block(_, body) => refused_stmts(w, p, body.as_slice()),
        TStmtKind::If(init, e, body, other) => {
            if let Some(at) = refused_maybe(w, p, init) {
                return Some(at);
            }
            if let Some(at) = refused_truth(w, p, e) {
                return Some(at);
            }
            if let Some(at) = refused_stmts(w, p, body.as_slice()) {
                return Some(at);
            }
            refused_stmts(w, p, other.as_slice())
        }
        TStmtKind::Loop(_, init, e, post, body) => {
            if let Some(at) = refused_maybe(w, p, init) {
                return Some(at);
            }
            if let Some(at) = refused_condition(w, p, e) {
                return Some(at);
            }
            if let Some(at) = refused_maybe(w, p, post) {
                return Some(at);
            }
            refused_stmts(w, p, body.as_slice())
        }
        TStmtKind::Return(values) => refused_return(w, p, s.at, values),
        _ => Some(s.at),
    }
}

/// What is refused of a statement, where there is one.
#[cycle(refused_statements)]
fn refused_maybe(w: &Program, p: &Procedure, s: &Option<TStmt>) -> Option<Place>
    ensures { result ≡ spec.refused_maybe (program w.now).tables (head_in w.now.procedures.items p.now) (maybe_stmt s.now) }
{
    match s {
        None => None,
        Some(s) => refused_stmt(w, p, s),
    }
}

/// What is refused of statements.
#[cycle(refused_statements)]
fn refused_stmts(w: &Program, p: &Procedure, ss: &[TStmt]) -> Option<Place>
    ensures { result ≡ spec.refused_stmts (program w.now).tables (head_in w.now.procedures.items p.now) (stmts ss.now) }
{
    for s in ss {
        let first = refused_stmt(w, p, s);
        if first.is_some() {
            return first;
        }
    }
    None
}

/// What is refused of a procedure: its place, where its head isn't carried.
fn refused_procedure(w: &Program, p: &Procedure) -> Option<Place>
    ensures { result ≡ spec.refused_procedure (program w.now).tables (head_in w.now.procedures.items p.now) (procedure p.now).body }
{
    if !is_head(w, p) {
        return Some(p.at);
    }
    if !p.helpers.is_empty() {
        return Some(p.at);
    }
    refused_stmts(w, p, &p.body)
}

/// The place of the first node, in the program's order, of a form that the road doesn't carry.
pub fn refused(p: &Program) -> Option<Place>
    ensures { result ≡ spec.refused (program p.now) }
{
    for q in &p.procedures {
        let first = refused_procedure(p, q);
        if first.is_some() {
            return first;
        }
    }
    None
}
