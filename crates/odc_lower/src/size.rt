//! How many steps a form becomes, and how many temporaries it needs.

ghost use Rattle.std.specs.Prelude.{◌≡◌, ◌+◌, ◌*◌, ◌^◌, ◌<◌, ◌≤◌};
ghost use Rattle.odc_core.specs.View.{expr, exprs, stmt, stmts};
ghost use Rattle.odc_lower.specs.Size.{expr_nodes, exprs_nodes, stmt_nodes, stmts_nodes, stmt_size, stmts_size, expr_room, exprs_room, stmt_room, stmts_room};

use odc_core::tree::{CoreExpr, CoreStmt};

/// The steps that a `Copy` becomes beside its operands.
const COPY_STEPS: u32 = 45;

/// The steps that a `Zero` becomes beside its operands.
const ZERO_STEPS: u32 = 17;

/// How many nodes an expression has, each of which becomes a step.
#[cycle(counts)]
fn count(e: &CoreExpr) -> u32
    requires { expr_nodes (expr e.now) < 2 ^ 24 }
    ensures { result ≡ expr_nodes (expr e.now) }
{
    match e {
        CoreExpr::Const(_) | CoreExpr::Slot(_) | CoreExpr::Address(_) | CoreExpr::Procedure(_) => 1,
        CoreExpr::Load(_, operand) | CoreExpr::Unary(_, operand) => count(operand) + 1,
        CoreExpr::Binary(_, left, right) | CoreExpr::Compare(_, left, right) => {
            count(left) + count(right) + 1
        }
        CoreExpr::Call(_, arguments) => count_all(arguments) + 1,
        CoreExpr::CallValue(target, arguments, _) => count(target) + count_all(arguments) + 1,
    }
}

/// How many nodes expressions have.
#[cycle(counts)]
fn count_all(es: &[CoreExpr]) -> u32
    requires { exprs_nodes (exprs es.now) < 2 ^ 24 }
    ensures { result ≡ exprs_nodes (exprs es.now) }
{
    let mut total = 0;
    for e in es {
        total += count(e);
    }
    total
}

/// How many steps a statement becomes.
#[cycle(sizes)]
fn size(s: &CoreStmt) -> u32
    requires { stmt_nodes (stmt s.now) < 2 ^ 24 }
    ensures { result ≡ stmt_size (stmt s.now) }
{
    match s {
        CoreStmt::Eval(value) => count(value),
        CoreStmt::Store(_, to, value) => count(to) + count(value) + 1,
        CoreStmt::Copy(to, from, size) => count(to) + count(from) + count(size) + COPY_STEPS,
        CoreStmt::Zero(to, size) => count(to) + count(size) + ZERO_STEPS,
        CoreStmt::If(condition, first, second) => {
            count(condition) + size_of_all(first) + size_of_all(second) + 2
        }
        CoreStmt::Loop(body) => size_of_all(body) + 2,
        CoreStmt::Leave(_) => 1,
        CoreStmt::Return(value) | CoreStmt::Check(value, _, _) | CoreStmt::Exit(value) => {
            count(value) + 1
        }
        CoreStmt::Read(to, size, taken) => count(to) + count(size) + count(taken) + 2,
        CoreStmt::Write(_, from, size) => count(from) + count(size) + 1,
    }
}

/// How many steps statements become.
#[cycle(sizes)]
pub fn size_of_all(ss: &[CoreStmt]) -> u32
    requires { stmts_nodes (stmts ss.now) < 2 ^ 24 }
    ensures { result ≡ stmts_size (stmts ss.now) }
{
    let mut total = 0;
    for s in ss {
        total += size(s);
    }
    total
}

/// How many temporaries an expression needs.
#[cycle(rooms)]
#[tactic(auto, using(crate::proofs::Sizes::expr_room_small))]
fn room(e: &CoreExpr) -> u32
    requires { expr_nodes (expr e.now) < 2 ^ 24 }
    ensures { result ≡ expr_room (expr e.now) }
{
    match e {
        CoreExpr::Const(_) | CoreExpr::Slot(_) | CoreExpr::Address(_) | CoreExpr::Procedure(_) => 1,
        CoreExpr::Load(_, operand) | CoreExpr::Unary(_, operand) => room(operand),
        CoreExpr::Binary(_, left, right) | CoreExpr::Compare(_, left, right) => {
            room(left).max(room(right) + 1)
        }
        CoreExpr::Call(_, arguments) => room_of_all(arguments).max(1),
        CoreExpr::CallValue(target, arguments, _) => room(target).max(room_of_all(arguments) + 1),
    }
}

/// How many temporaries expressions need, each of which stays while the next ones are made.
#[cycle(rooms)]
fn room_of_all(es: &[CoreExpr]) -> u32
    requires { exprs_nodes (exprs es.now) < 2 ^ 24 }
    ensures { result ≡ exprs_room (exprs es.now) }
{
    let mut most: u32 = 0;
    for (i, e) in es.iter().enumerate() {
        most = most.max(room(e) + i as u32);
    }
    most
}

/// How many temporaries a statement needs.
#[cycle(stmt_rooms)]
#[tactic(auto, using(crate::proofs::Sizes::expr_room_small))]
fn stmt_needs(s: &CoreStmt) -> u32
    requires { stmt_nodes (stmt s.now) < 2 ^ 24 }
    ensures { result ≡ stmt_room (stmt s.now) }
{
    match s {
        CoreStmt::Eval(value)
        | CoreStmt::Return(value)
        | CoreStmt::Check(value, _, _)
        | CoreStmt::Exit(value) => room(value),
        CoreStmt::Store(_, to, value) => room(to).max(room(value) + 1),
        CoreStmt::Copy(to, from, size) => {
            room(to).max((room(from) + 1).max(room(size) + 2)).max(6)
        }
        CoreStmt::Zero(to, size) => room(to).max(room(size) + 1).max(6),
        CoreStmt::If(condition, first, second) => {
            room(condition).max(needs_of_all(first).max(needs_of_all(second)))
        }
        CoreStmt::Loop(body) => needs_of_all(body),
        CoreStmt::Leave(_) => 0,
        CoreStmt::Read(to, size, taken) => {
            room(to).max((room(size) + 1).max(room(taken) + 2)).max(4)
        }
        CoreStmt::Write(_, from, size) => room(from).max(room(size) + 1),
    }
}

/// How many temporaries statements need.
#[cycle(stmt_rooms)]
pub fn needs_of_all(ss: &[CoreStmt]) -> u32
    requires { stmts_nodes (stmts ss.now) < 2 ^ 24 }
    ensures { result ≡ stmts_room (stmts ss.now) }
{
    let mut most: u32 = 0;
    for s in ss {
        most = most.max(stmt_needs(s));
    }
    most
}
