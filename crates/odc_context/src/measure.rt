//! How many values wait at once, and how large a frame is.

ghost use Rattle.std.specs.Prelude.{◌≡◌, ◌+◌, ◌*◌, ◌^◌, ◌<◌, ◌≤◌};
ghost use Rattle.odc_typed.specs.Frame.{rounded, operation_size, builtin_size, expr_room, exprs_room, place_room, stmt_room, stmts_room};
ghost use Rattle.odc_typed.specs.View.{expr, exprs, stmt, stmts};
ghost use Rattle.odc_context.specs.Code.{depth_of, depth_of_all, stmt_depth, stmts_depth};

use odc_typed::tree::{BinaryOp, Builtin, ExprKind, StmtKind, TExpr, TStmt};

/// The bytes that each node adds to a frame.
const NODE: u32 = 128;

/// The bytes of an `int`.
const WORD: u32 = 8;

/// How many values wait at once while an expression is carried out.
#[cycle(depths)]
#[tactic(auto, using(crate::proofs::Procs::expr_fits))]
fn depth(e: &TExpr) -> u32
    requires { expr_room (expr e.now) ≤ 2 ^ 24 }
    ensures { result ≡ depth_of (expr e.now) }
{
    match &e.kind {
        ExprKind::Const(_) | ExprKind::Local(_) => 1,
        ExprKind::Binary(_, left, right) => depth(left).max(depth(right) + 1),
        ExprKind::Call(_, arguments) => depth_of_each(arguments).max(1),
        ExprKind::Builtin(_, arguments) => depth_of_each(arguments),
    }
}

/// How many values wait at once while expressions are carried out, each of which goes on waiting.
#[cycle(depths)]
fn depth_of_each(es: &[TExpr]) -> u32
    requires { exprs_room (exprs es.now) ≤ 2 ^ 24 }
    ensures { result ≡ depth_of_all (exprs es.now) }
{
    let mut most: u32 = 0;
    for (i, e) in es.iter().enumerate() {
        most = most.max(depth(e) + i as u32).max(i as u32 + 1);
    }
    most
}

/// How many values wait at once while a statement is carried out.
#[cycle(stmt_depths)]
fn depth_in(s: &TStmt) -> u32
    requires { stmt_room (stmt s.now) ≤ 2 ^ 24 }
    ensures { result ≡ stmt_depth (stmt s.now) }
{
    match &s.kind {
        StmtKind::Eval(value)
        | StmtKind::Declare(_, value)
        | StmtKind::Assign(_, value)
        | StmtKind::Return(value) => depth(value),
        StmtKind::If(condition, body) => depth(condition).max(depth_in_all(body)),
        StmtKind::Loop(condition, body) => depth(condition).max(depth_in_all(body)),
    }
}

/// How many values wait at once while statements are carried out.
#[cycle(stmt_depths)]
pub fn depth_in_all(ss: &[TStmt]) -> u32
    requires { stmts_room (stmts ss.now) ≤ 2 ^ 24 }
    ensures { result ≡ stmts_depth (stmts ss.now) }
{
    let mut most: u32 = 0;
    for s in ss {
        most = most.max(depth_in(s));
    }
    most
}

/// The bytes of what an operation gives.
fn size_of_operation(op: BinaryOp) -> u32
    ensures { result ≡ operation_size op }
{
    match op {
        BinaryOp::Less | BinaryOp::Equal => 1,
        BinaryOp::Add
        | BinaryOp::Subtract
        | BinaryOp::Multiply
        | BinaryOp::Divide
        | BinaryOp::Remainder => WORD,
    }
}

/// The bytes of what a built-in gives.
fn size_of_builtin(which: Builtin) -> u32
    ensures { result ≡ builtin_size which }
{
    match which {
        Builtin::Println => 0,
    }
}

/// What a node adds to a frame that is a value of so many bytes.
fn room_of_value(size: u32) -> u32
    requires { size < 2 ^ 16 }
    ensures { result ≡ 128 + 2 * rounded size }
{
    NODE + 2 * ((size + 7) / 8 * 8)
}

/// What an expression adds to a frame.
#[cycle(rooms)]
fn room(e: &TExpr) -> u32
    requires { expr_room (expr e.now) ≤ 2 ^ 24 }
    ensures { result ≡ expr_room (expr e.now) }
{
    match &e.kind {
        ExprKind::Const(_) | ExprKind::Local(_) => room_of_value(WORD),
        ExprKind::Binary(op, left, right) => {
            room_of_value(size_of_operation(*op)) + room(left) + room(right)
        }
        ExprKind::Call(_, arguments) => room_of_value(WORD) + room_of_each(arguments),
        ExprKind::Builtin(which, arguments) => {
            room_of_value(size_of_builtin(*which)) + room_of_each(arguments)
        }
    }
}

/// What expressions add to a frame.
#[cycle(rooms)]
fn room_of_each(es: &[TExpr]) -> u32
    requires { exprs_room (exprs es.now) ≤ 2 ^ 24 }
    ensures { result ≡ exprs_room (exprs es.now) }
{
    let mut total = 0;
    for e in es {
        total += room(e);
    }
    total
}

/// What an expression that stands as a place adds to a frame.
fn room_of_place(e: &TExpr) -> u32
    requires { place_room (expr e.now) ≤ 2 ^ 24 }
    ensures { result ≡ place_room (expr e.now) }
{
    match &e.kind {
        ExprKind::Local(_) => NODE,
        ExprKind::Const(_)
        | ExprKind::Binary(_, _, _)
        | ExprKind::Call(_, _)
        | ExprKind::Builtin(_, _) => room(e),
    }
}

/// What a statement adds to a frame.
#[cycle(stmt_rooms)]
fn room_in(s: &TStmt) -> u32
    requires { stmt_room (stmt s.now) ≤ 2 ^ 24 }
    ensures { result ≡ stmt_room (stmt s.now) }
{
    match &s.kind {
        StmtKind::Eval(value) | StmtKind::Declare(_, value) | StmtKind::Return(value) => {
            NODE + room(value)
        }
        StmtKind::Assign(target, value) => NODE + room_of_place(target) + room(value),
        StmtKind::If(condition, body) => NODE + room(condition) + room_in_all(body),
        StmtKind::Loop(condition, body) => NODE + room(condition) + room_in_all(body),
    }
}

/// What statements add to a frame.
#[cycle(stmt_rooms)]
pub fn room_in_all(ss: &[TStmt]) -> u32
    requires { stmts_room (stmts ss.now) ≤ 2 ^ 24 }
    ensures { result ≡ stmts_room (stmts ss.now) }
{
    let mut total = 0;
    for s in ss {
        total += room_in(s);
    }
    total
}
