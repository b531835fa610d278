use odc_carried::cross::cross;
use odc_carried::refused::refused;
use odc_core::tree::CoreProgram;
use odc_program::ops::{BinaryOp, Builtin, Constant};
use odc_program::program::{Inst, ProcId, Procedure, Program, Runtime, TypeKind, TypeRow};
use odc_program::tree::{TExpr, TExprKind, TStmt, TStmtKind};
use odc_text::place::{FileId, Place};
use odc_typed_tree::list::{push_expr, push_stmt};
use odc_typed_tree::node::{expr_node, stmt_node};
use odc_types::{Convention, TyId, Width};
use std::alloc::{AllocError, Global};
use std::test::Fail;

fn int() -> TyId {
    TyId { index: 0 }
}

fn nothing() -> TyId {
    TyId { index: 1 }
}

fn column(column: u32) -> Place {
    Place {
        file: FileId { number: 0 },
        line: 4,
        column,
    }
}

fn types(alloc: Global) -> Result<Vec<TypeRow>, AllocError> {
    let mut types = Vec::new(alloc);
    types.push(TypeRow {
        size: 8,
        align: 8,
        base: int(),
        name: None,
        kind: TypeKind::Int(Width::Int),
    })?;
    types.push(TypeRow {
        size: 0,
        align: 1,
        base: nothing(),
        name: None,
        kind: TypeKind::Several(Vec::new(alloc)),
    })?;
    Ok(types)
}

fn number(alloc: Global, n: i128) -> Result<TExpr, AllocError> {
    expr_node(alloc, int(), column(1), TExprKind::Const(Constant::Int(n)))
}

fn operation(alloc: Global, op: BinaryOp, left: TExpr, right: TExpr) -> Result<TExpr, AllocError> {
    expr_node(alloc, int(), column(2), TExprKind::Binary(op, left, right))
}

/// `1 + 2 * 3`
fn sum(alloc: Global) -> Result<TExpr, AllocError> {
    let one = number(alloc, 1)?;
    let two = number(alloc, 2)?;
    let three = number(alloc, 3)?;
    let product = operation(alloc, BinaryOp::Multiply, two, three)?;
    operation(alloc, BinaryOp::Add, one, product)
}

/// A call of a built-in that prints, of `1 + 2 * 3`.
fn printing(alloc: Global, which: Builtin) -> Result<Vec<TStmt>, AllocError> {
    let value = sum(alloc)?;
    let values = push_expr(Vec::new(alloc), value)?;
    let call = expr_node(
        alloc,
        nothing(),
        column(7),
        TExprKind::Builtin(which, Vec::new(alloc), values),
    )?;
    let statement = stmt_node(alloc, column(5), TStmtKind::Eval(call))?;
    push_stmt(Vec::new(alloc), statement)
}

/// `main`, whose body is one such call.
fn main_printing(alloc: Global, which: Builtin) -> Result<Procedure, AllocError> {
    Ok(Procedure {
        inst: Inst {
            proc: ProcId { index: 0 },
            types: Vec::new(alloc),
            numbers: Vec::new(alloc),
        },
        name: String::from_str(alloc, "main")?,
        name_literal: 0,
        at: column(9),
        convention: Convention::Odin,
        ty: nothing(),
        params: Vec::new(alloc),
        results: Vec::new(alloc),
        locals: Vec::new(alloc),
        frame: 1280,
        body: printing(alloc, which)?,
        needs: Vec::new(alloc),
        helpers: Vec::new(alloc),
    })
}

/// A program of that procedure alone.
fn program(alloc: Global, which: Builtin) -> Result<Program, AllocError> {
    let mut procedures = Vec::new(alloc);
    procedures.push(main_printing(alloc, which)?)?;
    Ok(Program {
        types: types(alloc)?,
        globals: Vec::new(alloc),
        literals: Vec::new(alloc),
        procedures,
        runtime: Runtime {
            heap: None,
            temp: None,
            allocator: nothing(),
            files: 0,
        },
        main: 0,
        paths: Vec::new(alloc),
    })
}

/// Whether there is one procedure, of ten statements, with four variables in a frame of this size.
fn is_printing(p: &CoreProgram) -> bool {
    match p.procedures.as_slice() {
        [main] => {
            main.body.len() == 10
                && main.variables.len() == 4
                && main.frame == 1280
                && main.parameters == 0
        }
        _ => false,
    }
}

// one statement lets the value wait; nine print it: the place of the first byte, two for the newline, four for digits and
// sign, and one that writes; the last one answers
#[test]
fn crosses_a_printed_sum(rt: HostRuntime) -> Result<(), Fail> {
    let p = program(rt.alloc(), Builtin::Println)?;
    assert!(rt; refused(&p).is_none());
    let core = cross(rt.alloc(), &p)?;
    assert!(rt; is_printing(&core));
    Ok(())
}

#[test]
fn refuses_what_prints_no_line(rt: HostRuntime) -> Result<(), Fail> {
    let p = program(rt.alloc(), Builtin::Print)?;
    let found = match refused(&p) {
        Some(at) => at.line == 4 && at.column == 7,
        None => false,
    };
    assert!(rt; found);
    Ok(())
}
