use odc_limits::frame::{Variables, frame, nodes};
use odc_limits::places::place_variables;
use odc_program::ops::{BinaryOp, Constant};
use odc_program::program::{Local, TypeKind, TypeRow};
use odc_program::tree::{BuildPart, Case, CaseItem, TExpr, TExprKind, TStmt, TStmtKind};
use odc_text::place::{FileId, Place};
use odc_typed_tree::copy_expr::{copy_expr, copy_exprs};
use odc_typed_tree::copy_stmt::copy_stmt;
use odc_typed_tree::discard::{discard_expr, discard_exprs, discard_stmt, discard_stmts};
use odc_typed_tree::list::{push_case, push_expr, push_item, push_part, push_stmt};
use odc_typed_tree::node::{expr_node, stmt_node};
use odc_types::{TyId, Width};
use std::alloc::{AllocError, Global};
use std::test::Fail;

fn int() -> TyId {
    TyId { index: 0 }
}

fn column(column: u32) -> Place {
    Place {
        file: FileId { number: 0 },
        line: 4,
        column,
    }
}

fn number(alloc: Global, n: i128) -> Result<TExpr, AllocError> {
    expr_node(alloc, int(), column(1), TExprKind::Const(Constant::Int(n)))
}

fn is_number(e: &TExpr, n: i128) -> bool {
    match &*e.kind {
        TExprKind::Const(Constant::Int(m)) => *m == n,
        _ => false,
    }
}

/// `1 + 2`
fn sum(alloc: Global) -> Result<TExpr, AllocError> {
    let one = number(alloc, 1)?;
    let two = match number(alloc, 2) {
        Ok(two) => two,
        Err(why) => return Err(discard_expr(one, why)),
    };
    expr_node(
        alloc,
        int(),
        column(3),
        TExprKind::Binary(BinaryOp::Add, one, two),
    )
}

fn is_sum(e: &TExpr) -> bool {
    match &*e.kind {
        TExprKind::Binary(BinaryOp::Add, one, two) => is_number(one, 1) && is_number(two, 2),
        _ => false,
    }
}

/// `{8: 1 + 2}`
fn built(alloc: Global) -> Result<TExpr, AllocError> {
    let value = sum(alloc)?;
    let parts = push_part(Vec::new(alloc), BuildPart { offset: 8, value })?;
    expr_node(
        alloc,
        TyId { index: 1 },
        column(2),
        TExprKind::Build(None, parts),
    )
}

fn is_built(e: &TExpr) -> bool {
    match &*e.kind {
        TExprKind::Build(None, parts) => match parts.as_slice() {
            [part] => part.offset == 8 && is_sum(&part.value),
            _ => false,
        },
        _ => false,
    }
}

/// `break`
fn leave(alloc: Global) -> Result<TStmt, AllocError> {
    stmt_node(alloc, column(5), TStmtKind::Break(7))
}

/// `switch 1 + 2 { case 3: break }`
fn choice(alloc: Global) -> Result<TStmt, AllocError> {
    let three = number(alloc, 3)?;
    let items = push_item(Vec::new(alloc), CaseItem::One(three))?;
    let case = one_case(alloc, items)?;
    let cases = push_case(Vec::new(alloc), case)?;
    switch(alloc, cases)
}

fn one_case(alloc: Global, items: Vec<CaseItem>) -> Result<Case, AllocError> {
    let left = leave(alloc)?;
    let body = push_stmt(Vec::new(alloc), left)?;
    Ok(Case {
        items: Some(items),
        body,
    })
}

fn switch(alloc: Global, cases: Vec<Case>) -> Result<TStmt, AllocError> {
    let subject = sum(alloc)?;
    stmt_node(
        alloc,
        column(3),
        TStmtKind::Switch(7, None, Some(subject), cases),
    )
}

fn is_leave(s: &TStmt) -> bool {
    matches!(&*s.kind, TStmtKind::Break(7)) && s.at.column == 5
}

fn is_case(case: &Case) -> bool {
    let three = match &case.items {
        Some(items) => match items.as_slice() {
            [CaseItem::One(three)] => is_number(three, 3),
            _ => false,
        },
        None => false,
    };
    match case.body.as_slice() {
        [left] => three && is_leave(left),
        _ => false,
    }
}

fn is_choice(s: &TStmt) -> bool {
    match &*s.kind {
        TStmtKind::Switch(7, None, Some(subject), cases) => match cases.as_slice() {
            [case] => is_sum(subject) && is_case(case),
            _ => false,
        },
        _ => false,
    }
}

#[test]
fn copies_an_expression(rt: HostRuntime) -> Result<(), Fail> {
    let e = built(rt.alloc())?;
    let copy = match copy_expr(rt.alloc(), &e) {
        Ok(copy) => copy,
        Err(why) => return discard_expr(e, Err(Fail::from(why))),
    };
    let same = is_built(&e) && is_built(&copy) && copy.ty.index == 1 && copy.at.column == 2;
    discard_expr(e, ());
    discard_expr(copy, ());
    assert!(rt; same);
    Ok(())
}

#[test]
fn copies_a_list(rt: HostRuntime) -> Result<(), Fail> {
    let e = sum(rt.alloc())?;
    let list = push_expr(Vec::new(rt.alloc()), e)?;
    let copies = match copy_exprs(rt.alloc(), list.as_slice()) {
        Ok(copies) => copies,
        Err(why) => return discard_exprs(list, Err(Fail::from(why))),
    };
    let same = match copies.as_slice() {
        [copy] => is_sum(copy),
        _ => false,
    };
    discard_exprs(list, ());
    discard_exprs(copies, ());
    assert!(rt; same);
    Ok(())
}

#[test]
fn copies_a_statement(rt: HostRuntime) -> Result<(), Fail> {
    let s = choice(rt.alloc())?;
    let copy = match copy_stmt(rt.alloc(), &s) {
        Ok(copy) => copy,
        Err(why) => return discard_stmt(s, Err(Fail::from(why))),
    };
    let same = is_choice(&s) && is_choice(&copy);
    discard_stmt(s, ());
    discard_stmt(copy, ());
    assert!(rt; same);
    Ok(())
}

fn int_row() -> TypeRow {
    TypeRow {
        size: 8,
        align: 8,
        base: int(),
        name: None,
        kind: TypeKind::Int(Width::Int),
    }
}

#[test]
fn sizes_a_frame(rt: HostRuntime) -> Result<(), Fail> {
    let rows = [int_row()];
    let local = [Local {
        ty: int(),
        place: 128,
    }];
    let variables = Variables {
        params: &[],
        results: &[],
        locals: &local,
    };
    let s = choice(rt.alloc())?;
    let body = push_stmt(Vec::new(rt.alloc()), s)?;
    // the switch, its subject of three nodes, an item and a statement, and the variable
    let count = nodes(&variables, body.as_slice());
    let size = frame(&rows, &variables, body.as_slice());
    discard_stmts(body, ());
    assert!(rt; count == 7);
    assert!(rt; size == Some(1232));
    Ok(())
}

#[test]
fn places_variables(rt: HostRuntime) -> Result<(), Fail> {
    let rows = [int_row()];
    let places = place_variables(rt.alloc(), &rows, 128, &[int(), int()])?;
    assert!(rt; places.end == 160);
    assert!(rt;
        matches!(places.locals.as_slice(), [first, second] if first.place == 128 && second.place == 144)
    );
    Ok(())
}
