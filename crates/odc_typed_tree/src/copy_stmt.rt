//! Copies of statements.

ghost use Rattle.std.specs.Prelude.{◌≡◌, [], ◌∷◌, IfOk};
ghost use Rattle.odc_program.specs.Views.StmtView.{rights, over, cases, type_cases, with_case, with_type};
ghost use Rattle.odc_typed_tree.specs.Joined.{with_cases, with_type_cases};

use crate::copy_expr::{copy_expr, copy_exprs, copy_optional};
use crate::node::stmt_node;
use odc_program::tree::{Case, CaseItem, Over, Rights, TExpr, TStmt, TStmtKind, TypeCase};
use std::alloc::{AllocError, Global};

/// The same left sides again.
pub fn copy_lefts(alloc: Global, list: &[Option<TExpr>]) -> Result<Vec<Option<TExpr>>, AllocError>
    ensures { IfOk result (λ xs. xs.items ≡ list.now) }
{
    let mut copies = Vec::new(alloc);
    for left in list {
        let copy = copy_optional(alloc, left)?;
        copies.push(copy)?;
    }
    Ok(copies)
}

/// The same right sides again.
pub fn copy_rights(alloc: Global, values: &Rights) -> Result<Rights, AllocError>
    ensures { IfOk result (λ x. rights x ≡ rights values.now) }
{
    match values {
        Rights::None => Ok(Rights::None),
        Rights::Each(list) => Ok(Rights::Each(copy_exprs(alloc, list.as_slice())?)),
        Rights::Parted(taken, e) => {
            let e = copy_expr(alloc, e)?;
            let taken = Vec::from_slice(alloc, taken.as_slice())?;
            Ok(Rights::Parted(taken, e))
        }
    }
}

/// The same item of a case again.
pub fn copy_item(alloc: Global, item: &CaseItem) -> Result<CaseItem, AllocError>
    ensures { IfOk result (λ x. x ≡ item.now) }
{
    match item {
        CaseItem::One(e) => Ok(CaseItem::One(copy_expr(alloc, e)?)),
        CaseItem::Span(low, high, closed) => {
            let low = copy_expr(alloc, low)?;
            let high = copy_expr(alloc, high)?;
            Ok(CaseItem::Span(low, high, *closed))
        }
    }
}

/// The same items of a case again.
pub fn copy_items(alloc: Global, list: &[CaseItem]) -> Result<Vec<CaseItem>, AllocError>
    ensures { IfOk result (λ xs. xs.items ≡ list.now) }
{
    let mut copies = Vec::new(alloc);
    for item in list {
        let copy = copy_item(alloc, item)?;
        copies.push(copy)?;
    }
    Ok(copies)
}

/// The same range or container again.
pub fn copy_over(alloc: Global, runs: &Over) -> Result<Over, AllocError>
    ensures { IfOk result (λ x. over x ≡ over runs.now) }
{
    match runs {
        Over::Range(low, high, closed) => {
            let low = copy_expr(alloc, low)?;
            let high = copy_expr(alloc, high)?;
            Ok(Over::Range(low, high, *closed))
        }
        Over::Container(container, by_place) => {
            Ok(Over::Container(copy_expr(alloc, container)?, *by_place))
        }
    }
}

/// The same statement again.
#[cycle(copies_of_stmts)]
pub fn copy_stmt(alloc: Global, s: &TStmt) -> Result<TStmt, AllocError>
    ensures { IfOk result (λ x. x ≡ s.now) }
{
    match &*s.kind {
        TStmtKind::Declare(names, values) => {
            let values = copy_rights(alloc, values)?;
            let names = Vec::from_slice(alloc, names.as_slice())?;
            stmt_node(alloc, s.at, TStmtKind::Declare(names, values))
        }
        TStmtKind::Assign(lefts, values) => {
            let values = copy_rights(alloc, values)?;
            let lefts = copy_lefts(alloc, lefts.as_slice())?;
            stmt_node(alloc, s.at, TStmtKind::Assign(lefts, values))
        }
        TStmtKind::Change(op, target, value) => {
            let target = copy_expr(alloc, target)?;
            let value = copy_expr(alloc, value)?;
            stmt_node(alloc, s.at, TStmtKind::Change(*op, target, value))
        }
        TStmtKind::Eval(e) => {
            let e = copy_expr(alloc, e)?;
            stmt_node(alloc, s.at, TStmtKind::Eval(e))
        }
        TStmtKind::Block(label, body) => {
            let body = copy_stmts(alloc, body.as_slice())?;
            stmt_node(alloc, s.at, TStmtKind::Block(*label, body))
        }
        TStmtKind::If(init, condition, body, other) => {
            let init = copy_optional_stmt(alloc, init)?;
            let condition = copy_expr(alloc, condition)?;
            let body = copy_stmts(alloc, body.as_slice())?;
            let other = copy_stmts(alloc, other.as_slice())?;
            stmt_node(alloc, s.at, TStmtKind::If(init, condition, body, other))
        }
        TStmtKind::Loop(label, init, condition, post, body) => {
            let init = copy_optional_stmt(alloc, init)?;
            let condition = copy_optional(alloc, condition)?;
            let post = copy_optional_stmt(alloc, post)?;
            let body = copy_stmts(alloc, body.as_slice())?;
            stmt_node(
                alloc,
                s.at,
                TStmtKind::Loop(*label, init, condition, post, body),
            )
        }
        TStmtKind::Range(label, over, x, k, body) => {
            let over = copy_over(alloc, over)?;
            let body = copy_stmts(alloc, body.as_slice())?;
            stmt_node(alloc, s.at, TStmtKind::Range(*label, over, *x, *k, body))
        }
        TStmtKind::Switch(label, init, subject, cases) => {
            let init = copy_optional_stmt(alloc, init)?;
            let subject = copy_optional(alloc, subject)?;
            let cases = copy_cases(alloc, cases.as_slice())?;
            stmt_node(alloc, s.at, TStmtKind::Switch(*label, init, subject, cases))
        }
        TStmtKind::TypeSwitch(label, subject, cases) => {
            let subject = copy_expr(alloc, subject)?;
            let cases = copy_type_cases(alloc, cases.as_slice())?;
            stmt_node(alloc, s.at, TStmtKind::TypeSwitch(*label, subject, cases))
        }
        TStmtKind::Defer(inner) => {
            let inner = copy_stmt(alloc, inner)?;
            stmt_node(alloc, s.at, TStmtKind::Defer(inner))
        }
        TStmtKind::Return(values) => {
            let values = copy_rights(alloc, values)?;
            stmt_node(alloc, s.at, TStmtKind::Return(values))
        }
        TStmtKind::Break(label) => stmt_node(alloc, s.at, TStmtKind::Break(*label)),
        TStmtKind::Continue(label) => stmt_node(alloc, s.at, TStmtKind::Continue(*label)),
        TStmtKind::Fallthrough => stmt_node(alloc, s.at, TStmtKind::Fallthrough),
        TStmtKind::Counted(bound, label, condition, body) => {
            let condition = copy_expr(alloc, condition)?;
            let body = copy_stmts(alloc, body.as_slice())?;
            stmt_node(
                alloc,
                s.at,
                TStmtKind::Counted(*bound, *label, condition, body),
            )
        }
    }
}

/// The same statement again, where there is one.
#[cycle(copies_of_stmts)]
pub fn copy_optional_stmt(alloc: Global, s: &Option<TStmt>) -> Result<Option<TStmt>, AllocError>
    ensures { IfOk result (λ x. x ≡ s.now) }
{
    match s {
        None => Ok(None),
        Some(s) => {
            let copy = copy_stmt(alloc, s)?;
            Ok(Some(copy))
        }
    }
}

/// The same statements again.
#[cycle(copies_of_stmts)]
pub fn copy_stmts(alloc: Global, list: &[TStmt]) -> Result<Vec<TStmt>, AllocError>
    ensures { IfOk result (λ xs. xs.items ≡ list.now) }
{
    let mut copies = Vec::new(alloc);
    for s in list {
        let copy = copy_stmt(alloc, s)?;
        copies.push(copy)?;
    }
    Ok(copies)
}

/// The same items of a case again; the default case has none.
pub fn copy_optional_items(
    alloc: Global,
    list: &Option<Vec<CaseItem>>,
) -> Result<Option<Vec<CaseItem>>, AllocError>
    ensures { IfOk result (λ xs. (body : _) (rest : _) → with_case xs body rest ≡ with_case list.now body rest) }
{
    match list {
        None => Ok(None),
        Some(list) => Ok(Some(copy_items(alloc, list.as_slice())?)),
    }
}

/// The same case again.
#[cycle(copies_of_stmts)]
pub fn copy_case(alloc: Global, case: &Case) -> Result<Case, AllocError>
    ensures { IfOk result (λ x. (rest : _) → with_cases (x ∷ []) rest ≡ with_cases (case.now ∷ []) rest) }
{
    let items = copy_optional_items(alloc, &case.items)?;
    let body = copy_stmts(alloc, case.body.as_slice())?;
    Ok(Case { items, body })
}

/// The same cases again.
#[cycle(copies_of_stmts)]
pub fn copy_cases(alloc: Global, list: &[Case]) -> Result<Vec<Case>, AllocError>
    ensures { IfOk result (λ xs. cases xs.items ≡ cases list.now) }
{
    let mut copies = Vec::new(alloc);
    for case in list {
        let copy = copy_case(alloc, case)?;
        copies.push(copy)?;
    }
    Ok(copies)
}

/// The same variants of a case again; the default case has none.
pub fn copy_variants(alloc: Global, list: &Option<Vec<u32>>) -> Result<Option<Vec<u32>>, AllocError>
    ensures { IfOk result (λ xs. (x : _) (body : _) (rest : _) → with_type xs x body rest ≡ with_type list.now x body rest) }
{
    match list {
        None => Ok(None),
        Some(list) => Ok(Some(Vec::from_slice(alloc, list.as_slice())?)),
    }
}

/// The same case of a type switch again.
#[cycle(copies_of_stmts)]
pub fn copy_type_case(alloc: Global, case: &TypeCase) -> Result<TypeCase, AllocError>
    ensures { IfOk result (λ x. (rest : _) → with_type_cases (x ∷ []) rest ≡ with_type_cases (case.now ∷ []) rest) }
{
    let variants = copy_variants(alloc, &case.variants)?;
    let body = copy_stmts(alloc, case.body.as_slice())?;
    Ok(TypeCase {
        variants,
        local: case.local,
        body,
    })
}

/// The same cases of a type switch again.
#[cycle(copies_of_stmts)]
pub fn copy_type_cases(alloc: Global, list: &[TypeCase]) -> Result<Vec<TypeCase>, AllocError>
    ensures { IfOk result (λ xs. type_cases xs.items ≡ type_cases list.now) }
{
    let mut copies = Vec::new(alloc);
    for case in list {
        let copy = copy_type_case(alloc, case)?;
        copies.push(copy)?;
    }
    Ok(copies)
}
