//! The weight of statements.

ghost use Rattle.std.specs.Prelude.{◌≡◌, [], ◌∷◌};
ghost use Rattle.odc_limits.specs.Sized.{capped};
ghost use Rattle.odc_limits.specs.Weighed.{weight, case_items};
ghost use Rattle.odc_program.specs.Typing.Frames.{lefts_weight, rights_weight, items_weight, over_weight, stmt_weight, maybe_stmt_weight, stmts_weight, cases_weight, types_weight};
ghost use Rattle.odc_program.specs.Views.StmtView.{lefts, rights, items, over, maybe_stmt, stmts, cases, type_cases};

use crate::weigh_expr::{Scale, weigh_expr, weigh_exprs, weigh_optional};
use odc_program::tree::{Case, CaseItem, Over, Rights, TExpr, TStmt, TStmtKind, TypeCase};

/// The weight of left sides, which are places.
fn weigh_lefts(scale: &Scale<'_>, list: &[Option<TExpr>]) -> u64
    ensures { result ≡ capped (lefts_weight (weight scale.now.unit scale.now.rows.now) scale.now.unit (lefts list.now)) }
{
    let mut total: u64 = 0;
    for left in list {
        total = match left {
            None => total,
            Some(e) => total.saturating_add(weigh_expr(scale, true, e)),
        };
    }
    total
}

/// The weight of right sides.
fn weigh_rights(scale: &Scale<'_>, values: &Rights) -> u64
    ensures { result ≡ capped (rights_weight (weight scale.now.unit scale.now.rows.now) scale.now.unit (rights values.now)) }
{
    match values {
        Rights::None => 0,
        Rights::Each(list) => weigh_exprs(scale, list.as_slice()),
        Rights::Parted(_, e) => weigh_expr(scale, false, e),
    }
}

/// The weight of an item of a case.
fn weigh_item(scale: &Scale<'_>, item: &CaseItem) -> u64
    ensures { result ≡ capped (items_weight (weight scale.now.unit scale.now.rows.now) scale.now.unit (items (item.now ∷ []))) }
{
    match item {
        CaseItem::One(e) => weigh_expr(scale, false, e),
        CaseItem::Span(low, high, _) => {
            weigh_expr(scale, false, low).saturating_add(weigh_expr(scale, false, high))
        }
    }
}

/// The weight of the items of a case.
fn weigh_items(scale: &Scale<'_>, list: &[CaseItem]) -> u64
    ensures { result ≡ capped (items_weight (weight scale.now.unit scale.now.rows.now) scale.now.unit (items list.now)) }
{
    let mut total: u64 = 0;
    for item in list {
        total = total.saturating_add(weigh_item(scale, item));
    }
    total
}

/// The weight of the items of a case; the default one has none.
fn weigh_optional_items(scale: &Scale<'_>, list: &Option<Vec<CaseItem>>) -> u64
    ensures { result ≡ capped (items_weight (weight scale.now.unit scale.now.rows.now) scale.now.unit (case_items list.now)) }
{
    match list {
        None => 0,
        Some(list) => weigh_items(scale, list.as_slice()),
    }
}

/// The weight of what a loop runs over.
fn weigh_over(scale: &Scale<'_>, runs: &Over) -> u64
    ensures { result ≡ capped (over_weight (weight scale.now.unit scale.now.rows.now) scale.now.unit (over runs.now)) }
{
    match runs {
        Over::Range(low, high, _) => {
            weigh_expr(scale, false, low).saturating_add(weigh_expr(scale, false, high))
        }
        Over::Container(container, _) => weigh_expr(scale, false, container),
    }
}

/// The weight of a statement.
#[cycle(weights_of_stmts)]
pub fn weigh_stmt(scale: &Scale<'_>, s: &TStmt) -> u64
    ensures { result ≡ capped (stmt_weight (weight scale.now.unit scale.now.rows.now) scale.now.unit s.now) }
{
    let parts = match &*s.kind {
        TStmtKind::Declare(_, values) | TStmtKind::Return(values) => weigh_rights(scale, values),
        TStmtKind::Assign(lefts, values) => {
            weigh_lefts(scale, lefts.as_slice()).saturating_add(weigh_rights(scale, values))
        }
        TStmtKind::Change(_, target, value) => {
            weigh_expr(scale, true, target).saturating_add(weigh_expr(scale, false, value))
        }
        TStmtKind::Eval(e) => weigh_expr(scale, false, e),
        TStmtKind::Block(_, body) => weigh_stmts(scale, body.as_slice()),
        TStmtKind::If(init, condition, body, other) => weigh_optional_stmt(scale, init)
            .saturating_add(weigh_expr(scale, false, condition))
            .saturating_add(weigh_stmts(scale, body.as_slice()))
            .saturating_add(weigh_stmts(scale, other.as_slice())),
        TStmtKind::Loop(_, init, condition, post, body) => weigh_optional_stmt(scale, init)
            .saturating_add(weigh_optional(scale, condition))
            .saturating_add(weigh_optional_stmt(scale, post))
            .saturating_add(weigh_stmts(scale, body.as_slice())),
        TStmtKind::Range(_, over, _, _, body) => {
            weigh_over(scale, over).saturating_add(weigh_stmts(scale, body.as_slice()))
        }
        TStmtKind::Switch(_, init, subject, cases) => weigh_optional_stmt(scale, init)
            .saturating_add(weigh_optional(scale, subject))
            .saturating_add(weigh_cases(scale, cases.as_slice())),
        TStmtKind::TypeSwitch(_, subject, cases) => weigh_expr(
            scale, false, subject,
        ).saturating_add(weigh_type_cases(scale, cases.as_slice())),
        TStmtKind::Defer(inner) => weigh_stmt(scale, inner),
        TStmtKind::Counted(_, _, condition, body) => weigh_expr(
            scale, false, condition,
        ).saturating_add(weigh_stmts(scale, body.as_slice())),
        TStmtKind::Break(_) | TStmtKind::Continue(_) | TStmtKind::Fallthrough => 0,
    };
    scale.unit.saturating_add(parts)
}

/// The weight of a statement that may be left out.
#[cycle(weights_of_stmts)]
fn weigh_optional_stmt(scale: &Scale<'_>, s: &Option<TStmt>) -> u64
    ensures { result ≡ capped (maybe_stmt_weight (weight scale.now.unit scale.now.rows.now) scale.now.unit (maybe_stmt s.now)) }
{
    match s {
        None => 0,
        Some(s) => weigh_stmt(scale, s),
    }
}

/// The weight of a list of statements.
#[cycle(weights_of_stmts)]
pub fn weigh_stmts(scale: &Scale<'_>, list: &[TStmt]) -> u64
    ensures { result ≡ capped (stmts_weight (weight scale.now.unit scale.now.rows.now) scale.now.unit (stmts list.now)) }
{
    let mut total: u64 = 0;
    for s in list {
        total = total.saturating_add(weigh_stmt(scale, s));
    }
    total
}

/// The weight of the cases of a `switch`.
#[cycle(weights_of_stmts)]
fn weigh_cases(scale: &Scale<'_>, list: &[Case]) -> u64
    ensures { result ≡ capped (cases_weight (weight scale.now.unit scale.now.rows.now) scale.now.unit (cases list.now)) }
{
    let mut total: u64 = 0;
    for case in list {
        let body = weigh_stmts(scale, case.body.as_slice());
        total = total.saturating_add(weigh_optional_items(scale, &case.items).saturating_add(body));
    }
    total
}

/// The weight of the cases of a type switch.
#[cycle(weights_of_stmts)]
fn weigh_type_cases(scale: &Scale<'_>, list: &[TypeCase]) -> u64
    ensures { result ≡ capped (types_weight (weight scale.now.unit scale.now.rows.now) scale.now.unit (type_cases list.now)) }
{
    let mut total: u64 = 0;
    for case in list {
        total = total.saturating_add(weigh_stmts(scale, case.body.as_slice()));
    }
    total
}
