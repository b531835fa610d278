//! The weight of expressions.

ghost use Rattle.std.specs.Prelude.{◌≡◌};
ghost use Rattle.odc_limits.specs.Sized.{capped};
ghost use Rattle.odc_limits.specs.Weighed.{weight};
ghost use Rattle.odc_program.specs.Typing.Frames.{is_place as stands_as_place, expr_weight, maybe_weight, exprs_weight, arguments_weight, parts_weight};
ghost use Rattle.odc_program.specs.Views.View.{maybe, exprs, parts};

use crate::sizes::value_size;
use odc_program::ops::Builtin;
use odc_program::program::TypeRow;
use odc_program::tree::{BuildPart, TExpr, TExprKind};
use odc_types::TyId;

/// What the nodes of a tree weigh: a unit each, and an expression that isn't taken as a place twice the size of its value
/// more. With an empty table of types, nodes are counted.
#[derive(Clone, Copy)]
pub struct Scale<'a> {
    pub unit: u64,
    pub rows: &'a [TypeRow],
}

impl<'a> Scale<'a> {
    /// The weight of one expression, without its parts.
    fn node(&self, is_place: bool, ty: TyId) -> u64
        ensures { result ≡ capped (weight self.now.unit self.now.rows.now is_place ty.index) }
    {
        if is_place {
            self.unit
        } else {
            let value = value_size(self.rows, ty);
            self.unit.saturating_add(value.saturating_add(value))
        }
    }
}

/// Whether an expression is a place where its parent takes it as one.
#[cycle(places)]
fn is_place(e: &TExpr) -> bool
    ensures { result ≡ stands_as_place e.now }
{
    match &*e.kind {
        TExprKind::Local(_) | TExprKind::Global(_) | TExprKind::Deref(_) => true,
        TExprKind::Field(base, _) | TExprKind::Index(base, _) | TExprKind::Column(base, _) => {
            is_place(base)
        }
        _ => false,
    }
}

/// The weight of an expression; `taken` says whether its parent takes it as a place.
#[cycle(weights)]
pub fn weigh_expr(scale: &Scale<'_>, taken: bool, e: &TExpr) -> u64
    ensures { result ≡ capped (expr_weight (weight scale.now.unit scale.now.rows.now) scale.now.unit taken e.now) }
{
    let own = scale.node(taken && is_place(e), e.ty);
    let parts = match &*e.kind {
        TExprKind::Field(base, _) | TExprKind::Column(base, _) | TExprKind::Address(base) => {
            weigh_expr(scale, true, base)
        }
        TExprKind::Deref(inner)
        | TExprKind::OrReturn(inner, _)
        | TExprKind::Unary(_, inner)
        | TExprKind::Convert(inner)
        | TExprKind::Inject(_, inner)
        | TExprKind::Assert(_, inner)
        | TExprKind::Test(_, inner) => weigh_expr(scale, false, inner),
        TExprKind::Index(base, place) => {
            weigh_expr(scale, true, base).saturating_add(weigh_expr(scale, false, place))
        }
        TExprKind::Cut(base, low, high) => {
            let bounds = weigh_optional(scale, low).saturating_add(weigh_optional(scale, high));
            weigh_expr(scale, true, base).saturating_add(bounds)
        }
        TExprKind::Call(_, _, arguments) | TExprKind::Help(_, arguments) => {
            weigh_exprs(scale, arguments.as_slice())
        }
        TExprKind::CallValue(_, callee, arguments) => weigh_expr(
            scale, false, callee,
        ).saturating_add(weigh_exprs(scale, arguments.as_slice())),
        TExprKind::Builtin(which, _, arguments) => {
            weigh_arguments(scale, *which, arguments.as_slice())
        }
        TExprKind::Build(_, parts) => weigh_parts(scale, parts.as_slice()),
        TExprKind::Binary(_, left, right) => {
            weigh_expr(scale, false, left).saturating_add(weigh_expr(scale, false, right))
        }
        TExprKind::Const(_)
        | TExprKind::Local(_)
        | TExprKind::Global(_)
        | TExprKind::ProcValue(_)
        | TExprKind::Context
        | TExprKind::Location => 0,
    };
    own.saturating_add(parts)
}

/// The weight of an expression that may be left out.
#[cycle(weights)]
pub fn weigh_optional(scale: &Scale<'_>, e: &Option<TExpr>) -> u64
    ensures { result ≡ capped (maybe_weight (weight scale.now.unit scale.now.rows.now) scale.now.unit (maybe e.now)) }
{
    match e {
        None => 0,
        Some(e) => weigh_expr(scale, false, e),
    }
}

/// The weight of a list of expressions.
#[cycle(weights)]
pub fn weigh_exprs(scale: &Scale<'_>, list: &[TExpr]) -> u64
    ensures { result ≡ capped (exprs_weight (weight scale.now.unit scale.now.rows.now) scale.now.unit (exprs list.now)) }
{
    let mut total: u64 = 0;
    for e in list {
        total = total.saturating_add(weigh_expr(scale, false, e));
    }
    total
}

/// The weight of the arguments of a built-in procedure; `len` takes its first one as a place.
#[cycle(weights)]
fn weigh_arguments(scale: &Scale<'_>, which: Builtin, list: &[TExpr]) -> u64
    ensures { result ≡ capped (arguments_weight (weight scale.now.unit scale.now.rows.now) scale.now.unit which (exprs list.now)) }
{
    match which {
        Builtin::Len => match list {
            [] => 0,
            [first, rest @ ..] => {
                weigh_expr(scale, true, first).saturating_add(weigh_exprs(scale, rest))
            }
        },
        _ => weigh_exprs(scale, list),
    }
}

/// The weight of the parts of a built value.
#[cycle(weights)]
fn weigh_parts(scale: &Scale<'_>, list: &[BuildPart]) -> u64
    ensures { result ≡ capped (parts_weight (weight scale.now.unit scale.now.rows.now) scale.now.unit (parts list.now)) }
{
    let mut total: u64 = 0;
    for part in list {
        total = total.saturating_add(weigh_expr(scale, false, &part.value));
    }
    total
}
