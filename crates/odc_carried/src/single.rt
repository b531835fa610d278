//! What stands alone: one name, one variable as a left side, one value.

ghost use Rattle.std.specs.Prelude.{◌≡◌, Some, None, IfSome, IfNone};
ghost use Rattle.odc_program.specs.Trees.Tree.{left_, no_lefts};
ghost use Rattle.odc_program.specs.Views.StmtView.{lefts, rights};
ghost use Rattle.odc_carried.specs.Single as spec;

use odc_program::tree::{Rights, TExpr, TExprKind};

/// The name that stands alone.
pub fn named(names: &[Option<u32>]) -> Option<u32>
    ensures { result ≡ spec.named names.now }
{
    match names {
        [name] => *name,
        _ => None,
    }
}

/// The variable of an expression that is one.
fn variable(e: &TExpr) -> Option<u32>
    ensures { result ≡ spec.target (left_ e.now no_lefts) }
{
    match &*e.kind {
        TExprKind::Local(x) => Some(*x),
        _ => None,
    }
}

/// The variable that stands alone as a left side.
pub fn target(targets: &[Option<TExpr>]) -> Option<u32>
    ensures { result ≡ spec.target (lefts targets.now) }
{
    match targets {
        [] => None,
        [left] => {
            match left {
                Some(e) => variable(e),
                None => None,
            }
        }
        [_, _, ..] => None,
    }
}

/// The value that stands alone.
pub fn only(values: &Rights) -> Option<&TExpr>
    ensures some { IfSome result (λ e. spec.only (rights values.now) ≡ Some e.now) }
    ensures none { IfNone result (spec.only (rights values.now) ≡ None) }
{
    match values {
        Rights::Each(es) => {
            match es.as_slice() {
                [] => None,
                [e] => Some(e),
                [_, _, ..] => None,
            }
        }
        Rights::None | Rights::Parted(_, _) => None,
    }
}
