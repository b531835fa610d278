//! Which expressions hold a call, a check, or a part that isn't always evaluated, and how operands come together.

ghost use Rattle.std.specs.Prelude.{◌≡◌, ◌^◌, ◌<◌, ◌≤◌, ℕ, true, false, drop};
ghost use Rattle.odc_program.specs.States.Bytes.{residue};
ghost use Rattle.odc_program.specs.Views.View.{exprs};
ghost use Rattle.odc_carried.specs.Carried as carried;
ghost use Rattle.odc_carried.specs.Code as core_code;
ghost use Rattle.odc_carried.specs.WayView.{shown_way};

use odc_program::ops::{BinaryOp, Constant};
use odc_program::tree::{TExpr, TExprKind};

/// How two operands come together: in one expression, with the left one waiting, with both waiting for a check, or with the
/// right one evaluated only where the left one is true, or false.
#[derive(Clone, Copy)]
pub enum Way {
    Nested,
    Waiting,
    Checking,
    Both,
    Either,
}

/// The lowest 64 bits of an integer in two's complement.
pub fn low_word(value: i128) -> u64
    ensures { result ≡ residue (2 ^ 64) value }
{
    value.rem_euclid(0x1_0000_0000_0000_0000) as u64
}

/// The word of a constant.
pub fn word_of(constant: Constant) -> u64
    ensures { result ≡ core_code.constant_word constant }
{
    match constant {
        Constant::Int(value) => low_word(value),
        Constant::Bool(value) => u64::from(value),
        Constant::Text(_, _) | Constant::Nil => 0,
    }
}

/// Whether an operator is `/` or `%`.
pub fn is_quotient(op: BinaryOp) -> bool
    ensures { result ≡ carried.is_quotient op }
{
    matches!(op, BinaryOp::Divide | BinaryOp::Remainder)
}

/// Whether an operator evaluates its right side only where the left one leaves it open.
pub fn is_connective(op: BinaryOp) -> bool
    ensures { result ≡ carried.is_connective op }
{
    matches!(op, BinaryOp::AndAlso | BinaryOp::OrElse)
}

/// Whether an expression is a constant that isn't zero.
fn is_divisor(e: &TExpr) -> bool
    ensures { result ≡ carried.is_divisor e.now }
{
    match &*e.kind {
        TExprKind::Const(constant) => {
            match constant {
                Constant::Int(value) => low_word(*value) != 0,
                _ => false,
            }
        }
        _ => false,
    }
}

/// Whether an operator checks that its right side isn't zero.
fn checks(op: BinaryOp, right: &TExpr) -> bool
    ensures { result ≡ carried.checks op right.now }
{
    is_quotient(op) && !is_divisor(right)
}

/// Whether an expression holds a call, a check, or a part that isn't always evaluated.
#[cycle(loud)]
pub fn is_loud(e: &TExpr) -> bool
    ensures { result ≡ carried.is_loud e.now }
{
    match &*e.kind {
        TExprKind::Const(_) | TExprKind::Local(_) => false,
        TExprKind::Unary(_, inner) => is_loud(inner),
        TExprKind::Binary(op, left, right) => {
            is_connective(*op) || checks(*op, right) || is_loud(left) || is_loud(right)
        }
        _ => true,
    }
}

/// How the operands of an operator come together.
pub fn way_of(op: BinaryOp, right: &TExpr) -> Way
    ensures { shown_way result ≡ core_code.way op right.now }
{
    match op {
        BinaryOp::AndAlso => Way::Both,
        BinaryOp::OrElse => Way::Either,
        _ => {
            if checks(op, right) {
                Way::Checking
            } else if is_loud(right) {
                Way::Waiting
            } else {
                Way::Nested
            }
        }
    }
}

/// The number of expressions up to the last loud one.
pub fn loud_until(es: &[TExpr]) -> usize
    ensures before { (i : ℕ) → i < result → carried.is_any_loud (exprs (drop i es.now)) ≡ true }
    ensures behind { (i : ℕ) → result ≤ i → carried.is_any_loud (exprs (drop i es.now)) ≡ false }
{
    let mut until = es.len();
    while until > 0 {
        if is_loud(&es[until - 1]) {
            return until;
        }
        until -= 1;
    }
    0
}
