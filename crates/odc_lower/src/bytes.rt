//! The steps that move and zero bytes.

ghost use Rattle.std.specs.Prelude.{◌≡◌, ◌+◌, ◌^◌, ◌<◌, ◌++◌, map, OnOk};
ghost use Rattle.odc_core.specs.Words.{width_size};
ghost use Rattle.odc_lower.specs.Plain.{plain};
ghost use Rattle.odc_lower.specs.Code.{up_code, down_code, copy_code, clear_code, zero_code};

use crate::expression::push;
use odc_core::tree::{BinaryOp, Comparison, Width};
use odc_mid::tree::MidStep;
use std::alloc::{AllocError, Global};

/// Appends steps.
fn append(steps: &mut Vec<MidStep>, mut more: Vec<MidStep>) -> Result<(), AllocError>
    ensures { OnOk result (map plain steps.new.items ≡ map plain steps.old.items ++ map plain more.items) }
{
    steps.append(&mut more)?;
    Ok(())
}

/// How many bytes a load or store moves.
fn bytes(width: Width) -> u64
    ensures { result ≡ width_size width }
{
    match width {
        Width::Byte => 1,
        Width::Half => 2,
        Width::Word => 4,
        Width::Double => 8,
    }
}

/// Appends the loop that moves pieces of one width upward; it stands at `p`.
fn push_up(
    alloc: Global,
    steps: &mut Vec<MidStep>,
    d: u32,
    p: u32,
    width: Width,
) -> Result<(), AllocError>
    requires temps { d + 5 < 2 ^ 32 }
    requires place { p + 8 < 2 ^ 32 }
    ensures { OnOk result (map plain steps.new.items ≡ map plain steps.old.items ++ up_code d p width (width_size width)) }
{
    let more = vec![in alloc;
        MidStep::Const {
            to: d + 4,
            word: bytes(width) - 1
        },
        MidStep::Const {
            to: d + 5,
            word: bytes(width)
        },
        MidStep::Jump { label: p + 8 },
        MidStep::Load {
            to: d + 3,
            width,
            address: d + 1
        },
        MidStep::Store {
            width,
            address: d,
            value: d + 3
        },
        MidStep::Binary {
            to: d,
            op: BinaryOp::Add,
            left: d,
            right: d + 5
        },
        MidStep::Binary {
            to: d + 1,
            op: BinaryOp::Add,
            left: d + 1,
            right: d + 5
        },
        MidStep::Binary {
            to: d + 2,
            op: BinaryOp::Subtract,
            left: d + 2,
            right: d + 5
        },
        MidStep::Compare {
            to: d + 3,
            op: Comparison::Below,
            left: d + 4,
            right: d + 2
        },
        MidStep::Branch {
            condition: d + 3,
            label: p + 3
        },
    ]?;
    append(steps, more)
}

/// Appends the loop that moves pieces of one width downward; it stands at `p`.
fn push_down(
    alloc: Global,
    steps: &mut Vec<MidStep>,
    d: u32,
    p: u32,
    width: Width,
) -> Result<(), AllocError>
    requires temps { d + 5 < 2 ^ 32 }
    requires place { p + 8 < 2 ^ 32 }
    ensures { OnOk result (map plain steps.new.items ≡ map plain steps.old.items ++ down_code d p width (width_size width)) }
{
    let more = vec![in alloc;
        MidStep::Const {
            to: d + 4,
            word: bytes(width) - 1
        },
        MidStep::Const {
            to: d + 5,
            word: bytes(width)
        },
        MidStep::Jump { label: p + 8 },
        MidStep::Binary {
            to: d,
            op: BinaryOp::Subtract,
            left: d,
            right: d + 5
        },
        MidStep::Binary {
            to: d + 1,
            op: BinaryOp::Subtract,
            left: d + 1,
            right: d + 5
        },
        MidStep::Load {
            to: d + 3,
            width,
            address: d + 1
        },
        MidStep::Store {
            width,
            address: d,
            value: d + 3
        },
        MidStep::Binary {
            to: d + 2,
            op: BinaryOp::Subtract,
            left: d + 2,
            right: d + 5
        },
        MidStep::Compare {
            to: d + 3,
            op: Comparison::Below,
            left: d + 4,
            right: d + 2
        },
        MidStep::Branch {
            condition: d + 3,
            label: p + 3
        },
    ]?;
    append(steps, more)
}

/// Appends the loop that zeroes pieces of one width; it stands at `p`.
fn push_clear(
    alloc: Global,
    steps: &mut Vec<MidStep>,
    d: u32,
    p: u32,
    width: Width,
) -> Result<(), AllocError>
    requires temps { d + 5 < 2 ^ 32 }
    requires place { p + 6 < 2 ^ 32 }
    ensures { OnOk result (map plain steps.new.items ≡ map plain steps.old.items ++ clear_code d p width (width_size width)) }
{
    let more = vec![in alloc;
        MidStep::Const {
            to: d + 3,
            word: bytes(width) - 1
        },
        MidStep::Const {
            to: d + 4,
            word: bytes(width)
        },
        MidStep::Jump { label: p + 6 },
        MidStep::Store {
            width,
            address: d,
            value: d + 2
        },
        MidStep::Binary {
            to: d,
            op: BinaryOp::Add,
            left: d,
            right: d + 4
        },
        MidStep::Binary {
            to: d + 1,
            op: BinaryOp::Subtract,
            left: d + 1,
            right: d + 4
        },
        MidStep::Compare {
            to: d + 5,
            op: Comparison::Below,
            left: d + 3,
            right: d + 1
        },
        MidStep::Branch {
            condition: d + 5,
            label: p + 3
        },
    ]?;
    append(steps, more)
}

/// Appends the steps that move bytes as if through a copy; they stand at `p`.
pub fn push_copy(alloc: Global, steps: &mut Vec<MidStep>, d: u32, p: u32) -> Result<(), AllocError>
    requires temps { d + 5 < 2 ^ 32 }
    requires place { p + 45 < 2 ^ 32 }
    ensures { OnOk result (map plain steps.new.items ≡ map plain steps.old.items ++ copy_code d p) }
{
    let head = vec![in alloc;
        MidStep::Compare {
            to: d + 3,
            op: Comparison::Below,
            left: d + 1,
            right: d
        },
        MidStep::Branch {
            condition: d + 3,
            label: p + 23
        },
    ]?;
    append(steps, head)?;
    push_up(alloc, steps, d, p + 2, Width::Double)?;
    push_up(alloc, steps, d, p + 12, Width::Byte)?;
    let turn = vec![in alloc;
        MidStep::Jump { label: p + 45 },
        MidStep::Binary {
            to: d,
            op: BinaryOp::Add,
            left: d,
            right: d + 2
        },
        MidStep::Binary {
            to: d + 1,
            op: BinaryOp::Add,
            left: d + 1,
            right: d + 2
        },
    ]?;
    append(steps, turn)?;
    push_down(alloc, steps, d, p + 25, Width::Double)?;
    push_down(alloc, steps, d, p + 35, Width::Byte)
}

/// Appends the steps that zero bytes; they stand at `p`.
pub fn push_zero(alloc: Global, steps: &mut Vec<MidStep>, d: u32, p: u32) -> Result<(), AllocError>
    requires temps { d + 5 < 2 ^ 32 }
    requires place { p + 17 < 2 ^ 32 }
    ensures { OnOk result (map plain steps.new.items ≡ map plain steps.old.items ++ zero_code d p) }
{
    push(steps, MidStep::Const { to: d + 2, word: 0 })?;
    push_clear(alloc, steps, d, p + 1, Width::Double)?;
    push_clear(alloc, steps, d, p + 9, Width::Byte)
}
