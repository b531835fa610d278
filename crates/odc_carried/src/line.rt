//! The code that prints: the bytes of a number are made from its last digit on, in front of those that
//! stand in a buffer already.

ghost use Rattle.std.specs.Prelude.{◌≡◌, ◌<◌, ◌≤◌, ◌+◌, OnOk, IfOk};
ghost use Rattle.odc_core.specs.declared.tree.Width.TheVariants.{Byte};
ghost use Rattle.odc_core.specs.declared.tree.BinaryOp.TheVariants.{Add, Subtract, DivideUnsigned, RemainderUnsigned};
ghost use Rattle.odc_core.specs.declared.tree.Comparison.TheVariants.{Less};
ghost use Rattle.odc_core.specs.Tree.{const, slot, binary, compare, store, choose, repeat, leave, finish};
ghost use Rattle.odc_core.specs.View.{expr as core_expr, stmts as core_stmts};
ghost use Rattle.odc_carried.specs.Code.{join, one, held, put, waits, buffer_at, pointer_at, number_at, front, digit_code, write_code, text_code, print_code, values_code, newline_code, line_code};
ghost use Rattle.odc_carried.specs.View.{shown};

use crate::around::{Around, deeper};
use crate::pieces::{
    compared, operated, push, push_choice, push_loop, push_set, value_at, word_in,
};
use odc_core::tree::{BinaryOp, Comparison, CoreExpr, CoreStmt, Descriptor, Width};
use std::alloc::{AllocError, Global};

/// How many bytes the buffer holds: a sign, 19 digits and the byte behind them fit.
const BUFFER_SIZE: u64 = 32;

/// Appends: one more byte of the buffer is in use.
fn push_room(alloc: Global, code: &mut Vec<CoreStmt>, o: &Around) -> Result<(), AllocError>
    ensures { OnOk result (core_stmts code.new.items ≡ join (core_stmts code.old.items) (one (put (pointer_at (shown o.now)) (binary Subtract (held (pointer_at (shown o.now))) (const 1))))) }
{
    let first = word_in(alloc, o.pointer())?;
    let next = operated(alloc, BinaryOp::Subtract, first, CoreExpr::Const(1))?;
    push_set(code, o.pointer(), next)
}

/// Appends: the first byte in use is this one.
fn push_first(
    alloc: Global,
    code: &mut Vec<CoreStmt>,
    o: &Around,
    byte: CoreExpr,
) -> Result<(), AllocError>
    ensures { OnOk result (core_stmts code.new.items ≡ join (core_stmts code.old.items) (one (store Byte (held (pointer_at (shown o.now))) (core_expr byte)))) }
{
    let first = word_in(alloc, o.pointer())?;
    push(code, CoreStmt::Store(Width::Byte, first, byte))
}

/// Appends: a byte comes in front of those in the buffer.
fn push_byte(
    alloc: Global,
    code: &mut Vec<CoreStmt>,
    o: &Around,
    byte: CoreExpr,
) -> Result<(), AllocError>
    ensures { OnOk result (core_stmts code.new.items ≡ join (core_stmts code.old.items) (front (shown o.now) (core_expr byte))) }
{
    push_room(alloc, code, o)?;
    push_first(alloc, code, o, byte)
}

/// The number's last digit as a byte.
fn last_digit(alloc: Global, o: &Around) -> Result<CoreExpr, AllocError>
    ensures { IfOk result (λ e. core_expr e ≡ binary Add (binary RemainderUnsigned (held (number_at (shown o.now))) (const 10)) (const 48)) }
{
    let number = word_in(alloc, o.number())?;
    let digit = operated(
        alloc,
        BinaryOp::RemainderUnsigned,
        number,
        CoreExpr::Const(10),
    )?;
    operated(
        alloc,
        BinaryOp::Add,
        digit,
        CoreExpr::Const(u64::from(b'0')),
    )
}

/// Appends: the number loses its last digit.
fn push_shorter(alloc: Global, code: &mut Vec<CoreStmt>, o: &Around) -> Result<(), AllocError>
    ensures { OnOk result (core_stmts code.new.items ≡ join (core_stmts code.old.items) (one (put (number_at (shown o.now)) (binary DivideUnsigned (held (number_at (shown o.now))) (const 10))))) }
{
    let number = word_in(alloc, o.number())?;
    let rest = operated(alloc, BinaryOp::DivideUnsigned, number, CoreExpr::Const(10))?;
    push_set(code, o.number(), rest)
}

/// Appends: the loop is left where the number is zero.
fn push_last(alloc: Global, code: &mut Vec<CoreStmt>, o: &Around) -> Result<(), AllocError>
    ensures { OnOk result (core_stmts code.new.items ≡ join (core_stmts code.old.items) (one (choose (held (number_at (shown o.now))) finish (one (leave 0))))) }
{
    let mut left = Vec::new(alloc);
    push(&mut left, CoreStmt::Leave(0))?;
    let number = word_in(alloc, o.number())?;
    push_choice(code, number, Vec::new(alloc), left)
}

/// Appends: a digit, and on while something is left.
fn push_digit(alloc: Global, code: &mut Vec<CoreStmt>, o: &Around) -> Result<(), AllocError>
    ensures { OnOk result (core_stmts code.new.items ≡ join (core_stmts code.old.items) (digit_code (shown o.now))) }
{
    let digit = last_digit(alloc, o)?;
    push_byte(alloc, code, o, digit)?;
    push_shorter(alloc, code, o)?;
    push_last(alloc, code, o)
}

/// Appends: the digits of the number.
fn push_digits(alloc: Global, code: &mut Vec<CoreStmt>, o: &Around) -> Result<(), AllocError>
    ensures { OnOk result (core_stmts code.new.items ≡ join (core_stmts code.old.items) (one (repeat (digit_code (shown o.now))))) }
{
    let mut turn = Vec::new(alloc);
    push_digit(alloc, &mut turn, o)?;
    push_loop(code, turn)
}

/// Whether the value that waits at a depth is negative.
fn is_negative(alloc: Global, o: &Around, d: u32) -> Result<CoreExpr, AllocError>
    ensures { IfOk result (λ e. core_expr e ≡ compare Less (waits (shown o.now) d) (const 0)) }
{
    let value = value_at(alloc, o, d)?;
    compared(alloc, Comparison::Less, value, CoreExpr::Const(0))
}

/// Appends: the number is the value that waits, without its sign.
fn push_magnitude(
    alloc: Global,
    code: &mut Vec<CoreStmt>,
    o: &Around,
    d: u32,
) -> Result<(), AllocError>
    ensures { OnOk result (core_stmts code.new.items ≡ join (core_stmts code.old.items) (one (choose (compare Less (waits (shown o.now) d) (const 0)) (one (put (number_at (shown o.now)) (binary Subtract (const 0) (waits (shown o.now) d)))) finish))) }
{
    let value = value_at(alloc, o, d)?;
    let magnitude = operated(alloc, BinaryOp::Subtract, CoreExpr::Const(0), value)?;
    let mut negated = Vec::new(alloc);
    push_set(&mut negated, o.number(), magnitude)?;
    let negative = is_negative(alloc, o, d)?;
    push_choice(code, negative, negated, Vec::new(alloc))
}

/// Appends: a sign in front of a negative number.
fn push_sign(alloc: Global, code: &mut Vec<CoreStmt>, o: &Around, d: u32) -> Result<(), AllocError>
    ensures { OnOk result (core_stmts code.new.items ≡ join (core_stmts code.old.items) (one (choose (compare Less (waits (shown o.now) d) (const 0)) (front (shown o.now) (const 45)) finish))) }
{
    let mut sign = Vec::new(alloc);
    push_byte(alloc, &mut sign, o, CoreExpr::Const(u64::from(b'-')))?;
    let negative = is_negative(alloc, o, d)?;
    push_choice(code, negative, sign, Vec::new(alloc))
}

/// The address behind the buffer.
fn buffer_end(alloc: Global, o: &Around) -> Result<CoreExpr, AllocError>
    ensures { IfOk result (λ e. core_expr e ≡ binary Add (slot (buffer_at (shown o.now))) (const 32)) }
{
    operated(
        alloc,
        BinaryOp::Add,
        CoreExpr::Slot(o.buffer()),
        CoreExpr::Const(BUFFER_SIZE),
    )
}

/// Appends: no byte of the buffer is in use.
fn push_empty(alloc: Global, code: &mut Vec<CoreStmt>, o: &Around) -> Result<(), AllocError>
    ensures { OnOk result (core_stmts code.new.items ≡ join (core_stmts code.old.items) (one (put (pointer_at (shown o.now)) (binary Add (slot (buffer_at (shown o.now))) (const 32))))) }
{
    let end = buffer_end(alloc, o)?;
    push_set(code, o.pointer(), end)
}

/// Appends: the bytes in use are written.
fn push_written(alloc: Global, code: &mut Vec<CoreStmt>, o: &Around) -> Result<(), AllocError>
    ensures { OnOk result (core_stmts code.new.items ≡ join (core_stmts code.old.items) (one (write_code (shown o.now)))) }
{
    let end = buffer_end(alloc, o)?;
    let first = word_in(alloc, o.pointer())?;
    let size = operated(alloc, BinaryOp::Subtract, end, first)?;
    let from = word_in(alloc, o.pointer())?;
    push(code, CoreStmt::Write(Descriptor::Out, from, size))
}

/// Appends: the digits and the sign of the value that waits at a depth come to stand in the buffer.
fn push_text(alloc: Global, code: &mut Vec<CoreStmt>, o: &Around, d: u32) -> Result<(), AllocError>
    ensures { OnOk result (core_stmts code.new.items ≡ join (core_stmts code.old.items) (text_code (shown o.now) d)) }
{
    let value = value_at(alloc, o, d)?;
    push_set(code, o.number(), value)?;
    push_magnitude(alloc, code, o, d)?;
    push_digits(alloc, code, o)?;
    push_sign(alloc, code, o, d)
}

/// Appends the printing of the value that waits at a depth, and of a byte behind it.
fn push_value(
    alloc: Global,
    code: &mut Vec<CoreStmt>,
    o: &Around,
    d: u32,
    behind: u8,
) -> Result<(), AllocError>
    ensures { OnOk result (core_stmts code.new.items ≡ join (core_stmts code.old.items) (print_code (shown o.now) d behind)) }
{
    push_empty(alloc, code, o)?;
    push_byte(alloc, code, o, CoreExpr::Const(u64::from(behind)))?;
    push_text(alloc, code, o, d)?;
    push_written(alloc, code, o)
}

/// The byte behind a value on which so many more follow.
fn separator(following: u32) -> u8
    ensures parted { 0 < following → result ≡ 32 }
    ensures last { following ≡ 0 → result ≡ 10 }
{
    if following == 0 { b'\n' } else { b' ' }
}

/// Appends the printing of so many values that wait from a depth on, parted by spaces, and a newline.
fn push_values(
    alloc: Global,
    code: &mut Vec<CoreStmt>,
    o: &Around,
    d: u32,
    count: u32,
) -> Result<(), AllocError>
    ensures { OnOk result (core_stmts code.new.items ≡ join (core_stmts code.old.items) (values_code (shown o.now) d count)) }
{
    for i in 0..count {
        let depth = deeper(d, i)?;
        push_value(alloc, code, o, depth, separator(count - i - 1))?;
    }
    Ok(())
}

/// Appends the printing of a newline.
fn push_newline(alloc: Global, code: &mut Vec<CoreStmt>, o: &Around) -> Result<(), AllocError>
    ensures { OnOk result (core_stmts code.new.items ≡ join (core_stmts code.old.items) (newline_code (shown o.now))) }
{
    push_empty(alloc, code, o)?;
    push_byte(alloc, code, o, CoreExpr::Const(u64::from(b'\n')))?;
    push_written(alloc, code, o)
}

/// Appends the printing of a line of so many values that wait from a depth on.
pub fn push_line(
    alloc: Global,
    code: &mut Vec<CoreStmt>,
    o: &Around,
    d: u32,
    count: u32,
) -> Result<(), AllocError>
    ensures { OnOk result (core_stmts code.new.items ≡ join (core_stmts code.old.items) (line_code (shown o.now) d count)) }
{
    if count == 0 {
        push_newline(alloc, code, o)
    } else {
        push_values(alloc, code, o, d, count)
    }
}
