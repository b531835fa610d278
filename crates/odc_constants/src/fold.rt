//! Operators on integers.

ghost use Rattle.std.specs.Prelude.{◌≡◌, ◌<◌, ◌↔◌, ◌*ℤ◌, ◌^◌, pos, neg_ℤ, FitsSigned, IsTrue};
ghost use Rattle.std.specs.Option.{SomeIff};
ghost use Rattle.std.specs.Int.{w128, int_bit_not, int_shr};
ghost use Rattle.odc_types.specs.Widths.{IsValue};
ghost use Rattle.odc_constants.specs.Folds.{exact, IsFolded, compared, with_sign_of, shifted_out};
ghost use Rattle.odc_constants.specs.declared.fold.Arithmetic.TheVariants.{Remainder, Modulo};

use odc_types::Width;

/// An operator that gives a number from two.
#[derive(Clone, Copy)]
pub enum Arithmetic {
    Add,
    Subtract,
    Multiply,
    /// `/`, rounded toward zero
    Divide,
    /// `%`, with the sign of the dividend
    Remainder,
    /// `%%`, with the sign of the divisor
    Modulo,
    /// `&`, `&~`, `|` and `~` on two's complement
    And,
    AndNot,
    Or,
    Xor,
}

/// An operator that compares two numbers.
#[derive(Clone, Copy)]
pub enum Comparison {
    Equal,
    Unequal,
    Less,
    Greater,
    AtMost,
    AtLeast,
}

/// The exact result, or None where the divisor is 0 and where the result is outside -2^127 to 2^127 - 1.
pub fn fold(op: Arithmetic, a: i128, b: i128) -> Option<i128>
    ensures { SomeIff result (IsFolded op a b) (exact op a b) }
{
    match op {
        Arithmetic::Add => a.checked_add(b),
        Arithmetic::Subtract => a.checked_sub(b),
        Arithmetic::Multiply => a.checked_mul(b),
        Arithmetic::Divide => a.checked_div(b),
        Arithmetic::Remainder => remainder(a, b),
        Arithmetic::Modulo => modulo(a, b),
        Arithmetic::And => Some(a & b),
        Arithmetic::AndNot => Some(a & !b),
        Arithmetic::Or => Some(a | b),
        Arithmetic::Xor => Some(a ^ b),
    }
}

fn remainder(a: i128, b: i128) -> Option<i128>
    ensures { SomeIff result (IsFolded Remainder a b) (exact Remainder a b) }
{
    if b == -1 { Some(0) } else { a.checked_rem(b) }
}

fn modulo(a: i128, b: i128) -> Option<i128>
    ensures { SomeIff result (IsFolded Modulo a b) (exact Modulo a b) }
{
    match remainder(a, b) {
        Some(rest) => Some(signed_as(rest, b)),
        None => None,
    }
}

fn signed_as(rest: i128, b: i128) -> i128
    requires { FitsSigned w128 (with_sign_of b rest) }
    ensures { result ≡ with_sign_of b rest }
{
    if rest == 0 {
        rest
    } else if rest < 0 {
        if b < 0 { rest } else { rest + b }
    } else {
        if b < 0 { rest + b } else { rest }
    }
}

/// `-a`, or None where that is 2^127.
pub fn negate(a: i128) -> Option<i128>
    ensures { SomeIff result (FitsSigned w128 (neg_ℤ a)) (neg_ℤ a) }
{
    a.checked_neg()
}

/// Every bit of the two's complement turned over: `-a - 1`.
pub fn complement(a: i128) -> i128
    ensures { result ≡ int_bit_not w128 a }
{
    !a
}

pub fn compare(op: Comparison, a: i128, b: i128) -> bool
    ensures { result ≡ compared op a b }
{
    match op {
        Comparison::Equal => a == b,
        Comparison::Unequal => a != b,
        Comparison::Less => a < b,
        Comparison::Greater => b < a,
        Comparison::AtMost => a <= b,
        Comparison::AtLeast => b <= a,
    }
}

fn is(a: i128, b: i128) -> bool
    ensures { IsTrue result ↔ (a ≡ b) }
{
    a == b
}

fn power(count: u32) -> i128
    requires { count < 127 }
    ensures { result ≡ pos (2 ^ count) }
{
    1 << count
}

/// `a << count`: the product with a power of two, or None where that is outside -2^127 to 2^127 - 1.
#[tactic(auto, using(crate::proofs::Shifts::far, crate::proofs::Shifts::farther, crate::proofs::Shifts::none))]
pub fn shift_left(a: i128, count: u128) -> Option<i128>
    ensures { SomeIff result (FitsSigned w128 (a *ℤ pos (2 ^ count))) (a *ℤ pos (2 ^ count)) }
{
    if is(a, 0) {
        Some(0)
    } else if count < 127 {
        a.checked_mul(power(count as u32))
    } else if count > 127 {
        None
    } else if is(a, -1) {
        Some(i128::MIN)
    } else {
        None
    }
}

/// `a >> count`: the quotient by a power of two, rounded down.
#[tactic(auto, using(crate::proofs::Shifts::all_gone))]
pub fn shift_right(a: i128, count: u128) -> i128
    ensures { result ≡ int_shr a count }
{
    if count < 128 {
        a >> count as u32
    } else {
        sign_of(a)
    }
}

// What is left of a number of which every bit is shifted out.
fn sign_of(a: i128) -> i128
    ensures { result ≡ shifted_out a }
{
    if a < 0 { -1 } else { 0 }
}

/// Whether a number is a value of an integer type.
pub fn fits(width: Width, v: i128) -> bool
    ensures { IsTrue result ↔ IsValue width v }
{
    match width {
        Width::I8 => -0x80 <= v && v < 0x80,
        Width::I16 => -0x8000 <= v && v < 0x8000,
        Width::I32 => -0x8000_0000 <= v && v < 0x8000_0000,
        Width::Int | Width::I64 => -0x8000_0000_0000_0000 <= v && v < 0x8000_0000_0000_0000,
        Width::U8 => 0 <= v && v < 0x100,
        Width::U16 => 0 <= v && v < 0x1_0000,
        Width::U32 => 0 <= v && v < 0x1_0000_0000,
        Width::Uint | Width::U64 => 0 <= v && v < 0x1_0000_0000_0000_0000,
    }
}
