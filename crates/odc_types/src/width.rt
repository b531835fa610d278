ghost use Rattle.std.specs.Prelude.{◌≡◌, ◌↔◌, ℤ, pos, negsuc, ◌+ℤ◌, ◌*ℤ◌, ◌≤ℤ◌, ◌^◌, ◌<◌, IsNone, IfSome, IsTrue, true, Some, int_div};
ghost use Rattle.odc_types.specs.Widths.{bits_of, bytes_of, is_signed, least, greatest, wrapped, IsValue};

/// An integer type. `Int` and `Uint` have 64 bits, and are other types than `I64` and `U64`.
#[derive(Clone, Copy, PartialEq, Eq)]
pub enum Width {
    Int,
    Uint,
    I8,
    I16,
    I32,
    I64,
    U8,
    U16,
    U32,
    U64,
}

/// The number of values of a width: 2 to the number of its bits.
fn modulus(w: Width) -> i128
    ensures { result ≡ pos (2 ^ bits_of w) }
{
    match w {
        Width::I8 | Width::U8 => 0x100,
        Width::I16 | Width::U16 => 0x1_0000,
        Width::I32 | Width::U32 => 0x1_0000_0000,
        Width::Int | Width::Uint | Width::I64 | Width::U64 => 0x1_0000_0000_0000_0000,
    }
}

/// The number of bytes that a value has.
pub(crate) fn bytes(w: Width) -> u64
    ensures value { result ≡ bytes_of w }
    ensures positive { 0 < result }
{
    match w {
        Width::I8 | Width::U8 => 1,
        Width::I16 | Width::U16 => 2,
        Width::I32 | Width::U32 => 4,
        Width::Int | Width::Uint | Width::I64 | Width::U64 => 8,
    }
}

/// Whether a width has negative values.
fn has_sign(w: Width) -> bool
    ensures { result ≡ is_signed w }
{
    match w {
        Width::Int | Width::I8 | Width::I16 | Width::I32 | Width::I64 => true,
        Width::Uint | Width::U8 | Width::U16 | Width::U32 | Width::U64 => false,
    }
}

/// The value of a width that a number wraps to, in two's complement.
pub fn wrap(w: Width, v: i128) -> i128
    ensures value { result ≡ wrapped w v }
    ensures within { IsValue w result }
    ensures congruent { (k : ℤ) × (v ≡ (result +ℤ (k *ℤ pos (2 ^ bits_of w)))) }
{
    residue(w, v)
}

/// The number that the lowest bits of `v` stand for, as many as a width has.
fn residue(w: Width, v: i128) -> i128
    ensures value { result ≡ wrapped w v }
    ensures within { IsValue w result }
{
    let count = modulus(w);
    let rest = v.rem_euclid(count);
    if has_sign(w) && rest >= count / 2 {
        rest - count
    } else {
        rest
    }
}

/// The quotient of two values of a width, rounded toward zero and wrapped to the width. There is none where the divisor is 0.
pub fn divide(w: Width, a: i128, b: i128) -> Option<i128>
    requires dividend { IsValue w a }
    requires divisor { IsValue w b }
    ensures none { IsNone result ↔ (b ≡ pos 0) }
    ensures some { IfSome result (λ q. q ≡ wrapped w (int_div a b)) }
    ensures least_by_minus_one { a ≡ least w → b ≡ negsuc 0 → IsTrue (is_signed w) → result ≡ Some (least w) }
{
    if b == 0 { None } else { Some(wrap(w, a / b)) }
}
