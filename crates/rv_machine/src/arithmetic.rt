//! Arithmetic on words of 64 bits, one function for each operation of the manual.

ghost use Rattle.std.specs.Prelude.{◌≡◌, ℕ, ◌+◌, ◌-◌, ◌*◌, ◌/◌, ◌%◌, ◌^◌, ◌<◌};
ghost use Rattle.std.specs.Int.{w32, w64, cast_unsigned};
ghost use Rattle.rv_table.specs.Words.{word, upper, low, extended, plus, minus, flag, signed_below, shifted_left, shifted_right, shifted_signed, high_product, high_product_mixed, high_product_unsigned, quotient, remainder, quotient_unsigned, remainder_unsigned};

pub fn word(immediate: i32) -> u64
    ensures { result ≡ word immediate }
{
    i64::from(immediate).cast_unsigned()
}

pub fn upper(immediate: i32) -> u64
    ensures { result ≡ upper immediate }
{
    word(immediate) << 12
}

pub fn low(value: u64) -> u32
    ensures { result ≡ low value }
{
    (value % 0x1_0000_0000) as u32
}

pub fn extended_8(value: u8) -> u64
    ensures { result ≡ extended 8 value }
{
    if value < 0x80 {
        u64::from(value)
    } else {
        u64::from(value) + 0xffff_ffff_ffff_ff00
    }
}

pub fn extended_16(value: u16) -> u64
    ensures { result ≡ extended 16 value }
{
    if value < 0x8000 {
        u64::from(value)
    } else {
        u64::from(value) + 0xffff_ffff_ffff_0000
    }
}

pub fn extended_32(value: u32) -> u64
    ensures { result ≡ extended 32 value }
{
    if value < 0x8000_0000 {
        u64::from(value)
    } else {
        u64::from(value) + 0xffff_ffff_0000_0000
    }
}

pub fn plus(a: u64, b: u64) -> u64
    ensures { result ≡ plus a b }
{
    a.wrapping_add(b)
}

pub fn minus(a: u64, b: u64) -> u64
    ensures { result ≡ minus a b }
{
    a.wrapping_sub(b)
}

pub fn flag(b: bool) -> u64
    ensures { result ≡ flag b }
{
    u64::from(b)
}

pub fn signed_below(a: u64, b: u64) -> bool
    ensures { result ≡ signed_below a b }
{
    a.cast_signed() < b.cast_signed()
}

pub fn shifted_left(a: u64, amount: u8) -> u64
    requires { amount < 64 }
    ensures { result ≡ shifted_left 64 a amount }
{
    a << amount
}

pub fn shifted_right(a: u64, amount: u8) -> u64
    requires { amount < 64 }
    ensures { result ≡ shifted_right a amount }
{
    a >> amount
}

pub fn shifted_signed(a: u64, amount: u8) -> u64
    requires { amount < 64 }
    ensures { result ≡ shifted_signed 64 a amount }
{
    (a.cast_signed() >> amount).cast_unsigned()
}

pub fn multiplied(a: u64, b: u64) -> u64
    ensures { result ≡ a * b % 2 ^ 64 }
{
    a.wrapping_mul(b)
}

pub fn high_product(a: u64, b: u64) -> u64
    ensures { result ≡ high_product a b }
{
    let product = i128::from(a.cast_signed()) * i128::from(b.cast_signed());
    (product.cast_unsigned() >> 64) as u64
}

pub fn high_product_mixed(a: u64, b: u64) -> u64
    ensures { result ≡ high_product_mixed a b }
{
    let product = i128::from(a.cast_signed()) * i128::from(b);
    (product.cast_unsigned() >> 64) as u64
}

pub fn high_product_unsigned(a: u64, b: u64) -> u64
    ensures { result ≡ high_product_unsigned a b }
{
    ((u128::from(a) * u128::from(b)) >> 64) as u64
}

pub fn quotient(a: u64, b: u64) -> u64
    ensures { result ≡ quotient w64 a b }
{
    if b == 0 {
        u64::MAX
    } else {
        a.cast_signed()
            .wrapping_div(b.cast_signed())
            .cast_unsigned()
    }
}

pub fn remainder(a: u64, b: u64) -> u64
    ensures { result ≡ remainder w64 a b }
{
    if b == 0 {
        a
    } else {
        a.cast_signed()
            .wrapping_rem(b.cast_signed())
            .cast_unsigned()
    }
}

pub fn quotient_unsigned(a: u64, b: u64) -> u64
    ensures { result ≡ quotient_unsigned 64 a b }
{
    if b == 0 { u64::MAX } else { a / b }
}

pub fn remainder_unsigned(a: u64, b: u64) -> u64
    ensures { result ≡ remainder_unsigned a b }
{
    if b == 0 { a } else { a % b }
}

pub fn added_32(a: u64, b: u64) -> u64
    ensures { result ≡ extended 32 (low (a + b)) }
{
    extended_32(low(a.wrapping_add(b)))
}

pub fn subtracted_32(a: u64, b: u64) -> u64
    ensures { result ≡ extended 32 (low (low a + (2 ^ 32 - low b))) }
{
    extended_32(low(a).wrapping_sub(low(b)))
}

pub fn multiplied_32(a: u64, b: u64) -> u64
    ensures { result ≡ extended 32 (low (low a * low b)) }
{
    extended_32(low(a).wrapping_mul(low(b)))
}

pub fn shifted_left_32(a: u64, amount: u8) -> u64
    requires { amount < 32 }
    ensures { result ≡ extended 32 (shifted_left 32 (low a) amount) }
{
    extended_32(low(a) << amount)
}

pub fn shifted_right_32(a: u64, amount: u8) -> u64
    requires { amount < 32 }
    ensures { result ≡ extended 32 (shifted_right (low a) amount) }
{
    extended_32(low(a) >> amount)
}

pub fn shifted_signed_32(a: u64, amount: u8) -> u64
    requires { amount < 32 }
    ensures { result ≡ extended 32 (shifted_signed 32 (low a) amount) }
{
    extended_32((low(a).cast_signed() >> amount).cast_unsigned())
}

fn divided_32(a: u32, b: u32) -> u32
    ensures { result ≡ quotient w32 a b }
{
    if b == 0 {
        u32::MAX
    } else {
        a.cast_signed()
            .wrapping_div(b.cast_signed())
            .cast_unsigned()
    }
}

pub fn quotient_32(a: u64, b: u64) -> u64
    ensures { result ≡ extended 32 (quotient w32 (low a) (low b)) }
{
    extended_32(divided_32(low(a), low(b)))
}

pub fn remainder_32(a: u64, b: u64) -> u64
    ensures { result ≡ extended 32 (remainder w32 (low a) (low b)) }
{
    let divisor = low(b);
    if divisor == 0 {
        return extended_32(low(a));
    }
    extended_32(
        low(a)
            .cast_signed()
            .wrapping_rem(divisor.cast_signed())
            .cast_unsigned(),
    )
}

pub fn quotient_unsigned_32(a: u64, b: u64) -> u64
    ensures { result ≡ extended 32 (quotient_unsigned 32 (low a) (low b)) }
{
    let divisor = low(b);
    if divisor == 0 {
        return u64::MAX;
    }
    extended_32(low(a) / divisor)
}

pub fn remainder_unsigned_32(a: u64, b: u64) -> u64
    ensures { result ≡ extended 32 (remainder_unsigned (low a) (low b)) }
{
    let divisor = low(b);
    if divisor == 0 {
        return extended_32(low(a));
    }
    extended_32(low(a) % divisor)
}
