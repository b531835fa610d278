//! Pieces that stand at the front of a text: marks, integers, names and signs.

ghost use Rattle.std.specs.Prelude.{◌≡◌, ◌≢◌, ◌++◌, ◌≤◌, List, ℕ, MatchOption, IsTrue, ◌↔◌, length};
ghost use Rattle.std.specs.Str.Parse.{AllDigits, digits_value};
ghost use Rattle.odc_small.specs.Forms.{FoundAt, NoneAt, NoDigitFirst, IsPlain};
ghost use Rattle.odc_small.specs.Reading.{ints, names, uppers, scales, signs, relations};

use crate::grammar::{Relation, Scale, Sign};

/// What follows a mark at the front.
pub fn strip<'a>(mark: &[u8], bytes: &'a [u8]) -> Option<&'a [u8]>
    ensures { MatchOption result ((rest : List ℕ) → bytes.now ≢ mark.now ++ rest) (λ rest. bytes.now ≡ mark.now ++ rest.now) }
{
    bytes.strip_prefix(mark)
}

// The digits at the front, and what follows them.
fn split_digits(bytes: &[u8]) -> (&[u8], &[u8])
    ensures digits { AllDigits 10 result.0.now }
    ensures rest { NoDigitFirst result.1.now }
    ensures whole { bytes.now ≡ result.0.now ++ result.1.now }
{
    let mut end = 0;
    while end < bytes.len() && bytes[end].is_ascii_digit() {
        end += 1;
    }
    bytes.split_at(end)
}

// The number that at most nine digits write.
fn value_of(digits: &[u8]) -> u32
    requires digits { AllDigits 10 digits.now }
    requires short { length digits.now ≤ 9 }
    ensures { result ≡ digits_value 10 digits.now }
{
    let mut value = 0;
    for digit in digits {
        value = value * 10 + u32::from(*digit - b'0');
    }
    value
}

// Whether these digits write an integer of the grammar.
fn is_plain(digits: &[u8]) -> bool
    ensures { IsTrue result ↔ IsPlain digits.now }
{
    !digits.is_empty() && digits.len() <= 9 && (digits[0] != b'0' || digits.len() == 1)
}

/// The integer at the front, and what follows it.
pub fn int_at(bytes: &[u8]) -> Option<(u32, &[u8])>
    ensures { MatchOption result (NoneAt ints bytes.now) (λ p. FoundAt ints bytes.now p.0 p.1.now) }
{
    let (digits, rest) = split_digits(bytes);
    if is_plain(digits) {
        Some((value_of(digits), rest))
    } else {
        None
    }
}

/// Whether no digit comes first.
pub fn begins_without_digit(bytes: &[u8]) -> bool
    ensures { IsTrue result ↔ NoDigitFirst bytes.now }
{
    match bytes.split_first() {
        Some((first, _)) => !first.is_ascii_digit(),
        None => true,
    }
}

/// The name at the front, and what follows it.
pub fn name_at(bytes: &[u8]) -> Option<(u8, &[u8])>
    ensures { MatchOption result (NoneAt names bytes.now) (λ p. FoundAt names bytes.now p.0 p.1.now) }
{
    let (first, rest) = bytes.split_first()?;
    if first.is_ascii_lowercase() {
        Some((*first, rest))
    } else {
        None
    }
}

/// The name of a procedure at the front, and what follows it.
pub fn upper_at(bytes: &[u8]) -> Option<(u8, &[u8])>
    ensures { MatchOption result (NoneAt uppers bytes.now) (λ p. FoundAt uppers bytes.now p.0 p.1.now) }
{
    let (first, rest) = bytes.split_first()?;
    if first.is_ascii_uppercase() {
        Some((*first, rest))
    } else {
        None
    }
}

/// The sign between two factors at the front, and what follows it.
pub fn scale_at(bytes: &[u8]) -> Option<(Scale, &[u8])>
    ensures { MatchOption result (NoneAt scales bytes.now) (λ p. FoundAt scales bytes.now p.0 p.1.now) }
{
    if let Some(rest) = strip(b" * ", bytes) {
        return Some((Scale::Times, rest));
    }
    if let Some(rest) = strip(b" / ", bytes) {
        return Some((Scale::Over, rest));
    }
    let rest = strip(b" % ", bytes)?;
    Some((Scale::Rest, rest))
}

/// The sign between two products at the front, and what follows it.
pub fn sign_at(bytes: &[u8]) -> Option<(Sign, &[u8])>
    ensures { MatchOption result (NoneAt signs bytes.now) (λ p. FoundAt signs bytes.now p.0 p.1.now) }
{
    if let Some(rest) = strip(b" + ", bytes) {
        return Some((Sign::Plus, rest));
    }
    let rest = strip(b" - ", bytes)?;
    Some((Sign::Minus, rest))
}

/// The sign between two sums at the front, and what follows it.
pub fn relation_at(bytes: &[u8]) -> Option<(Relation, &[u8])>
    ensures { MatchOption result (NoneAt relations bytes.now) (λ p. FoundAt relations bytes.now p.0 p.1.now) }
{
    if let Some(rest) = strip(b" < ", bytes) {
        return Some((Relation::Less, rest));
    }
    let rest = strip(b" == ", bytes)?;
    Some((Relation::Same, rest))
}
