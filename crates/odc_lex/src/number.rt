//! Numbers.

ghost use Rattle.std.specs.Prelude.{◌≡◌, ◌≤◌, ℕ, IfSome, IfNone};
ghost use Rattle.odc_syntax.specs.lexical.Words.{IsByte, Run, Then};
ghost use Rattle.odc_syntax.specs.lexical.Longest.{Absent, FindsFront, Heads, IsFront};
ghost use Rattle.odc_syntax.specs.lexical.Numbers.{Digits, IsBased, IsExponent, IsFraction, Optional, IsUnitLetter, DecimalTail, Prefix, is_digit_or_underscore, is_underscore, is_plus_or_minus};
ghost use Rattle.odc_lex.specs.Number.{LexemeFront, NoNumber, AfterDigits, AfterExponent, AfterTail, kind_by_tail};

use crate::stretch::{begins_with, digits_len};
use crate::unit::{ByteClass, Unit, byte_len, run_len};
use odc_syntax::token::TokenKind;

/// A token at the front of a text, and how many bytes it takes.
#[derive(Clone, Copy)]
pub struct Lexeme {
    pub kind: TokenKind,
    pub len: usize,
}

/// The number that the text begins with.
pub fn number(text: &[u8]) -> Option<Lexeme>
    ensures some { IfSome result (LexemeFront text.now) }
    ensures none { IfNone result (NoNumber text.now) }
{
    match based_len(text) {
        Some(digits) => {
            let tail = unit_letter_len(&text[digits..]);
            Some(Lexeme {
                kind: kind(tail),
                len: digits + tail,
            })
        }
        None => decimal(text),
    }
}

/// The decimal number that the text begins with, where it begins with no number that has a prefix.
fn decimal(text: &[u8]) -> Option<Lexeme>
    requires { Absent IsBased text.now }
    ensures some { IfSome result (LexemeFront text.now) }
    ensures none { IfNone result (NoNumber text.now) }
{
    match digits_len(10, text) {
        Some(digits) => {
            let tail = tail_len(&text[digits..]);
            Some(Lexeme {
                kind: kind(tail),
                len: digits + tail,
            })
        }
        None => None,
    }
}

/// An integer, unless something follows its digits.
fn kind(tail: usize) -> TokenKind
    ensures { result ≡ kind_by_tail tail }
{
    if tail == 0 {
        TokenKind::Int
    } else {
        TokenKind::Float
    }
}

/// `0`, the letter of a base, and digits.
fn based_len(text: &[u8]) -> Option<usize>
    ensures { FindsFront IsBased (Heads (is_digit_or_underscore 16)) text.now result }
{
    if text.len() < 2 || text[0] != b'0' {
        return None;
    }
    match base_of(text[1]) {
        Some(base) => match based_digits_len(base, &text[2..]) {
            Some(digits) => Some(digits + 2),
            None => None,
        },
        None => None,
    }
}

/// The base that a letter behind a first 0 stands for.
fn base_of(letter: u8) -> Option<u8>
    ensures some { IfSome result (Prefix letter) }
    ensures none { IfNone result ((base : ℕ) → Prefix letter base → ⊥) }
{
    match letter {
        b'b' => Some(2),
        b'o' => Some(8),
        b'x' => Some(16),
        _ => None,
    }
}

/// Digits and `_`, with a digit among them.
fn based_digits_len(base: u8, text: &[u8]) -> Option<usize>
    requires { base ≤ 16 }
    ensures { FindsFront (Then (Run (IsByte is_underscore)) (Digits base)) (Heads (is_digit_or_underscore 16)) text.now result }
{
    let skipped = run_len(Unit::Byte(ByteClass::Underscore), text);
    match digits_len(base, &text[skipped..]) {
        Some(digits) => Some(skipped + digits),
        None => None,
    }
}

/// A point and digits.
fn fraction_len(text: &[u8]) -> Option<usize>
    ensures { FindsFront IsFraction AfterDigits text.now result }
{
    if !begins_with(b'.', text) {
        return None;
    }
    match digits_len(10, &text[1..]) {
        Some(digits) => Some(digits + 1),
        None => None,
    }
}

/// `e` or `E` and digits, with a sign before them or none.
fn exponent_len(text: &[u8]) -> Option<usize>
    ensures { FindsFront IsExponent AfterExponent text.now result }
{
    match byte_len(ByteClass::ExponentLetter, text) {
        Some(_) => match signed_digits_len(&text[1..]) {
            Some(digits) => Some(digits + 1),
            None => None,
        },
        None => None,
    }
}

fn signed_digits_len(text: &[u8]) -> Option<usize>
    ensures { FindsFront (Then (Optional (IsByte is_plus_or_minus)) (Digits 10)) AfterExponent text.now result }
{
    let sign = byte_len(ByteClass::PlusOrMinus, text).unwrap_or(0);
    match digits_len(10, &text[sign..]) {
        Some(digits) => Some(sign + digits),
        None => None,
    }
}

fn unit_letter_len(text: &[u8]) -> usize
    ensures { IsFront (Optional IsUnitLetter) AfterTail text.now result }
{
    byte_len(ByteClass::UnitLetter, text).unwrap_or(0)
}

/// What follows the digits of a decimal number.
fn tail_len(text: &[u8]) -> usize
    ensures { IsFront DecimalTail AfterTail text.now result }
{
    let fraction = fraction_len(text).unwrap_or(0);
    let rest = &text[fraction..];
    let exponent = exponent_len(rest).unwrap_or(0);
    fraction + (exponent + unit_letter_len(&rest[exponent..]))
}
