//! Units that stretches of text are made of: bytes and characters of a class, and the items of
//! strings. Each function here looks at the front of the text that it is given.

ghost use Rattle.std.specs.Prelude.{◌≡◌, ◌≤◌, ◌<◌, ◌+◌, ◌*◌, ◌^◌, length, take, drop, IfSome, IfNone};
ghost use Rattle.std.specs.Char.{digit_value};
ghost use Rattle.odc_syntax.specs.lexical.Words.{IsByte, IsCharacter};
ghost use Rattle.odc_syntax.specs.lexical.Longest.{Absent, FindsUnit, IsWholeRun};
ghost use Rattle.odc_syntax.specs.lexical.Texts.{IsItem};
ghost use Rattle.odc_syntax.specs.lexical.Comments.{is_any};
ghost use Rattle.odc_lex.specs.Character.{IsFirstCharacter};
ghost use Rattle.odc_lex.specs.Unit.{byte_test, character_test, item_test, IsUnit};

use crate::character::first_character;
use crate::escape::escape_len;
use unicode_ident::{is_xid_continue, is_xid_start};

/// A class of bytes.
#[derive(Clone, Copy)]
pub enum ByteClass {
    /// Space, tab and carriage return.
    White,
    /// Digits of this base.
    Digit(u8),
    /// Digits of this base, and `_`.
    DigitOrUnderscore(u8),
    /// `_`
    Underscore,
    /// `+` and `-`
    PlusOrMinus,
    /// `e` and `E`
    ExponentLetter,
    /// `i`, `j` and `k`
    UnitLetter,
}

/// A class of characters.
#[derive(Clone, Copy)]
pub enum CharacterClass {
    /// What a name begins with.
    NameStart,
    /// What a name goes on with.
    NameContinue,
    /// All but a newline.
    LineComment,
    /// All but a backquote.
    Raw,
}

/// The quotes in which escapes are read.
#[derive(Clone, Copy)]
pub enum Quote {
    Single,
    Double,
}

/// What a stretch of text is made of.
#[derive(Clone, Copy)]
pub enum Unit {
    Byte(ByteClass),
    Character(CharacterClass),
    /// A character between quotes that stands for itself, or an escape.
    Item(Quote),
}

/// The value of a digit or letter, and 36 for any other byte.
#[inline]
pub fn digit_value(b: u8) -> u8
    ensures { result ≡ digit_value b }
{
    match b {
        b'0'..=b'9' => b - b'0',
        b'A'..=b'Z' => b - b'A' + 10,
        b'a'..=b'z' => b - b'a' + 10,
        _ => 36,
    }
}

#[inline(always)]
fn is_byte_of(class: ByteClass, b: u8) -> bool
    ensures { result ≡ byte_test class b }
{
    match class {
        ByteClass::White => b == b' ' || b == b'\t' || b == b'\r',
        ByteClass::Digit(base) => digit_value(b) < base,
        ByteClass::DigitOrUnderscore(base) => digit_value(b) < base || b == b'_',
        ByteClass::Underscore => b == b'_',
        ByteClass::PlusOrMinus => b == b'+' || b == b'-',
        ByteClass::ExponentLetter => b == b'e' || b == b'E',
        ByteClass::UnitLetter => b == b'i' || b == b'j' || b == b'k',
    }
}

#[inline(always)]
fn is_character_of(class: CharacterClass, c: char) -> bool
    ensures { result ≡ character_test class c }
{
    match class {
        CharacterClass::NameStart => is_xid_start(c) || c == '_',
        CharacterClass::NameContinue => is_xid_continue(c) || c == '_',
        CharacterClass::LineComment => c != '\n',
        CharacterClass::Raw => c != '`',
    }
}

#[inline(always)]
fn is_item_of(quote: Quote, c: char) -> bool
    ensures { result ≡ item_test quote c }
{
    match quote {
        Quote::Single => !(c == '\'' || c == '\\' || c == '\n'),
        Quote::Double => !(c == '"' || c == '\\' || c == '\n'),
    }
}

/// A byte of the class.
#[inline(always)]
pub fn byte_len(class: ByteClass, text: &[u8]) -> Option<usize>
    ensures { FindsUnit (IsByte (byte_test class)) text.now result }
{
    if text.is_empty() {
        return None;
    }
    if is_byte_of(class, text[0]) {
        Some(1)
    } else {
        None
    }
}

/// A character of the class.
#[inline(always)]
pub fn character_len(class: CharacterClass, text: &[u8]) -> Option<usize>
    ensures { FindsUnit (IsCharacter (character_test class)) text.now result }
{
    let first = first_character(text)?;
    if is_character_of(class, first.code) {
        Some(first.len)
    } else {
        None
    }
}

/// A character that stands for itself between the quotes.
#[inline(always)]
fn plain_len(quote: Quote, text: &[u8]) -> Option<usize>
    ensures { FindsUnit (IsCharacter (item_test quote)) text.now result }
{
    let first = first_character(text)?;
    if is_item_of(quote, first.code) {
        Some(first.len)
    } else {
        None
    }
}

/// A character that stands for itself between the quotes, or an escape.
#[inline(always)]
pub fn item_len(quote: Quote, text: &[u8]) -> Option<usize>
    ensures { FindsUnit (IsItem (item_test quote)) text.now result }
{
    match escape_len(text) {
        Some(len) => Some(len),
        None => plain_len(quote, text),
    }
}

#[inline(always)]
pub fn unit_len(unit: Unit, text: &[u8]) -> Option<usize>
    ensures { FindsUnit (IsUnit unit) text.now result }
{
    match unit {
        Unit::Byte(class) => byte_len(class, text),
        Unit::Character(class) => character_len(class, text),
        Unit::Item(quote) => item_len(quote, text),
    }
}

/// How long the run of such units at the front of the text is: none follows.
#[inline(always)]
pub fn run_len(unit: Unit, text: &[u8]) -> usize
    ensures { IsWholeRun (IsUnit unit) text.now result }
{
    let mut at = 0;
    while let Some(len) = unit_len(unit, &text[at..]) {
        at += len;
    }
    at
}
