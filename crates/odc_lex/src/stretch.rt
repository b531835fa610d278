//! Stretches of text of one form: white space, names, digits, runes and strings. Each function says how
//! long the stretch at the front of the text is, if there is one.

ghost use Rattle.std.specs.Prelude.{ℕ, List, ◌∷◌, ◌≡◌, drop};
ghost use Rattle.std.specs.Bool.{OnTrue, OnFalse};
ghost use Rattle.odc_syntax.specs.lexical.Words.{Led, IsByte, Run};
ghost use Rattle.odc_syntax.specs.lexical.Longest.{Begins, FindsFront, Never};
ghost use Rattle.odc_syntax.specs.lexical.Names.{IsWord, IsDirective};
ghost use Rattle.odc_syntax.specs.lexical.Numbers.{Digits};
ghost use Rattle.odc_syntax.specs.lexical.Texts.{IsBetween, IsRune, IsQuoted, IsRaw};
ghost use Rattle.odc_syntax.specs.lexical.Pieces.{IsWhite};
ghost use Rattle.odc_lex.specs.Unit.{byte_test, character_test, IsUnit, NoneBegins};

use crate::unit::{ByteClass, CharacterClass, Quote, Unit, item_len, run_len, unit_len};

/// Whether the text begins with the byte.
#[inline(always)]
pub fn begins_with(byte: u8, text: &[u8]) -> bool
    ensures yes { OnTrue result (text.now ≡ byte ∷ drop 1 text.now) }
    ensures no { OnFalse result ((t : List ℕ) → text.now ≡ byte ∷ t → ⊥) }
{
    !text.is_empty() && text[0] == byte
}

/// A first unit and a run of others.
#[inline(always)]
fn led_len(first: Unit, then: Unit, text: &[u8]) -> Option<usize>
    ensures { FindsFront (Led (IsUnit first) (IsUnit then)) (Begins (IsUnit then)) text.now result }
{
    match unit_len(first, text) {
        Some(lead) => Some(lead + run_len(then, &text[lead..])),
        None => None,
    }
}

/// White space without a newline.
pub fn white_len(text: &[u8]) -> Option<usize>
    ensures { FindsFront IsWhite (Begins (IsByte (byte_test ByteClass.White))) text.now result }
{
    led_len(
        Unit::Byte(ByteClass::White),
        Unit::Byte(ByteClass::White),
        text,
    )
}

/// A name or a keyword.
pub fn word_len(text: &[u8]) -> Option<usize>
    ensures { FindsFront IsWord (Begins (IsUnit (Unit.Character CharacterClass.NameContinue))) text.now result }
{
    led_len(
        Unit::Character(CharacterClass::NameStart),
        Unit::Character(CharacterClass::NameContinue),
        text,
    )
}

/// A digit of the base, and then digits and `_`.
pub fn digits_len(base: u8, text: &[u8]) -> Option<usize>
    ensures { FindsFront (Digits base) (Begins (IsByte (byte_test (ByteClass.DigitOrUnderscore base)))) text.now result }
{
    led_len(
        Unit::Byte(ByteClass::Digit(base)),
        Unit::Byte(ByteClass::DigitOrUnderscore(base)),
        text,
    )
}

/// A run of units between two equal signs, of which no unit begins with one.
#[inline(always)]
fn between_len(sign: u8, unit: Unit, text: &[u8]) -> Option<usize>
    requires { NoneBegins sign unit }
    ensures { FindsFront (IsBetween sign (Run (IsUnit unit))) Never text.now result }
{
    if !begins_with(sign, text) {
        return None;
    }
    let inside = &text[1..];
    let len = run_len(unit, inside);
    if begins_with(sign, &inside[len..]) {
        Some(len + 2)
    } else {
        None
    }
}

/// A string in double quotes.
pub fn quoted_len(text: &[u8]) -> Option<usize>
    ensures { FindsFront IsQuoted Never text.now result }
{
    between_len(b'"', Unit::Item(Quote::Double), text)
}

/// A string in backquotes.
pub fn raw_len(text: &[u8]) -> Option<usize>
    ensures { FindsFront IsRaw Never text.now result }
{
    between_len(b'`', Unit::Character(CharacterClass::Raw), text)
}

/// A rune in single quotes.
pub fn rune_len(text: &[u8]) -> Option<usize>
    ensures { FindsFront IsRune Never text.now result }
{
    if !begins_with(b'\'', text) {
        return None;
    }
    let inside = &text[1..];
    match item_len(Quote::Single, inside) {
        Some(len) => if begins_with(b'\'', &inside[len..]) {
            Some(len + 2)
        } else {
            None
        },
        None => None,
    }
}

/// `#` and a name.
pub fn directive_len(text: &[u8]) -> Option<usize>
    ensures { FindsFront IsDirective (Begins (IsUnit (Unit.Character CharacterClass.NameContinue))) text.now result }
{
    if !begins_with(b'#', text) {
        return None;
    }
    match word_len(&text[1..]) {
        Some(len) => Some(len + 1),
        None => None,
    }
}
