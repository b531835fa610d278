//! Whether a string has a given value. It is told while the escapes are read, as far as the value is
//! the one asked for.

ghost use Rattle.std.specs.Prelude.{◌≡◌, true, bytes_eq};
ghost use Rattle.std.specs.List.{list_all};
ghost use Rattle.odc_syntax.specs.lexical.Texts.{hex_digits};
ghost use Rattle.odc_syntax.specs.lexical.Value.{short_escape, outside, unescaped, text_value};
ghost use Rattle.odc_lex.specs.Value.{is_ascii, HasRoom, Reads};

use crate::escape::hex_digits;
use crate::unit::digit_value;

/// The digits of an escape: its letter, how many are still to come behind the next, and the number
/// so far.
#[derive(Clone, Copy)]
struct Digits {
    letter: u8,
    left: u8,
    number: u64,
}

/// How far an escape is read.
#[derive(Clone, Copy)]
enum Reading {
    Outside,
    Backslash,
    Digits(Digits),
}

/// What an escape with this letter and number writes: `x` is a byte, the others a character in UTF-8.
#[derive(Clone, Copy)]
struct Coded {
    letter: u8,
    number: u64,
}

/// What a byte of a string writes, and how far an escape is read behind it.
#[derive(Clone, Copy)]
struct Step {
    writes: Option<Coded>,
    reading: Reading,
}

/// Whether the string has this value.
pub fn has_value(bytes: &[u8], value: &[u8]) -> bool
    requires { list_all is_ascii value.now ≡ true }
    ensures { result ≡ bytes_eq (text_value bytes.now) value.now }
{
    if bytes.len() < 2 {
        return value.is_empty();
    }
    let inside = &bytes[1..bytes.len() - 1];
    if bytes[0] == b'`' {
        inside == value
    } else {
        is_unescaped(inside, value)
    }
}

/// Whether the bytes inside double quotes stand for this value.
fn is_unescaped(inside: &[u8], value: &[u8]) -> bool
    requires { list_all is_ascii value.now ≡ true }
    ensures { result ≡ bytes_eq (unescaped outside inside.now) value.now }
{
    let mut reading = Reading::Outside;
    let mut at = 0;
    for b in inside {
        let step = read_byte(reading, *b);
        reading = step.reading;
        if let Some(coded) = step.writes {
            if at >= value.len() || coded.number != value[at] as u64 {
                return false;
            }
            at += 1;
        }
    }
    at == value.len()
}

fn read_byte(reading: Reading, b: u8) -> Step
    requires { HasRoom reading }
    ensures room { HasRoom result.reading }
    ensures reads { Reads reading b result }
{
    match reading {
        Reading::Outside => read_outside(b),
        Reading::Backslash => read_behind_backslash(b),
        Reading::Digits(digits) => read_digit(digits, b),
    }
}

fn read_outside(b: u8) -> Step
    ensures room { HasRoom result.reading }
    ensures reads { Reads Reading.Outside b result }
{
    if b == b'\\' {
        Step {
            writes: None,
            reading: Reading::Backslash,
        }
    } else {
        Step {
            writes: Some(Coded {
                letter: b'x',
                number: b as u64,
            }),
            reading: Reading::Outside,
        }
    }
}

fn read_behind_backslash(b: u8) -> Step
    ensures room { HasRoom result.reading }
    ensures reads { Reads Reading.Backslash b result }
{
    let digits = hex_digits(b);
    if digits == 0 {
        return Step {
            writes: Some(Coded {
                letter: b'x',
                number: short_escape(b) as u64,
            }),
            reading: Reading::Outside,
        };
    }
    Step {
        writes: None,
        reading: Reading::Digits(Digits {
            letter: b,
            left: digits as u8 - 1,
            number: 0,
        }),
    }
}

fn read_digit(digits: Digits, b: u8) -> Step
    requires { HasRoom (Reading.Digits digits) }
    ensures room { HasRoom result.reading }
    ensures reads { Reads (Reading.Digits digits) b result }
{
    let number = digits.number * 16 + digit_value(b) as u64;
    if digits.left == 0 {
        return Step {
            writes: Some(Coded {
                letter: digits.letter,
                number,
            }),
            reading: Reading::Outside,
        };
    }
    Step {
        writes: None,
        reading: Reading::Digits(Digits {
            letter: digits.letter,
            left: digits.left - 1,
            number,
        }),
    }
}

/// What the letter or sign behind a backslash stands for.
fn short_escape(b: u8) -> u8
    ensures { result ≡ short_escape b }
{
    if b == b'a' {
        7
    } else if b == b'b' {
        8
    } else if b == b'e' {
        27
    } else if b == b'f' {
        12
    } else if b == b'n' {
        10
    } else if b == b'r' {
        13
    } else if b == b't' {
        9
    } else if b == b'v' {
        11
    } else {
        b
    }
}
