//! Escapes in runes and strings.

ghost use Rattle.std.specs.Prelude.{◌≡◌, ◌≤◌, true, length, take, IfSome, IfNone};
ghost use Rattle.std.specs.List.{list_all};
ghost use Rattle.odc_syntax.specs.lexical.Longest.{FindsUnit};
ghost use Rattle.odc_syntax.specs.lexical.Texts.{IsEscape, is_short_escape, hex_digits, hex_value, is_hex_digit};
ghost use Rattle.odc_lex.specs.Escape.{WritesHex};

use crate::unit::digit_value;

/// How long the escape at the front of the text is.
pub fn escape_len(text: &[u8]) -> Option<usize>
    ensures { FindsUnit IsEscape text.now result }
{
    if text.len() < 2 || text[0] != b'\\' {
        return None;
    }
    let letter = text[1];
    if is_short_escape(letter) {
        return Some(2);
    }
    let digits = hex_digits(letter);
    if digits == 0 {
        return None;
    }
    let code = hex_code(&text[2..], digits)?;
    match char::from_u32(code) {
        Some(_) => Some(2 + digits),
        None => None,
    }
}

/// Whether the letter or sign stands behind a backslash alone.
fn is_short_escape(b: u8) -> bool
    ensures { result ≡ is_short_escape b }
{
    b == b'a'
        || b == b'b'
        || b == b'e'
        || b == b'f'
        || b == b'n'
        || b == b'r'
        || b == b't'
        || b == b'v'
        || b == b'\\'
        || b == b'\''
        || b == b'"'
}

/// How many hexadecimal digits follow the letter behind a backslash.
pub fn hex_digits(letter: u8) -> usize
    ensures { result ≡ hex_digits letter }
{
    match letter {
        b'x' => 2,
        b'u' => 4,
        b'U' => 8,
        _ => 0,
    }
}

/// The number that so many hexadecimal digits at the front of the text write.
fn hex_code(text: &[u8], digits: usize) -> Option<u32>
    requires { digits ≤ 8 }
    ensures some { IfSome result (WritesHex text.now digits) }
    ensures none { IfNone result (digits ≤ length text.now → list_all is_hex_digit (take digits text.now) ≡ true → ⊥) }
{
    if text.len() < digits {
        return None;
    }
    let mut code = 0u32;
    for d in &text[..digits] {
        let value = digit_value(*d);
        if value >= 16 {
            return None;
        }
        code = code * 16 + value as u32;
    }
    Some(code)
}
