//! Whether some bytes are a piece of a form, by the plainest test of each form.

use odc_syntax::token::TokenKind;
use unicode_ident::{is_xid_continue, is_xid_start};

/// What a piece counts as.
#[derive(Clone, Copy)]
pub enum Form {
    Blank,
    Newline,
    Token(TokenKind),
}

/// The words and signs, in any order.
const SPELLINGS: [(&str, TokenKind); 93] = [
    ("package", TokenKind::Package),
    ("import", TokenKind::Import),
    ("proc", TokenKind::Proc),
    ("struct", TokenKind::Struct),
    ("union", TokenKind::Union),
    ("enum", TokenKind::Enum),
    ("distinct", TokenKind::Distinct),
    ("dynamic", TokenKind::Dynamic),
    ("if", TokenKind::If),
    ("else", TokenKind::Else),
    ("for", TokenKind::For),
    ("in", TokenKind::In),
    ("switch", TokenKind::Switch),
    ("case", TokenKind::Case),
    ("return", TokenKind::Return),
    ("break", TokenKind::Break),
    ("continue", TokenKind::Continue),
    ("fallthrough", TokenKind::Fallthrough),
    ("defer", TokenKind::Defer),
    ("do", TokenKind::Do),
    ("cast", TokenKind::Cast),
    ("or_return", TokenKind::OrReturn),
    ("context", TokenKind::Context),
    ("typeid", TokenKind::Typeid),
    ("matrix", TokenKind::Matrix),
    ("map", TokenKind::Map),
    ("transmute", TokenKind::Transmute),
    ("auto_cast", TokenKind::AutoCast),
    ("bit_set", TokenKind::BitSet),
    ("bit_field", TokenKind::BitField),
    ("using", TokenKind::Using),
    ("where", TokenKind::Where),
    ("foreign", TokenKind::Foreign),
    ("asm", TokenKind::Asm),
    ("when", TokenKind::When),
    ("or_else", TokenKind::OrElse),
    ("or_break", TokenKind::OrBreak),
    ("or_continue", TokenKind::OrContinue),
    ("not_in", TokenKind::NotIn),
    ("..=", TokenKind::DotDotEqual),
    ("..<", TokenKind::DotDotLess),
    ("..", TokenKind::DotDot),
    (".", TokenKind::Dot),
    ("(", TokenKind::OpenParen),
    (")", TokenKind::CloseParen),
    (",", TokenKind::Comma),
    (":", TokenKind::Colon),
    ("==", TokenKind::EqualEqual),
    ("=", TokenKind::Assign),
    ("{", TokenKind::OpenBrace),
    ("}", TokenKind::CloseBrace),
    ("[", TokenKind::OpenBracket),
    ("]", TokenKind::CloseBracket),
    (";", TokenKind::Semicolon),
    ("^", TokenKind::Caret),
    ("?", TokenKind::Question),
    ("$", TokenKind::Dollar),
    ("@", TokenKind::At),
    ("!=", TokenKind::NotEqual),
    ("!", TokenKind::Bang),
    ("~=", TokenKind::XorAssign),
    ("~", TokenKind::Tilde),
    ("&~=", TokenKind::AndNotAssign),
    ("&~", TokenKind::AndNot),
    ("&&", TokenKind::AndAnd),
    ("&=", TokenKind::AndAssign),
    ("&", TokenKind::Ampersand),
    ("||", TokenKind::OrOr),
    ("|=", TokenKind::OrAssign),
    ("|", TokenKind::Bar),
    ("+=", TokenKind::PlusAssign),
    ("+", TokenKind::Plus),
    ("---", TokenKind::Dashes),
    ("->", TokenKind::Arrow),
    ("-=", TokenKind::MinusAssign),
    ("-", TokenKind::Minus),
    ("*=", TokenKind::StarAssign),
    ("*", TokenKind::Star),
    ("/=", TokenKind::SlashAssign),
    ("/", TokenKind::Slash),
    ("%%=", TokenKind::PercentPercentAssign),
    ("%%", TokenKind::PercentPercent),
    ("%=", TokenKind::PercentAssign),
    ("%", TokenKind::Percent),
    ("<<=", TokenKind::ShiftLeftAssign),
    ("<<", TokenKind::ShiftLeft),
    ("<=", TokenKind::LessEqual),
    ("<", TokenKind::Less),
    (">>=", TokenKind::ShiftRightAssign),
    (">>", TokenKind::ShiftRight),
    (">=", TokenKind::GreaterEqual),
    (">", TokenKind::Greater),
    ("#+", TokenKind::HashPlus),
];

/// A number for each kind, for comparing.
pub fn number_of(kind: TokenKind) -> u32 {
    match kind {
        TokenKind::Name => 0,
        TokenKind::Int => 1,
        TokenKind::Float => 2,
        TokenKind::Rune => 3,
        TokenKind::Text => 4,
        TokenKind::Directive => 5,
        TokenKind::Package => 6,
        TokenKind::Import => 7,
        TokenKind::Proc => 8,
        TokenKind::Struct => 9,
        TokenKind::Union => 10,
        TokenKind::Enum => 11,
        TokenKind::Distinct => 12,
        TokenKind::Dynamic => 13,
        TokenKind::If => 14,
        TokenKind::Else => 15,
        TokenKind::For => 16,
        TokenKind::In => 17,
        TokenKind::Switch => 18,
        TokenKind::Case => 19,
        TokenKind::Return => 20,
        TokenKind::Break => 21,
        TokenKind::Continue => 22,
        TokenKind::Fallthrough => 23,
        TokenKind::Defer => 24,
        TokenKind::Do => 25,
        TokenKind::Cast => 26,
        TokenKind::OrReturn => 27,
        TokenKind::Context => 28,
        TokenKind::Typeid => 29,
        TokenKind::Matrix => 30,
        TokenKind::Map => 31,
        TokenKind::Transmute => 32,
        TokenKind::AutoCast => 33,
        TokenKind::BitSet => 34,
        TokenKind::BitField => 35,
        TokenKind::Using => 36,
        TokenKind::Where => 37,
        TokenKind::Foreign => 38,
        TokenKind::Asm => 39,
        TokenKind::When => 40,
        TokenKind::OrElse => 41,
        TokenKind::OrBreak => 42,
        TokenKind::OrContinue => 43,
        TokenKind::NotIn => 44,
        TokenKind::OpenParen => 45,
        TokenKind::CloseParen => 46,
        TokenKind::OpenBracket => 47,
        TokenKind::CloseBracket => 48,
        TokenKind::OpenBrace => 49,
        TokenKind::CloseBrace => 50,
        TokenKind::Comma => 51,
        TokenKind::Semicolon => 52,
        TokenKind::Colon => 53,
        TokenKind::Dot => 54,
        TokenKind::Caret => 55,
        TokenKind::Question => 56,
        TokenKind::Dollar => 57,
        TokenKind::At => 58,
        TokenKind::Bang => 59,
        TokenKind::Tilde => 60,
        TokenKind::Ampersand => 61,
        TokenKind::Bar => 62,
        TokenKind::Plus => 63,
        TokenKind::Minus => 64,
        TokenKind::Star => 65,
        TokenKind::Slash => 66,
        TokenKind::Percent => 67,
        TokenKind::PercentPercent => 68,
        TokenKind::AndNot => 69,
        TokenKind::ShiftLeft => 70,
        TokenKind::ShiftRight => 71,
        TokenKind::AndAnd => 72,
        TokenKind::OrOr => 73,
        TokenKind::EqualEqual => 74,
        TokenKind::NotEqual => 75,
        TokenKind::Less => 76,
        TokenKind::Greater => 77,
        TokenKind::LessEqual => 78,
        TokenKind::GreaterEqual => 79,
        TokenKind::Assign => 80,
        TokenKind::PlusAssign => 81,
        TokenKind::MinusAssign => 82,
        TokenKind::StarAssign => 83,
        TokenKind::SlashAssign => 84,
        TokenKind::PercentAssign => 85,
        TokenKind::PercentPercentAssign => 86,
        TokenKind::AndAssign => 87,
        TokenKind::OrAssign => 88,
        TokenKind::XorAssign => 89,
        TokenKind::AndNotAssign => 90,
        TokenKind::ShiftLeftAssign => 91,
        TokenKind::ShiftRightAssign => 92,
        TokenKind::Arrow => 93,
        TokenKind::Dashes => 94,
        TokenKind::DotDot => 95,
        TokenKind::DotDotEqual => 96,
        TokenKind::DotDotLess => 97,
        TokenKind::HashPlus => 98,
    }
}

/// The form of the bytes w before rest, if they are a piece there.
pub fn form_of(behind_number: bool, w: &[u8], rest: &[u8]) -> Option<Form> {
    if !w.is_empty() && w.iter().all(|b| is_white(*b)) {
        return Some(Form::Blank);
    }
    let text = str::from_utf8(w).ok()?;
    if text == "\n" {
        return Some(Form::Newline);
    }
    if is_line_comment(text, rest) {
        return Some(Form::Blank);
    }
    if is_block_comment(text) {
        return Some(if text.contains('\n') {
            Form::Newline
        } else {
            Form::Blank
        });
    }
    token(behind_number, text, rest).map(|kind| Form::Token(kind))
}

fn token(behind_number: bool, text: &str, rest: &[u8]) -> Option<TokenKind> {
    let spelled = spelled(text);
    if is_word(text) {
        return if behind_number {
            None
        } else {
            Some(spelled.unwrap_or(TokenKind::Name))
        };
    }
    if spelled.is_some() {
        let comment = text == "/" && (rest.starts_with(b"/") || rest.starts_with(b"*"));
        return if comment { None } else { spelled };
    }
    if is_int(text.as_bytes()) {
        Some(TokenKind::Int)
    } else if is_float(text.as_bytes()) {
        Some(TokenKind::Float)
    } else if is_rune(text.as_bytes()) {
        Some(TokenKind::Rune)
    } else if is_string(text.as_bytes()) {
        Some(TokenKind::Text)
    } else if is_directive(text) {
        Some(TokenKind::Directive)
    } else {
        None
    }
}

fn spelled(text: &str) -> Option<TokenKind> {
    for (spelling, kind) in SPELLINGS {
        if spelling == text {
            return Some(kind);
        }
    }
    None
}

fn is_white(b: u8) -> bool {
    matches!(b, b' ' | b'\t' | b'\r')
}

fn is_line_comment(text: &str, rest: &[u8]) -> bool {
    text.starts_with("//") && !text.contains('\n') && (rest.is_empty() || rest.starts_with(b"\n"))
}

/// Each mark opens or closes a comment, and the last one closes the first.
fn is_block_comment(text: &str) -> bool {
    if !text.starts_with("/*") {
        return false;
    }
    let bytes = text.as_bytes();
    let mut depth = 0u64;
    let mut skip = false;
    for i in 0..bytes.len() {
        if skip {
            skip = false;
            continue;
        }
        let rest = &bytes[i..];
        if rest.starts_with(b"/*") {
            depth = depth.saturating_add(1);
            skip = true;
        } else if rest.starts_with(b"*/") {
            depth = depth.saturating_sub(1);
            skip = true;
            if depth == 0 {
                return rest.len() == 2;
            }
        }
    }
    false
}

fn is_word(text: &str) -> bool {
    match text.chars().next() {
        Some(c) => (c == '_' || is_xid_start(c))
            && text.chars().all(|c| c == '_' || is_xid_continue(c)),
        None => false,
    }
}

fn is_directive(text: &str) -> bool {
    match text.strip_prefix("#") {
        Some(name) => is_word(name),
        None => false,
    }
}

fn is_digit(base: u8, b: u8) -> bool {
    match b {
        b'0'..=b'9' => b - b'0' < base,
        b'a'..=b'f' => b - b'a' + 10 < base,
        b'A'..=b'F' => b - b'A' + 10 < base,
        _ => false,
    }
}

fn are_digits(base: u8, w: &[u8]) -> bool {
    match w.first() {
        Some(b) => is_digit(base, *b) && w.iter().all(|b| *b == b'_' || is_digit(base, *b)),
        None => false,
    }
}

fn is_based(base: u8, digits: &[u8]) -> bool {
    digits.iter().all(|b| *b == b'_' || is_digit(base, *b))
        && digits.iter().any(|b| is_digit(base, *b))
}

fn is_int(w: &[u8]) -> bool {
    match w {
        [b'0', b'b', digits @ ..] => is_based(2, digits),
        [b'0', b'o', digits @ ..] => is_based(8, digits),
        [b'0', b'x', digits @ ..] => is_based(16, digits),
        _ => are_digits(10, w),
    }
}

fn is_float(w: &[u8]) -> bool {
    match w {
        [number @ .., b'i' | b'j' | b'k'] => is_int(number) || is_real(number),
        _ => is_real(w),
    }
}

/// A fraction, an exponent or both.
fn is_real(w: &[u8]) -> bool {
    if is_fraction(w) {
        return true;
    }
    for i in 0..w.len() {
        let (mantissa, exponent) = w.split_at(i);
        let digits = match exponent {
            [b'e' | b'E', b'+' | b'-', digits @ ..] => digits,
            [b'e' | b'E', digits @ ..] => digits,
            _ => continue,
        };
        if are_digits(10, digits) && (are_digits(10, mantissa) || is_fraction(mantissa)) {
            return true;
        }
    }
    false
}

fn is_fraction(w: &[u8]) -> bool {
    for i in 0..w.len() {
        let (whole, part) = w.split_at(i);
        if let [b'.', digits @ ..] = part {
            if are_digits(10, whole) && are_digits(10, digits) {
                return true;
            }
        }
    }
    false
}

fn is_rune(w: &[u8]) -> bool {
    match w {
        [b'\'', inside @ .., b'\''] => is_item(b'\'', inside),
        _ => false,
    }
}

fn is_string(w: &[u8]) -> bool {
    match w {
        [b'"', inside @ .., b'"'] => are_items(inside),
        [b'`', inside @ .., b'`'] => !inside.contains(&b'`'),
        _ => false,
    }
}

/// Items one after another: each that begins somewhere ends where the next begins.
fn are_items(w: &[u8]) -> bool {
    let mut left = w;
    for _ in 0..w.len() {
        if left.is_empty() {
            return true;
        }
        match first_item(left) {
            Some(rest) => left = rest,
            None => return false,
        }
    }
    left.is_empty()
}

/// What follows the item at the front.
fn first_item(w: &[u8]) -> Option<&[u8]> {
    for n in 1..11usize {
        if n <= w.len() {
            let (item, rest) = w.split_at(n);
            if is_item(b'"', item) {
                return Some(rest);
            }
        }
    }
    None
}

fn is_item(quote: u8, w: &[u8]) -> bool {
    is_escape(w) || is_plain(quote, w)
}

fn is_plain(quote: u8, w: &[u8]) -> bool {
    match str::from_utf8(w) {
        Ok(text) => text.chars().count() == 1
            && !matches!(w, [b'\\'] | [b'\n'])
            && w != [quote].as_slice(),
        Err(_) => false,
    }
}

fn is_escape(w: &[u8]) -> bool {
    match w {
        [
            b'\\',
            b'a' | b'b' | b'e' | b'f' | b'n' | b'r' | b't' | b'v' | b'\\' | b'\'' | b'"',
        ] => true,
        [b'\\', b'x', digits @ ..] => digits.len() == 2 && is_scalar(digits),
        [b'\\', b'u', digits @ ..] => digits.len() == 4 && is_scalar(digits),
        [b'\\', b'U', digits @ ..] => digits.len() == 8 && is_scalar(digits),
        _ => false,
    }
}

/// The digits are hexadecimal, and their number a character's code.
fn is_scalar(digits: &[u8]) -> bool {
    match code_of(digits) {
        Some(code) => code < 0xD800 || (0xE000 <= code && code < 0x11_0000),
        None => false,
    }
}

/// The number that hexadecimal digits write.
pub fn code_of(digits: &[u8]) -> Option<u64> {
    let mut code = 0u64;
    for b in digits {
        let value = match *b {
            b'0'..=b'9' => *b - b'0',
            b'a'..=b'f' => *b - b'a' + 10,
            b'A'..=b'F' => *b - b'A' + 10,
            _ => return None,
        };
        code = code.saturating_mul(16).saturating_add(value as u64);
    }
    Some(code)
}
