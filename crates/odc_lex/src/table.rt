//! The texts that are always the same token: keywords and signs.

ghost use Rattle.std.specs.Prelude.{◌≡◌, ℕ, List, ◌∷◌, IfSome, IfNone};
ghost use Rattle.odc_syntax.specs.lexical.Names.{word_kind, kind_among, keywords};
ghost use Rattle.odc_syntax.specs.lexical.Signs.{signs};
ghost use Rattle.odc_lex.specs.Table.{rows_of, first_front, SignFront, NoSign, FindsRow};

use crate::number::Lexeme;
use odc_syntax::token::TokenKind;

// The keywords by their first letter.
const A: [(&[u8], TokenKind); 2] = [
    (b"auto_cast", TokenKind::AutoCast),
    (b"asm", TokenKind::Asm),
];

const B: [(&[u8], TokenKind); 3] = [
    (b"break", TokenKind::Break),
    (b"bit_set", TokenKind::BitSet),
    (b"bit_field", TokenKind::BitField),
];

const C: [(&[u8], TokenKind); 4] = [
    (b"case", TokenKind::Case),
    (b"continue", TokenKind::Continue),
    (b"cast", TokenKind::Cast),
    (b"context", TokenKind::Context),
];

const D: [(&[u8], TokenKind); 4] = [
    (b"distinct", TokenKind::Distinct),
    (b"dynamic", TokenKind::Dynamic),
    (b"defer", TokenKind::Defer),
    (b"do", TokenKind::Do),
];

const E: [(&[u8], TokenKind); 2] = [(b"enum", TokenKind::Enum), (b"else", TokenKind::Else)];

const F: [(&[u8], TokenKind); 3] = [
    (b"for", TokenKind::For),
    (b"fallthrough", TokenKind::Fallthrough),
    (b"foreign", TokenKind::Foreign),
];

const I: [(&[u8], TokenKind); 3] = [
    (b"import", TokenKind::Import),
    (b"if", TokenKind::If),
    (b"in", TokenKind::In),
];

const M: [(&[u8], TokenKind); 2] = [(b"matrix", TokenKind::Matrix), (b"map", TokenKind::Map)];

const N: [(&[u8], TokenKind); 1] = [(b"not_in", TokenKind::NotIn)];

const O: [(&[u8], TokenKind); 4] = [
    (b"or_return", TokenKind::OrReturn),
    (b"or_else", TokenKind::OrElse),
    (b"or_break", TokenKind::OrBreak),
    (b"or_continue", TokenKind::OrContinue),
];

const P: [(&[u8], TokenKind); 2] = [(b"package", TokenKind::Package), (b"proc", TokenKind::Proc)];

const R: [(&[u8], TokenKind); 1] = [(b"return", TokenKind::Return)];

const S: [(&[u8], TokenKind); 2] = [
    (b"struct", TokenKind::Struct),
    (b"switch", TokenKind::Switch),
];

const T: [(&[u8], TokenKind); 2] = [
    (b"typeid", TokenKind::Typeid),
    (b"transmute", TokenKind::Transmute),
];

const U: [(&[u8], TokenKind); 2] = [(b"union", TokenKind::Union), (b"using", TokenKind::Using)];

const W: [(&[u8], TokenKind); 2] = [(b"where", TokenKind::Where), (b"when", TokenKind::When)];

/// The signs, and `#+`. Of those that begin alike, the longer stand first.
pub const SIGNS: [(&[u8], TokenKind); 54] = [
    (b"..=", TokenKind::DotDotEqual),
    (b"..<", TokenKind::DotDotLess),
    (b"..", TokenKind::DotDot),
    (b".", TokenKind::Dot),
    (b"(", TokenKind::OpenParen),
    (b")", TokenKind::CloseParen),
    (b",", TokenKind::Comma),
    (b":", TokenKind::Colon),
    (b"==", TokenKind::EqualEqual),
    (b"=", TokenKind::Assign),
    (b"{", TokenKind::OpenBrace),
    (b"}", TokenKind::CloseBrace),
    (b"[", TokenKind::OpenBracket),
    (b"]", TokenKind::CloseBracket),
    (b";", TokenKind::Semicolon),
    (b"^", TokenKind::Caret),
    (b"?", TokenKind::Question),
    (b"$", TokenKind::Dollar),
    (b"@", TokenKind::At),
    (b"!=", TokenKind::NotEqual),
    (b"!", TokenKind::Bang),
    (b"~=", TokenKind::XorAssign),
    (b"~", TokenKind::Tilde),
    (b"&~=", TokenKind::AndNotAssign),
    (b"&~", TokenKind::AndNot),
    (b"&&", TokenKind::AndAnd),
    (b"&=", TokenKind::AndAssign),
    (b"&", TokenKind::Ampersand),
    (b"||", TokenKind::OrOr),
    (b"|=", TokenKind::OrAssign),
    (b"|", TokenKind::Bar),
    (b"+=", TokenKind::PlusAssign),
    (b"+", TokenKind::Plus),
    (b"---", TokenKind::Dashes),
    (b"->", TokenKind::Arrow),
    (b"-=", TokenKind::MinusAssign),
    (b"-", TokenKind::Minus),
    (b"*=", TokenKind::StarAssign),
    (b"*", TokenKind::Star),
    (b"/=", TokenKind::SlashAssign),
    (b"/", TokenKind::Slash),
    (b"%%=", TokenKind::PercentPercentAssign),
    (b"%%", TokenKind::PercentPercent),
    (b"%=", TokenKind::PercentAssign),
    (b"%", TokenKind::Percent),
    (b"<<=", TokenKind::ShiftLeftAssign),
    (b"<<", TokenKind::ShiftLeft),
    (b"<=", TokenKind::LessEqual),
    (b"<", TokenKind::Less),
    (b">>=", TokenKind::ShiftRightAssign),
    (b">>", TokenKind::ShiftRight),
    (b">=", TokenKind::GreaterEqual),
    (b">", TokenKind::Greater),
    (b"#+", TokenKind::HashPlus),
];

/// The kind of a name or keyword.
pub fn word_kind(word: &[u8]) -> TokenKind
    ensures { result ≡ word_kind word.now }
{
    if word.is_empty() {
        return TokenKind::Name;
    }
    kind_among(keywords_with(word[0]), word)
}

/// The keywords with this first letter.
fn keywords_with(first: u8) -> &'static [(&'static [u8], TokenKind)]
    ensures { (w : List ℕ) → kind_among (rows_of result.now) (first ∷ w) ≡ kind_among keywords (first ∷ w) }
{
    if first == b'a' {
        &A
    } else if first == b'b' {
        &B
    } else if first == b'c' {
        &C
    } else if first == b'd' {
        &D
    } else if first == b'e' {
        &E
    } else if first == b'f' {
        &F
    } else if first == b'i' {
        &I
    } else if first == b'm' {
        &M
    } else if first == b'n' {
        &N
    } else if first == b'o' {
        &O
    } else if first == b'p' {
        &P
    } else if first == b'r' {
        &R
    } else if first == b's' {
        &S
    } else if first == b't' {
        &T
    } else if first == b'u' {
        &U
    } else if first == b'w' {
        &W
    } else {
        &[]
    }
}

/// The kind of the row with this text, or a name's.
fn kind_among(rows: &[(&[u8], TokenKind)], word: &[u8]) -> TokenKind
    ensures { result ≡ kind_among (rows_of rows.now) word.now }
{
    for (spelling, kind) in rows {
        if *spelling == word {
            return *kind;
        }
    }
    TokenKind::Name
}

/// The sign at the front of the text.
pub fn sign(text: &[u8]) -> Option<Lexeme>
    ensures some { IfSome result (SignFront text.now) }
    ensures none { IfNone result (NoSign text.now) }
{
    first_sign(text)
}

/// The first row of the signs that begins the text. Signs that begin as no other does are told at once.
fn first_sign(text: &[u8]) -> Option<Lexeme>
    ensures { FindsRow (first_front signs text.now) result }
{
    if text.is_empty() {
        return None;
    }
    match text[0] {
        b'(' => single(TokenKind::OpenParen),
        b')' => single(TokenKind::CloseParen),
        b',' => single(TokenKind::Comma),
        b':' => single(TokenKind::Colon),
        b'{' => single(TokenKind::OpenBrace),
        b'}' => single(TokenKind::CloseBrace),
        b'[' => single(TokenKind::OpenBracket),
        b']' => single(TokenKind::CloseBracket),
        b';' => single(TokenKind::Semicolon),
        b'^' => single(TokenKind::Caret),
        b'?' => single(TokenKind::Question),
        b'$' => single(TokenKind::Dollar),
        b'@' => single(TokenKind::At),
        _ => first_front(&SIGNS, text),
    }
}

/// A sign of one byte.
fn single(kind: TokenKind) -> Option<Lexeme>
    ensures { result ≡ Some (record { kind = kind; len = 1 }) }
{
    Some(Lexeme { kind, len: 1 })
}

/// The first row whose text begins the text.
fn first_front(rows: &[(&[u8], TokenKind)], text: &[u8]) -> Option<Lexeme>
    ensures { FindsRow (first_front (rows_of rows.now) text.now) result }
{
    for (spelling, kind) in rows {
        if text.starts_with(*spelling) {
            return Some(Lexeme {
                kind: *kind,
                len: spelling.len(),
            });
        }
    }
    None
}
