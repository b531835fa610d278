//! The piece at the front of a text.

ghost use Rattle.std.specs.Prelude.{◌≡◌, ◌<◌, Bool, false, length, slice_index};
ghost use Rattle.odc_syntax.specs.lexical.Classes.{class_at, class_of, white_class, newline_class, line_comment_class, block_comment_class, word_class, number_class, rune_class, quoted_class, raw_class, directive_class, sign_class};
ghost use Rattle.odc_lex.specs.Piece.{class_told, comment_form, FindsPiece};

use crate::comment::{block_comment_len, line_comment_len};
use crate::number::number;
use crate::stretch::{directive_len, quoted_len, raw_len, rune_len, white_len, word_len};
use crate::table::{sign, word_kind};
use odc_syntax::token::TokenKind;

/// What a piece counts as.
#[derive(Clone, Copy)]
pub enum Form {
    /// White space.
    Blank,
    /// A newline.
    Newline,
    /// A token.
    Token(TokenKind),
}

/// A piece at the front of a text, and how many bytes it takes.
#[derive(Clone, Copy)]
pub struct Found {
    pub form: Form,
    pub len: usize,
}

/// The forms of pieces, as the first two bytes tell them apart.
#[derive(Clone, Copy)]
pub enum Shape {
    White,
    Newline,
    LineComment,
    BlockComment,
    Word,
    Number,
    Rune,
    Quoted,
    Raw,
    Directive,
    Sign,
}

/// The longest piece at the front of the text, which stands directly behind a number or not.
pub fn piece(behind_number: bool, text: &[u8]) -> Option<Found>
    requires { 0 < length text.now }
    ensures { FindsPiece behind_number text.now result }
{
    match shape_of(text) {
        Shape::White => white(text),
        Shape::Newline => newline(text),
        Shape::LineComment => line_comment(text),
        Shape::BlockComment => block_comment(text),
        Shape::Word => word(behind_number, text),
        Shape::Number => number_token(text),
        Shape::Rune => rune(text),
        Shape::Quoted => quoted(text),
        Shape::Raw => raw(text),
        Shape::Directive => directive(text),
        Shape::Sign => sign_token(text),
    }
}

#[inline(always)]
fn shape_of(text: &[u8]) -> Shape
    requires { 0 < length text.now }
    ensures { class_told result ≡ class_of text.now }
{
    shape_at(text[0], byte_or_zero(text, 1))
}

#[inline(always)]
fn byte_or_zero(text: &[u8], at: usize) -> u8
    ensures { result ≡ slice_index text.now at }
{
    if at < text.len() { text[at] } else { 0 }
}

/// By the first byte and the one behind it, or 0.
#[inline(always)]
fn shape_at(first: u8, second: u8) -> Shape
    ensures { class_told result ≡ class_at first second }
{
    match first {
        b' ' | b'\t' | b'\r' => Shape::White,
        b'\n' => Shape::Newline,
        b'/' => match second {
            b'/' => Shape::LineComment,
            b'*' => Shape::BlockComment,
            _ => Shape::Sign,
        },
        b'0'..=b'9' => Shape::Number,
        b'\'' => Shape::Rune,
        b'"' => Shape::Quoted,
        b'`' => Shape::Raw,
        b'#' => if second == b'+' {
            Shape::Sign
        } else {
            Shape::Directive
        },
        b'a'..=b'z' | b'A'..=b'Z' | b'_' | 128..=255 => Shape::Word,
        _ => Shape::Sign,
    }
}

fn white(text: &[u8]) -> Option<Found>
    requires { class_of text.now ≡ white_class }
    ensures { (a : Bool) → FindsPiece a text.now result }
{
    match white_len(text) {
        Some(len) => Some(Found {
            form: Form::Blank,
            len,
        }),
        None => None,
    }
}

fn newline(text: &[u8]) -> Option<Found>
    requires some { 0 < length text.now }
    requires class { class_of text.now ≡ newline_class }
    ensures { (a : Bool) → FindsPiece a text.now result }
{
    if text[0] == b'\n' {
        Some(Found {
            form: Form::Newline,
            len: 1,
        })
    } else {
        None
    }
}

fn line_comment(text: &[u8]) -> Option<Found>
    requires { class_of text.now ≡ line_comment_class }
    ensures { (a : Bool) → FindsPiece a text.now result }
{
    match line_comment_len(text) {
        Some(len) => Some(Found {
            form: Form::Blank,
            len,
        }),
        None => None,
    }
}

fn block_comment(text: &[u8]) -> Option<Found>
    requires { class_of text.now ≡ block_comment_class }
    ensures { (a : Bool) → FindsPiece a text.now result }
{
    match block_comment_len(text) {
        Some(len) => Some(Found {
            form: comment_form(&text[..len]),
            len,
        }),
        None => None,
    }
}

/// A comment that holds a newline counts as one.
fn comment_form(comment: &[u8]) -> Form
    ensures { result ≡ comment_form comment.now }
{
    if comment.contains(&b'\n') {
        Form::Newline
    } else {
        Form::Blank
    }
}

fn word(behind_number: bool, text: &[u8]) -> Option<Found>
    requires { class_of text.now ≡ word_class }
    ensures { FindsPiece behind_number text.now result }
{
    if behind_number {
        return None;
    }
    match word_len(text) {
        Some(len) => Some(Found {
            form: Form::Token(word_kind(&text[..len])),
            len,
        }),
        None => None,
    }
}

fn number_token(text: &[u8]) -> Option<Found>
    requires { class_of text.now ≡ number_class }
    ensures { (a : Bool) → FindsPiece a text.now result }
{
    match number(text) {
        Some(number) => Some(Found {
            form: Form::Token(number.kind),
            len: number.len,
        }),
        None => None,
    }
}

fn rune(text: &[u8]) -> Option<Found>
    requires { class_of text.now ≡ rune_class }
    ensures { (a : Bool) → FindsPiece a text.now result }
{
    match rune_len(text) {
        Some(len) => Some(Found {
            form: Form::Token(TokenKind::Rune),
            len,
        }),
        None => None,
    }
}

fn quoted(text: &[u8]) -> Option<Found>
    requires { class_of text.now ≡ quoted_class }
    ensures { (a : Bool) → FindsPiece a text.now result }
{
    match quoted_len(text) {
        Some(len) => Some(Found {
            form: Form::Token(TokenKind::Text),
            len,
        }),
        None => None,
    }
}

fn raw(text: &[u8]) -> Option<Found>
    requires { class_of text.now ≡ raw_class }
    ensures { (a : Bool) → FindsPiece a text.now result }
{
    match raw_len(text) {
        Some(len) => Some(Found {
            form: Form::Token(TokenKind::Text),
            len,
        }),
        None => None,
    }
}

fn directive(text: &[u8]) -> Option<Found>
    requires { class_of text.now ≡ directive_class }
    ensures { (a : Bool) → FindsPiece a text.now result }
{
    match directive_len(text) {
        Some(len) => Some(Found {
            form: Form::Token(TokenKind::Directive),
            len,
        }),
        None => None,
    }
}

fn sign_token(text: &[u8]) -> Option<Found>
    requires { class_of text.now ≡ sign_class }
    ensures { (a : Bool) → FindsPiece a text.now result }
{
    match sign(text) {
        Some(sign) => Some(Found {
            form: Form::Token(sign.kind),
            len: sign.len,
        }),
        None => None,
    }
}
