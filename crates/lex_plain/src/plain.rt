//! The tokens of a text by trying everything.

use crate::forms::{Form, code_of, form_of};
use odc_syntax::token::{Token, TokenKind, Tokens, Word};
use odc_text::place::{FileId, Place};
use std::alloc::{AllocError, Global};

/// The tokens, or the place where the text gets stuck.
#[derive(Drop)]
pub enum Answer {
    Tokens(Tokens),
    Stuck(Place),
}

#[derive(Clone, Copy)]
struct Piece {
    form: Form,
    from: usize,
    to: usize,
}

/// The tokens of a text of less than 1000 bytes.
pub fn tokens(alloc: Global, file: FileId, text: &[u8]) -> Result<Answer, AllocError> {
    let mut pieces: Vec<Piece> = Vec::new(alloc);
    let mut at = if text.starts_with(b"\xEF\xBB\xBF") {
        3
    } else {
        0
    };
    let mut behind_number = false;
    for _ in 0..text.len() {
        if at >= text.len() {
            break;
        }
        match longest(behind_number, text, at) {
            Some(piece) => {
                behind_number = matches!(
                    piece.form,
                    Form::Token(TokenKind::Int | TokenKind::Float)
                );
                at = piece.to;
                pieces.push(piece)?;
            }
            None => return Ok(Answer::Stuck(place(file, text, at))),
        }
    }
    Ok(Answer::Tokens(with_semicolons(alloc, file, text, pieces.as_slice())?))
}

/// The longest piece that begins at a place.
fn longest(behind_number: bool, text: &[u8], at: usize) -> Option<Piece> {
    for to in (0..text.len() + 1).rev() {
        if at < to {
            let w = text.get(at..to)?;
            let rest = text.get(to..)?;
            if let Some(form) = form_of(behind_number, w, rest) {
                return Some(Piece { form, from: at, to });
            }
        }
    }
    None
}

/// The line and column of a byte, counted from the start of the text.
fn place(file: FileId, text: &[u8], at: usize) -> Place {
    let mut line = 1u32;
    let mut column = 1u32;
    for (i, b) in text.iter().enumerate() {
        if i < at {
            column = column.saturating_add(1);
            if *b == b'\n' {
                line = line.saturating_add(1);
                column = 1;
            }
        }
    }
    Place { file, line, column }
}

fn word_of(kind: TokenKind, bytes: &[u8]) -> Word {
    match (kind, bytes) {
        (TokenKind::Name, b"int") => Word::Int,
        (TokenKind::Directive, b"#soa") => Word::Soa,
        (TokenKind::Directive, b"#partial") => Word::Partial,
        (TokenKind::Directive, b"#type") => Word::Type,
        (TokenKind::Directive, b"#caller_location") => Word::CallerLocation,
        (TokenKind::Text, _) if has_letters(bytes, b"odin") => Word::Odin,
        (TokenKind::Text, _) if has_letters(bytes, b"contextless") => Word::Contextless,
        _ => Word::Plain,
    }
}

/// The string has these letters as its value.
fn has_letters(bytes: &[u8], letters: &[u8]) -> bool {
    match bytes {
        [b'`', inside @ .., b'`'] => inside == letters,
        [b'"', inside @ .., b'"'] => spells(inside, letters),
        _ => false,
    }
}

/// Each letter stands as itself or as the digits of its code, and nothing else stands there.
fn spells(inside: &[u8], letters: &[u8]) -> bool {
    let mut rest = inside;
    for letter in letters {
        match behind_letter(rest, *letter) {
            Some(behind) => rest = behind,
            None => return false,
        }
    }
    rest.is_empty()
}

fn behind_letter<'a>(text: &'a [u8], letter: u8) -> Option<&'a [u8]> {
    match text {
        [b'\\', b'x', ..] => behind_code(text, 4, letter),
        [b'\\', b'u', ..] => behind_code(text, 6, letter),
        [b'\\', b'U', ..] => behind_code(text, 10, letter),
        [first, rest @ ..] if *first == letter => Some(rest),
        _ => None,
    }
}

fn behind_code<'a>(text: &'a [u8], len: usize, letter: u8) -> Option<&'a [u8]> {
    if code_of(text.get(2..len)?)? == letter as u64 {
        text.get(len..)
    } else {
        None
    }
}

fn token(file: FileId, text: &[u8], kind: TokenKind, from: usize, to: usize) -> Token {
    Token {
        kind,
        word: word_of(kind, text.get(from..to).unwrap_or(b"")),
        at: place(file, text, from),
        from: u32::try_from(from).unwrap_or(0),
        to: u32::try_from(to).unwrap_or(0),
    }
}

fn with_semicolons(
    alloc: Global,
    file: FileId,
    text: &[u8],
    pieces: &[Piece],
) -> Result<Tokens, AllocError> {
    let mut list = Vec::new(alloc);
    for (i, piece) in pieces.iter().enumerate() {
        if let Form::Token(kind) = piece.form {
            list.push(token(file, text, kind, piece.from, piece.to))?;
            let (before, after) = pieces.split_at(i + 1);
            if ends_statement(kind) && !is_inside(before) && !else_follows(after) {
                if let Some(at) = newline_behind(after, text.len()) {
                    list.push(token(file, text, TokenKind::Semicolon, at, at))?;
                }
            }
        }
    }
    Ok(Tokens {
        list,
        end: place(file, text, text.len()),
    })
}

/// Where the first newline stands that comes before any token.
fn newline_behind(after: &[Piece], end: usize) -> Option<usize> {
    for piece in after {
        match piece.form {
            Form::Blank => {}
            Form::Newline => return Some(piece.from),
            Form::Token(_) => return None,
        }
    }
    Some(end)
}

fn else_follows(after: &[Piece]) -> bool {
    for piece in after {
        if let Form::Token(kind) = piece.form {
            return matches!(kind, TokenKind::Else);
        }
    }
    false
}

/// Whether the innermost open bracket is round or square: looking back, the first opening bracket that
/// is left over by the closing ones behind it. Closing brackets that close nothing count for none.
fn is_inside(before: &[Piece]) -> bool {
    let mut closed = 0u64;
    for piece in before.iter().rev() {
        if let Form::Token(kind) = piece.form {
            match kind {
                TokenKind::CloseParen | TokenKind::CloseBracket | TokenKind::CloseBrace => closed =
                    closed.saturating_add(1),
                TokenKind::OpenParen | TokenKind::OpenBracket | TokenKind::OpenBrace => {
                    if closed == 0 {
                        return !matches!(kind, TokenKind::OpenBrace);
                    }
                    closed = closed.saturating_sub(1);
                }
                _ => {}
            }
        }
    }
    false
}

fn ends_statement(kind: TokenKind) -> bool {
    matches!(
        kind,
        TokenKind::Name
            | TokenKind::Int
            | TokenKind::Float
            | TokenKind::Rune
            | TokenKind::Text
            | TokenKind::Context
            | TokenKind::Break
            | TokenKind::Continue
            | TokenKind::Fallthrough
            | TokenKind::Return
            | TokenKind::OrReturn
            | TokenKind::Dashes
            | TokenKind::Caret
            | TokenKind::Question
            | TokenKind::CloseParen
            | TokenKind::CloseBracket
            | TokenKind::CloseBrace
    )
}
