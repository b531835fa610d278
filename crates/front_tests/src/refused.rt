//! Which forms are refused, and where they begin.

use odc_lookahead::refused::first_refused;
use odc_syntax::token::{Token, TokenKind, Word};
use odc_text::code::code_name;
use odc_text::place::{FileId, Place};
use std::alloc::Global;
use std::fmt::Write;
use std::test::Fail;

const PLACE: Place = Place {
    file: FileId { number: 0 },
    line: 1,
    column: 1,
};

/// The keyword or sign that is written so, or a name.
fn kind_of(text: &str) -> TokenKind {
    match text {
        "1.5" => TokenKind::Float,
        "matrix" => TokenKind::Matrix,
        "map" => TokenKind::Map,
        "typeid" => TokenKind::Typeid,
        "transmute" => TokenKind::Transmute,
        "auto_cast" => TokenKind::AutoCast,
        "bit_set" => TokenKind::BitSet,
        "bit_field" => TokenKind::BitField,
        "using" => TokenKind::Using,
        "where" => TokenKind::Where,
        "foreign" => TokenKind::Foreign,
        "asm" => TokenKind::Asm,
        "when" => TokenKind::When,
        "or_else" => TokenKind::OrElse,
        "or_break" => TokenKind::OrBreak,
        "or_continue" => TokenKind::OrContinue,
        "not_in" => TokenKind::NotIn,
        "context" => TokenKind::Context,
        "proc" => TokenKind::Proc,
        "struct" => TokenKind::Struct,
        "union" => TokenKind::Union,
        _ => sign_of(text),
    }
}

fn sign_of(text: &str) -> TokenKind {
    match text {
        "(" => TokenKind::OpenParen,
        "[" => TokenKind::OpenBracket,
        "]" => TokenKind::CloseBracket,
        "{" => TokenKind::OpenBrace,
        ":" => TokenKind::Colon,
        "," => TokenKind::Comma,
        "^" => TokenKind::Caret,
        "?" => TokenKind::Question,
        "$" => TokenKind::Dollar,
        "@" => TokenKind::At,
        "&" => TokenKind::Ampersand,
        ".." => TokenKind::DotDot,
        "#+" => TokenKind::HashPlus,
        "#soa" | "#partial" | "#type" | "#caller_location" | "#packed" => TokenKind::Directive,
        "odin" | "contextless" | "c" => TokenKind::Text,
        _ => TokenKind::Name,
    }
}

fn word_of(text: &str) -> Word {
    match text {
        "#soa" => Word::Soa,
        "#partial" => Word::Partial,
        "#type" => Word::Type,
        "#caller_location" => Word::CallerLocation,
        "odin" => Word::Odin,
        "contextless" => Word::Contextless,
        _ => Word::Plain,
    }
}

/// The code and the position of the first refused form in tokens that are parted by spaces. The words
/// `odin`, `contextless` and `c` are strings.
fn first(alloc: Global, text: &str) -> Result<String, Fail> {
    let mut tokens = Vec::new(alloc);
    for word in text.split_whitespace() {
        tokens.push(Token {
            kind: kind_of(word),
            word: word_of(word),
            at: PLACE,
            from: 0,
            to: 0,
        })?;
    }
    let mut out = String::new(alloc);
    match first_refused(&tokens) {
        Some((at, code)) => write!(out, "{} at {}", code_name(code), at)?,
        None => out.push_str("none")?,
    }
    Ok(out)
}

#[test]
fn single_tokens(rt: HostRuntime) -> Result<(), Fail> {
    for (text, want) in [
        ("a 1.5", "N01 at 1"),
        ("matrix", "N02 at 0"),
        ("a : map [", "N03 at 2"),
        ("transmute (", "N05 at 0"),
        ("a auto_cast", "N05 at 1"),
        ("bit_set", "N08 at 0"),
        ("bit_field", "N08 at 0"),
        ("using a", "N09 at 0"),
        ("#packed", "N10 at 0"),
        ("#soa [ ] a #partial #type #caller_location", "none"),
        ("where a", "N11 at 0"),
        ("a .. a", "N11 at 1"),
        ("foreign a", "N12 at 0"),
        ("asm", "N12 at 0"),
        ("when a", "N16 at 0"),
        ("a or_else a", "N16 at 1"),
        ("a or_break", "N16 at 1"),
        ("a or_continue", "N16 at 1"),
        ("@ (", "N17 at 0"),
        ("#+ a", "N17 at 0"),
        ("a not_in a", "N18 at 1"),
    ] {
        let got = first(rt.alloc(), text)?;
        assert_eq!(rt; got.as_str(), want, "{text}");
    }
    Ok(())
}

#[test]
fn forms_of_several_tokens(rt: HostRuntime) -> Result<(), Fail> {
    for (text, want) in [
        ("$ T : typeid", "none"),
        ("T : typeid", "N04 at 2"),
        ("$ T , U : typeid", "N04 at 5"),
        ("$ T typeid", "N04 at 2"),
        ("typeid", "N04 at 0"),
        ("a [ ^ ] a", "N05 at 1"),
        ("a [ ^ a ]", "none"),
        ("a [ ^", "none"),
        ("a proc {", "N11 at 1"),
        ("struct (", "N11 at 0"),
        ("union (", "N11 at 0"),
        ("struct { proc (", "none"),
        ("a proc c (", "N12 at 1"),
        ("proc odin ( proc contextless (", "none"),
        ("#soa ^ a", "N14 at 0"),
        ("#soa [ ] ^ a", "none"),
        ("a & context", "N15 at 1"),
        ("& a context", "none"),
        ("a [ ? ]", "none"),
        ("a [ ? a", "N16 at 2"),
        ("a ? ]", "N16 at 1"),
        ("?", "N16 at 0"),
        ("a proc c 1.5", "N12 at 1"),
        ("[ ^ ? ]", "N16 at 2"),
    ] {
        let got = first(rt.alloc(), text)?;
        assert_eq!(rt; got.as_str(), want, "{text}");
    }
    Ok(())
}
