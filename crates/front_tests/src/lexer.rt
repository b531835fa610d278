//! What the lexer gives for texts whose tokens are known.

use odc_lex::{LexError, lex};
use odc_syntax::token::{TokenKind, Tokens, Word};
use odc_text::place::{FileId, Place};
use std::alloc::{AllocError, Global};
use std::fmt::Write;
use std::test::Fail;

const FILE: FileId = FileId { number: 3 };

/// A letter for the class of a token; `k` for keywords and signs.
fn class(kind: TokenKind) -> &'static str {
    match kind {
        TokenKind::Name => "n",
        TokenKind::Int => "i",
        TokenKind::Float => "f",
        TokenKind::Rune => "r",
        TokenKind::Text => "t",
        TokenKind::Directive => "d",
        _ => "k",
    }
}

fn place(out: &mut String, at: Place) -> Result<(), Fail> {
    write!(out, "@{}:{}", at.line, at.column)?;
    Ok(())
}

/// The tokens as `class:bytes@line:column`, `semi` for an inserted semicolon, and the end.
fn shown(alloc: Global, text: &[u8]) -> Result<String, Fail> {
    let mut out = String::new(alloc);
    if text.len() > 1000 {
        return Ok(out);
    }
    match lex(alloc, FILE, text) {
        Ok(tokens) => tokens_shown(&mut out, text, &tokens)?,
        Err(LexError::Fault(fault)) => {
            out.push_str("X01")?;
            place(&mut out, fault.at)?;
        }
        Err(LexError::Memory) => out.push_str("memory")?,
    }
    Ok(out)
}

fn tokens_shown(out: &mut String, text: &[u8], tokens: &Tokens) -> Result<(), Fail> {
    for token in &tokens.list {
        if token.from == token.to {
            out.push_str("semi")?;
        } else {
            out.push_str(class(token.kind))?;
            out.push_str(":")?;
            let bytes = text
                .get(token.from as usize..token.to as usize)
                .unwrap_or(b"?");
            out.push_str(str::from_utf8(bytes).unwrap_or("?"))?;
        }
        place(out, token.at)?;
        out.push_str(" ")?;
    }
    out.push_str("end")?;
    place(out, tokens.end)?;
    Ok(())
}

#[test]
fn words_and_literals(rt: HostRuntime) -> Result<(), Fail> {
    let cases = [
        ("", "end@1:1"),
        ("package main\ns :: \"ab", "X01@2:6"),
        (
            "/* a /* b */ c */ fmt.println(0xf_f, 'a', `x\\n`)",
            "n:fmt@1:19 k:.@1:22 n:println@1:23 k:(@1:30 i:0xf_f@1:31 k:,@1:36 r:'a'@1:38 k:,@1:41 t:`x\\n`@1:43 k:)@1:48 semi@1:49 end@1:49",
        ),
        ("é 名 _a1+", "n:é@1:1 n:名@1:4 n:_a1@1:8 k:+@1:11 end@1:12"),
        ("a 😀", "X01@1:3"),
        (
            "ifx if not_in+",
            "n:ifx@1:1 k:if@1:5 k:not_in@1:8 k:+@1:14 end@1:15",
        ),
        (
            "#soa #+ #partial",
            "d:#soa@1:1 k:#+@1:6 d:#partial@1:9 end@1:17",
        ),
        ("# soa", "X01@1:1"),
        (
            "\"\\x41\\u00e9\\U0001F600\\e\"+",
            "t:\"\\x41\\u00e9\\U0001F600\\e\"@1:1 k:+@1:25 end@1:26",
        ),
        ("\"\\x4\"", "X01@1:1"),
        ("\"\\uD800\"", "X01@1:1"),
        ("\"\\q\"", "X01@1:1"),
        ("'\\''+ ''", "X01@1:7"),
        ("'ab'", "X01@1:1"),
        ("`a\nb`+", "t:`a\nb`@1:1 k:+@2:3 end@2:4"),
    ];
    for (text, want) in cases {
        let got = shown(rt.alloc(), text.as_bytes())?;
        assert_eq!(rt; got.as_str(), want, "{text}");
    }
    Ok(())
}

#[test]
fn numbers(rt: HostRuntime) -> Result<(), Fail> {
    let cases = [
        (
            "1.5+1e9+3i+",
            "f:1.5@1:1 k:+@1:4 f:1e9@1:5 k:+@1:8 f:3i@1:9 k:+@1:11 end@1:12",
        ),
        (
            "1.5e-3k+0x1i+",
            "f:1.5e-3k@1:1 k:+@1:8 f:0x1i@1:9 k:+@1:13 end@1:14",
        ),
        ("0..<3+", "i:0@1:1 k:..<@1:2 i:3@1:5 k:+@1:6 end@1:7"),
        (
            "1_0 1__2_ 0x_1F 0b12 0o18+",
            "i:1_0@1:1 i:1__2_@1:5 i:0x_1F@1:11 i:0b1@1:17 i:2@1:20 i:0o1@1:22 i:8@1:25 k:+@1:26 end@1:27",
        ),
        ("1. .5+", "i:1@1:1 k:.@1:2 k:.@1:4 i:5@1:5 k:+@1:6 end@1:7"),
        ("12abc", "X01@1:3"),
        ("12if", "X01@1:4"),
        ("12for", "X01@1:3"),
        ("0x", "X01@1:2"),
        ("0xg", "X01@1:2"),
        ("0x_", "X01@1:2"),
        ("1e", "X01@1:2"),
        ("1ij", "X01@1:3"),
        ("1 a+", "i:1@1:1 n:a@1:3 k:+@1:4 end@1:5"),
        ("1/**/a+", "i:1@1:1 n:a@1:6 k:+@1:7 end@1:8"),
    ];
    for (text, want) in cases {
        let got = shown(rt.alloc(), text.as_bytes())?;
        assert_eq!(rt; got.as_str(), want, "{text}");
    }
    Ok(())
}

#[test]
fn signs(rt: HostRuntime) -> Result<(), Fail> {
    let cases = [
        ("<<<<=<=<", "k:<<@1:1 k:<<=@1:3 k:<=@1:6 k:<@1:8 end@1:9"),
        (">>=>>>=>", "k:>>=@1:1 k:>>@1:4 k:>=@1:6 k:>@1:8 end@1:9"),
        (
            "&&&~=&~&=&",
            "k:&&@1:1 k:&~=@1:3 k:&~@1:6 k:&=@1:8 k:&@1:10 end@1:11",
        ),
        ("%%=%%%=%", "k:%%=@1:1 k:%%@1:4 k:%=@1:6 k:%@1:8 end@1:9"),
        (
            "------>-=-",
            "k:---@1:1 k:---@1:4 k:>@1:7 k:-=@1:8 k:-@1:10 end@1:11",
        ),
        ("..=..<...", "k:..=@1:1 k:..<@1:4 k:..@1:7 k:.@1:9 end@1:10"),
        ("||=|| |", "k:||@1:1 k:=@1:3 k:||@1:4 k:|@1:7 end@1:8"),
        ("==!==!", "k:==@1:1 k:!=@1:3 k:=@1:5 k:!@1:6 end@1:7"),
        (
            "+=++*=*/=/ ~=~",
            "k:+=@1:1 k:+@1:3 k:+@1:4 k:*=@1:5 k:*@1:7 k:/=@1:8 k:/@1:10 k:~=@1:12 k:~@1:14 end@1:15",
        ),
        (
            "::= $@,;",
            "k::@1:1 k::@1:2 k:=@1:3 k:$@1:5 k:@@1:6 k:,@1:7 k:;@1:8 end@1:9",
        ),
        ("->--", "k:->@1:1 k:-@1:3 k:-@1:4 end@1:5"),
    ];
    for (text, want) in cases {
        let got = shown(rt.alloc(), text.as_bytes())?;
        assert_eq!(rt; got.as_str(), want, "{text}");
    }
    Ok(())
}

#[test]
fn newlines_end_statements(rt: HostRuntime) -> Result<(), Fail> {
    for last in [
        "a",
        "1",
        "1.5",
        "'a'",
        "\"a\"",
        "`a`",
        "context",
        "break",
        "continue",
        "fallthrough",
        "return",
        "or_return",
        "---",
        "^",
        "?",
        ")",
        "]",
        "}",
    ] {
        let mut text = String::from_str(rt.alloc(), last)?;
        text.push_str("\n\n+")?;
        let got = shown(rt.alloc(), text.as_bytes())?;
        assert!(rt; got.as_str().contains(" semi@1:"), "{last}");
        assert!(rt; !got.as_str().contains(" semi@2:"), "{last}");
    }
    for last in [
        "+", "dynamic", "typeid", "#soa", "#+", ",", "{", "(", "[", "if", "else", "in", "map", ";",
        "..<", ":",
    ] {
        let mut text = String::from_str(rt.alloc(), last)?;
        text.push_str("\n+")?;
        let got = shown(rt.alloc(), text.as_bytes())?;
        assert!(rt; !got.as_str().contains("semi"), "{last}");
    }
    Ok(())
}

#[test]
fn places_of_semicolons(rt: HostRuntime) -> Result<(), Fail> {
    let cases = [
        (
            "(a\nb)\n",
            "k:(@1:1 n:a@1:2 n:b@2:1 k:)@2:2 semi@2:3 end@3:1",
        ),
        ("[a\nb]", "k:[@1:1 n:a@1:2 n:b@2:1 k:]@2:2 semi@2:3 end@2:3"),
        (
            "({a\nb})+",
            "k:(@1:1 k:{@1:2 n:a@1:3 semi@1:4 n:b@2:1 k:}@2:2 k:)@2:3 k:+@2:4 end@2:5",
        ),
        ("}\nelse+", "k:}@1:1 k:else@2:1 k:+@2:5 end@2:6"),
        (
            "}\n\n/* c */ // d\n else+",
            "k:}@1:1 k:else@4:2 k:+@4:6 end@4:7",
        ),
        ("};\nelse+", "k:}@1:1 k:;@1:2 k:else@2:1 k:+@2:5 end@2:6"),
        (
            ")(\na\n)]\n",
            "k:)@1:1 k:(@1:2 n:a@2:1 k:)@3:1 k:]@3:2 semi@3:3 end@4:1",
        ),
        ("(}a\n", "k:(@1:1 k:}@1:2 n:a@1:3 semi@1:4 end@2:1"),
        ("a\r\nb+", "n:a@1:1 semi@1:3 n:b@2:1 k:+@2:2 end@2:3"),
        ("\ta+", "n:a@1:2 k:+@1:3 end@1:4"),
        ("\u{FEFF}a+\n\u{FEFF}", "X01@2:1"),
        ("\u{FEFF}a+", "n:a@1:4 k:+@1:5 end@1:6"),
        ("a /* \n */ b+", "n:a@1:1 semi@1:3 n:b@2:5 k:+@2:6 end@2:7"),
        ("a /* c */\nb+", "n:a@1:1 semi@1:10 n:b@2:1 k:+@2:2 end@2:3"),
        ("a // c", "n:a@1:1 semi@1:7 end@1:7"),
        ("a // c\nb+", "n:a@1:1 semi@1:7 n:b@2:1 k:+@2:2 end@2:3"),
        ("a /* /* */", "X01@1:3"),
        ("/*/ */+", "k:+@1:7 end@1:8"),
        ("é\n+", "n:é@1:1 semi@1:3 k:+@2:1 end@2:2"),
    ];
    for (text, want) in cases {
        let got = shown(rt.alloc(), text.as_bytes())?;
        assert_eq!(rt; got.as_str(), want, "{text}");
    }
    Ok(())
}

#[test]
fn bytes_that_are_no_text(rt: HostRuntime) -> Result<(), Fail> {
    assert_eq!(rt; shown(rt.alloc(), b"a \xFF")?.as_str(), "X01@1:3");
    assert_eq!(rt; shown(rt.alloc(), b"a // \xFF\n")?.as_str(), "X01@1:3");
    assert_eq!(rt; shown(rt.alloc(), b"a \"\xC3\"")?.as_str(), "X01@1:3");
    assert_eq!(rt; shown(rt.alloc(), b"a /* \x80 */")?.as_str(), "X01@1:3");
    assert_eq!(rt; shown(rt.alloc(), b"a\xC3")?.as_str(), "X01@1:2");
    Ok(())
}

/// The word of the first token of a short text.
fn first_word(alloc: Global, text: &[u8]) -> Result<&'static str, Fail> {
    if text.len() > 1000 {
        return Ok("long");
    }
    match lex(alloc, FILE, text) {
        Ok(tokens) => match tokens.list.first() {
            Some(token) => Ok(match token.word {
                Word::Odin => "odin",
                Word::Contextless => "contextless",
                _ => "none",
            }),
            None => Ok("no token"),
        },
        Err(_) => Ok("error"),
    }
}

#[test]
fn strings_are_told_by_value(rt: HostRuntime) -> Result<(), Fail> {
    let cases = [
        ("\"odin\"", "odin"),
        ("`odin`", "odin"),
        ("\"\\x6fdin\"", "odin"),
        ("\"\\u006fdi\\x6E\"", "odin"),
        ("\"o\\U00000064in\"", "odin"),
        ("\"\\x6f\\x64\\x69\\x6e\"", "odin"),
        ("`\\x6fdin`", "none"),
        ("\"\\\\x6fdin\"", "none"),
        ("\"odin\\x00\"", "none"),
        ("\"odi\"", "none"),
        ("\"\\u016fdin\"", "none"),
        ("\"Odin\"", "none"),
        ("\"\"", "none"),
        ("``", "none"),
        ("\"contextless\"", "contextless"),
        ("`contextless`", "contextless"),
        ("\"c\\u006fntextles\\x73\"", "contextless"),
        ("\"contextless\\n\"", "none"),
    ];
    for (text, want) in cases {
        let got = first_word(rt.alloc(), text.as_bytes())?;
        assert_eq!(rt; got, want, "{text}");
    }
    Ok(())
}
