// The definition of tokens as a plain, slow program: at each place it tries every length, from the
// longest down, and every form, and for each newline it looks over all tokens before it. The program
// compares it with the lexer on every text of three telling pieces and on some longer ones. It prints
// how many texts agree; where any differs it prints the first such, and fails. It shares nothing with
// the lexer but the kinds of tokens and the tables of Unicode.
#![tactic(auto)]

mod forms;
mod plain;

use crate::plain::Answer;
use odc_lex::{LexError, lex};
use odc_syntax::token::{Token, Tokens};
use odc_text::place::{FileId, Place};
use std::alloc::{AllocError, Global};
use std::io;
use std::process::ExitCode;

/// What the texts are made of.
const PIECES: [&str; 26] = [
    "a", "é", "_", "1", "0x", "9", "e", "i", ".", "'", "\"", "`", "\\", "n", "#", "/", "*", "=",
    "<", "-", "(", ")", "\n", " ", "else", "\u{FEFF}",
];

/// Longer texts.
const TEXTS: [&str; 18] = [
    "package main\ns :: \"ab",
    "/* a /* b */ c */ fmt.println(0xf_f, 'a', `x\\n`)",
    "if a {\n\tb += 1\n} // c\nelse {\n}\n",
    "x := [2]int{1,\n2}\n",
    "f :: proc(a: int,\n\tb: $T/[dynamic]int) -> (c: int) ---\n",
    "a /* \n */ else b /* \n */ c",
    "1.5e-3k 0b12 0o18 1__2_ 0x_F 1..<2 3.",
    "\"\\x41\\u00e9\\U0001F600\\e\" '\\'' '\\uD800'",
    "&&&~=&~&=& %%=%%%=% <<<<=<=< ------>-=- ..=..<...",
    "(}a\n]\n",
    "return\nbreak\ncontext.allocator = a\nor_return\n",
    "x: ^T\ny: [?]int\n#soa\ntypeid\n",
    "/*/ */+ /**/ /***/ /* * / */",
    "s := `a\nb`\r\nt",
    "for i in 0..<n do #partial switch matrix {}",
    "12abc",
    "`odin` \"odin\" \"\\x6fdin\" \"\\u006fdi\\x6E\" \"o\\U00000064in\" `\\x6fdin` \"\\\\odin\" \"odin\\x00\" \"\\u016fdin\" \"\"",
    "\"contextless\" `contextless` \"c\\u006fntextles\\x73\" \"contextless\\n\" \"contextles\"",
];

fn same_place(a: Place, b: Place) -> bool {
    a.line == b.line && a.column == b.column && a.file.number == b.file.number
}

fn same_token(a: &Token, b: &Token) -> bool {
    forms::number_of(a.kind) == forms::number_of(b.kind)
        && a.word as u8 == b.word as u8
        && same_place(a.at, b.at)
        && a.from == b.from
        && a.to == b.to
}

fn same_tokens(a: &Tokens, b: &Tokens) -> bool {
    if a.list.len() != b.list.len() || !same_place(a.end, b.end) {
        return false;
    }
    a.list
        .iter()
        .zip(b.list.iter())
        .all(|(x, y)| same_token(x, y))
}

/// Whether both give one answer. A text too long for either counts as no agreement.
fn agree(alloc: Global, text: &[u8]) -> Result<bool, AllocError> {
    if text.len() >= 1000 {
        return Ok(false);
    }
    let file = FileId { number: 1 };
    let answer = plain::tokens(alloc, file, text)?;
    match lex(alloc, file, text) {
        Ok(tokens) => Ok(match &answer {
            Answer::Tokens(plain) => same_tokens(&tokens, plain),
            Answer::Stuck(_) => false,
        }),
        Err(LexError::Fault(fault)) => Ok(match &answer {
            Answer::Tokens(_) => false,
            Answer::Stuck(at) => same_place(fault.at, *at),
        }),
        Err(LexError::Memory) => Err(AllocError),
    }
}

/// How many texts were tried so far: those at which the answers agree, and the others.
#[derive(Clone, Copy)]
struct Tally {
    agreed: u64,
    differing: u64,
}

/// Counts a text, and prints it if it is the first whose answers differ.
fn check(rt: &(impl Print + AllocGlobal), tally: Tally, text: &str) -> io::Result<Tally> {
    if agree(rt.alloc(), text.as_bytes())? {
        return Ok(Tally {
            agreed: tally.agreed.saturating_add(1),
            ..tally
        });
    }
    if tally.differing == 0 {
        println!(rt; "{text:?}: the answers differ")?;
    }
    Ok(Tally {
        differing: tally.differing.saturating_add(1),
        ..tally
    })
}

fn joined(alloc: Global, a: &str, b: &str, c: &str) -> Result<String, AllocError> {
    let mut text = String::from_str(alloc, a)?;
    text.push_str(b)?;
    text.push_str(c)?;
    Ok(text)
}

/// Checks the texts of three pieces that begin with these two.
fn check_behind_two(
    rt: &(impl Print + AllocGlobal),
    before: Tally,
    a: &str,
    b: &str,
) -> io::Result<Tally> {
    let mut tally = before;
    for c in PIECES {
        let text = joined(rt.alloc(), a, b, c)?;
        tally = check(rt, tally, text.as_str())?;
    }
    Ok(tally)
}

/// Checks the texts of three pieces that begin with this one.
fn check_behind_one(rt: &(impl Print + AllocGlobal), before: Tally, a: &str) -> io::Result<Tally> {
    let mut tally = before;
    for b in PIECES {
        tally = check_behind_two(rt, tally, a, b)?;
    }
    Ok(tally)
}

fn main(rt: HostRuntime) -> io::Result<ExitCode> {
    let none = Tally {
        agreed: 0,
        differing: 0,
    };
    let mut tally = check(&rt, none, "")?;
    for text in TEXTS {
        tally = check(&rt, tally, text)?;
    }
    for a in PIECES {
        tally = check_behind_one(&rt, tally, a)?;
    }
    println!(rt; "{} texts agree", tally.agreed)?;
    if tally.differing == 0 {
        return Ok(ExitCode::SUCCESS);
    }
    println!(rt; "{} texts differ", tally.differing)?;
    Ok(ExitCode::FAILURE)
}
