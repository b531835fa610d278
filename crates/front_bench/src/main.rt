// Reads a source text from standard input, and prints how many tokens it has and how many declarations its file has,
// or its fault. With the word `lex` it stops behind the tokens. `bench/lex.sh` and `bench/parse.sh` time it.
#![tactic(auto)]

use odc_lex::{LexError, lex};
use odc_lookahead::error::ParseError;
use odc_parse::parse::parse_file;
use odc_syntax::token::Tokens;
use odc_text::code::{Fault, code_name};
use odc_text::place::FileId;
use odc_tree::discard::discard_decls;
use std::io::Read;
use std::{env, io};

fn main(rt: HostRuntime) -> io::Result<()> {
    let lex_alone = env::args(&rt)?.count() > 1;
    let mut text = Vec::new(rt.alloc());
    rt.reader().read_to_end(&mut text)?;
    if text.len() >= 0xFFFF_FFFF {
        return println!(rt; "too long");
    }
    match lex(rt.alloc(), FileId { number: 0 }, text.as_slice()) {
        Ok(tokens) => {
            if lex_alone {
                let count = tokens.list.len();
                println!(rt; "{count} tokens")
            } else {
                parse(rt, tokens)
            }
        }
        Err(LexError::Fault(fault)) => say(rt, fault),
        Err(LexError::Memory) => println!(rt; "memory ran out"),
    }
}

fn parse(rt: HostRuntime, tokens: Tokens) -> io::Result<()> {
    match parse_file(rt.alloc(), &tokens) {
        Ok(tree) => {
            let (count, declarations) = (tokens.list.len(), tree.decls.len());
            discard_decls(
                tree.decls,
                println!(rt; "{count} tokens, {declarations} declarations"),
            )
        }
        Err(ParseError::Fault(fault)) => say(rt, fault),
        Err(ParseError::Memory) => println!(rt; "memory ran out"),
    }
}

fn say(rt: HostRuntime, fault: Fault) -> io::Result<()> {
    let (code, line, column) = (code_name(fault.code), fault.at.line, fault.at.column);
    println!(rt; "{code} at {line}:{column}")
}
