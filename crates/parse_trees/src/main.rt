// Prints the whole tree of each file that is named as an argument, with all places. What it must print for the
// files of `data` was counted by hand from the grammar.
//
// A token is shown by its place and how many bytes it covers, as `2:6+1`; a node as `(kind@2:8 ..)`, and an expression
// whose first token stands before its place by that place too, as `(binary@2:8<2:6 ..)`. What is left out is a dash.
#![tactic(auto)]

mod exprs;
mod shown;
mod stmts;
mod types;

use crate::shown::{Shown, place, token, word};
use crate::stmts::decl;
use odc_lex::{LexError, lex};
use odc_lookahead::error::ParseError;
use odc_parse::parse::parse_file;
use odc_syntax::token::Tokens;
use odc_syntax::tree::FileTree;
use odc_text::code::{Fault, code_name};
use odc_text::place::FileId;
use odc_tree::discard::discard_decls;
use std::alloc::{AllocError, Global};
use std::{env, fs, io};

fn main(rt: HostRuntime) -> io::Result<()> {
    let mut names = env::args(&rt)?;
    let _ = names.next();
    for name in names {
        let text = fs::read_to_string(&rt, name.as_str())?;
        match shown_text(rt.alloc(), text.as_str()) {
            Ok(shown) => println!(rt; "== {}\n{}", name, shown)?,
            Err(_error) => println!(rt; "== {}\n{}", name, OUT_OF_MEMORY)?,
        }
    }
    Ok(())
}

const OUT_OF_MEMORY: &str = "memory ran out";

/// The tree of a text, or its fault.
fn shown_text(alloc: Global, text: &str) -> Result<String, AllocError> {
    let mut out = String::new(alloc);
    if text.len() >= 0xFFFF_FFFF {
        word("the text is too long", &mut out)?;
        return Ok(out);
    }
    match lex(alloc, FileId { number: 0 }, text.as_bytes()) {
        Ok(tokens) => show_tokens(alloc, &tokens, &mut out)?,
        Err(LexError::Fault(found)) => show_fault(found, &mut out)?,
        Err(LexError::Memory) => word(OUT_OF_MEMORY, &mut out)?,
    }
    Ok(out)
}

fn show_tokens(alloc: Global, tokens: &Tokens, out: &mut String) -> Shown {
    match parse_file(alloc, tokens) {
        Ok(tree) => {
            let shown = show_file(&tree, out);
            discard_decls(tree.decls, shown)
        }
        Err(ParseError::Fault(found)) => show_fault(found, out),
        Err(ParseError::Memory) => word(OUT_OF_MEMORY, out),
    }
}

fn show_fault(found: Fault, out: &mut String) -> Shown {
    word(code_name(found.code), out)?;
    word(" ", out)?;
    place(found.at, out)
}

/// A file: its name, a line for each declaration, and its end.
fn show_file(tree: &FileTree, out: &mut String) -> Shown {
    word("package ", out)?;
    token(tree.name, out)?;
    for d in &tree.decls {
        word("\n", out)?;
        decl(d, out)?;
    }
    word("\nend ", out)?;
    place(tree.end, out)
}
