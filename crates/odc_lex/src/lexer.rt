//! From the bytes of a text to its tokens.

ghost use Rattle.std.specs.Prelude.{◌≡◌, ◌<◌, ◌-◌, ◌^◌, length, IfOk, IfErr};
ghost use Rattle.odc_syntax.specs.lexical.Lexes.{Lexes, mark_len};
ghost use Rattle.odc_lex.specs.Lex.{HasNoTokens};

use crate::error::LexError;
use crate::piece::piece;
use crate::state::{Ending, State};
use odc_syntax::token::Tokens;
use odc_text::code::{Code, Fault};
use odc_text::place::{FileId, Place};
use std::alloc::Global;

/// The tokens of a source text of less than 2^32 - 1 bytes. A text has none exactly where the fault
/// X01 is the answer, at the first byte at which a piece must begin and no form matches. A piece is
/// made of whole characters in UTF-8, so one that runs into other bytes is none.
pub fn lex(alloc: Global, file: FileId, text: &[u8]) -> Result<Tokens, LexError>
    requires { length text.now < 2 ^ 32 - 1 }
    ensures tokens { IfOk result (λ tokens. Lexes file text.now tokens.list.items tokens.end) }
    ensures fault { IfErr result (HasNoTokens file text.now) }
{
    let mark = mark_len(text);
    let mut state = State {
        tokens: Vec::new(alloc),
        open: Vec::new(alloc),
        ending: Ending::Never,
        at: Place {
            file,
            line: 1,
            column: 1 + mark,
        },
        from: mark,
        behind_number: false,
    };
    while (state.from as usize) < text.len() {
        let rest = &text[state.from as usize..];
        match piece(state.behind_number, rest) {
            Some(found) => state.pass(found.form, &rest[..found.len])?,
            None => return Err(LexError::Fault(Fault {
                code: Code::X01,
                at: state.at,
            })),
        }
    }
    Ok(state.finish()?)
}

/// How many bytes a byte order mark at the front of the text takes.
fn mark_len(text: &[u8]) -> u32
    ensures { result ≡ mark_len text.now }
{
    if text.starts_with(b"\xEF\xBB\xBF") {
        3
    } else {
        0
    }
}
