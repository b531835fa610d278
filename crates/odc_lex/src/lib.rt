// The lexer: from the bytes of a source text to its tokens. It reads the text once: each piece is
// found by its first byte and read as far as its form goes, and semicolons are inserted by the newline
// rule with a stack of open brackets. It assumes that a text is shorter than 2^32 - 1 bytes; bytes
// that are not UTF-8 belong to no token. The layers above may rely on getting exactly the tokens that
// the definition gives the text, or the first place where no token stands.
#![tactic(auto)]

mod character;
mod comment;
mod error;
mod escape;
mod lexer;
mod number;
mod piece;
mod state;
mod stretch;
mod table;
mod unit;
mod value;
mod wording;

pub use error::LexError;
pub use lexer::lex;
