// The language's texts as data: tokens, and what the tokens of a source text are. The definition
// under `specs/` is a relation between a whole text and a list of tokens: the text is cut into
// adjoining pieces, each the longest that any form allows at its place, and semicolons come by the
// newline rule. It knows nothing of how a lexer reads. This crate assumes nothing; the layers above
// may rely on a text having at most one list of tokens, and take the value of an integer, rune or
// string from `specs/Value.antt`.
#![tactic(auto)]

pub mod grammar;
pub mod laws;
pub mod token;
pub mod tree;
