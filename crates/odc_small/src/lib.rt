// The small grammar: texts of one file with procedures of `int`s, conditions, loops and printing, read
// straight into the typed program. `read_program` promises that the program is that of the one tree of
// the grammar with this spelling, or that there is none. The trees stand in `specs/Grammar.antt`, the
// program of a tree in `specs/Typing.antt`; nothing of them is made while a text is read.
#![tactic(auto)]

mod funcs;
pub mod grammar;
pub mod lines;
mod pieces;
pub mod scope;
mod sums;
pub mod text;
