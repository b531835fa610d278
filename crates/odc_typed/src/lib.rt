// The typed program and what it means: the tree that the front end gives and every pass before the
// step to core code takes, and the source run, which carries it out. The definitions under `specs/`
// are one equation per node kind, structural on trees of their own, which a view ties to the Rust
// types. This crate assumes nothing of a program; the layers above may rely on the run being total.
// The forms of today are `int` constants and variables, arithmetic, comparisons in conditions, calls of
// procedures of `int`s, declarations, assignments, `if`, `for`, `return` and `fmt.println`; a later form
// adds cases.
#![tactic(auto)]

pub mod laws;
pub mod tree;
