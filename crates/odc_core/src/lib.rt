// Core code and what it means: words of 64 bits, flat bytes, frames whose variables have fixed places,
// and structured statements. The context, printing, and everything that a Program's forms stand for are
// spelled out in it. The definitions under `specs/` carry a program out over a budget of finished nodes,
// begun calls and begun loop turns.
#![tactic(auto)]

pub mod tree;
