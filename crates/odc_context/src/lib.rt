// From a typed program to core code: variables get places in frames, values go through own variables
// behind them, and printing is spelled out. The core code of a program is data in `specs/Code.antt`;
// `pass_context` promises that it gives just this code, that the code is well, and that its run keeps the
// source run. It asks for a well program whose frames fit.
#![tactic(auto)]

pub mod context;
mod expression;
pub mod laws;
mod line;
mod measure;
mod own;
mod pieces;
mod procedure;
mod statement;
