// The machine: an image is loaded into ranges of memory and its instructions are carried out one by
// one, with reads, writes and exits by ECALL, checks by EBREAK, and calls of allocators as events.
// `image` is what is loaded, `machine` loads, steps and runs, `stop` says how a run ended. `text` keeps
// what is decoded at load: `run` carries that out, and does as `step` elsewhere.
// Assumes nothing but what sources and sinks tell. The layers above may rely on `run` being the
// definition's run (rv_table, specs/Run.antt) of so many instructions, on the input of the source
// where that is told: the outcome, the bytes to both outputs, and the input taken.
#![tactic(auto)]

mod arithmetic;
mod hart;
pub mod image;
pub mod machine;
mod memory;
mod registers;
pub mod stop;
#[cfg(test)]
mod tests;
mod text;

pub use rv_table::effect::Event;
