// The memory of a program that is carried out from its source: blocks, each with its bytes.
//
// A byte of the source is a number, or a piece of the address of a place in a block, or a piece of the value of a
// procedure. An address names a block and an offset and nothing else, so a program that reads outside a block, or in one
// that has ended, is caught where it does. Numbers lie densely: a block of numbers takes as many bytes as it has, and
// values of numbers are moved as slices.
#![tactic(auto)]

pub mod bytes;
pub mod store;
#[cfg(test)]
mod tests;
