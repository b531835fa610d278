// From a typed program to what the machine loads, through core and mid code. `compile` takes a program
// that is well and within the limits, and gives an image whose run keeps the program's source run, at a
// cost that the contract bounds. Each pass is a crate of its own; here stand what they ask of each other
// and how their theorems compose.
#![tactic(auto)]

pub mod compile;
pub mod laws;
