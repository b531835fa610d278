// From core code to mid code: structured statements become jumps between positions, and each expression
// leaves its word in a temporary. The steps of each form are data in `specs/Code.antt`; `lower` promises
// that the mid run keeps the core run, that what it gives is well, and that each procedure becomes those
// steps. It asks for a well program whose procedures have less than 2^24 nodes and parameters.
#![tactic(auto)]

mod bytes;
mod expression;
pub mod laws;
pub mod lower;
mod procedure;
mod size;
mod statement;
