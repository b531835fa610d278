//! Which typed programs the road to core code carries, the core code that they become, and that its run keeps the source
//! run. A carried program has integers of eight bytes with a sign, truth values in conditions, direct calls, checked
//! quotients, variables, blocks, conditions and loops, and prints integers. An expression that holds no call and no
//! check becomes one core expression.
#![tactic(auto)]

mod around;
pub mod cross;
mod expression;
pub mod laws;
mod line;
mod measure;
mod operands;
mod pieces;
mod procedure;
pub mod refused;
mod single;
mod statement;
mod tables;
