//! The frames of procedures: how many nodes a procedure has, how large its frame is, and where its variables lie. What
//! the definitions of `odc_program` say of the clean tree is computed here from the borrowed one, in one walk. Nothing is
//! assumed: a sum past 64 bits stays at its greatest value, and a frame past the limit has no size.
#![tactic(auto)]

pub mod frame;
pub mod places;
pub mod sizes;
pub mod weigh_expr;
pub mod weigh_stmt;
