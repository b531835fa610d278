//! Makes, copies and drops typed trees: one function for each of the two kinds of node that boxes it, one that appends for
//! each kind of list, one that copies and one that gives up each type of tree. A derived drop is proved again in each
//! crate that may drop a tree, so no other crate boxes, appends or drops one; builders of single forms stand above, in
//! `odc_typed_nodes`. It assumes nothing. What a call gives is said of the clean trees of `odc_program`.
#![tactic(auto)]

pub mod copy_expr;
pub mod copy_stmt;
pub mod discard;
pub mod list;
pub mod node;
