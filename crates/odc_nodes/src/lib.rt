// Builders of trees: a function for each form of the grammar makes its node from its parts, and its clause says
// which clean tree that is. It boxes, appends and drops nothing itself: `odc_tree` does. It assumes nothing.
#![tactic(auto)]

pub mod loop_nodes;
pub mod nodes;
pub mod stmt_nodes;
pub mod switch_nodes;
pub mod type_nodes;
