// Makes and drops trees: the one function for each kind of node that boxes it, one that appends for each
// kind of list, and one that gives a tree up for each type of tree. A derived drop is proved again in each
// crate that may drop a tree, so no other crate boxes, appends or drops one; builders of single forms stand
// above, in `odc_nodes`. It assumes nothing.
#![tactic(auto)]

pub mod discard;
pub mod list;
pub mod node;
