// Expressions, types, statements and declarations: each function reads a part of the grammar from the front of
// some tokens, and answers it exactly in any surroundings (`specs/Exact.antt` of odc_lookahead). All call one
// another, so they are one crate and nothing else is in it. A production is read symbol by symbol, a left-nested
// part item by item, a list up to its closing token by one loop (`lists.rt`), and each way that a reading may end
// has a lemma of its own, in odc_lookahead. The functions recurse as deep as the tree, at most 200 nodes, and
// never along a list. Nothing is assumed of the tokens. odc_parse says in words of the grammar alone what its
// callers get.
#![tactic(auto)]

pub mod arguments;
pub mod arrays;
pub mod binary;
pub mod block;
pub mod cases;
pub mod conditional;
pub mod declaration;
pub mod exprs;
pub mod fields;
mod lists;
pub mod loops;
pub mod operand;
pub mod params;
pub mod postfix;
pub mod procedure;
pub mod run_bounds;
pub mod runs;
pub mod signatures;
pub mod simple;
pub mod spans;
pub mod statement;
pub mod switches;
pub mod types;
pub mod unary;
