//! The typed tree of the whole language and what it means: the source run, from the bytes of the input and a bound on
//! turns to how the program ends, what it leaves behind and what it costs. One equation a kind of node, each by one
//! combinator over what its parts do; the state is touched by a dozen primitives, so that a law of all runs owes one
//! clause a primitive. Closed runs of small programs are contracts of `laws`. Nothing is assumed
//! of a program; the layers above may rely on the run being total.
//!
//! Also here: what a program must be that typing gives (`well`), whether its frames and places are those of its trees
//! (`framed`), and whether the allocator procedures of the runtime library are there (`has_runtime`). Each is a test that
//! a program passes or not.
//!
//! Not here yet:
//! - The rows that the table of `odc_types` gives are defined (`specs/Views/TableRows`) and tried on a small table, but no
//!   call makes them, and nothing proves that those of every table pass the test. Rows of their own stand for what an
//!   expression of none or several values gives.
//! - That the numbers of types don't matter is not proved.
//! - Sequencing and spending (`specs/States/Run`) are parametric in the state and may move below.
//! - The laws of all runs stand above, in `odc_program_laws`; functions that make, copy and drop trees in `odc_typed_tree`.
#![tactic(auto)]

pub mod laws;
pub mod ops;
pub mod program;
pub mod tree;
