// What every layer says of a run and of a refusal: places in the source, fault codes with their
// texts, named checks, outcomes, and allocator calls. The definitions under `specs/` say what an
// ending is (how a run stands, its log, the input that it took, its cost) and when two endings
// agree, when a run follows another, and when a pass keeps runs. This crate stands on nothing and
// assumes nothing; the layers above may rely on the texts being the printed ones, byte for byte,
// and on the laws of `proofs/Keep.antt`.
#![tactic(auto)]

pub mod check;
pub mod code;
pub mod laws;
pub mod outcome;
pub mod path;
pub mod place;
