// Mid code and what it means: labelled steps over temporaries of 64 bits, with the frames and the flat
// bytes of core code. The definitions under `specs/` carry a program out step by step.
#![tactic(auto)]

pub mod tree;
