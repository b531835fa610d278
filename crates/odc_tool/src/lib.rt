// The commands of the compiler: words to a command, a folder to the program of its text, and how each
// status is told. `specs/Headline.antt` says what a command gives. Assumed of the outside: the clauses of
// the traits of `odc_io`. The program above may rely on the contract of each public call, and needs
// nothing of its parts.
#![tactic(auto)]

pub mod folder;
pub mod run;
pub mod status;
pub mod words;
