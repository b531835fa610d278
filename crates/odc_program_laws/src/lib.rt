//! What holds of all runs of typed programs. One theorem carries them: a relation between the states of two runs that the
//! primitives keep is kept by the whole run (`proofs/Whole`). Each law is an instance of it.
#![tactic(auto)]

ghost use Rattle.odc_program_laws.specs.Laws.{StoppedStays, OnlyGrows, StraysAtNodes, RewritingKeeps, deferred_once};
ghost use Rattle.odc_program_laws.specs.Rewriting.{Keeps};

/// A run that has stopped stays as it is at every greater bound.
pub fn stopped_stays()
    ensures { StoppedStays }
{}

/// A program only adds to the log and the cost, whatever state it begins in.
pub fn only_grows()
    ensures { OnlyGrows }
{}

/// A run that strays does so at the place of a node of the program.
pub fn strays_at_nodes()
    ensures { StraysAtNodes }
{}

/// A rule for kinds of nodes that keeps what each node does, but for the cost, keeps what programs do, but for the cost.
pub fn rewriting_keeps()
    ensures { RewritingKeeps }
{}

/// Such a rule: `defer defer s` becomes `defer s`.
pub fn deferred_twice()
    ensures { Keeps deferred_once }
{}
