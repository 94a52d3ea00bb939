//! What the theorem on derived files says of worked files: of values that run others, take a computation,
//! never end or run a recursive function. A function without a body states laws by its contract.
#![tactic(auto)]

ghost use Rattle.theory_file_runs.specs.Runs.{WorkedRuns};

/// The runs of values of derived files, with the triples that they meet.
pub fn worked_runs()
    ensures law { WorkedRuns }
{}
