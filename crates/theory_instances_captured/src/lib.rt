//! Which variables occur in keys. A function without a body states laws by its contract.
#![tactic(auto)]

ghost use Rattle.theory_instances_captured.specs.Laws.{KeysMeetOnlyCaptured};

/// The variables that occur in a key of a program's instances are those that it captures.
pub fn keys_meet_only_captured()
    ensures law { KeysMeetOnlyCaptured }
{}
