//! What the items of a file come to when they are checked in order: the environment after them and what each
//! owes, or the first item that stops. A function without a body states laws by its contract.
#![tactic(auto)]

ghost use Rattle.theory_checking_files.specs.Laws.{CheckedFilesDerive, CheckedFilesKeep, DerivedFilesReach, FilesComeToOne, FirstStop};

/// The items of a file come to one thing at most.
pub fn files_come_to_one()
    ensures law { FilesComeToOne }
{}

/// Where they stop, the items before the one that stops come to an environment, in which this one stops.
pub fn first_stop()
    ensures law { FirstStop }
{}

/// Items that are checked derive one after the other, with the same environment and obligations.
pub fn checked_files_derive()
    ensures law { CheckedFilesDerive }
{}

/// Items that derive come to that or to a limit, and to nothing else, so that no rule refuses them.
pub fn derived_files_reach()
    ensures law { DerivedFilesReach }
{}

/// Items that are checked keep the environment canonical, formed and narrow, and owe goals within the limits.
pub fn checked_files_keep()
    ensures law { CheckedFilesKeep }
{}
