//! The row of a tree: the form at its root and the parts. A function without a body states laws by its contract.
#![tactic(auto)]

ghost use Rattle.theory_rows_inversion.specs.Laws.{FormsAreTold, PartsAreOfSlots, PartsAreTold, TreesAreBuilt};

/// What a form stands for over parts of the kinds of its slots tells the form and the parts.
pub fn forms_and_parts_are_told()
    ensures forms { FormsAreTold }
    ensures parts { PartsAreTold }
{}

/// Each tree is what the form at its root stands for over the parts of the root, which are of the kinds of the
/// form's slots.
pub fn trees_are_built()
    ensures built { TreesAreBuilt }
    ensures kinds { PartsAreOfSlots }
{}
