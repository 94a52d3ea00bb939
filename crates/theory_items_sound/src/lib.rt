//! Sound environments: what the soundness of typing and of proofs needs of the declarations so far.
//! Every file's environment is sound, since the empty one is and each item keeps it so. A function
//! without a body states the law by its contract.
#![tactic(auto)]

ghost use Rattle.theory_items_sound.specs.Laws.{ItemsKeepSound};

/// The empty environment is sound, and an item that derives in a sound environment leaves a sound one.
pub fn items_keep_sound()
    ensures law { ItemsKeepSound }
{}
