//! What stops a phrase hangs on what its names are, and not on what they stand for: so the names of a file can be looked
//! up to its end when a tree of it is past a limit and isn't kept. A function without a body states a law by its contract.
#![tactic(auto)]

ghost use Rattle.theory_text_outlined.specs.Laws.{DeclarationsHangOnOutlines, StopsHangOnOutlines};

/// With names of the same outlines in their places a phrase is stopped by the same event, or by none.
pub fn stops_hang_on_outlines()
    ensures law { StopsHangOnOutlines }
{}

/// With names of the same outlines before it a declaration declares a name of the same outline, or is stopped by the same
/// event; and declarations in a row are stopped by the same event, or by none.
pub fn declarations_hang_on_outlines()
    ensures law { DeclarationsHangOnOutlines }
{}
