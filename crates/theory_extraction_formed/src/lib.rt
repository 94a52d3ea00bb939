//! The program of a file whose items derive is formed and canonical, and its flat bodies are typed. A function
//! without a body states laws by its contract.
#![tactic(auto)]

ghost use Rattle.theory_extraction_formed.specs.Laws.{FileProgramsAreFormed, FileProgramsAreTyped};

/// Where the items of a file derive, its program is formed and canonical.
pub fn file_programs_are_formed()
    ensures law { FileProgramsAreFormed }
{}

/// Where the items of a file derive, the flat bodies of its instances fit together by monotypes.
pub fn file_programs_are_typed()
    ensures law { FileProgramsAreTyped }
{}
