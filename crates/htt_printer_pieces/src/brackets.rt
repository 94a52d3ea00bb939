//! The table of brackets.

ghost use Rattle.std.specs.Prelude.{◌≡◌};
ghost use Rattle.theory_printing.specs.Brackets.{needs_brackets};
ghost use Rattle.htt_printer_pieces.specs.Views.{place_of, form_of};

/// What a phrase is: of one piece, or held together by its own brackets; a head with arguments; `fst`, `snd` or `not`
/// of a term; parts with a sign between them; what begins with a binder, or with `do`.
#[derive(Clone, Copy, Debug, PartialEq, Eq)]
pub enum Shape {
    Atom,
    Application,
    Prefixed,
    Operation,
    Binding,
}

/// Where a phrase stands, if it isn't bare there: a side of `=`; an operand or an argument; what a step runs; what has
/// arguments.
#[derive(Clone, Copy, Debug, PartialEq, Eq)]
pub enum Place {
    Side,
    Operand,
    Run,
    Head,
}

/// Whether a phrase of this shape is put in brackets at this place.
#[tactic(auto, unfolding(theory_printing::specs::Brackets::needs_brackets))]
pub fn needs_brackets(place: Place, shape: Shape) -> bool
    ensures told { result ≡ needs_brackets (place_of place) (form_of shape) }
{
    match (place, shape) {
        (_, Shape::Atom) => false,
        (Place::Side, _) => shape == Shape::Binding,
        (Place::Operand, _) => true,
        (Place::Run, _) => shape != Shape::Application && shape != Shape::Prefixed,
        (Place::Head, _) => shape != Shape::Application,
    }
}
