//! The size of a body with what is put for its free variables, from the sizes of these.

ghost use Rattle.std.specs.Prelude.{◌≡◌, ℕ, List, Option, IfOk};
ghost use Rattle.htt_syntax.specs.Trees.{TermTree};
ghost use Rattle.htt_syntax.specs.Views.{mono_tree, formula_tree};
ghost use Rattle.theory_saturation.specs.Saturation.{saturated};
ghost use Rattle.htt_syntax_measure.specs.Measures.{mono_measure, term_measure, formula_measure};
ghost use Rattle.theory_text_sugar.specs.Putting.{Put, put_for, mono_for, term_for, putting, put_into_formula};
ghost use Rattle.htt_resolve_sugar.specs.Views.{Measures, IsMeasured, with_argument};

use crate::places::place;
use htt_syntax::{Formula, Mono};
use htt_syntax_measure::{Size, Sizes, measure_formula, measure_mono};
use std::alloc::AllocError;

/// The size of what stands for a free variable of a body.
#[derive(Clone, Copy, Debug)]
pub enum PutSize {
    Mono(Size),
    Term(Size),
    Heap,
}

/// The sizes of what is put for the free variables of a body. The last one is that of the innermost of them.
#[derive(Clone, Copy)]
struct PutSizes<'a> {
    sizes: &'a [PutSize],
}

impl PutSizes<'_> {
    /// The size of what stands for the variable of this index under `depth` binders.
    #[tactic(auto, using(crate::proofs::Found::sizes))]
    fn size_for(&self, index: u32, depth: u64) -> Option<PutSize>
        ensures found { (puts : List Put) (d : ℕ)
            → Measures self.now.sizes.now puts
            → depth ≡ saturated d
            → IsMeasured result (put_for puts d index) }
    {
        match place(self.sizes.len(), index, depth) {
            Some(place) => Some(self.sizes[place]),
            None => None,
        }
    }
}

/// The size of a term variable for which something of this size is put; a variable that stays is one node.
#[tactic(auto, using(crate::proofs::Measured::terms))]
fn term_size(found: Option<PutSize>) -> Size
    ensures sized { (d n : ℕ) (put : Option Put) → IsMeasured found put → result ≡ term_measure (term_for d n put) }
{
    match found {
        Some(PutSize::Term(size)) => size,
        Some(PutSize::Mono(_)) => Size::leaf(),
        Some(PutSize::Heap) => Size::leaf(),
        None => Size::leaf(),
    }
}

/// The size of a monotype variable likewise.
#[tactic(auto, using(crate::proofs::Measured::monos))]
fn mono_size(found: Option<PutSize>) -> Size
    ensures sized { (d n : ℕ) (put : Option Put) → IsMeasured found put → result ≡ mono_measure (mono_for d n put) }
{
    match found {
        Some(PutSize::Mono(size)) => size,
        Some(PutSize::Term(_)) => Size::leaf(),
        Some(PutSize::Heap) => Size::leaf(),
        None => Size::leaf(),
    }
}

impl Sizes for PutSizes<'_> {
    ghost measures = { λ s p. (puts : List Put) × Measures s.sizes.now puts × (p ≡ putting puts) };

    fn at_term(&self, index: u32, depth: u64) -> Size {
        term_size(self.size_for(index, depth))
    }

    fn at_mono(&self, index: u32, depth: u64) -> Size {
        mono_size(self.size_for(index, depth))
    }
}

/// Puts the size of an argument, with the monotype of its parameter, behind the sizes of what was put before. It fails
/// for want of memory alone.
pub fn put_argument_size(
    puts: &mut Vec<PutSize>,
    param: &Mono,
    argument: Size,
) -> Result<(), AllocError>
    ensures put { (put : List Put) (M : TermTree)
        → Measures puts.old.items put
        → argument ≡ term_measure M
        → IfOk result (λ _. Measures puts.new.items (with_argument put (mono_tree param.now) M)) }
{
    let mono = measure_mono(
        param,
        &PutSizes {
            sizes: puts.as_slice(),
        },
        0,
    );
    puts.push(PutSize::Term(Size::node_of_two(argument, mono.under_node())))?;
    Ok(())
}

/// The size of the body with what is put for its free variables, from the sizes of these. It takes no memory.
pub fn body_size(body: &Formula, puts: &[PutSize]) -> Size
    ensures measured { (put : List Put)
        → Measures puts.now put
        → result ≡ formula_measure (put_into_formula put (formula_tree body.now)) }
{
    measure_formula(body, &PutSizes { sizes: puts }, 0)
}
