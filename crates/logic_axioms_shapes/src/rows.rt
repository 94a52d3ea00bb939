//! The shape of each axiom, one row for each, in the order of the table of `docs/LOGIC.md`.

ghost use Rattle.std.specs.Prelude.{◌≡◌, MatchResult, map};
ghost use Rattle.htt_syntax.specs.Views.{mono_tree};
ghost use Rattle.logic_axioms_names.specs.Views.{axiom_name};
ghost use Rattle.logic_axioms_shapes.specs.Views.{arg_sort};
ghost use Rattle.logic_axioms_shapes.specs.Answers.{IsShape, Stops};

use crate::signatures::{plain, with_comparable, with_one, with_pair, with_two, with_two_as_wide};
use crate::slots::Slot::{Heap, Place, Truth, Unit, Value, Word};
use crate::sort::{ArgSort, AxiomStop};
use htt_syntax::Mono;
use logic_axioms_names::Axiom;
use std::alloc::Global;

/// The sorts of the axiom's arguments at these monotypes, in order. `BadInstance` exactly where the axiom takes
/// another count of monotypes, or its side condition fails; else `MonoTooLarge` exactly where the pair that it makes
/// of them has more than 64 nodes; `NoMemory` for want of memory. The rows are those of "Axioms" in `docs/LOGIC.md`.
pub fn shape(alloc: Global, axiom: Axiom, monos: &[Mono]) -> Result<Vec<ArgSort>, AxiomStop>
    ensures shape { MatchResult result
        (λ sorts. IsShape (axiom_name «axiom») (map mono_tree monos.now) (map arg_sort sorts.items))
        (Stops (axiom_name «axiom») (map mono_tree monos.now)) }
{
    match axiom {
        Axiom::EmpSome => plain(alloc, monos, &[]),
        Axiom::EmpOne => plain(alloc, monos, &[Heap, Heap]),
        Axiom::JoinEmp => plain(alloc, monos, &[Heap, Heap]),
        Axiom::JoinComm => plain(alloc, monos, &[Heap, Heap, Heap]),
        Axiom::JoinAssoc => plain(alloc, monos, &[Heap, Heap, Heap, Heap, Heap]),
        Axiom::JoinFun => plain(alloc, monos, &[Heap, Heap, Heap, Heap]),
        Axiom::JoinCancel => plain(alloc, monos, &[Heap, Heap, Heap, Heap]),
        Axiom::JoinEmpty => plain(alloc, monos, &[Heap, Heap, Heap]),
        Axiom::JoinCross => plain(alloc, monos, &[Heap, Heap, Heap, Heap, Heap]),
        Axiom::CellBlock => with_one(alloc, monos, &[Heap, Place, Value]),
        Axiom::CellOne => with_one(alloc, monos, &[Heap, Heap, Place, Value]),
        Axiom::CellVal => with_one(alloc, monos, &[Heap, Place, Value, Value]),
        Axiom::CellMake => with_one(alloc, monos, &[Place, Value]),
        Axiom::BlockPart => with_two(alloc, monos, &[Heap, Heap, Heap, Heap, Heap, Place]),
        Axiom::BlockSep => with_two(alloc, monos, &[Heap, Heap, Heap, Place]),
        Axiom::BlockNull => with_one(alloc, monos, &[Heap]),
        Axiom::BlockEmp => with_one(alloc, monos, &[Heap, Place]),
        Axiom::BlockWord => plain(alloc, monos, &[Heap, Place]),
        Axiom::BlockPlace => with_two(alloc, monos, &[Heap, Place, Place]),
        Axiom::BlockWidth => with_two_as_wide(alloc, monos, &[Heap, Place]),
        Axiom::AddComm => plain(alloc, monos, &[Word, Word]),
        Axiom::MulComm => plain(alloc, monos, &[Word, Word]),
        Axiom::AddAssoc => plain(alloc, monos, &[Word, Word, Word]),
        Axiom::MulAssoc => plain(alloc, monos, &[Word, Word, Word]),
        Axiom::AddZero => plain(alloc, monos, &[Word]),
        Axiom::MulOne => plain(alloc, monos, &[Word]),
        Axiom::MulZero => plain(alloc, monos, &[Word]),
        Axiom::MulAdd => plain(alloc, monos, &[Word, Word, Word]),
        Axiom::SubAdd => plain(alloc, monos, &[Word, Word]),
        Axiom::AddSub => plain(alloc, monos, &[Word, Word]),
        Axiom::LtIrrefl => plain(alloc, monos, &[Word]),
        Axiom::LtZero => plain(alloc, monos, &[Word]),
        Axiom::LtTrans => plain(alloc, monos, &[Word, Word, Word]),
        Axiom::LtTotal => plain(alloc, monos, &[Word, Word]),
        Axiom::LtStep => plain(alloc, monos, &[Word, Word]),
        Axiom::LtGap => plain(alloc, monos, &[Word, Word]),
        Axiom::LtPred => plain(alloc, monos, &[Word]),
        Axiom::EqYes => with_comparable(alloc, monos, &[Value, Value]),
        Axiom::EqNo => with_comparable(alloc, monos, &[Value, Value]),
        Axiom::BoolOr => plain(alloc, monos, &[Truth]),
        Axiom::BoolNe => plain(alloc, monos, &[]),
        Axiom::PairEta => with_pair(alloc, monos),
        Axiom::UnitEta => plain(alloc, monos, &[Unit]),
        Axiom::AndZero => plain(alloc, monos, &[Word]),
        Axiom::OrZero => plain(alloc, monos, &[Word]),
        Axiom::XorSelf => plain(alloc, monos, &[Word]),
        Axiom::ShlOne => plain(alloc, monos, &[Word]),
    }
}
