//! Terms: a name or a number that stands alone, and a number or a sum of two that a program returns.

ghost use Rattle.std.specs.Prelude.{◌≡◌};
ghost use Rattle.htt_parser_trees.specs.Trees.{s_end};
ghost use Rattle.htt_parser_trees.specs.TreeLevels.{raw_comp_tree, raw_prod_tree, raw_sum_rest, raw_sum_tree};
ghost use Rattle.htt_parser_trees.specs.TreeViews.{raw_appl_tree, raw_atom_tree, raw_rel_tree, raw_sum_operand_tree, raw_term_tree};
ghost use Rattle.htt_top_one_form.specs.Matching.{added, addend_of, appl_operand, atom_operand, both_numbers, comp_returned, number_in, prod_operand, rel_operand, rel_returned, some_addend, sum_returned, term_returned, what_returned};

use htt_parser_trees::{
    RawAppl, RawAtom, RawComp, RawProd, RawRel, RawSum, RawTerm, Span, SumOperand,
};

/// What stands alone: a name or a number.
#[derive(Clone, Copy, Debug, PartialEq, Eq)]
pub enum Operand {
    Name(Span),
    Number(u64),
}

/// What a program returns: its number, or the two numbers whose sum it is.
#[derive(Clone, Copy, Debug, PartialEq, Eq)]
pub struct Returned {
    pub left: u64,
    pub right: Option<u64>,
}

#[tactic(auto, using(crate::proofs::Operands::atoms))]
fn atom_operand(atom: &RawAtom) -> Option<Operand>
    ensures { result ≡ atom_operand (raw_atom_tree atom.now) }
{
    match atom {
        RawAtom::Name(span) => Some(Operand::Name(*span)),
        RawAtom::Number { value, .. } => Some(Operand::Number(*value)),
        _ => None,
    }
}

#[tactic(auto, using(crate::proofs::Operands::appls))]
fn appl_operand(appl: &RawAppl) -> Option<Operand>
    ensures { result ≡ appl_operand (raw_appl_tree appl.now) }
{
    match appl {
        RawAppl::Apply { head, parts } => {
            if parts.as_slice().is_empty() {
                atom_operand(head)
            } else {
                None
            }
        }
        RawAppl::Unary { .. } => None,
    }
}

#[tactic(auto, using(crate::proofs::Operands::prod_matched))]
fn prod_operand(prod: &RawProd) -> Option<Operand>
    ensures { result ≡ prod_operand (raw_prod_tree prod.now) }
{
    if prod.rest.as_slice().is_empty() {
        appl_operand(&prod.first)
    } else {
        None
    }
}

/// The name or the number that a relation is, where it is one.
#[tactic(auto, using(crate::proofs::Operands::rels))]
pub(crate) fn rel_operand(rel: &RawRel) -> Option<Operand>
    ensures { result ≡ rel_operand (raw_rel_tree rel.now) }
{
    match rel {
        RawRel::Sum(sum) => {
            if sum.rest.as_slice().is_empty() {
                prod_operand(&sum.first)
            } else {
                None
            }
        }
        RawRel::Less(..) => None,
    }
}

fn number_in(prod: &RawProd) -> Option<u64>
    ensures { result ≡ number_in (raw_prod_tree prod.now) }
{
    match prod_operand(prod) {
        Some(Operand::Number(number)) => Some(number),
        _ => None,
    }
}

/// The number that is added.
#[tactic(auto, using(crate::proofs::Operands::operands))]
fn added(operand: &SumOperand) -> Option<u64>
    ensures { result ≡ added (raw_sum_operand_tree operand.now s_end) }
{
    match operand {
        SumOperand::Plus(prod) => number_in(prod),
        _ => None,
    }
}

fn some_addend(number: Option<u64>) -> Option<Option<u64>>
    ensures { result ≡ some_addend number }
{
    match number {
        Some(number) => Some(Some(number)),
        None => None,
    }
}

/// What stands behind the first operand of a sum: nothing, or a number that is added.
#[tactic(auto, using(crate::proofs::Operands::rests))]
fn addend(rest: &[SumOperand]) -> Option<Option<u64>>
    ensures { result ≡ addend_of (raw_sum_rest rest.now) }
{
    match rest {
        [] => Some(None),
        [operand, others @ ..] => {
            if others.is_empty() {
                some_addend(added(operand))
            } else {
                None
            }
        }
    }
}

fn both_numbers(left: Option<u64>, right: Option<Option<u64>>) -> Option<Returned>
    ensures { result ≡ both_numbers left right }
{
    match (left, right) {
        (Some(left), Some(right)) => Some(Returned { left, right }),
        _ => None,
    }
}

#[tactic(auto, using(crate::proofs::Operands::sum_matched))]
fn sum_returned(sum: &RawSum) -> Option<Returned>
    ensures { result ≡ sum_returned (raw_sum_tree sum.now) }
{
    both_numbers(number_in(&sum.first), addend(sum.rest.as_slice()))
}

#[tactic(auto, using(crate::proofs::Operands::returning_rels))]
fn rel_returned(rel: &RawRel) -> Option<Returned>
    ensures { result ≡ rel_returned (raw_rel_tree rel.now) }
{
    match rel {
        RawRel::Sum(sum) => sum_returned(sum),
        RawRel::Less(..) => None,
    }
}

#[tactic(auto, using(crate::proofs::Operands::returning_terms))]
fn term_returned(term: &RawTerm) -> Option<Returned>
    ensures { result ≡ term_returned (raw_term_tree term.now) }
{
    match term {
        RawTerm::Rel(rel) => rel_returned(rel.get()),
        _ => None,
    }
}

#[tactic(auto, using(crate::proofs::Operands::comp_matched))]
fn comp_returned(comp: &RawComp) -> Option<Returned>
    ensures { result ≡ comp_returned (raw_comp_tree comp.now) }
{
    if comp.steps.as_slice().is_empty() {
        term_returned(&comp.result)
    } else {
        None
    }
}

/// What the term of a program returns, where it is a computation that only returns a number or the
/// sum of two.
#[tactic(auto, using(crate::proofs::Operands::programs))]
pub(crate) fn what_returned(term: &RawTerm) -> Option<Returned>
    ensures { result ≡ what_returned (raw_term_tree term.now) }
{
    match term {
        RawTerm::Do { body, .. } => comp_returned(body.get()),
        _ => None,
    }
}
