//! The readers of phrases, with the recursion over the levels.

ghost use Rattle.std.specs.Prelude.{drop};
ghost use Rattle.theory_grammar.specs.Reading.{deeper};
ghost use Rattle.htt_parser_levels.specs.Levels.{found_tree, wanted_at};
ghost use Rattle.htt_parser_words.specs.Results.{Gives};
ghost use Rattle.htt_parser_trees.specs.TreeViews.{raw_formula_tree, raw_term_tree, raw_ty_tree};

use crate::wanted::{phrase_of, read_at};
use htt_parser_formulas::Formulas;
use htt_parser_levels::{Found, Level, Wanted};
use htt_parser_operands::Operands;
use htt_parser_terms::Terms;
use htt_parser_trees::{RawFormula, RawTerm, RawTy};
use htt_parser_words::{Cursor, Halted, Reason};

/// The readers of types, terms, computations and formulas.
#[derive(Clone, Copy)]
pub struct Phrases<'a> {
    pub cursor: Cursor<'a>,
}

impl Phrases<'_> {
    /// What is wanted one level deeper, where so many levels may be entered.
    fn read(&self, left: u32, what: Wanted, at: usize) -> Result<(Found, usize), Halted>
        ensures { Gives self.now.cursor.tokens.now found_tree result (wanted_at (deeper 63 left) what (drop at self.now.cursor.tokens.now)) }
    {
        if left == 0 {
            return Err(self.cursor.refuse(Reason::TooNested, phrase_of(what), at));
        }
        let below = left - 1;
        let level = Level {
            cursor: self.cursor,
            left: below,
            deeper: |what: Wanted, at: usize| -> Result<(Found, usize), Halted>
                ensures { Gives self.entry.now.cursor.tokens.now found_tree result (wanted_at (deeper 63 below) what (drop at self.entry.now.cursor.tokens.now)) }
            { self.read(below, what, at) },
        };
        let terms = Terms {
            operands: Operands { level },
        };
        read_at(&Formulas { terms }, what, at)
    }

    /// A type one level deeper, where so many levels may be entered.
    pub fn deeper_ty(&self, left: u32, at: usize) -> Result<(RawTy, usize), Halted>
        ensures { Gives self.now.cursor.tokens.now raw_ty_tree result ((deeper 63 left).ty (drop at self.now.cursor.tokens.now)) }
    {
        let (found, at) = self.read(left, Wanted::Type, at)?;
        match found {
            Found::Type(ty) => Ok((ty, at)),
            _ => unreachable!(),
        }
    }

    /// A term one level deeper, where so many levels may be entered.
    pub fn deeper_term(&self, left: u32, at: usize) -> Result<(RawTerm, usize), Halted>
        ensures { Gives self.now.cursor.tokens.now raw_term_tree result ((deeper 63 left).term (drop at self.now.cursor.tokens.now)) }
    {
        let (found, at) = self.read(left, Wanted::Term, at)?;
        match found {
            Found::Term(term) => Ok((term, at)),
            _ => unreachable!(),
        }
    }

    /// A formula one level deeper, where so many levels may be entered.
    pub fn deeper_formula(&self, left: u32, at: usize) -> Result<(RawFormula, usize), Halted>
        ensures { Gives self.now.cursor.tokens.now raw_formula_tree result ((deeper 63 left).formula (drop at self.now.cursor.tokens.now)) }
    {
        let (found, at) = self.read(left, Wanted::Formula, at)?;
        match found {
            Found::Formula(formula) => Ok((formula, at)),
            _ => unreachable!(),
        }
    }
}
