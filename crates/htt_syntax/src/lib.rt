//! The trees of the language, and the words in which its refusals are told.
#![tactic(auto)]

mod mono;
mod proof;
mod sequent;
mod tree;

pub use htt_syntax_words::{Bound, Kind, Rule, SyntaxKind, Which, Why};
pub use mono::{Mono, Op};
pub use proof::{Arg, Proof, Stmt};
pub use sequent::{Entry, Env, RecPred, Sequent};
pub use tree::{Comp, Fix, Formula, Step, Term, Triple, Ty};
