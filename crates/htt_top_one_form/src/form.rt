//! The two declarations of the form.

ghost use Rattle.std.specs.Prelude.{◌≡◌, map, IfSome, IsNone};
ghost use Rattle.htt_parser_trees.specs.DeclViews.{raw_decl_tree};
ghost use Rattle.htt_top_one_form.specs.Form.{IsForm};
ghost use Rattle.htt_top_one_form.specs.Matching.{form_in, program_of, proved};

use crate::formulas::claimed;
use crate::names::is_named;
use crate::proofs_of_claims::body_place;
use crate::terms::{Returned, what_returned};
use htt_parser_trees::RawDecl;

/// What declarations of the form say. `right` is missing where the result is one number. `place` is
/// the first byte of the word `second`.
#[derive(Clone, Copy, Debug, PartialEq, Eq)]
pub struct Form {
    pub claimed: u64,
    pub left: u64,
    pub right: Option<u64>,
    pub place: u64,
}

/// What the declaration of `main` says: the number that it claims, and what it returns.
#[derive(Clone, Copy, Debug, PartialEq, Eq)]
pub struct Program {
    pub claimed: u64,
    pub returned: Returned,
}

fn program_of(text: &[u8], decl: &RawDecl) -> Option<Program>
    ensures { result ≡ program_of text.now (raw_decl_tree decl.now) }
{
    match decl {
        RawDecl::Val { name, ty, term } if is_named(text, *name, b"main") => Some(Program {
            claimed: claimed(text, ty)?,
            returned: what_returned(term)?,
        }),
        _ => None,
    }
}

/// The place of the proof of the first obligation of `main`.
fn proved(text: &[u8], decl: &RawDecl) -> Option<u64>
    ensures { result ≡ proved text.now (raw_decl_tree decl.now) }
{
    match decl {
        RawDecl::Proof {
            name,
            number: 1,
            body,
            ..
        } if is_named(text, *name, b"main") => body_place(text, body),
        _ => None,
    }
}

fn form_in(text: &[u8], decls: &[RawDecl]) -> Option<Form>
    ensures { result ≡ form_in text.now (map raw_decl_tree decls.now) }
{
    let [first, second] = decls else {
        return None;
    };
    let program = program_of(text, first)?;
    let place = proved(text, second)?;
    Some(Form {
        claimed: program.claimed,
        left: program.returned.left,
        right: program.returned.right,
        place,
    })
}

/// What the declarations of this text say, where they are those of the form. It takes no memory.
pub fn form_of(text: &[u8], decls: &[RawDecl]) -> Option<Form>
    ensures some { IfSome result (λ form. IsForm text.now (map raw_decl_tree decls.now) form) }
    ensures none { IsNone result → (form : Form) → IsForm text.now (map raw_decl_tree decls.now) form → ⊥ }
{
    form_in(text, decls)
}
