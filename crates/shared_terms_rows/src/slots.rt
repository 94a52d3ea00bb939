//! The slots of each form: which kinds of parts it has, and under how many binders each stands.

ghost use Rattle.std.specs.Prelude.{◌≡◌};
ghost use Rattle.shared_terms_rows.specs.Forms as forms;

use crate::form::{
    CompForm, FixForm, Form, FormulaForm, Kind, MonoForm, SkeletonForm, StepForm, TermForm, TyForm,
};

/// A place for a part: what the part is, and how many binders of the node it stands under.
#[derive(Clone, Copy)]
pub struct Slot {
    pub kind: Kind,
    pub binders: u32,
}

/// The slots of a form, at most four. A slot is there only where those before it are.
#[derive(Clone, Copy)]
pub struct Slots {
    pub first: Option<Slot>,
    pub second: Option<Slot>,
    pub third: Option<Slot>,
    pub fourth: Option<Slot>,
}

fn of(kind: Kind) -> Slot
    ensures slot { result ≡ forms.of kind }
{
    Slot { kind, binders: 0 }
}

fn under(kind: Kind, binders: u32) -> Slot
    ensures slot { result ≡ forms.under kind binders }
{
    Slot { kind, binders }
}

fn none() -> Slots
    ensures slots { result ≡ forms.none }
{
    Slots {
        first: None,
        second: None,
        third: None,
        fourth: None,
    }
}

fn one(first: Slot) -> Slots
    ensures slots { result ≡ forms.one first }
{
    Slots {
        first: Some(first),
        second: None,
        third: None,
        fourth: None,
    }
}

fn two(first: Slot, second: Slot) -> Slots
    ensures slots { result ≡ forms.two first second }
{
    Slots {
        first: Some(first),
        second: Some(second),
        third: None,
        fourth: None,
    }
}

fn three(first: Slot, second: Slot, third: Slot) -> Slots
    ensures slots { result ≡ forms.three first second third }
{
    Slots {
        first: Some(first),
        second: Some(second),
        third: Some(third),
        fourth: None,
    }
}

fn four(first: Slot, second: Slot, third: Slot, fourth: Slot) -> Slots
    ensures slots { result ≡ forms.four first second third fourth }
{
    Slots {
        first: Some(first),
        second: Some(second),
        third: Some(third),
        fourth: Some(fourth),
    }
}

/// The slots of the form.
#[tactic(auto, unfolding(crate::specs::Forms::slots))]
pub fn slots_of(form: Form) -> Slots
    ensures slots { result ≡ forms.slots form }
{
    match form {
        Form::Skeleton(form) => skeleton_slots(form),
        Form::Mono(form) => mono_slots(form),
        Form::Ty(form) => ty_slots(form),
        Form::Term(form) => term_slots(form),
        Form::Fix(form) => fix_slots(form),
        Form::Comp(form) => comp_slots(form),
        Form::Step(form) => step_slots(form),
        Form::Formula(form) => formula_slots(form),
        Form::Triple => three(
            under(Kind::Formula, 1),
            of(Kind::Mono),
            under(Kind::Formula, 3),
        ),
        Form::NoTerms => none(),
        Form::MoreTerms => two(of(Kind::Term), of(Kind::Terms)),
    }
}

#[tactic(auto, unfolding(crate::specs::Forms::skeleton_slots))]
fn skeleton_slots(form: SkeletonForm) -> Slots
    ensures slots { result ≡ forms.skeleton_slots form }
{
    match form {
        SkeletonForm::O | SkeletonForm::C => none(),
        SkeletonForm::Arrow => two(of(Kind::Skeleton), of(Kind::Skeleton)),
        SkeletonForm::All => one(of(Kind::Skeleton)),
    }
}

#[tactic(auto, unfolding(crate::specs::Forms::mono_slots))]
fn mono_slots(form: MonoForm) -> Slots
    ensures slots { result ≡ forms.mono_slots form }
{
    match form {
        MonoForm::Word | MonoForm::Bool | MonoForm::Loc | MonoForm::Unit | MonoForm::Var(_) =>
            none(),
        MonoForm::Pair => two(of(Kind::Mono), of(Kind::Mono)),
    }
}

#[tactic(auto, unfolding(crate::specs::Forms::ty_slots))]
fn ty_slots(form: TyForm) -> Slots
    ensures slots { result ≡ forms.ty_slots form }
{
    match form {
        TyForm::Mono => one(of(Kind::Mono)),
        TyForm::Fun => two(of(Kind::Ty), under(Kind::Ty, 1)),
        TyForm::All => one(under(Kind::Ty, 1)),
        TyForm::Hoare => one(of(Kind::Triple)),
        TyForm::At(_) => one(of(Kind::Ty)),
    }
}

#[tactic(auto, unfolding(crate::specs::Forms::term_slots))]
fn term_slots(form: TermForm) -> Slots
    ensures slots { result ≡ forms.term_slots form }
{
    match form {
        TermForm::Var(_)
        | TermForm::Val(_)
        | TermForm::Def(_)
        | TermForm::Word(_)
        | TermForm::Bool(_)
        | TermForm::Loc(_)
        | TermForm::Unit => none(),
        TermForm::App | TermForm::Pair | TermForm::Bin(_) => two(of(Kind::Term), of(Kind::Term)),
        TermForm::Inst => two(of(Kind::Term), of(Kind::Mono)),
        TermForm::Lam | TermForm::LamT => one(under(Kind::Term, 1)),
        TermForm::Do => one(of(Kind::Comp)),
        TermForm::Fix(_) => one(of(Kind::Fix)),
        TermForm::Fst | TermForm::Snd | TermForm::Un | TermForm::At(_) => one(of(Kind::Term)),
        TermForm::Eq => three(of(Kind::Mono), of(Kind::Term), of(Kind::Term)),
        TermForm::Sel => four(
            of(Kind::Mono),
            of(Kind::Term),
            of(Kind::Term),
            of(Kind::Term),
        ),
        TermForm::Ann => two(of(Kind::Term), of(Kind::Ty)),
        TermForm::Made(_) => one(of(Kind::Terms)),
    }
}

#[tactic(auto, unfolding(crate::specs::Forms::fix_slots))]
fn fix_slots(form: FixForm) -> Slots
    ensures slots { result ≡ forms.fix_slots form }
{
    match form {
        FixForm::Param => two(of(Kind::Ty), under(Kind::Fix, 1)),
        FixForm::Body => two(of(Kind::Triple), under(Kind::Comp, 1)),
    }
}

#[tactic(auto, unfolding(crate::specs::Forms::comp_slots))]
fn comp_slots(form: CompForm) -> Slots
    ensures slots { result ≡ forms.comp_slots form }
{
    match form {
        CompForm::Ret => one(of(Kind::Term)),
        CompForm::Step => two(of(Kind::Step), under(Kind::Comp, 1)),
    }
}

#[tactic(auto, unfolding(crate::specs::Forms::step_slots))]
fn step_slots(form: StepForm) -> Slots
    ensures slots { result ≡ forms.step_slots form }
{
    match form {
        StepForm::Run => two(of(Kind::Term), of(Kind::Mono)),
        StepForm::RunOpen => one(of(Kind::Term)),
        StepForm::Alloc | StepForm::Get | StepForm::Free => two(of(Kind::Mono), of(Kind::Term)),
        StepForm::Set => three(of(Kind::Mono), of(Kind::Term), of(Kind::Term)),
        StepForm::If => four(
            of(Kind::Mono),
            of(Kind::Term),
            of(Kind::Comp),
            of(Kind::Comp),
        ),
        StepForm::Claim => one(under(Kind::Formula, 2)),
    }
}

#[tactic(auto, unfolding(crate::specs::Forms::formula_slots))]
fn formula_slots(form: FormulaForm) -> Slots
    ensures slots { result ≡ forms.formula_slots form }
{
    match form {
        FormulaForm::Tt
        | FormulaForm::Ff
        | FormulaForm::Emp(_)
        | FormulaForm::Join(_, _, _)
        | FormulaForm::Same(_, _) => none(),
        FormulaForm::And | FormulaForm::Or | FormulaForm::Imp => two(
            of(Kind::Formula),
            of(Kind::Formula),
        ),
        FormulaForm::AllT | FormulaForm::ExT => two(of(Kind::Mono), under(Kind::Formula, 1)),
        FormulaForm::AllH | FormulaForm::ExH => one(under(Kind::Formula, 1)),
        FormulaForm::Cell(_) | FormulaForm::Eq => three(
            of(Kind::Mono),
            of(Kind::Term),
            of(Kind::Term),
        ),
        FormulaForm::Block(_) => two(of(Kind::Mono), of(Kind::Term)),
        FormulaForm::At(_) => one(of(Kind::Formula)),
        FormulaForm::Rec(_, _) => two(of(Kind::Term), of(Kind::Terms)),
    }
}

/// What a row of the form is of.
#[tactic(auto, unfolding(crate::specs::Forms::kind))]
pub fn kind_of(form: Form) -> Kind
    ensures kind { result ≡ forms.kind form }
{
    match form {
        Form::Skeleton(_) => Kind::Skeleton,
        Form::Mono(_) => Kind::Mono,
        Form::Ty(_) => Kind::Ty,
        Form::Term(_) => Kind::Term,
        Form::Fix(_) => Kind::Fix,
        Form::Comp(_) => Kind::Comp,
        Form::Step(_) => Kind::Step,
        Form::Formula(_) => Kind::Formula,
        Form::Triple => Kind::Triple,
        Form::NoTerms | Form::MoreTerms => Kind::Terms,
    }
}
