//! The command `go`: the form that the declarations of a file say, whether its claim is right, the
//! code for the result, and its run. The code goes through its written bytes, as that of a code file does.

ghost use Rattle.std.specs.Prelude.{◌≡◌, [], ◌∷◌, map, IfOk};
ghost use Rattle.htt_parser_trees.specs.DeclViews.{raw_decl_tree};
ghost use Rattle.word_loader_code.specs.Valid.{IsValid};
ghost use Rattle.htt_top_answers.specs.Answers.{seen_answer};
ghost use Rattle.htt_top.specs.Code.{form_code};
ghost use Rattle.htt_syntax_words.specs.declared.words.Which.TheVariants.{File};
ghost use Rattle.htt_top.specs.Stages.{DeclsGive, FileGives, FormGives, GoGives, Then, form_result, seen};
ghost use Rattle.htt_top.specs.Words.{ReadsOf};

use crate::read::read_file;
use crate::run::DEFAULT_STEPS;
use crate::text::{decls_of, first_byte, tokens_of};
use heap_model_flat::Heap;
use htt_base::Files;
use htt_lexer_tokens::Token;
use htt_parser_trees::RawDecl;
use htt_syntax_seq::Seq;
use htt_syntax_words::{SyntaxKind, Which};
use htt_top_answers::{Refusal, Success};
use htt_top_one_form::{Form, form_of};
use std::alloc::{AllocError, Global};
use word_loader::{LoadStop, load, write_code};
use word_loader_code::{Code, Function, Instr};
use word_machine::{End, run};

/// The result of a form's program.
fn result_of(form: &Form) -> u64
    ensures { result ≡ form_result form.now }
{
    match form.right {
        Some(right) => form.left.wrapping_add(right),
        None => form.left,
    }
}

/// The code that returns a number.
fn code_of(alloc: Global, number: u64) -> Result<Code, AllocError>
    ensures code { IfOk result (λ code. code ≡ form_code number) }
    ensures valid { IfOk result IsValid }
{
    let main = Function {
        params: 0,
        locals: 1,
        result: 1,
        body: Seq::of(vec![in alloc; Instr::Const(0, number), Instr::Ret(0)]?),
    };
    Ok(Code {
        version: 2,
        functions: Seq::of(vec![in alloc; main]?),
    })
}

/// The same code, loaded from its written bytes.
fn loaded_code_of(alloc: Global, number: u64) -> Result<Code, AllocError>
    ensures code { IfOk result (λ code. code ≡ form_code number) }
    ensures valid { IfOk result IsValid }
{
    let code = code_of(alloc, number)?;
    let bytes = write_code(alloc, &code)?;
    match load(alloc, &bytes) {
        Ok(code) => Ok(code),
        Err(LoadStop::Bad { .. }) => unreachable!(),
        Err(LoadStop::NoMemory) => Err(AllocError),
    }
}

/// The value that the code for a number returns.
fn value(alloc: Global, number: u64) -> Result<u64, AllocError>
    ensures { IfOk result (λ value. value ≡ number) }
{
    let code = loaded_code_of(alloc, number)?;
    match run(alloc, &code, Heap::new(alloc), DEFAULT_STEPS)? {
        End::Halted(words, _) => Ok(words.as_slice()[0]),
        End::Fault(..) | End::Stopped(..) => unreachable!(),
    }
}

/// The answer to a form: its value, by a run of its code, where its claim is right.
fn run_form(alloc: Global, form: &Form) -> Result<Success, Refusal>
    ensures { FormGives form.now (seen_answer result) }
{
    let result = result_of(form);
    if form.claimed != result {
        return Err(Refusal::NotInferred { at: form.place });
    }
    match value(alloc, result) {
        Ok(value) => Ok(Success::Value(value)),
        Err(_) => Err(Refusal::NoMemory),
    }
}

/// The answer to the declarations of a text: that of their form, where they are those of one.
fn run_decls(
    alloc: Global,
    bytes: &[u8],
    tokens: &[Token],
    decls: &[RawDecl],
) -> Result<Success, Refusal>
    ensures { DeclsGive bytes.now (map raw_decl_tree decls.now) (seen_answer result) }
{
    match form_of(bytes, decls) {
        Some(form) => run_form(alloc, &form),
        None => Err(Refusal::Syntax {
            at: first_byte(bytes, tokens),
            kind: SyntaxKind::Token,
        }),
    }
}

/// The answer to the bytes of a file.
fn run_text(alloc: Global, bytes: &[u8]) -> Result<Success, Refusal>
    ensures { GoGives bytes.now (seen_answer result) }
{
    let tokens = tokens_of(alloc, bytes)?;
    let decls = decls_of(alloc, bytes, &tokens)?;
    run_decls(alloc, bytes, &tokens, &decls)
}

/// Reads a file and runs the program of its text.
pub(crate) fn go<F: Files>(alloc: Global, files: &mut F, name: &str) -> Result<Success, Refusal>
    ensures due { Then (FileGives (seen (F.held files.old) (F.read_faults files.old) (F.read_faults files.new)) name.now File) GoGives (seen_answer result) }
    ensures reads { ReadsOf (name.now ∷ []) (F.reads files.old) (F.reads files.new) }
    ensures held { F.held files.new ≡ F.held files.old }
    ensures write_faults { F.write_faults files.new ≡ F.write_faults files.old }
{
    let bytes = read_file(alloc, files, name, Which::File)?;
    run_text(alloc, &bytes)
}
