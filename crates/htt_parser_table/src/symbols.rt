//! What the rows of the table are made of. What the grammar repeats is a nonterminal of its own, whose
//! alternatives are nothing and one more.

use htt_lexer_tokens::{Keyword, Sign};

/// What stands in a row: one token, or a phrase.
#[derive(Clone, Copy, Debug, PartialEq, Eq)]
pub enum Symbol {
    /// This keyword.
    Word(Keyword),
    /// This sign.
    Mark(Sign),
    /// Any name.
    Name,
    /// Any number.
    Number,
    /// A phrase of this nonterminal.
    Phrase(Nonterminal),
}

/// A kind of phrase, with its alternatives.
#[derive(Clone, Copy, Debug, PartialEq, Eq)]
pub enum Nonterminal {
    /// name | `_`
    Binder,
    /// `word` | `bool` | `loc` | `unit` | name
    MonoName,
    /// `+` | `-` | `|` | `^`
    SumSign,
    /// `*` | `&` | `<<` | `>>`
    ProductSign,
    /// `fst` | `snd` | `not`
    UnaryWord,
    /// `first` | `second` | `left` | `right` | `absurd`
    UnaryRule,
    /// nothing | `^` number
    HeapNumber,
    /// name | `init` HeapNumber | `mem` HeapNumber
    Heap,
    /// MonoName | `(` Mono `)`
    Factor,
    /// Factor | Factor `*` Mono
    Mono,
    /// `[` Mono `]`
    MonoInBrackets,
    /// nothing | `,` Mono MonosAfter
    MonosAfter,
    /// nothing | `[` Mono MonosAfter `]`
    Monos,
    /// `(` Binder `:` TypePhrase `)` `->` TypePhrase | `[` name `]` `->` TypePhrase | `{` Triple | Mono
    TypePhrase,
    /// Formula `}` Binder `:` Mono `{` Formula `}`
    Triple,
    /// `fun` Binder `.` Term | `fun` `[` name `]` `.` Term | `do` Comp | `fix` name Parameters `:` `{` Triple `.` Comp | Relation
    Term,
    /// nothing | `(` Binder `:` TypePhrase `)` Parameters
    Parameters,
    /// Sum | Sum `<` Sum
    Relation,
    /// Product SumRest
    Sum,
    /// nothing | SumSign Product SumRest
    SumRest,
    /// Application ProductRest
    Product,
    /// nothing | ProductSign Application ProductRest
    ProductRest,
    /// UnaryWord Atom | Atom Parts
    Application,
    /// nothing | Atom Parts | `[` Mono `]` Parts
    Parts,
    /// name | number | `true` | `false` | `null` | `place` number | `eq` MonoInBrackets `(` Term `,` Term `)` | `sel` MonoInBrackets `(` Term `,` Term `,` Term `)` | `(` `)` | `(` Term `)` | `(` Term `,` Term `)` | `(` Term `:` TypePhrase `)`
    Atom,
    /// `ret` Term | Binder `<-` Step `;` Comp
    Comp,
    /// `alloc` MonoInBrackets Atom | `get` MonoInBrackets Atom | `set` MonoInBrackets Atom Atom | `free` MonoInBrackets Atom | `if` MonoInBrackets Atom `{` Comp `}` `{` Comp `}` | `claim` `{` Formula `}` | Application
    Step,
    /// `all` Binder `:` Sort `.` Formula | `ex` Binder `:` Sort `.` Formula | Disjunction | Disjunction `=>` Formula
    Formula,
    /// Mono | `heap`
    Sort,
    /// Conjunction | Conjunction `\/` Disjunction
    Disjunction,
    /// Separation | Separation `/\` Conjunction
    Conjunction,
    /// FormulaAtom | FormulaAtom `**` Separation
    Separation,
    /// `tt` | `ff` | `emp` | `[` Formula `]` | `@` Heap `[` Formula `]` | `Emp` `(` Heap `)` | `Same` `(` Heap `,` Heap `)` | `Join` `(` Heap `,` Heap `,` Heap `)` | `Cell` MonoInBrackets `(` Heap `,` Term `,` Term `)` | `Block` MonoInBrackets `(` Heap `,` Term `)` | `!` name Monos `(` Terms `)` | `!` name `(` Term `;` Terms `)` | `!` name `@` Heap `(` Term `;` Terms `)` | Relation `=` MonoInBrackets Relation | Relation `|->` MonoInBrackets Relation | Relation `|->` MonoInBrackets `_`
    FormulaAtom,
    /// nothing | Term TermsAfter
    Terms,
    /// nothing | `,` Term TermsAfter
    TermsAfter,
    /// `@` Heap | Term
    Argument,
    /// nothing | Argument ArgumentsAfter
    Arguments,
    /// nothing | `,` Argument ArgumentsAfter
    ArgumentsAfter,
    /// Binder `.` `[` Formula `]`
    Motive,
    /// End | Statement Proof
    Proof,
    /// `intro` name `;` | `gen` Binder `;` | `open` Binder name `=` Proof `;` | `have` name `:` `[` Formula `]` `=` Proof `;`
    Statement,
    /// name | `trivial` | `refl` | UnaryRule `(` Proof `)` | `both` `(` Proof `,` Proof `)` | `give` `(` Argument `,` Proof `)` | `app` `(` Proof `,` Proof ProofsAfter `)` | `inst` `(` Proof `,` Argument ArgumentsAfter `)` | `case` `(` Proof `,` name `.` Proof `,` name `.` Proof `)` | `rewrite` `(` Proof `,` Motive `,` Proof `)` | `induct` `(` Motive `,` Term `,` Proof `,` Binder name name `.` Proof `)` | `split` `(` Motive `,` Term `,` Proof `,` Proof `)` | `axiom` name Monos `(` Arguments `)` | `axiom` name `.` number `(` Argument ArgumentsAfter `)` | `lem` `[` Formula `]` | `the` `[` Formula `]` `(` Proof `)`
    End,
    /// nothing | `,` Proof ProofsAfter
    ProofsAfter,
    /// nothing | `,` name NamesAfter
    NamesAfter,
    /// nothing | `[` name NamesAfter `]`
    Names,
    /// name `:` Mono
    MonoParameter,
    /// nothing | `,` MonoParameter MonoParametersAfter
    MonoParametersAfter,
    /// `(` `)` | `(` MonoParameter MonoParametersAfter `)`
    MonoParameters,
    /// `auto` | Proof
    Body,
    /// `type` name `=` Mono | `pred` name Names MonoParameters `=` Formula | `pred` name `induct` Binder MonoParameters `=` `{` Formula `}` `{` Formula `}` | `def` name `:` TypePhrase `=` Term | `val` name `:` TypePhrase `=` Term | `proof` name `.` number `=` Body
    Declaration,
    /// nothing | Declaration File
    File,
}
