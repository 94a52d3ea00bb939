//! A text as a parser sees it: the list of its tokens, each with its kind and its span. The types
//! stand alone, so that a parser needs nothing of how tokens are found.

/// A token of a text: what it is, and the bytes that it takes.
#[derive(Clone, Copy, Debug, PartialEq, Eq)]
pub struct Token {
    pub kind: Kind,
    /// The place of its first byte, counted from 0.
    pub from: u64,
    /// The place after its last byte.
    pub to: u64,
}

/// What a token is. The text of a name is its span.
#[derive(Clone, Copy, Debug, PartialEq, Eq)]
pub enum Kind {
    Name,
    Number(u64),
    Keyword(Keyword),
    Sign(Sign),
}

/// A word that can't be a name, called by its letters. `emp` is `EmpWord`, and `Emp`, which differs
/// from it in its capital letter alone, is `CapitalEmpWord`.
#[derive(Clone, Copy, Debug, PartialEq, Eq)]
pub enum Keyword {
    TypeWord,
    PredWord,
    DefWord,
    ValWord,
    ProofWord,
    AutoWord,
    WordWord,
    BoolWord,
    LocWord,
    UnitWord,
    HeapWord,
    FunWord,
    DoWord,
    FixWord,
    RetWord,
    AllocWord,
    GetWord,
    SetWord,
    FreeWord,
    IfWord,
    ClaimWord,
    TrueWord,
    FalseWord,
    NullWord,
    PlaceWord,
    FstWord,
    SndWord,
    NotWord,
    EqWord,
    SelWord,
    EmpWord,
    TtWord,
    FfWord,
    AllWord,
    ExWord,
    CapitalEmpWord,
    CellWord,
    BlockWord,
    JoinWord,
    SameWord,
    InitWord,
    MemWord,
    IntroWord,
    GenWord,
    HaveWord,
    OpenWord,
    BothWord,
    LeftWord,
    RightWord,
    GiveWord,
    TrivialWord,
    ReflWord,
    AbsurdWord,
    CaseWord,
    RewriteWord,
    InductWord,
    SplitWord,
    FirstWord,
    SecondWord,
    AppWord,
    InstWord,
    AxiomWord,
    LemWord,
    TheWord,
}

/// A sign.
#[derive(Clone, Copy, Debug, PartialEq, Eq)]
pub enum Sign {
    /// `(`
    OpenParenSign,
    /// `)`
    CloseParenSign,
    /// `[`
    OpenBracketSign,
    /// `]`
    CloseBracketSign,
    /// `{`
    OpenBraceSign,
    /// `}`
    CloseBraceSign,
    /// `,`
    CommaSign,
    /// `;`
    SemicolonSign,
    /// `:`
    ColonSign,
    /// `.`
    DotSign,
    /// `=`
    EqualSign,
    /// `=>`
    ImpliesSign,
    /// `->`
    ArrowSign,
    /// `<-`
    LeftArrowSign,
    /// `|->`
    PointsToSign,
    /// `_`
    UnderscoreSign,
    /// `+`
    PlusSign,
    /// `-`
    MinusSign,
    /// `*`
    StarSign,
    /// `&`
    AmpersandSign,
    /// `|`
    BarSign,
    /// `^`
    CaretSign,
    /// `<<`
    ShiftLeftSign,
    /// `>>`
    ShiftRightSign,
    /// `<`
    LessSign,
    /// `**`
    DoubleStarSign,
    /// `/\`
    AndSign,
    /// `\/`
    OrSign,
    /// `@`
    AtSign,
    /// `!`
    BangSign,
}
