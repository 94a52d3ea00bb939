//! The table of instructions: the byte of each and the kinds of its operands, in the order in which
//! they are written. What is tested of an operand, and how many bytes it has, depends on its kind
//! alone.

ghost use Rattle.std.specs.Prelude.{◌≡◌, ◌≤◌, length, slice_get};
ghost use Rattle.word_loader_format.specs.Table.{byte_of, opcode_at, operands_of, width_of};

/// The instructions, by the byte that each begins with: `Const` has 0 and `Tail` has 12.
#[derive(Clone, Copy, Debug, PartialEq, Eq)]
pub enum Opcode {
    Const,
    Mov,
    Op,
    Sel,
    Alloc,
    Get,
    Set,
    Free,
    Jump,
    Jz,
    Call,
    Ret,
    Tail,
}

/// How many words stand from a place on.
#[derive(Clone, Copy, Debug, PartialEq, Eq)]
pub enum Words {
    /// One.
    One,
    /// As many as the instruction's last operand says.
    Counted,
    /// The parameters of the function that is called.
    Params,
    /// The result of the function that is called.
    Result,
    /// The result of the function in which the instruction stands.
    Own,
}

/// A kind of operand.
#[derive(Clone, Copy, Debug, PartialEq, Eq)]
pub enum Operand {
    /// A place, from which so many words are read or written.
    Place(Words),
    /// The second place of an operation.
    Second,
    /// A number of words.
    Count,
    /// A word.
    Word,
    /// The number of an operation.
    Operation,
    /// The place in the body to go on at.
    Target,
    /// The number of the function that is called.
    Callee,
    /// The number of the function that takes this one's place.
    Successor,
}

/// The instructions in the order of their bytes.
const OPCODES: [Opcode; 13] = [
    Opcode::Const,
    Opcode::Mov,
    Opcode::Op,
    Opcode::Sel,
    Opcode::Alloc,
    Opcode::Get,
    Opcode::Set,
    Opcode::Free,
    Opcode::Jump,
    Opcode::Jz,
    Opcode::Call,
    Opcode::Ret,
    Opcode::Tail,
];

impl Opcode {
    /// The instruction that begins with this byte, if one does.
    pub fn at(byte: u8) -> Option<Opcode>
        ensures { result ≡ opcode_at byte }
    {
        OPCODES.get(byte as usize).copied()
    }

    /// The byte with which the instruction begins.
    pub fn byte(self) -> u8
        ensures { result ≡ byte_of self }
    {
        self as u8
    }

    /// The kinds of its operands, in order.
    pub fn operands(self) -> &'static [Operand]
        ensures kinds { result.now ≡ operands_of self }
        ensures few { length result.now ≤ 5 }
    {
        match self {
            Opcode::Const => &[Operand::Place(Words::One), Operand::Word],
            Opcode::Mov => &[
                Operand::Place(Words::Counted),
                Operand::Place(Words::Counted),
                Operand::Count,
            ],
            Opcode::Op => &[
                Operand::Place(Words::One),
                Operand::Operation,
                Operand::Place(Words::One),
                Operand::Second,
            ],
            Opcode::Sel => &[
                Operand::Place(Words::Counted),
                Operand::Place(Words::One),
                Operand::Place(Words::Counted),
                Operand::Place(Words::Counted),
                Operand::Count,
            ],
            Opcode::Alloc => &[
                Operand::Place(Words::One),
                Operand::Place(Words::Counted),
                Operand::Count,
            ],
            Opcode::Get => &[
                Operand::Place(Words::Counted),
                Operand::Place(Words::One),
                Operand::Count,
            ],
            Opcode::Set => &[
                Operand::Place(Words::One),
                Operand::Place(Words::Counted),
                Operand::Count,
            ],
            Opcode::Free => &[Operand::Place(Words::One), Operand::Count],
            Opcode::Jump => &[Operand::Target],
            Opcode::Jz => &[Operand::Place(Words::One), Operand::Target],
            Opcode::Call => &[
                Operand::Callee,
                Operand::Place(Words::Params),
                Operand::Place(Words::Result),
            ],
            Opcode::Ret => &[Operand::Place(Words::Own)],
            Opcode::Tail => &[Operand::Successor, Operand::Place(Words::Params)],
        }
    }
}

impl Operand {
    /// The number of its bytes.
    pub fn width(self) -> usize
        ensures width { result ≡ width_of self }
        ensures narrow { result ≤ 8 }
    {
        match self {
            Operand::Operation => 1,
            Operand::Place(_) | Operand::Second | Operand::Count => 2,
            Operand::Target | Operand::Callee | Operand::Successor => 4,
            Operand::Word => 8,
        }
    }
}
