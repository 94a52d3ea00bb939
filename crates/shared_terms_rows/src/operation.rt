//! The operations on words, as a row holds them: a row is found by its hash.

ghost use Rattle.std.specs.Prelude.{◌≡◌};
ghost use Rattle.shared_terms_rows.specs.Parts.{op_of};

use htt_syntax::Op;

/// An operation on two words.
#[derive(Clone, Copy, PartialEq, Eq, Hash)]
pub enum Operation {
    Add,
    Sub,
    Mul,
    And,
    Or,
    Xor,
    Shl,
    Shr,
    Lt,
}

impl Operation {
    /// The operation of a tree, for a row.
    pub fn of(op: Op) -> Operation
        ensures same { op_of result ≡ op }
    {
        match op {
            Op::Add => Operation::Add,
            Op::Sub => Operation::Sub,
            Op::Mul => Operation::Mul,
            Op::And => Operation::And,
            Op::Or => Operation::Or,
            Op::Xor => Operation::Xor,
            Op::Shl => Operation::Shl,
            Op::Shr => Operation::Shr,
            Op::Lt => Operation::Lt,
        }
    }

    /// The operation of a row, for a tree.
    pub fn op(self) -> Op
        ensures same { result ≡ op_of self }
    {
        match self {
            Operation::Add => Op::Add,
            Operation::Sub => Op::Sub,
            Operation::Mul => Op::Mul,
            Operation::And => Op::And,
            Operation::Or => Op::Or,
            Operation::Xor => Op::Xor,
            Operation::Shl => Op::Shl,
            Operation::Shr => Op::Shr,
            Operation::Lt => Op::Lt,
        }
    }
}
