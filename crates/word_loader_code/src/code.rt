//! Code: functions over local words. A place is the number of a local word, and a number of words
//! `n` from a place on are that word and the following.

use htt_syntax_seq::Seq;

/// A program of the machine. `version` is 1 or 2; `tail` stands in version 2 alone. The machine
/// enters the function with number 0.
#[derive(Debug, Drop)]
pub struct Code {
    pub version: u8,
    pub functions: Seq<Function>,
}

/// A function: how many of its locals are parameters, how many locals it has, how many words it
/// returns, and its instructions.
#[derive(Debug, Drop)]
pub struct Function {
    pub params: u16,
    pub locals: u16,
    pub result: u16,
    pub body: Seq<Instr>,
}

/// An instruction, with its operands in the order of the code format.
#[derive(Clone, Copy, Debug, PartialEq, Eq)]
pub enum Instr {
    /// d, v: d becomes v.
    Const(u16, u64),
    /// d, s, n: n words from s to d, all read before any is written.
    Mov(u16, u16, u16),
    /// d, o, a, b: d becomes what operation o gives for a and b.
    Op(u16, u8, u16, u16),
    /// d, c, a, b, n: n words to d, from a where c isn't 0, else from b.
    Sel(u16, u16, u16, u16, u16),
    /// d, s, n: a new block of n words from s at a chosen location, which d becomes.
    Alloc(u16, u16, u16),
    /// d, p, n: the block at p's word, of length n, to d.
    Get(u16, u16, u16),
    /// p, s, n: the block at p's word, of length n, becomes n words from s.
    Set(u16, u16, u16),
    /// p, n: the block at p's word, of length n, is removed.
    Free(u16, u16),
    /// The place in the body to go on at.
    Jump(u32),
    /// c, target: jumps where c is 0.
    Jz(u16, u32),
    /// f, a, d: a new frame of f, whose first locals are f's params words from a; its result goes
    /// to d.
    Call(u32, u16, u16),
    /// s: returns result words from s; in the bottom frame the machine halts.
    Ret(u16),
    /// f, a: the frame is replaced by a new frame of f, whose first locals are f's params words
    /// from a; its result goes where the replaced frame's would go.
    Tail(u32, u16),
}
