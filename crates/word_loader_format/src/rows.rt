//! What the rows of the format speak of beside instructions.

/// The first field of a file whose test fails: its first byte, and the row of the test. Row 0 stands
/// where the file ends too early; `at` is the file's length there.
#[derive(Clone, Copy, Debug, PartialEq, Eq)]
pub struct Fault {
    pub at: u64,
    pub row: u8,
}

/// The header of a function: how many of its locals are parameters, how many locals it has, how many
/// words it returns, and how many instructions it has.
#[derive(Clone, Copy, Debug, PartialEq, Eq)]
pub struct Header {
    pub params: u16,
    pub locals: u16,
    pub result: u16,
    pub count: u64,
}
