//! Places of a text: a name is told by the bytes that it takes.

/// The bytes of a name, from `from` up to, but without, `to`.
#[derive(Clone, Copy, Debug, PartialEq, Eq)]
pub struct Span {
    pub from: u64,
    pub to: u64,
}

/// What a binder binds: a name, or `_`, which binds without one.
#[derive(Clone, Copy, Debug, PartialEq, Eq)]
pub enum Binder {
    Name(Span),
    Blank,
}
