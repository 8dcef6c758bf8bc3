//! The names of objects, and the values that name them.

/// The name of an object. The root `i` is `0.i`; the k-th object that the operation with ticket n made is `n.k`,
/// where n and k count from 1. Names are ordered by ticket, then by index.
#[derive(Clone, Copy, Debug, PartialEq, Eq, PartialOrd, Ord)]
pub struct Name {
    pub ticket: u64,
    pub index: u32,
}

/// What a field or a local holds: a number, or a reference that is null or names an object.
#[derive(Clone, Copy, Debug, PartialEq, Eq)]
pub enum Value {
    Int(i64),
    Ref(Option<Name>),
}
