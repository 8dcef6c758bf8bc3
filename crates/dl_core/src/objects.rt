use dl_ir::Fields;

/// Who may change an object.
#[derive(Clone, Copy, Debug, PartialEq, Eq)]
pub enum Mark {
    /// Nobody holds it.
    Free,
    /// The caller with this number holds it.
    Held(u32),
    /// The operation with this ticket sealed it, and it stays as it is for good. The ticket is 0 where the run began with it
    /// sealed.
    Sealed(u64),
}

/// An object that callers share.
#[derive(Debug, Drop)]
pub struct Object {
    /// The number of its kind.
    pub kind: u32,
    pub mark: Mark,
    pub fields: Fields,
}
