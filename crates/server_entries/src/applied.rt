/// What came of entries.
#[derive(Clone, Copy, PartialEq, Eq)]
pub enum Applied {
    /// The server is what they make of it.
    Done,
    /// Nothing can be made of one of them.
    Unmade,
}

/// The most files.
pub const MAX_FILES: usize = 64;
