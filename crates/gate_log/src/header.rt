/// How many bytes stand before the first gate.
pub const HEADER_SIZE: usize = 24;

/// What stands before the first gate of a log. It says whose log it is.
#[derive(Clone, Copy, PartialEq, Eq)]
pub struct Header {
    pub bytes: [u8; HEADER_SIZE],
}
