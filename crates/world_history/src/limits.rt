/// The most bytes that a world keeps: those of all messages that were sent, and the data of each write in a
/// file's log.
pub const MAX_KEPT: u64 = 268_435_456;
