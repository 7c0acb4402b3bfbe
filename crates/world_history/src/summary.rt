/// What a history comes to, in numbers.
#[derive(Clone, Copy, PartialEq, Eq)]
pub struct Summary {
    /// The calls.
    pub calls: u64,
    /// The calls that ended in ok.
    pub ok: u64,
    /// The calls that write.
    pub writes: u64,
    /// The calls that read.
    pub reads: u64,
    /// The bytes of the reads that were answered.
    pub read_bytes: u64,
    /// The sum of the values of these bytes.
    pub read_sum: u64,
}
