// What disks in memory are made of.
use osd_lists::{Bytes, Numbers};
use std::alloc::Global;

/// The bytes, or none where memory is short.
pub fn copied(alloc: Global, bytes: &[u8]) -> Bytes {
    match Bytes::copied(alloc, bytes) {
        Ok(bytes) => bytes,
        Err(_) => Bytes::new(alloc),
    }
}

/// The numbers, or none where memory is short.
pub fn numbers(alloc: Global, numbers: &[u32]) -> Numbers {
    match Numbers::copied(alloc, numbers) {
        Ok(numbers) => numbers,
        Err(_) => Numbers::new(alloc),
    }
}
