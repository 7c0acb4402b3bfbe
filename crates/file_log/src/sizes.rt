ghost use Rattle.std.specs.Prelude.{◌≡◌, ◌↔◌, ◌<◌, ◌==◌, ◌++◌, ℕ, max, map, IsTrue, OnOk, Contains, length};
ghost use Rattle.std.specs.List.{filter};
ghost use Rattle.file_log.specs.Judge.{given, sizes_after};

use crate::entry::Entry;
use osd_lists::Memory;
use std::alloc::Global;

// How many bytes a read of a range gives at a size.
fn given_at(offset: u64, length: u64, size: u128) -> u128
    ensures { result ≡ given offset length size }
{
    let end = u128::from(offset) + u128::from(length);
    end.min(size).saturating_sub(u128::from(offset))
}

/// Whether at one of the sizes a range gives so many bytes.
pub fn has_size(sizes: &[u128], offset: u64, length: u64, count: usize) -> bool
    ensures { IsTrue result ↔ ((size : ℕ) × Contains sizes.now size × (given offset length size ≡ count)) }
{
    sizes
        .iter()
        .any(|size| given_at(offset, length, *size) == count as u128)
}

// Keeps the sizes at which a range gives as many bytes as an answer has.
fn keep_fitting(
    alloc: Global,
    sizes: &mut Vec<u128>,
    offset: u64,
    asked: u64,
    answer: &[u8],
) -> Result<(), Memory>
    ensures { OnOk result (sizes.new.items ≡
        filter (λ size. given offset asked size == length answer.now) sizes.old.items) }
{
    let count = answer.len() as u128;
    *sizes = sizes
        .iter()
        .copied()
        .filter(|size| given_at(offset, asked, *size) == count)
        .collect(alloc)?;
    Ok(())
}

// Raises each size to an end, at least.
fn raise(alloc: Global, sizes: &mut Vec<u128>, end: u128) -> Result<(), Memory>
    ensures { OnOk result (sizes.new.items ≡ map (max end) sizes.old.items) }
{
    *sizes = sizes.iter().map(|size| end.max(*size)).collect(alloc)?;
    Ok(())
}

// Whether one of the sizes is below an end.
fn has_below(sizes: &[u128], end: u128) -> bool
    ensures { IsTrue result ↔ ((size : ℕ) × Contains sizes.now size × (size < end)) }
{
    sizes.iter().any(|size| *size < end)
}

// Whether a size is among the sizes.
fn is_among(sizes: &[u128], wanted: u128) -> bool
    ensures { IsTrue result ↔ Contains sizes.now wanted }
{
    sizes.iter().any(|size| *size == wanted)
}

// Adds each size, raised to an end: those at the end or above are there already, and the others all
// become the end.
fn add_raised(sizes: &mut Vec<u128>, end: u128) -> Result<(), Memory>
    ensures { OnOk result ((n : ℕ) → Contains sizes.new.items n ↔
        Contains (sizes.old.items ++ map (max end) sizes.old.items) n) }
{
    if has_below(sizes.as_slice(), end) && !is_among(sizes.as_slice(), end) {
        sizes.push(end)?;
    }
    Ok(())
}

/// Goes on to the sizes after an entry.
pub fn next_sizes(alloc: Global, sizes: &mut Vec<u128>, entry: &Entry) -> Result<(), Memory>
    ensures { OnOk result ((n : ℕ) → Contains sizes.new.items n ↔ Contains (sizes_after entry.now sizes.old.items) n) }
{
    match entry {
        Entry::Write {
            offset,
            bytes,
            acknowledged: true,
        } => raise(alloc, sizes, u128::from(*offset) + bytes.len() as u128),
        Entry::Write {
            offset,
            bytes,
            acknowledged: false,
        } => add_raised(sizes, u128::from(*offset) + bytes.len() as u128),
        Entry::Read {
            offset,
            length,
            answer: Some(bytes),
        } => keep_fitting(alloc, sizes, *offset, *length, bytes.as_slice()),
        Entry::Read { answer: None, .. } => Ok(()),
    }
}
