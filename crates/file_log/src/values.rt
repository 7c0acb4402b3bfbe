ghost use Rattle.std.specs.Prelude.{◌≡◌, ◌↔◌, ◌<◌, ◌+◌, ◌==◌, ◌++◌, ℕ, Some, [], ◌∷◌, length, slice_index, if◌then◌else◌, IsTrue, OnOk, Contains};
ghost use Rattle.file_log.specs.Judge.{byte_for, taken_byte, values_after};
ghost use Rattle.file_log.specs.Held.{values_in};

use crate::entry::Entry;
use osd_lists::{Bytes, Memory};
use std::alloc::Global;
use std::collections::BTreeMap;

// Whether a byte is among the values of a position.
fn may_stand(values: &BTreeMap<u128, Bytes>, position: u128, byte: u8) -> bool
    ensures { IsTrue result ↔ Contains (values_in values.now.entries position) byte }
{
    match values.get(&position) {
        Some(kept) => kept.as_slice().iter().any(|value| *value == byte),
        None => byte == 0,
    }
}

/// Whether each byte of a piece is among the values of its position.
pub fn has_bytes(values: &BTreeMap<u128, Bytes>, offset: u64, piece: &[u8]) -> bool
    ensures { IsTrue result ↔ ((i : ℕ) → i < length piece.now →
        Contains (values_in values.now.entries (offset + i)) (slice_index piece.now i)) }
{
    for i in 0..piece.len() {
        if !may_stand(values, u128::from(offset) + i as u128, piece[i]) {
            return false;
        }
    }
    true
}

// Settles or joins the byte of a position.
fn put_byte(
    alloc: Global,
    values: &mut BTreeMap<u128, Bytes>,
    position: u128,
    byte: u8,
    settles: bool,
) -> Result<(), Memory>
    ensures { OnOk result ((q : ℕ) → values_in values.new.entries q ≡
        (if q == position then taken_byte settles (Some byte) (values_in values.old.entries q)
        else values_in values.old.entries q)) }
{
    if settles {
        values.insert(position, Bytes::copied(alloc, &[byte])?)?;
        return Ok(());
    }
    if let Some(kept) = values.get_mut(&position) {
        return kept.push(byte);
    }
    values.insert(position, Bytes::copied(alloc, &[0, byte])?)?;
    Ok(())
}

// Settles or joins each byte of a piece at its position.
fn put_piece(
    alloc: Global,
    values: &mut BTreeMap<u128, Bytes>,
    offset: u64,
    piece: &[u8],
    settles: bool,
) -> Result<(), Memory>
    ensures { OnOk result ((p : ℕ) → values_in values.new.entries p ≡ taken_byte settles (byte_for offset piece.now p)
        (values_in values.old.entries p)) }
{
    for i in 0..piece.len() {
        put_byte(
            alloc,
            values,
            u128::from(offset) + i as u128,
            piece[i],
            settles,
        )?;
    }
    Ok(())
}

/// Goes on to the values after an entry.
pub fn next_values(
    alloc: Global,
    values: &mut BTreeMap<u128, Bytes>,
    entry: &Entry,
) -> Result<(), Memory>
    ensures { OnOk result ((p : ℕ) → values_in values.new.entries p ≡ values_after entry.now p
        (values_in values.old.entries p)) }
{
    match entry {
        Entry::Write {
            offset,
            bytes,
            acknowledged,
        } => put_piece(alloc, values, *offset, bytes.as_slice(), *acknowledged),
        Entry::Read {
            offset,
            answer: Some(bytes),
            ..
        } => put_piece(alloc, values, *offset, bytes.as_slice(), true),
        Entry::Read { answer: None, .. } => Ok(()),
    }
}
