// Writes into one row, as its columns see them.
ghost use Rattle.std.specs.Prelude.{◌≡◌, ◌+◌, ◌<◌, ◌≤◌, [], length, slice_index, slice_index_or, EachIndex};
ghost use Rattle.parity_code.specs.Columns.{Stored};

use gf256::lanes;
use osd_lists::Rows;
use std::simd::prelude::*;

#[inline(always)]
pub(crate) fn store_block(rows: &mut Rows, row: usize, at: usize, block: u8x64)
    requires row { row < length rows.old }
    requires room { at + 64 ≤ length (slice_index_or rows.old row []) }
    ensures { Stored row at 64 (λ k. slice_index block k) rows.old rows.new }
{
    lanes::store(rows.get_mut(row).as_mut_slice(), at, block);
}

pub(crate) fn store_byte(rows: &mut Rows, row: usize, k: usize, byte: u8)
    requires row { row < length rows.old }
    requires room { k < length (slice_index_or rows.old row []) }
    ensures { Stored row k 1 (λ _. byte) rows.old rows.new }
{
    *rows.get_mut(row).get_mut(k) = byte;
}

// Fills a row with 0.
pub(crate) fn clear(rows: &mut Rows, row: usize)
    requires { row < length rows.old }
    ensures { Stored row 0 (length (slice_index_or rows.old row [])) (λ _. 0) rows.old rows.new }
{
    zero(rows.get_mut(row).as_mut_slice());
}

fn zero(bytes: &mut [u8])
    ensures long { length bytes.new ≡ length bytes.old }
    ensures zeros { EachIndex bytes.new (λ k. slice_index bytes.new k ≡ 0) }
{
    for byte in bytes.iter_mut() {
        *byte = 0;
    }
}
