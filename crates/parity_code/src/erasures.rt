// The bytes of lost rows, which were filled with 0, from the rows that are left.
ghost use Rattle.std.specs.Prelude.{◌≡◌, ℕ, ◌+◌, ◌<◌, ◌≤◌, [], ◌∷◌, length, map, slice_index};
ghost use Rattle.std.specs.List.{All};
ghost use Rattle.gf256.specs.Lanes.{HasLanes};
ghost use Rattle.parity_code.specs.declared.repair.Repair.{Repair};
ghost use Rattle.parity_code.specs.Parity.{column};
ghost use Rattle.parity_code.specs.Codeword.{width_of};
ghost use Rattle.parity_code.specs.Columns.{Become};
ghost use Rattle.parity_code.specs.Syndromes.{p_syndrome, q_syndrome};
ghost use Rattle.parity_code.specs.Repairs.{repaired_column, HasTables};
ghost use Rattle.parity_code.specs.Restored.{HasParity, Restored};

use crate::columns::{clear, store_block, store_byte};
use crate::repair::{Repair, RepairTables, repair_of_one, repairs_of_two};
use crate::sums::{block_of, block_p_and_q, byte_at, column_p_and_q, rows_are_bytes};
use gf256::lanes;
use osd_lists::{Bytes, Rows};
use std::simd::prelude::*;

// Brings back one row, whatever it holds.
pub(crate) fn restore_one(rows: &mut Rows, units: usize, x: usize)
    requires rows { HasParity units rows.old }
    requires last { x < length rows.old }
    ensures { Restored units (x ∷ []) rows.old rows.new }
{
    rows_are_bytes(rows.as_slice());
    clear(rows, x);
    let repair = repair_of_one(units, x);
    restore(rows, units, repair, repair);
}

// Brings back two rows, whatever they hold.
pub(crate) fn restore_two(rows: &mut Rows, units: usize, x: usize, y: usize)
    requires rows { HasParity units rows.old }
    requires both { length rows.old ≡ units + 2 }
    requires rising { x < y }
    requires last { y < length rows.old }
    ensures { Restored units (x ∷ y ∷ []) rows.old rows.new }
{
    rows_are_bytes(rows.as_slice());
    clear(rows, x);
    clear(rows, y);
    let (first, second) = repairs_of_two(units, x, y);
    restore(rows, units, first, second);
}

// Does both repairs, which may be of one row, in each column.
fn restore(rows: &mut Rows, units: usize, first: Repair, second: Repair)
    requires rows { HasParity units rows.old }
    requires first { first.row < length rows.old }
    requires second { second.row < length rows.old }
    ensures { Become 0 (width_of rows.old) (repaired_column units first second) rows.old rows.new }
{
    let first_tables = RepairTables::new(first);
    let second_tables = RepairTables::new(second);
    let width = rows.get(0).len();
    let blocks = width / 64;
    for b in 0..blocks {
        restore_block(rows, units, 64 * b, &first_tables, &second_tables);
    }
    for k in 64 * blocks..width {
        restore_column(rows, units, k, first, second);
    }
}

#[inline(always)]
fn restore_block(
    rows: &mut Rows,
    units: usize,
    at: usize,
    first: &RepairTables,
    second: &RepairTables,
)
    requires first { first.now.row < length rows.old }
    requires second { second.now.row < length rows.old }
    requires some { 0 < units }
    requires units { units < length rows.old }
    requires room { All (λ row. at + 64 ≤ length row) rows.old }
    ensures { (r s : Repair) → HasTables r first.now → HasTables s second.now →
        Become at 64 (repaired_column units r s) rows.old rows.new }
{
    let (p, q) = block_syndromes(rows.as_slice(), units, at);
    store_block(rows, first.row, at, first.block(p, q));
    store_block(rows, second.row, at, second.block(p, q));
}

fn restore_column(rows: &mut Rows, units: usize, k: usize, first: Repair, second: Repair)
    requires first { first.row < length rows.old }
    requires second { second.row < length rows.old }
    requires units { units < length rows.old }
    requires room { All (λ row. k < length row) rows.old }
    ensures { Become k 1 (repaired_column units first second) rows.old rows.new }
{
    let (p, q) = column_syndromes(rows.as_slice(), units, k);
    store_byte(rows, first.row, k, first.byte(p, q));
    store_byte(rows, second.row, k, second.byte(p, q));
}

#[inline(always)]
fn block_syndromes(rows: &[Bytes], units: usize, at: usize) -> (u8x64, u8x64)
    requires some { 0 < units }
    requires units { units < length rows.now }
    requires room { All (λ row. at + 64 ≤ length row) rows.now }
    ensures p { HasLanes result.0 (λ k. p_syndrome units (column rows.now (at + k))) }
    ensures q { HasLanes result.1 (λ k. q_syndrome units (column rows.now (at + k))) }
{
    let (first, _) = rows.split_at(units);
    let (p, q) = block_p_and_q(first, at);
    (
        lanes::sum(p, block_or_zero(rows, units, at)),
        lanes::sum(q, block_or_zero(rows, units + 1, at)),
    )
}

fn column_syndromes(rows: &[Bytes], units: usize, k: usize) -> (u8, u8)
    requires units { units < length rows.now }
    requires room { All (λ row. k < length row) rows.now }
    ensures p { result.0 ≡ p_syndrome units (column rows.now k) }
    ensures q { result.1 ≡ q_syndrome units (column rows.now k) }
{
    let (first, _) = rows.split_at(units);
    let (p, q) = column_p_and_q(first, k);
    (
        p ^ byte_or_zero(rows, units, k),
        q ^ byte_or_zero(rows, units + 1, k),
    )
}

// The 64 bytes of a row from `at` on, or 0 where there is no such row.
#[inline(always)]
fn block_or_zero(rows: &[Bytes], row: usize, at: usize) -> u8x64
    requires { All (λ row. at + 64 ≤ length row) rows.now }
    ensures { HasLanes result (λ k. slice_index (column rows.now (at + k)) row) }
{
    if row < rows.len() {
        block_of(rows, row, at)
    } else {
        lanes::zero()
    }
}

// Byte `k` of a row, or 0 where there is no such row.
fn byte_or_zero(rows: &[Bytes], row: usize, k: usize) -> u8
    requires { All (λ row. k < length row) rows.now }
    ensures { result ≡ slice_index (column rows.now k) row }
{
    if row < rows.len() {
        byte_at(&rows[row], k)
    } else {
        0
    }
}
