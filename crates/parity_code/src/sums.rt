// P and Q of columns, from the data rows. Q is summed from the last row on, by doubling.
ghost use Rattle.std.specs.Prelude.{◌≡◌, ℕ, ◌+◌, ◌<◌, ◌≤◌, length, slice_index};
ghost use Rattle.std.specs.List.{All};
ghost use Rattle.gf256.specs.Lanes.{HasLanes};
ghost use Rattle.parity_code.specs.Parity.{column, p_of, q_of};

use gf256::{lanes, mul};
use osd_lists::Bytes;
use std::simd::prelude::*;

// Of the 64 columns from `at` on.
#[inline(always)]
pub(crate) fn block_p(units: &[Bytes], at: usize) -> u8x64
    requires { All (λ row. at + 64 ≤ length row) units.now }
    ensures { HasLanes result (λ k. p_of (column units.now (at + k))) }
{
    let mut p = lanes::zero();
    for i in (0..units.len()).rev() {
        let unit = block_of(units, i, at);
        p = lanes::sum(unit, p);
    }
    p
}

// Of the 64 columns from `at` on, in one pass.
#[inline(always)]
pub(crate) fn block_p_and_q(units: &[Bytes], at: usize) -> (u8x64, u8x64)
    requires some { 0 < length units.now }
    requires room { All (λ row. at + 64 ≤ length row) units.now }
    ensures p { HasLanes result.0 (λ k. p_of (column units.now (at + k))) }
    ensures q { HasLanes result.1 (λ k. q_of (column units.now (at + k))) }
{
    let last = units.len() - 1;
    let first = block_of(units, last, at);
    let mut p = first;
    let mut q = first;
    for i in (0..last).rev() {
        let unit = block_of(units, i, at);
        p = lanes::sum(unit, p);
        q = lanes::sum(lanes::doubled(q), unit);
    }
    (p, q)
}

// Of column `k`.
pub(crate) fn column_p_and_q(units: &[Bytes], k: usize) -> (u8, u8)
    requires { All (λ row. k < length row) units.now }
    ensures p { result.0 ≡ p_of (column units.now k) }
    ensures q { result.1 ≡ q_of (column units.now k) }
{
    let mut p = 0;
    let mut q = 0;
    for i in (0..units.len()).rev() {
        let unit = byte_at(&units[i], k);
        p = unit ^ p;
        q = mul(2, q) ^ unit;
    }
    (p, q)
}

// The 64 bytes of a row from `at` on.
#[inline(always)]
pub(crate) fn block_of(rows: &[Bytes], row: usize, at: usize) -> u8x64
    requires row { row < length rows.now }
    requires room { All (λ row. at + 64 ≤ length row) rows.now }
    ensures lanes { HasLanes result (λ k. slice_index (column rows.now (at + k)) row) }
    ensures bytes { (k : ℕ) → k < 64 → slice_index result k < 256 }
{
    lanes::load(rows[row].as_slice(), at)
}

// Byte `k` of a row.
pub(crate) fn byte_at(row: &Bytes, k: usize) -> u8
    requires { k < length row.now }
    ensures { result ≡ slice_index row.now k }
{
    row.as_slice()[k]
}

// What the members of a list of rows are known to be. Nothing runs.
pub(crate) fn rows_are_bytes(rows: &[Bytes])
    ensures { All (λ row. (k : ℕ) → slice_index row k < 256) rows.now }
{
    for row in rows {
        row_is_bytes(row.as_slice());
    }
}

fn row_is_bytes(bytes: &[u8])
    ensures { (k : ℕ) → slice_index bytes.now k < 256 }
{
    let _ = bytes;
}
