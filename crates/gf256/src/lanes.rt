//! Vectors of 64 elements, for kernels that go over slices in blocks.
ghost use Rattle.std.specs.Prelude.{◌≡◌, ℕ, ◌+◌, ◌*◌, ◌/◌, ◌%◌, ◌<◌, ◌≤◌, length, slice_index, bit_xor};
ghost use Rattle.gf256.specs.Field.{product};
ghost use Rattle.gf256.specs.Lanes.{HasLanes, StoredAt};

use crate::elements::mul;
use std::simd::prelude::*;

/// The 64 elements of a slice from `at` on.
#[inline(always)]
pub fn load(s: &[u8], at: usize) -> u8x64
    requires { at + 64 ≤ length s.now }
    ensures lanes { HasLanes result (λ k. slice_index s.now (at + k)) }
    ensures bytes { (k : ℕ) → k < 64 → slice_index result k < 256 }
{
    u8x64::from_slice(&s[at..])
}

/// Overwrites the 64 elements of a slice from `at` on.
#[inline(always)]
pub fn store(s: &mut [u8], at: usize, v: u8x64)
    requires { at + 64 ≤ length s.old }
    ensures { StoredAt at (λ k. slice_index v k) s.old s.new }
{
    v.copy_to_slice(&mut s[at..]);
}

/// The elements 0.
#[inline(always)]
pub fn zero() -> u8x64
    ensures { HasLanes result (λ _. 0) }
{
    u8x64::splat(0)
}

/// The sum in each lane.
#[inline(always)]
pub fn sum(a: u8x64, b: u8x64) -> u8x64
    ensures { HasLanes result (λ k. bit_xor (slice_index a k) (slice_index b k)) }
{
    a ^ b
}

/// Twice the element of each lane.
#[inline(always)]
pub fn doubled(v: u8x64) -> u8x64
    ensures { HasLanes result (λ k. product 2 (slice_index v k)) }
{
    let reduced = v
        .simd_ge(u8x64::splat(128))
        .select(u8x64::splat(0x1d), u8x64::splat(0));
    (v + v) ^ reduced
}

#[inline(always)]
fn low_half(v: u8x64) -> u8x64
    ensures { HasLanes result (λ k. slice_index v k % 16) }
{
    v & u8x64::splat(15)
}

#[inline(always)]
fn high_half(v: u8x64) -> u8x64
    ensures { HasLanes result (λ k. slice_index v k / 16) }
{
    v >> 4
}

#[inline(always)]
fn looked_up(table: u8x64, at: u8x64) -> u8x64
    requires { (k : ℕ) → k < 64 → slice_index at k < 16 }
    ensures { HasLanes result (λ k. slice_index table (16 * (k / 16) + slice_index at k)) }
{
    table.swizzle_dyn_within::<16>(at)
}

/// The products of one element with each half of a byte.
#[derive(Clone, Copy)]
pub struct ProductTables {
    low: u8x64,
    high: u8x64,
}

impl ProductTables {
    ghost use Rattle.gf256.specs.Tables.{HasProducts};

    /// The tables of the element `c`.
    pub fn new(c: u8) -> Self
        ensures { HasProducts c result }
    {
        let mut low = [0u8; 64];
        let mut high = [0u8; 64];
        for k in 0..64u8 {
            low[k as usize] = mul(c, k % 16);
            high[k as usize] = mul(c, 16 * (k % 16));
        }
        ProductTables {
            low: u8x64::from_array(low),
            high: u8x64::from_array(high),
        }
    }

    /// The product of the tables' element with each lane.
    #[inline(always)]
    pub fn times(&self, v: u8x64) -> u8x64
        ensures { (c : ℕ) → HasProducts c self.now → HasLanes result (λ k. product c (slice_index v k)) }
    {
        let by_low = looked_up(self.low, low_half(v));
        let by_high = looked_up(self.high, high_half(v));
        sum(by_low, by_high)
    }
}
