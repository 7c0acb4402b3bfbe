// The parity of a stripe from its data.
ghost use Rattle.std.specs.Prelude.{◌≡◌, ℕ, ◌+◌, ◌-◌, ◌<◌, ◌≤◌, length, map, take, slice_get};
ghost use Rattle.std.specs.List.{All};
ghost use Rattle.parity_code.specs.Parity.{column};
ghost use Rattle.parity_code.specs.Codeword.{count_of, codeword, width_of, AreRows};
ghost use Rattle.parity_code.specs.Columns.{Become};

use crate::code::Code;
use crate::columns::{store_block, store_byte};
use crate::sums::{block_p, block_p_and_q, column_p_and_q};
use osd_lists::Rows;

/// Overwrites the parity rows, so that each column is the codeword of its data.
///
/// The rows have one length, and at least one and at most 255 of them are data.
pub fn encode(code: Code, rows: &mut Rows)
    requires { AreRows code rows.old }
    ensures shape { map length rows.new ≡ map length rows.old }
    ensures kept { (j : ℕ) → j < length rows.old - count_of code → slice_get rows.new j ≡ slice_get rows.old j }
    ensures coded { (k : ℕ) → k < width_of rows.old
        → column rows.new k ≡ codeword code (take (length rows.old - count_of code) (column rows.old k)) }
{
    let units = rows.len() - code.count() as usize;
    let width = rows.get(0).len();
    let blocks = width / 64;
    for b in 0..blocks {
        encode_block(code, rows, units, 64 * b);
    }
    for k in 64 * blocks..width {
        encode_column(code, rows, units, k);
    }
}

#[inline(always)]
fn encode_block(code: Code, rows: &mut Rows, units: usize, at: usize)
    requires some { 0 < units }
    requires units { units + count_of code ≡ length rows.old }
    requires room { All (λ row. at + 64 ≤ length row) rows.old }
    ensures { Become at 64 (λ col. codeword code (take units col)) rows.old rows.new }
{
    let (first, _) = rows.as_slice().split_at(units);
    match code {
        Code::Plain => {}
        Code::Xor => {
            let p = block_p(first, at);
            store_block(rows, units, at, p);
        }
        Code::PandQ => {
            let (p, q) = block_p_and_q(first, at);
            store_block(rows, units, at, p);
            store_block(rows, units + 1, at, q);
        }
    }
}

fn encode_column(code: Code, rows: &mut Rows, units: usize, k: usize)
    requires units { units + count_of code ≡ length rows.old }
    requires room { All (λ row. k < length row) rows.old }
    ensures { Become k 1 (λ col. codeword code (take units col)) rows.old rows.new }
{
    let (first, _) = rows.as_slice().split_at(units);
    let (p, q) = column_p_and_q(first, k);
    match code {
        Code::Plain => {}
        Code::Xor => store_byte(rows, units, k, p),
        Code::PandQ => {
            store_byte(rows, units, k, p);
            store_byte(rows, units + 1, k, q);
        }
    }
}
