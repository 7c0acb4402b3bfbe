ghost use Rattle.std.specs.Prelude.{◌≡◌, ◌<◌, ◌≤◌, ◌^◌, length, IfOk};
ghost use Rattle.server_rules.specs.Columns.{first_unlike, end_of, filled};

use osd_lists::{Bytes, Memory};
use std::alloc::Global;

/// The first column in which two rows of one length differ.
#[tactic(auto, unfolding(server_rules::specs::Columns::first_unlike))]
pub fn first_unlike(xs: &[u8], ys: &[u8]) -> usize
    requires { length xs.now ≡ length ys.now }
    ensures { result ≡ first_unlike xs.now ys.now }
{
    for i in 0..xs.len() {
        if xs[i] != ys[i] {
            return i;
        }
    }
    xs.len()
}

/// The column behind the last in which they differ, else 0.
#[tactic(auto, unfolding(server_rules::specs::Columns::end_unlike))]
pub fn end_unlike(xs: &[u8], ys: &[u8]) -> usize
    requires { length xs.now ≡ length ys.now }
    ensures value { result ≡ end_of xs.now ys.now }
    ensures inside { result ≤ length xs.now }
    ensures behind { 0 < result → first_unlike xs.now ys.now < result }
{
    let mut end = 0usize;
    for i in 0..xs.len() {
        if xs[i] != ys[i] {
            end = i + 1;
        }
    }
    end
}

/// The first `count` of the bytes; if there are fewer, all of them and zeros after them.
pub fn filled(alloc: Global, bytes: &[u8], count: usize) -> Result<Bytes, Memory>
    requires { count < 2 ^ 63 }
    ensures { IfOk result (λ row. row ≡ filled bytes.now count) }
{
    let carried = bytes.len().min(count);
    let mut row = Bytes::copied(alloc, &bytes[..carried])?;
    row.grow(count)?;
    Ok(row)
}
