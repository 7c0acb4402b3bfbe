// Parity that follows a change of one row of data.
ghost use Rattle.std.specs.Prelude.{◌≡◌, ℕ, ◌<◌, List, length, slice_index, slice_set};
ghost use Rattle.std.specs.List.{All};
ghost use Rattle.gf256.specs.Field.{summed};
ghost use Rattle.parity_code.specs.Parity.{p_of, q_of};
ghost use Rattle.parity_code.specs.Codeword.{count_of};
ghost use Rattle.parity_code.specs.Delta.{p_after, q_after};

use crate::code::Code;
use gf256::{add, add_scaled, power};

/// Takes the parity of a stripe with the row `old` at `data_position` to that with the row `new` there.
///
/// All rows have one length. With [`Code::Xor`] `q` stays as it is, and with [`Code::Plain`] both do: what stays may
/// have any length.
pub fn parity_delta(
    code: Code,
    data_position: u32,
    old: &[u8],
    new: &[u8],
    p: &mut [u8],
    q: &mut [u8],
)
    requires new { length new.now ≡ length old.now }
    requires p { 0 < count_of code → length p.old ≡ length old.now }
    requires q { 1 < count_of code → length q.old ≡ length old.now }
    ensures p { p.new ≡ p_after code old.now new.now p.old }
    ensures q { q.new ≡ q_after code data_position old.now new.now q.old }
    // in each column, whatever the other data are
    ensures p_follows { 0 < count_of code → (k : ℕ) (units : List ℕ) → k < length old.now → data_position < length units
        → slice_index units data_position ≡ slice_index old.now k → slice_index p.old k ≡ p_of units
        → slice_index p.new k ≡ p_of (slice_set units data_position (slice_index new.now k)) }
    ensures q_follows { 1 < count_of code → (k : ℕ) (units : List ℕ) → k < length old.now → data_position < length units
        → slice_index units data_position ≡ slice_index old.now k → slice_index q.old k ≡ q_of units
        → slice_index q.new k ≡ q_of (slice_set units data_position (slice_index new.now k)) }
{
    match code {
        Code::Plain => {}
        Code::Xor => exchange(p, old, new),
        Code::PandQ => {
            exchange(p, old, new);
            let weight = power(data_position);
            add_scaled(q, weight, old);
            add_scaled(q, weight, new);
        }
    }
}

// Takes `old` out of a sum and puts `new` in.
fn exchange(sum: &mut [u8], old: &[u8], new: &[u8])
    requires old { length sum.old ≡ length old.now }
    requires new { length new.now ≡ length old.now }
    ensures { sum.new ≡ summed (summed sum.old old.now) new.now }
{
    add(sum, old);
    add(sum, new);
}
