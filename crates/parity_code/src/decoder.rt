// Lost rows from the rows that are left.
ghost use Rattle.std.specs.Prelude.{◌≡◌, ℕ, ◌-◌, ◌<◌, List, length, map, take, slice_get, OnOk, OnErr};
ghost use Rattle.std.specs.List.{All, Contains};
ghost use Rattle.parity_code.specs.Parity.{column};
ghost use Rattle.parity_code.specs.Codeword.{count_of, codeword, width_of, AreRows, AgreeOutside};
ghost use Rattle.parity_code.specs.Decoding.{decoded, decoding, ArePositions};

use crate::code::{Code, CodeErr};
use crate::erasures::{restore_one, restore_two};
use osd_lists::Rows;

/// Brings back the lost rows, whatever they hold: a column that was a codeword is that codeword again. With as many
/// rows lost as the code has parity rows, each column becomes a codeword. In any other column a lost row becomes the
/// sum of multiples of the other rows that `decoded` of specs/ names.
///
/// The rows are as [`encode`](crate::encode) takes them, and the positions rise and are below their number. It fails
/// with [`CodeErr::TooManyLost`] exactly where more rows are lost than the code has parity rows, and then changes
/// nothing. Rows that aren't lost stay as they are.
pub fn decode(code: Code, rows: &mut Rows, lost: &[u32]) -> Result<(), CodeErr>
    requires rows { AreRows code rows.old }
    requires lost { ArePositions (length rows.old) lost.now }
    ensures outcome { result ≡ decoding code lost.now }
    ensures refused { OnErr result (rows.new ≡ rows.old) }
    ensures shape { map length rows.new ≡ map length rows.old }
    ensures exact { OnOk result ((k : ℕ) → k < width_of rows.old
        → column rows.new k ≡ decoded (length rows.old - count_of code) lost.now (column rows.old k)) }
    ensures kept { (j : ℕ) → ¬ Contains lost.now j → slice_get rows.new j ≡ slice_get rows.old j }
    ensures whole { OnOk result ((k : ℕ) (units : List ℕ) → k < width_of rows.old → All (λ d. d < 256) units
        → AgreeOutside lost.now (codeword code units) (column rows.old k)
        → column rows.new k ≡ codeword code units) }
    ensures coded { OnOk result (length lost.now ≡ count_of code → (k : ℕ) → k < width_of rows.old
        → column rows.new k ≡ codeword code (take (length rows.old - count_of code) (column rows.new k))) }
{
    if lost.len() > code.count() as usize {
        return Err(CodeErr::TooManyLost {
            lost: lost.len() as u32,
        });
    }
    let units = rows.len() - code.count() as usize;
    match lost {
        [] => {}
        [x] => restore_one(rows, units, *x as usize),
        [x, y, ..] => restore_two(rows, units, *x as usize, *y as usize),
    }
    Ok(())
}
