// What a read answers.
ghost use Rattle.std.specs.Prelude.{◌≡◌, ℕ, ◌+◌, ◌-◌, ◌*◌, ◌<◌, ◌≤◌, ◌++◌, length, None, IfOk, OnOk};
ghost use Rattle.data_map.specs.Striping.{data_units, group_width, parities, stripe_length};
ghost use Rattle.stripe_plan.specs.Touched.{clamped, stripes, IsLow, IsTouchedStripe};
ghost use Rattle.stripe_plan.specs.Lost.{unreadable};
ghost use Rattle.stripe_plan.specs.Words.{answered_between, answered_in, lost_from, IsDecodable};
ghost use Rattle.stripe_plan.specs.Plans.{assemble, columns_of, span, Gives};
ghost use Rattle.stripe_plan.specs.Laws.{FollowsRead};
ghost use Rattle.stripe_plan.specs.Indexed.{stretches_of, Indexes};

use crate::laid_bytes::index_parts;
use crate::lost::{check_readable, is_out};
use crate::plan::{Fetched, Interval, Out, PlanErr, Span};
use crate::row_index::RowIndex;
use crate::rows::{decoded_rows, got_in};
use crate::touched::{own_columns, touched_stripes};
use data_map::{DataMap, MAX_FILE_SIZE};
use osd_lists::{Bytes, Memory};
use std::alloc::Global;

// The bytes of a data unit in these columns.
fn answered_in(
    alloc: Global,
    map: &DataMap,
    got: &Fetched,
    index: &RowIndex,
    out: &Out,
    stripe: u64,
    unit: u32,
    columns: Interval,
) -> Result<Bytes, Memory>
    requires stripe { stripe ≤ MAX_FILE_SIZE }
    requires unit { unit < data_units map.now }
    requires low { IsLow columns }
    requires few { IsDecodable map.now out.now.components stripe unit }
    requires index { Indexes (stretches_of (columns_of map.now got.now)) index.now }
    ensures { IfOk result (λ bytes. bytes
        ≡ answered_in map.now (columns_of map.now got.now) out.now.components stripe unit columns) }
{
    if is_out(map, out, map.position(stripe, unit)) {
        let rows = decoded_rows(alloc, map, got, index, out, stripe, columns)?;
        return Bytes::copied(alloc, rows.get(unit as usize).as_slice());
    }
    got_in(alloc, map, got, index, stripe, unit, columns)
}

// The bytes of a stripe that are in the range.
fn append_stripe(
    answer: &mut Bytes,
    alloc: Global,
    map: &DataMap,
    range: Span,
    got: &Fetched,
    index: &RowIndex,
    out: &Out,
    stripe: u64,
) -> Result<(), Memory>
    requires inside { range.offset + range.length ≤ MAX_FILE_SIZE }
    requires some { 0 < range.length }
    requires stripe { stripe ≤ MAX_FILE_SIZE }
    requires touched { IsTouchedStripe map.now range stripe }
    requires readable { unreadable map.now range out.now.components (stripes map.now range) ≡ None }
    requires index { Indexes (stretches_of (columns_of map.now got.now)) index.now }
    ensures { OnOk result (answer.new ≡ answer.old
        ++ answered_between map.now (columns_of map.now got.now) out.now.components
        (clamped range (stripe * stripe_length map.now)) (clamped range ((stripe + 1) * stripe_length map.now))) }
{
    map.known();
    for unit in 0..map.data_units() {
        let own = own_columns(map, range, stripe, unit);
        if own.first < own.end {
            let bytes = answered_in(alloc, map, got, index, out, stripe, unit, own)?;
            answer.extend_from_slice(bytes.as_slice())?;
        }
    }
    Ok(())
}

/// The bytes of a range, out of what was read: a byte of its own position, or, where that is out, the one that is
/// decoded from its column.
///
/// The range ends at most at [`MAX_FILE_SIZE`]. `TooManyLost` comes as in [`plan_read`](crate::plan_read). Where all
/// was fetched that the plan names, each byte is that of all data that agree with what was fetched.
#[tactic(auto, unfolding(crate::specs::Plans::assemble))]
pub fn assemble(
    alloc: Global,
    map: &DataMap,
    off: u64,
    len: u64,
    got: &Fetched,
    out: &Out,
) -> Result<Bytes, PlanErr>
    requires { off + len ≤ MAX_FILE_SIZE }
    ensures exact { Gives (assemble map.now (span off len) got.now out.now.components) result }
    ensures follows { IfOk result (FollowsRead map.now (span off len) (columns_of map.now got.now) out.now.components) }
{
    let range = Span {
        offset: off,
        length: len,
    };
    map.known();
    check_readable(alloc, map, range, out)?;
    let index = index_parts(alloc, map, got.as_slice())?;
    let (first, end) = touched_stripes(map, range);
    let mut answer = Bytes::new(alloc);
    for stripe in first..end {
        append_stripe(&mut answer, alloc, map, range, got, &index, out, stripe)?;
    }
    Ok(answer)
}
