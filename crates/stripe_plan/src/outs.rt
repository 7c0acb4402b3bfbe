// What a write makes of its stripes.
ghost use Rattle.std.specs.Prelude.{◌≡◌, ℕ, false, ◌+◌, ◌<◌, ◌≤◌, ◌++◌, List, length, IfOk, OnOk};
ghost use Rattle.std.specs.List.{All};
ghost use Rattle.data_map.specs.Striping.{data_units, group_width, parities};
ghost use Rattle.stripe_plan.specs.Touched.{columns, whole, IsLow};
ghost use Rattle.stripe_plan.specs.Words.{lost_from, parity_at};
ghost use Rattle.stripe_plan.specs.Encoded.{data_columns, parity_column, parity_columns};
ghost use Rattle.stripe_plan.specs.Encoded.{AreParities, HasParity, IsInUnit};
ghost use Rattle.stripe_plan.specs.Plans.{apply_and_encode, columns_of, span, written_place, written_stripe, Gives};
ghost use Rattle.stripe_plan.specs.Laws.{FollowsWrite};
ghost use Rattle.stripe_plan.specs.Indexed.{stretches_of, Indexes};

use crate::laid_bytes::index_parts;
use crate::lost::{check_writable, is_out};
use crate::needed::is_degraded;
use crate::new_parity::{encode_new, new_bytes};
use crate::parity_change::changed_parity;
use crate::plan::{Column, Columns, Fetched, Interval, Intervals, Out, PlanErr, Span};
use crate::rows::decoded_rows;
use crate::touched::{holds_whole, own_columns, touched_columns, touched_stripes};
use crate::whole::push_whole;
use crate::write::Write;
use data_map::{DataMap, MAX_FILE_SIZE};
use osd_lists::{Bytes, Memory, Rows, Sequence};
use std::alloc::Global;

// The parity of some columns after the write, as the last rows: of decoded data with the new, or the old changed.
fn parity_of(
    alloc: Global,
    write: &Write<'_>,
    stripe: u64,
    columns: Interval,
) -> Result<Rows, Memory>
    requires inside { write.now.range.offset + write.now.range.length ≤ MAX_FILE_SIZE }
    requires bytes { length write.now.bytes.now ≡ write.now.range.length }
    requires stripe { stripe ≤ MAX_FILE_SIZE }
    requires low { IsLow columns }
    requires unit { IsInUnit write.now.map.now columns }
    requires some { 0 < parities write.now.map.now }
    requires part { whole write.now.map.now write.now.range stripe ≡ false }
    requires few { length (lost_from write.now.map.now write.now.out.now.components stripe 0 (group_width write.now.map.now))
        ≤ parities write.now.map.now }
    requires index { Indexes (stretches_of (columns_of write.now.map.now write.now.got.now)) write.now.index.now }
    ensures { IfOk result (HasParity (parities write.now.map.now) columns
        (parity_at write.now.map.now write.now.range write.now.bytes.now
        (columns_of write.now.map.now write.now.got.now) write.now.out.now.components stripe)) }
{
    let map = write.map;
    if is_degraded(alloc, map, write.out, stripe)? {
        let mut rows = decoded_rows(
            alloc,
            map,
            write.got,
            write.index,
            write.out,
            stripe,
            columns,
        )?;
        encode_new(map, write.range, write.bytes, stripe, columns, &mut rows);
        return Ok(rows);
    }
    let rows = changed_parity(alloc, write, stripe, columns)?;
    Ok(rows)
}

// The parity of each of these columns.
fn parities_of(
    alloc: Global,
    write: &Write<'_>,
    stripe: u64,
    intervals: &[Interval],
) -> Result<Sequence<Rows>, Memory>
    requires inside { write.now.range.offset + write.now.range.length ≤ MAX_FILE_SIZE }
    requires bytes { length write.now.bytes.now ≡ write.now.range.length }
    requires stripe { stripe ≤ MAX_FILE_SIZE }
    requires low { All IsLow intervals.now }
    requires unit { All (IsInUnit write.now.map.now) intervals.now }
    requires part { whole write.now.map.now write.now.range stripe ≡ false }
    requires few { length (lost_from write.now.map.now write.now.out.now.components stripe 0 (group_width write.now.map.now))
        ≤ parities write.now.map.now }
    requires index { Indexes (stretches_of (columns_of write.now.map.now write.now.got.now)) write.now.index.now }
    ensures value { 0 < parities write.now.map.now → IfOk result (AreParities (parities write.now.map.now) intervals.now
        (parity_at write.now.map.now write.now.range write.now.bytes.now
        (columns_of write.now.map.now write.now.got.now) write.now.out.now.components stripe)) }
    ensures enough { IfOk result (λ all. All (λ rows. parities write.now.map.now ≤ length rows) all) }
{
    let mut all = Sequence::new(alloc);
    if write.map.parities() == 0 {
        return Ok(all);
    }
    for columns in intervals {
        let rows = parity_of(alloc, write, stripe, *columns)?;
        all.push(rows)?;
    }
    Ok(all)
}

// The new bytes of a data unit.
fn push_data(
    made: &mut Columns,
    alloc: Global,
    write: &Write<'_>,
    stripe: u64,
    unit: u32,
    position: u32,
) -> Result<(), Memory>
    requires inside { write.now.range.offset + write.now.range.length ≤ MAX_FILE_SIZE }
    requires bytes { length write.now.bytes.now ≡ write.now.range.length }
    requires stripe { stripe ≤ MAX_FILE_SIZE }
    requires unit { unit < data_units write.now.map.now }
    ensures { OnOk result (made.new
        ≡ made.old ++ data_columns write.now.map.now write.now.range write.now.bytes.now stripe unit position) }
{
    let map = write.map;
    let own = own_columns(map, write.range, stripe, unit);
    if own.first >= own.end {
        return Ok(());
    }
    let column = Column {
        position,
        offset: map.row(stripe) * map.raw().unit + own.first,
        bytes: new_bytes(alloc, map, write.range, write.bytes, stripe, unit, own)?,
    };
    made.push(column)?;
    Ok(())
}

// One row of the parity of some columns.
fn parity_column(
    alloc: Global,
    map: &DataMap,
    stripe: u64,
    position: u32,
    columns: Interval,
    rows: &Rows,
    row: u32,
) -> Result<Column, Memory>
    requires stripe { stripe ≤ MAX_FILE_SIZE }
    requires low { IsLow columns }
    requires row { row < parities map.now }
    requires enough { parities map.now ≤ length rows.now }
    ensures { (f : ℕ → ℕ → ℕ) → HasParity (parities map.now) columns f rows.now
        → IfOk result (λ column. column ≡ parity_column map.now stripe position f row columns) }
{
    let index = rows.len() - map.parities() as usize + row as usize;
    let bytes = Bytes::copied(alloc, rows.get(index).as_slice())?;
    Ok(Column {
        position,
        offset: map.row(stripe) * map.raw().unit + columns.first,
        bytes,
    })
}

// The parity of a parity unit.
fn push_parity(
    made: &mut Columns,
    alloc: Global,
    map: &DataMap,
    stripe: u64,
    position: u32,
    intervals: &[Interval],
    parity: &[Rows],
    row: u32,
) -> Result<(), Memory>
    requires stripe { stripe ≤ MAX_FILE_SIZE }
    requires low { All IsLow intervals.now }
    requires row { row < parities map.now }
    requires same { length parity.now ≡ length intervals.now }
    requires enough { All (λ rows. parities map.now ≤ length rows) parity.now }
    ensures { (f : ℕ → ℕ → ℕ) → AreParities (parities map.now) intervals.now f parity.now
        → OnOk result (made.new ≡ made.old ++ parity_columns map.now stripe position f row intervals.now) }
{
    for j in 0..intervals.len() {
        made.push(parity_column(alloc, map, stripe, position, intervals[j], &parity[j], row)?)?;
    }
    Ok(())
}

// What a write makes at one place of a stripe's group. `intervals` are the touched columns and `parity` their parity.
#[tactic(auto, unfolding(crate::specs::Plans::written_place))]
fn push_place(
    made: &mut Columns,
    alloc: Global,
    write: &Write<'_>,
    stripe: u64,
    place: u32,
    intervals: &[Interval],
    parity: &[Rows],
) -> Result<(), Memory>
    requires inside { write.now.range.offset + write.now.range.length ≤ MAX_FILE_SIZE }
    requires bytes { length write.now.bytes.now ≡ write.now.range.length }
    requires stripe { stripe ≤ MAX_FILE_SIZE }
    requires place { place < group_width write.now.map.now }
    requires intervals { intervals.now ≡ columns write.now.map.now write.now.range stripe }
    requires low { All IsLow intervals.now }
    requires same { 0 < parities write.now.map.now → length parity.now ≡ length intervals.now }
    requires enough { All (λ rows. parities write.now.map.now ≤ length rows) parity.now }
    ensures { (got : List Column)
        → (0 < parities write.now.map.now → AreParities (parities write.now.map.now) intervals.now
        (parity_at write.now.map.now write.now.range write.now.bytes.now got write.now.out.now.components stripe) parity.now)
        → OnOk result (made.new ≡ made.old
        ++ written_place write.now.map.now write.now.range write.now.bytes.now got write.now.out.now.components stripe place) }
{
    let map = write.map;
    let unit = map.unit_in(stripe, place);
    let position = map.group(stripe) * map.group_width() + place;
    if is_out(map, write.out, position) {
        return Ok(());
    }
    if unit < map.data_units() {
        return push_data(made, alloc, write, stripe, unit, position);
    }
    let row = unit - map.data_units();
    push_parity(made, alloc, map, stripe, position, intervals, parity, row)
}

// What a write makes of a stripe that its range holds in part.
fn push_part(
    made: &mut Columns,
    alloc: Global,
    write: &Write<'_>,
    stripe: u64,
) -> Result<(), Memory>
    requires inside { write.now.range.offset + write.now.range.length ≤ MAX_FILE_SIZE }
    requires bytes { length write.now.bytes.now ≡ write.now.range.length }
    requires stripe { stripe ≤ MAX_FILE_SIZE }
    requires part { whole write.now.map.now write.now.range stripe ≡ false }
    requires few { length (lost_from write.now.map.now write.now.out.now.components stripe 0 (group_width write.now.map.now))
        ≤ parities write.now.map.now }
    requires index { Indexes (stretches_of (columns_of write.now.map.now write.now.got.now)) write.now.index.now }
    ensures { OnOk result (made.new ≡ made.old ++ written_stripe write.now.map.now write.now.range write.now.bytes.now
        (columns_of write.now.map.now write.now.got.now) write.now.out.now.components stripe 0 (group_width write.now.map.now)) }
{
    let touched = touched_columns(alloc, write.map, write.range, stripe)?;
    let columns = touched.as_slice();
    let parity = parities_of(alloc, write, stripe, columns)?;
    let rows = parity.as_slice();
    for place in 0..write.map.group_width() {
        push_place(made, alloc, write, stripe, place, columns, rows)?;
    }
    Ok(())
}

// What a write makes of a stripe.
fn push_stripe(
    made: &mut Columns,
    alloc: Global,
    write: &Write<'_>,
    stripe: u64,
) -> Result<(), Memory>
    requires inside { write.now.range.offset + write.now.range.length ≤ MAX_FILE_SIZE }
    requires bytes { length write.now.bytes.now ≡ write.now.range.length }
    requires stripe { stripe ≤ MAX_FILE_SIZE }
    requires few { length (lost_from write.now.map.now write.now.out.now.components stripe 0 (group_width write.now.map.now))
        ≤ parities write.now.map.now }
    requires index { Indexes (stretches_of (columns_of write.now.map.now write.now.got.now)) write.now.index.now }
    ensures { OnOk result (made.new ≡ made.old ++ written_stripe write.now.map.now write.now.range write.now.bytes.now
        (columns_of write.now.map.now write.now.got.now) write.now.out.now.components stripe 0 (group_width write.now.map.now)) }
{
    let map = write.map;
    if holds_whole(map, write.range, stripe) {
        return push_whole(
            made,
            alloc,
            map,
            write.range,
            write.bytes,
            write.out,
            stripe,
        );
    }
    push_part(made, alloc, write, stripe)
}

/// The bytes that a write of a range puts at each position that isn't out, out of what was gathered: its own new bytes,
/// and the touched columns of each parity position. By stripe, position and offset.
///
/// The parity of a stripe that the range holds whole is that of its new bytes; of a stripe with a position out that of
/// the decoded data with the new bytes; of any other the gathered parity, changed by the new bytes and the old ones.
/// The range ends at most at [`MAX_FILE_SIZE`]. `TooManyLost` comes as in [`plan_gather`](crate::plan_gather). Where
/// all was fetched that this names, the bytes are those of the codewords of all data that agree with what was fetched,
/// with the new bytes put in.
#[tactic(auto, unfolding(crate::specs::Plans::apply_and_encode))]
pub fn apply_and_encode(
    alloc: Global,
    map: &DataMap,
    off: u64,
    bytes: &[u8],
    got: &Fetched,
    out: &Out,
) -> Result<Columns, PlanErr>
    requires { off + length bytes.now ≤ MAX_FILE_SIZE }
    ensures exact { Gives
        (apply_and_encode map.now (span off (length bytes.now)) bytes.now got.now out.now.components) result }
    ensures follows { IfOk result (FollowsWrite map.now (span off (length bytes.now)) bytes.now
        (columns_of map.now got.now) out.now.components) }
{
    let range = Span {
        offset: off,
        length: bytes.len() as u64,
    };
    map.known();
    check_writable(alloc, map, range, out)?;
    let index = index_parts(alloc, map, got.as_slice())?;
    let (first, end) = touched_stripes(map, range);
    let write = Write {
        map,
        range,
        bytes,
        got,
        index: &index,
        out,
    };
    let mut made = Columns::new(alloc);
    for stripe in first..end {
        push_stripe(&mut made, alloc, &write, stripe)?;
    }
    Ok(made)
}
