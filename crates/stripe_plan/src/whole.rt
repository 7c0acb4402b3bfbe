// What a write makes of a stripe that its range holds whole: the call's own bytes, each copied once, and their parity.
ghost use Rattle.std.specs.Prelude.{◌≡◌, ℕ, true, ◌+◌, ◌<◌, ◌≤◌, ◌++◌, [], List, length, IfOk, OnOk};
ghost use Rattle.std.specs.Prelude.{slice_index_or, slice_set};
ghost use Rattle.data_map.specs.Striping.{group_width};
ghost use Rattle.data_map.specs.Inverse.{unit_in};
ghost use Rattle.stripe_plan.specs.Touched.{whole};
ghost use Rattle.stripe_plan.specs.Encoded.{place_column, AreWords, IsNewRow, NewRows};
ghost use Rattle.stripe_plan.specs.Plans.{written_stripe};

use crate::laid_bytes::zeros;
use crate::lost::is_out;
use crate::new_parity::new_bytes;
use crate::plan::{Column, Columns, Out, Span};
use crate::rows::code_of;
use crate::touched::own_columns;
use data_map::{DataMap, MAX_FILE_SIZE};
use osd_lists::{Bytes, Memory, Rows};
use parity_code::encode;
use std::alloc::Global;
use std::mem;

// A unit's row before the parity is made: its new bytes, or room for parity.
fn new_row(
    alloc: Global,
    map: &DataMap,
    range: Span,
    bytes: &[u8],
    stripe: u64,
    unit: u32,
) -> Result<Bytes, Memory>
    requires inside { range.offset + range.length ≤ MAX_FILE_SIZE }
    requires bytes { length bytes.now ≡ range.length }
    requires stripe { stripe ≤ MAX_FILE_SIZE }
    requires all { whole map.now range stripe ≡ true }
    requires unit { unit < group_width map.now }
    ensures { IfOk result (IsNewRow map.now range bytes.now stripe unit) }
{
    map.known();
    if unit < map.data_units() {
        let own = own_columns(map, range, stripe, unit);
        let row = new_bytes(alloc, map, range, bytes, stripe, unit, own)?;
        return Ok(row);
    }
    zeros(alloc, map.raw().unit)
}

// The rows of all units before the parity is made.
fn new_rows(
    alloc: Global,
    map: &DataMap,
    range: Span,
    bytes: &[u8],
    stripe: u64,
) -> Result<Rows, Memory>
    requires inside { range.offset + range.length ≤ MAX_FILE_SIZE }
    requires bytes { length bytes.now ≡ range.length }
    requires stripe { stripe ≤ MAX_FILE_SIZE }
    requires all { whole map.now range stripe ≡ true }
    ensures { IfOk result (NewRows map.now range bytes.now stripe (group_width map.now)) }
{
    let mut rows = Rows::new(alloc);
    for unit in 0..map.group_width() {
        let row = new_row(alloc, map, range, bytes, stripe, unit)?;
        rows.push(row)?;
    }
    Ok(rows)
}

// What the write puts into each unit.
fn written_rows(
    alloc: Global,
    map: &DataMap,
    range: Span,
    bytes: &[u8],
    stripe: u64,
) -> Result<Rows, Memory>
    requires inside { range.offset + range.length ≤ MAX_FILE_SIZE }
    requires bytes { length bytes.now ≡ range.length }
    requires stripe { stripe ≤ MAX_FILE_SIZE }
    requires all { whole map.now range stripe ≡ true }
    ensures { IfOk result (λ rows. (got : List Column) (out : List ℕ)
        → AreWords map.now range bytes.now got out stripe rows) }
{
    map.known();
    let mut rows = new_rows(alloc, map, range, bytes, stripe)?;
    encode(code_of(map), &mut rows);
    Ok(rows)
}

// A row, which is left empty.
fn take_row(alloc: Global, rows: &mut Rows, row: usize) -> Bytes
    requires { row < length rows.old }
    ensures value { result ≡ slice_index_or rows.old row [] }
    ensures rest { rows.new ≡ slice_set rows.old row [] }
{
    mem::replace(rows.get_mut(row), Bytes::new(alloc))
}

// Moves the unit at one place of the stripe's group into what the write makes.
fn push_row(
    made: &mut Columns,
    alloc: Global,
    map: &DataMap,
    out: &Out,
    stripe: u64,
    place: u32,
    rows: &mut Rows,
) -> Result<(), Memory>
    requires stripe { stripe ≤ MAX_FILE_SIZE }
    requires place { place < group_width map.now }
    requires count { length rows.old ≡ group_width map.now }
    ensures made { OnOk result (made.new ≡ made.old
        ++ place_column map.now out.now.components stripe place
        (slice_index_or rows.old (unit_in map.now stripe place) [])) }
    ensures rest { OnOk result (rows.new ≡ slice_set rows.old (unit_in map.now stripe place) []) }
{
    let unit = map.unit_in(stripe, place);
    let bytes = take_row(alloc, rows, unit as usize);
    let position = map.group(stripe) * map.group_width() + place;
    if is_out(map, out, position) {
        return Ok(());
    }
    let offset = map.row(stripe) * map.raw().unit;
    made.push(Column {
        position,
        offset,
        bytes,
    })
}

// What a write makes of a stripe that its range holds whole.
pub(crate) fn push_whole(
    made: &mut Columns,
    alloc: Global,
    map: &DataMap,
    range: Span,
    bytes: &[u8],
    out: &Out,
    stripe: u64,
) -> Result<(), Memory>
    requires inside { range.offset + range.length ≤ MAX_FILE_SIZE }
    requires bytes { length bytes.now ≡ range.length }
    requires stripe { stripe ≤ MAX_FILE_SIZE }
    requires all { whole map.now range stripe ≡ true }
    ensures { (got : List Column) → OnOk result (made.new ≡ made.old
        ++ written_stripe map.now range bytes.now got out.now.components stripe 0 (group_width map.now)) }
{
    map.known();
    let mut rows = written_rows(alloc, map, range, bytes, stripe)?;
    for place in 0..map.group_width() {
        push_row(made, alloc, map, out, stripe, place, &mut rows)?;
    }
    Ok(())
}
