// The rows of a stripe: what was got of its units, and what is decoded of them.
ghost use Rattle.std.specs.Prelude.{◌≡◌, ◌<◌, ◌≤◌, length, IfOk};
ghost use Rattle.data_map.specs.Striping.{group_width, parities};
ghost use Rattle.stripe_plan.specs.Touched.{IsLow};
ghost use Rattle.stripe_plan.specs.Words.{code_of, got_in, known_in, known_rows, lost_from, decoded_at, HasColumns};
ghost use Rattle.stripe_plan.specs.Plans.{columns_of};
ghost use Rattle.stripe_plan.specs.Indexed.{stretches_of, Indexes};

use crate::laid_bytes::{fetched_bytes, zeros};
use crate::lost::is_out;
use crate::plan::{Fetched, Interval, Out};
use crate::row_index::RowIndex;
use data_map::{DataMap, MAX_FILE_SIZE, RAID_0, RAID_PQ};
use osd_lists::{Bytes, Memory, Numbers, Rows};
use parity_code::{Code, decode};
use std::alloc::Global;

/// The code of a map's stripes.
pub fn code_of(map: &DataMap) -> Code
    ensures { result ≡ code_of map.now }
{
    match map.raw().algorithm {
        RAID_0 => Code::Plain,
        RAID_PQ => Code::PandQ,
        _ => Code::Xor,
    }
}

// What was got of a unit in these columns.
pub(crate) fn got_in(
    alloc: Global,
    map: &DataMap,
    got: &Fetched,
    index: &RowIndex,
    stripe: u64,
    unit: u32,
    columns: Interval,
) -> Result<Bytes, Memory>
    requires stripe { stripe ≤ MAX_FILE_SIZE }
    requires unit { unit < group_width map.now }
    requires low { IsLow columns }
    requires index { Indexes (stretches_of (columns_of map.now got.now)) index.now }
    ensures { IfOk result (λ bytes. bytes ≡ got_in map.now (columns_of map.now got.now) stripe unit columns) }
{
    let offset = map.row(stripe) * map.raw().unit + columns.first;
    let len = columns.end.saturating_sub(columns.first);
    fetched_bytes(
        alloc,
        map,
        got.as_slice(),
        index,
        map.position(stripe, unit),
        offset,
        len,
    )
}

// The same, or 0 where the unit's position is out.
fn known_in(
    alloc: Global,
    map: &DataMap,
    got: &Fetched,
    index: &RowIndex,
    out: &Out,
    stripe: u64,
    unit: u32,
    columns: Interval,
) -> Result<Bytes, Memory>
    requires stripe { stripe ≤ MAX_FILE_SIZE }
    requires unit { unit < group_width map.now }
    requires low { IsLow columns }
    requires index { Indexes (stretches_of (columns_of map.now got.now)) index.now }
    ensures { IfOk result (λ bytes. bytes
        ≡ known_in map.now (columns_of map.now got.now) out.now.components stripe columns unit) }
{
    if is_out(map, out, map.position(stripe, unit)) {
        return zeros(alloc, columns.end.saturating_sub(columns.first));
    }
    got_in(alloc, map, got, index, stripe, unit, columns)
}

// The units of a stripe whose positions are out, rising.
fn lost_units(alloc: Global, map: &DataMap, out: &Out, stripe: u64) -> Result<Numbers, Memory>
    ensures { IfOk result (λ units. units ≡ lost_from map.now out.now.components stripe 0 (group_width map.now)) }
{
    let mut lost = Numbers::new(alloc);
    for unit in 0..map.group_width() {
        if is_out(map, out, map.position(stripe, unit)) {
            lost.push(unit)?;
        }
    }
    Ok(lost)
}

// All units of a stripe in these columns, as far as they are known.
fn known_rows(
    alloc: Global,
    map: &DataMap,
    got: &Fetched,
    index: &RowIndex,
    out: &Out,
    stripe: u64,
    columns: Interval,
) -> Result<Rows, Memory>
    requires stripe { stripe ≤ MAX_FILE_SIZE }
    requires low { IsLow columns }
    requires index { Indexes (stretches_of (columns_of map.now got.now)) index.now }
    ensures { IfOk result (λ rows. rows
        ≡ known_rows map.now (columns_of map.now got.now) out.now.components stripe columns) }
{
    let mut rows = Rows::new(alloc);
    for unit in 0..map.group_width() {
        let row = known_in(alloc, map, got, index, out, stripe, unit, columns)?;
        rows.push(row)?;
    }
    Ok(rows)
}

// All units of a stripe in these columns, those that are out decoded.
pub(crate) fn decoded_rows(
    alloc: Global,
    map: &DataMap,
    got: &Fetched,
    index: &RowIndex,
    out: &Out,
    stripe: u64,
    columns: Interval,
) -> Result<Rows, Memory>
    requires stripe { stripe ≤ MAX_FILE_SIZE }
    requires low { IsLow columns }
    requires few { length (lost_from map.now out.now.components stripe 0 (group_width map.now)) ≤ parities map.now }
    requires index { Indexes (stretches_of (columns_of map.now got.now)) index.now }
    ensures { IfOk result (HasColumns (group_width map.now) columns
        (decoded_at map.now (columns_of map.now got.now) out.now.components stripe)) }
{
    let mut rows = known_rows(alloc, map, got, index, out, stripe, columns)?;
    let lost = lost_units(alloc, map, out, stripe)?;
    map.known();
    let decoded = decode(code_of(map), &mut rows, lost.as_slice());
    let whole = decoded.is_ok();
    prove!(whole);
    Ok(rows)
}
