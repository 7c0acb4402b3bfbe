// The parity of a stripe's columns from all their units, with the new bytes put in.
ghost use Rattle.std.specs.Prelude.{◌≡◌, ℕ, ◌+◌, ◌-◌, ◌<◌, ◌≤◌, [], List, length, take, drop, IfOk};
ghost use Rattle.std.specs.Prelude.{slice_index, slice_index_or};
ghost use Rattle.std.specs.List.{All};
ghost use Rattle.data_map.specs.Striping.{data_units, group_width, parities};
ghost use Rattle.parity_code.specs.Columns.{Stored};
ghost use Rattle.stripe_plan.specs.Touched.{unit_start, own, IsLow};
ghost use Rattle.stripe_plan.specs.Words.{laid_at, HasColumns};
ghost use Rattle.stripe_plan.specs.Encoded.{encoded_parity, new_in, HasParity, NewLaid};

use crate::laid_bytes::lay;
use crate::plan::{Interval, Span};
use crate::rows::code_of;
use crate::touched::unit_start;
use data_map::{DataMap, MAX_FILE_SIZE};
use osd_lists::{Bytes, Memory, Rows};
use parity_code::encode;
use std::alloc::Global;

// Writes the bytes that lie from `from` on over those of a row that lies from `offset` on.
fn lay_row(rows: &mut Rows, row: usize, offset: u64, from: u64, bytes: &[u8])
    requires { row < length rows.old }
    ensures { Stored row 0 (length (slice_index_or rows.old row []))
        (λ k. laid_at from bytes.now (offset + k) (slice_index (slice_index_or rows.old row []) k)) rows.old rows.new }
{
    lay(rows.get_mut(row).as_mut_slice(), offset, from, bytes);
}

// Puts the range's new bytes into the data units of a stripe's columns.
fn lay_new(
    map: &DataMap,
    range: Span,
    bytes: &[u8],
    stripe: u64,
    columns: Interval,
    rows: &mut Rows,
)
    requires stripe { stripe ≤ MAX_FILE_SIZE }
    requires low { IsLow columns }
    requires inside { columns.end ≤ map.now.unit }
    requires count { length rows.old ≡ group_width map.now }
    requires even { All (λ row. length row ≡ columns.end - columns.first) rows.old }
    ensures { NewLaid map.now range bytes.now stripe columns (data_units map.now) rows.old rows.new }
{
    for unit in 0..map.data_units() {
        let start = unit_start(map, stripe, unit) + columns.first;
        lay_row(rows, unit as usize, start, range.offset, bytes);
    }
}

// Makes the parity of a stripe's columns from their units with the range's new bytes put in. P and Q are its last rows.
pub(crate) fn encode_new(
    map: &DataMap,
    range: Span,
    bytes: &[u8],
    stripe: u64,
    columns: Interval,
    rows: &mut Rows,
)
    requires stripe { stripe ≤ MAX_FILE_SIZE }
    requires low { IsLow columns }
    requires inside { columns.end ≤ map.now.unit }
    requires bytes { length bytes.now ≡ range.length }
    requires count { length rows.old ≡ group_width map.now }
    requires even { All (λ row. length row ≡ columns.end - columns.first) rows.old }
    ensures { (f : ℕ → List ℕ) → HasColumns (group_width map.now) columns f rows.old
        → HasParity (parities map.now) columns (encoded_parity map.now range bytes.now stripe f) rows.new }
{
    map.known();
    lay_new(map, range, bytes, stripe, columns, rows);
    encode(code_of(map), rows);
}

// The call's bytes for some columns of a data unit, all of which are the range's.
pub(crate) fn new_part<'a>(
    map: &DataMap,
    range: Span,
    bytes: &'a [u8],
    stripe: u64,
    unit: u32,
    columns: Interval,
) -> &'a [u8]
    requires inside { range.offset + range.length ≤ MAX_FILE_SIZE }
    requires bytes { length bytes.now ≡ range.length }
    requires stripe { stripe ≤ MAX_FILE_SIZE }
    requires unit { unit < group_width map.now }
    requires some { columns.first ≤ columns.end }
    requires from { range.offset ≤ unit_start map.now stripe unit + columns.first }
    requires to { unit_start map.now stripe unit + columns.end ≤ range.offset + range.length }
    ensures long { length result.now ≡ columns.end - columns.first }
    ensures value { result.now ≡ take (columns.end - columns.first)
        (drop (unit_start map.now stripe unit + columns.first - range.offset) bytes.now) }
{
    let start = unit_start(map, stripe, unit) + columns.first - range.offset;
    let (_, rest) = bytes.split_at(start as usize);
    let (new, _) = rest.split_at((columns.end - columns.first) as usize);
    new
}

// The same as bytes of their own, of all columns of the unit that are the range's.
pub(crate) fn new_bytes(
    alloc: Global,
    map: &DataMap,
    range: Span,
    bytes: &[u8],
    stripe: u64,
    unit: u32,
    columns: Interval,
) -> Result<Bytes, Memory>
    requires inside { range.offset + range.length ≤ MAX_FILE_SIZE }
    requires bytes { length bytes.now ≡ range.length }
    requires stripe { stripe ≤ MAX_FILE_SIZE }
    requires unit { unit < group_width map.now }
    requires own { columns ≡ own map.now range stripe unit }
    requires some { columns.first < columns.end }
    ensures { IfOk result (λ new. new ≡ new_in map.now range bytes.now stripe unit columns) }
{
    let copied = Bytes::copied(alloc, new_part(map, range, bytes, stripe, unit, columns))?;
    Ok(copied)
}
