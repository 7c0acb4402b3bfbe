// Bytes of positions, taken out of the parts that have them.
ghost use Rattle.std.specs.Prelude.{◌≡◌, ◌+◌, ◌<◌, replicate, IfOk};
ghost use Rattle.stripe_plan.specs.Plans.{part_column, columns_of};
ghost use Rattle.stripe_plan.specs.Words.{bytes_at, Laid, LaidColumn};
ghost use Rattle.stripe_plan.specs.Indexed.{stretches_of, Indexes, Sifts};

use crate::plan::{Column, Part};
use crate::row_index::RowIndex;
use data_map::DataMap;
use osd_lists::{Bytes, Memory, put_at};
use std::alloc::Global;

// Writes the bytes that lie from `from` on over those of a buffer that lies from `offset` on, where they meet.
pub(crate) fn lay(buffer: &mut [u8], offset: u64, from: u64, bytes: &[u8])
    ensures { Laid offset from bytes.now buffer.old buffer.new }
{
    let buffer_end = u128::from(offset) + buffer.len() as u128;
    let bytes_end = u128::from(from) + bytes.len() as u128;
    let end = buffer_end.min(bytes_end);
    let start = u128::from(offset.max(from));
    if start < end {
        let (_, rest) = bytes.split_at((start - u128::from(from)) as usize);
        let (part, _) = rest.split_at((end - start) as usize);
        put_at(buffer, (start - u128::from(offset)) as usize, part);
    }
}

// Writes the bytes of a column over those of a buffer of that position that lies from `offset` on.
fn lay_column(buffer: &mut [u8], offset: u64, position: u32, column: &Column)
    ensures { LaidColumn position offset column.now buffer.old buffer.new }
{
    if column.position == position {
        lay(buffer, offset, column.offset, column.bytes.as_slice());
    }
}

// Writes the bytes of a part over those of a buffer of that position that lies from `offset` on.
fn lay_part(buffer: &mut [u8], map: &DataMap, offset: u64, position: u32, part: &Part)
    ensures { LaidColumn position offset (part_column map.now part.now) buffer.old buffer.new }
{
    if part.component / map.replicas() == position {
        lay(buffer, offset, part.offset, part.bytes.as_slice());
    }
}

// Bytes 0. There is no memory for more than a list can have.
pub(crate) fn zeros(alloc: Global, len: u64) -> Result<Bytes, Memory>
    ensures { IfOk result (λ bytes. bytes ≡ replicate len 0) }
{
    let mut bytes = Bytes::new(alloc);
    if len > isize::MAX as u64 {
        return Err(Memory);
    }
    bytes.grow(len as usize)?;
    Ok(bytes)
}

// Columns by the row that they lie in.
pub(crate) fn index_columns(
    alloc: Global,
    unit: u64,
    columns: &[Column],
) -> Result<RowIndex, Memory>
    requires { 0 < unit }
    ensures { IfOk result (Indexes (stretches_of columns.now)) }
{
    let mut index = RowIndex::new(alloc, unit, columns.len())?;
    for column in columns {
        let end = u128::from(column.offset) + column.bytes.len() as u128;
        index.push(column.position, column.offset, end)?;
    }
    Ok(index)
}

// What was fetched of components, by position and row.
pub(crate) fn index_parts(alloc: Global, map: &DataMap, parts: &[Part]) -> Result<RowIndex, Memory>
    ensures { IfOk result (Indexes (stretches_of (columns_of map.now parts.now))) }
{
    map.known();
    let mut index = RowIndex::new(alloc, map.raw().unit, parts.len())?;
    for part in parts {
        let end = u128::from(part.offset) + part.bytes.len() as u128;
        index.push(part.component / map.replicas(), part.offset, end)?;
    }
    Ok(index)
}

// The bytes of a position from an offset on, out of the columns of these numbers, among which are all that have any; of
// those that no column has, 0.
#[tactic(auto, using(crate::proofs::Picking::picked_below))]
fn laid_columns(
    alloc: Global,
    columns: &[Column],
    numbers: &[usize],
    position: u32,
    offset: u64,
    len: u64,
) -> Result<Bytes, Memory>
    requires { Sifts position (record { first = offset; end = offset + len }) (stretches_of columns.now) 0 numbers.now }
    ensures { IfOk result (λ bytes. bytes ≡ bytes_at columns.now position offset len) }
{
    let mut bytes = zeros(alloc, len)?;
    for i in (0..numbers.len()).rev() {
        let number = numbers[i];
        lay_column(bytes.as_mut_slice(), offset, position, &columns[number]);
    }
    Ok(bytes)
}

// The bytes of a position from an offset on; of those that no column has, 0.
pub(crate) fn bytes_of(
    alloc: Global,
    columns: &[Column],
    index: &RowIndex,
    position: u32,
    offset: u64,
    len: u64,
) -> Result<Bytes, Memory>
    requires { Indexes (stretches_of columns.now) index.now }
    ensures { IfOk result (λ bytes. bytes ≡ bytes_at columns.now position offset len) }
{
    let numbers = index.find(position, offset, u128::from(offset) + u128::from(len));
    let bytes = laid_columns(alloc, columns, numbers, position, offset, len)?;
    Ok(bytes)
}

// The same out of what was fetched of components, of these numbers.
#[tactic(auto, using(crate::proofs::Picking::part_below))]
fn laid_parts(
    alloc: Global,
    map: &DataMap,
    parts: &[Part],
    numbers: &[usize],
    position: u32,
    offset: u64,
    len: u64,
) -> Result<Bytes, Memory>
    requires { Sifts position (record { first = offset; end = offset + len })
        (stretches_of (columns_of map.now parts.now)) 0 numbers.now }
    ensures { IfOk result (λ bytes. bytes ≡ bytes_at (columns_of map.now parts.now) position offset len) }
{
    let mut bytes = zeros(alloc, len)?;
    for i in (0..numbers.len()).rev() {
        let number = numbers[i];
        lay_part(bytes.as_mut_slice(), map, offset, position, &parts[number]);
    }
    Ok(bytes)
}

// The same out of all that was fetched of components.
pub(crate) fn fetched_bytes(
    alloc: Global,
    map: &DataMap,
    parts: &[Part],
    index: &RowIndex,
    position: u32,
    offset: u64,
    len: u64,
) -> Result<Bytes, Memory>
    requires { Indexes (stretches_of (columns_of map.now parts.now)) index.now }
    ensures { IfOk result (λ bytes. bytes ≡ bytes_at (columns_of map.now parts.now) position offset len) }
{
    let numbers = index.find(position, offset, u128::from(offset) + u128::from(len));
    let bytes = laid_parts(alloc, map, parts, numbers, position, offset, len)?;
    Ok(bytes)
}
