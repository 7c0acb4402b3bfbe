// Parity that was read, changed as the data change.
ghost use Rattle.std.specs.Prelude.{◌≡◌, ◌-◌, ◌+◌, ◌<◌, ◌≤◌, ◌∷◌, [], length, IfOk, OnOk};
ghost use Rattle.data_map.specs.Striping.{data_units, parities};
ghost use Rattle.parity_code.specs.Codeword.{count_of};
ghost use Rattle.stripe_plan.specs.Touched.{IsLow};
ghost use Rattle.stripe_plan.specs.Parity.{p_exchanged, q_exchanged};
ghost use Rattle.stripe_plan.specs.Words.{got_in};
ghost use Rattle.stripe_plan.specs.Encoded.{changed_parity, Exchanged, HasParity, UnitChanged};
ghost use Rattle.stripe_plan.specs.Plans.{columns_of};
ghost use Rattle.stripe_plan.specs.Indexed.{stretches_of, Indexes};

use crate::laid_bytes::zeros;
use crate::new_parity::new_part;
use crate::plan::Interval;
use crate::rows::{code_of, got_in};
use crate::touched::own_columns;
use crate::write::Write;
use data_map::{DataMap, MAX_FILE_SIZE};
use osd_lists::{Bytes, Memory, Rows};
use parity_code::{Code, parity_delta};
use std::alloc::Global;

// Takes the parity of the columns from `at` on to the new bytes of a unit.
fn change_at(code: Code, unit: u32, old: &[u8], new: &[u8], p: &mut [u8], q: &mut [u8], at: usize)
    requires same { length new.now ≡ length old.now }
    requires p { at + length old.now ≤ length p.old }
    requires q { at + length old.now ≤ length q.old }
    ensures p { 0 < count_of code → Exchanged p_exchanged at old.now new.now p.old p.new }
    ensures q { 1 < count_of code → Exchanged (q_exchanged unit) at old.now new.now q.old q.new }
    ensures p_long { length p.new ≡ length p.old }
    ensures q_long { length q.new ≡ length q.old }
{
    let end = at + old.len();
    parity_delta(code, unit, old, new, &mut p[at..end], &mut q[at..end]);
}

// Takes the parity of these columns to the range's new bytes of a unit.
fn change_unit(
    alloc: Global,
    write: &Write<'_>,
    stripe: u64,
    unit: u32,
    columns: Interval,
    p: &mut [u8],
    q: &mut [u8],
) -> Result<(), Memory>
    requires inside { write.now.range.offset + write.now.range.length ≤ MAX_FILE_SIZE }
    requires bytes { length write.now.bytes.now ≡ write.now.range.length }
    requires stripe { stripe ≤ MAX_FILE_SIZE }
    requires unit { unit < data_units write.now.map.now }
    requires low { IsLow columns }
    requires p { length p.old ≡ columns.end - columns.first }
    requires q { length q.old ≡ columns.end - columns.first }
    requires index { Indexes (stretches_of (columns_of write.now.map.now write.now.got.now)) write.now.index.now }
    ensures p { 0 < parities write.now.map.now → OnOk result
        (UnitChanged write.now.map.now write.now.range write.now.bytes.now
        (columns_of write.now.map.now write.now.got.now) stripe unit 0 columns p.old p.new) }
    ensures q { 1 < parities write.now.map.now → OnOk result
        (UnitChanged write.now.map.now write.now.range write.now.bytes.now
        (columns_of write.now.map.now write.now.got.now) stripe unit 1 columns q.old q.new) }
    ensures p_long { length p.new ≡ length p.old }
    ensures q_long { length q.new ≡ length q.old }
{
    let map = write.map;
    let own = own_columns(map, write.range, stripe, unit);
    let both = Interval {
        first: own.first.max(columns.first),
        end: own.end.min(columns.end),
    };
    if both.first < both.end {
        let old = got_in(alloc, map, write.got, write.index, stripe, unit, both)?;
        let new = new_part(map, write.range, write.bytes, stripe, unit, both);
        let at = (both.first - columns.first) as usize;
        change_at(code_of(map), unit, old.as_slice(), new, p, q, at);
    }
    Ok(())
}

// The parity of these columns, changed by the range's new bytes of each unit.
pub(crate) fn changed_parity(
    alloc: Global,
    write: &Write<'_>,
    stripe: u64,
    columns: Interval,
) -> Result<Rows, Memory>
    requires inside { write.now.range.offset + write.now.range.length ≤ MAX_FILE_SIZE }
    requires bytes { length write.now.bytes.now ≡ write.now.range.length }
    requires stripe { stripe ≤ MAX_FILE_SIZE }
    requires low { IsLow columns }
    requires some { 0 < parities write.now.map.now }
    requires index { Indexes (stretches_of (columns_of write.now.map.now write.now.got.now)) write.now.index.now }
    ensures { IfOk result (HasParity (parities write.now.map.now) columns
        (changed_parity write.now.map.now write.now.range write.now.bytes.now
        (columns_of write.now.map.now write.now.got.now) stripe)) }
{
    let map = write.map;
    let units = map.data_units();
    let mut p = got_in(alloc, map, write.got, write.index, stripe, units, columns)?;
    let mut q = second_parity(alloc, write, stripe, columns)?;
    for unit in 0..units {
        change_unit(
            alloc,
            write,
            stripe,
            unit,
            columns,
            p.as_mut_slice(),
            q.as_mut_slice(),
        )?;
    }
    let rows = parity_rows(alloc, map, p, q)?;
    Ok(rows)
}

// The parity that a map has, as rows.
fn parity_rows(alloc: Global, map: &DataMap, p: Bytes, q: Bytes) -> Result<Rows, Memory>
    ensures one { parities map.now ≡ 1 → IfOk result (λ rows. rows ≡ p ∷ []) }
    ensures two { parities map.now ≡ 2 → IfOk result (λ rows. rows ≡ p ∷ q ∷ []) }
{
    let mut rows = Rows::new(alloc);
    rows.push(p)?;
    if map.parities() == 2 {
        rows.push(q)?;
    }
    Ok(rows)
}

// What was got of Q in these columns, or 0 without Q.
fn second_parity(
    alloc: Global,
    write: &Write<'_>,
    stripe: u64,
    columns: Interval,
) -> Result<Bytes, Memory>
    requires stripe { stripe ≤ MAX_FILE_SIZE }
    requires low { IsLow columns }
    requires index { Indexes (stretches_of (columns_of write.now.map.now write.now.got.now)) write.now.index.now }
    ensures long { IfOk result (λ q. length q ≡ columns.end - columns.first) }
    ensures got { 1 < parities write.now.map.now → IfOk result
        (λ q. q ≡ got_in write.now.map.now (columns_of write.now.map.now write.now.got.now) stripe
        (data_units write.now.map.now + 1) columns) }
{
    let map = write.map;
    if map.parities() == 2 {
        let unit = map.data_units() + 1;
        let q = got_in(alloc, map, write.got, write.index, stripe, unit, columns)?;
        return Ok(q);
    }
    zeros(alloc, columns.end.saturating_sub(columns.first))
}
