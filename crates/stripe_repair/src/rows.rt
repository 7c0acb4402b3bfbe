ghost use Rattle.std.specs.Prelude.{◌≡◌, ◌<◌, ◌≤◌, ◌^◌, length, replicate, IfOk};
ghost use Rattle.data_map.specs.declared.check.TheConstants.{MAX_COMPONENTS};
ghost use Rattle.server_rules.specs.Columns.{row_from, row_at, unit_rows};

use crate::columns::filled;
use crate::replicas::replica;
use data_map::DataMap;
use osd_lists::{Bytes, Memory, Rows};
use server_rules::{Component, Heard};
use std::alloc::Global;

// A row of zeros.
pub(crate) fn zeros(alloc: Global, count: usize) -> Result<Bytes, Memory>
    requires { count < 2 ^ 63 }
    ensures { IfOk result (λ row. row ≡ replicate count 0) }
{
    let mut row = Bytes::new(alloc);
    row.grow(count)?;
    Ok(row)
}

/// What a component answered to a READ of so many columns; what its reply doesn't carry is 0.
#[tactic(auto, unfolding(server_rules::specs::Columns::row_from))]
pub fn row_from(
    alloc: Global,
    heard: &[Heard],
    component: u32,
    count: usize,
) -> Result<Bytes, Memory>
    requires { count < 2 ^ 63 }
    ensures { IfOk result (λ row. row ≡ row_from heard.now component count) }
{
    for reply in heard {
        if reply.component == component {
            return filled(alloc, reply.payload.as_slice(), count);
        }
    }
    zeros(alloc, count)
}

// The row of a component, zeros where there is none.
fn row_at(
    alloc: Global,
    heard: &[Heard],
    component: Option<u32>,
    count: usize,
) -> Result<Bytes, Memory>
    requires { count < 2 ^ 63 }
    ensures { IfOk result (λ row. row ≡ row_at heard.now component count) }
{
    match component {
        Some(component) => row_from(alloc, heard, component, count),
        None => zeros(alloc, count),
    }
}

/// The rows of a piece in order of its stripe's units, data before P and Q, each from the first present
/// replica of its position; zeros where there is none.
#[tactic(auto, unfolding(server_rules::specs::Columns::unit_rows))]
pub fn unit_rows(
    alloc: Global,
    map: &DataMap,
    components: &[Component],
    stripe: u64,
    heard: &[Heard],
    count: usize,
) -> Result<Rows, Memory>
    requires few { length components.now ≤ MAX_COMPONENTS }
    requires count { count < 2 ^ 63 }
    ensures { IfOk result (λ rows. rows ≡ unit_rows map.now components.now stripe heard.now count) }
{
    let mut rows = Rows::new(alloc);
    for unit in 0..map.group_width() {
        let source = replica(map, components, map.position(stripe, unit));
        rows.push(row_at(alloc, heard, source, count)?)?;
    }
    Ok(rows)
}
