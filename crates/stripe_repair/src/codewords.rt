// The rows that a piece should have.
ghost use Rattle.std.specs.Prelude.{◌≡◌, ◌<◌, ◌≤◌, ◌^◌, length, IfOk};
ghost use Rattle.data_map.specs.declared.check.TheConstants.{MAX_COMPONENTS};
ghost use Rattle.server_rules.specs.Maps.{code_of};
ghost use Rattle.server_rules.specs.Columns.{unit_rows, unit_with};
ghost use Rattle.data_map.specs.Striping.{group_width};
ghost use Rattle.stripe_repair.specs.Pieces.{wanted_rows};

use crate::rows::unit_rows;
use data_map::DataMap;
use osd_lists::{Memory, Rows};
use parity_code::{Code, encode};
use server_rules::{Component, Heard};
use std::alloc::Global;

/// The code of a map's stripes.
pub fn code_of(map: &DataMap) -> Code
    ensures { result ≡ code_of map.now }
{
    match map.parities() {
        0 => Code::Plain,
        2 => Code::PandQ,
        _ => Code::Xor,
    }
}

/// The unit of a stripe that a component holds.
pub fn unit_with(map: &DataMap, stripe: u64, component: u32) -> u32
    ensures value { result ≡ unit_with map.now stripe component }
    ensures bound { result < group_width map.now }
{
    map.unit_in(stripe, component / map.replicas() % map.group_width())
}

/// The rows of a piece as they should be, in order of its stripe's units: the codewords of the data that
/// were read, each unit's from the first present replica of its position.
pub fn wanted_rows(
    alloc: Global,
    map: &DataMap,
    components: &[Component],
    stripe: u64,
    heard: &[Heard],
    count: usize,
) -> Result<Rows, Memory>
    requires few { length components.now ≤ MAX_COMPONENTS }
    requires count { count < 2 ^ 63 }
    ensures { IfOk result (λ rows. rows
        ≡ wanted_rows map.now (unit_rows map.now components.now stripe heard.now count) count) }
{
    let mut rows = unit_rows(alloc, map, components, stripe, heard, count)?;
    map.known();
    encode(code_of(map), &mut rows);
    Ok(rows)
}
