// The bytes of a piece of a component that is made anew.
ghost use Rattle.std.specs.Prelude.{◌≡◌, ◌<◌, ◌≤◌, ◌+◌, ◌^◌, None, length, nat_lt, replicate, if◌then◌else◌, IfOk};
ghost use Rattle.data_map.specs.declared.check.TheConstants.{MAX_COMPONENTS};
ghost use Rattle.data_map.specs.Striping.{parities, replicas};
ghost use Rattle.server_rules.specs.Columns.{end_of};
ghost use Rattle.server_rules.specs.Decoding.{lost_units};
ghost use Rattle.server_rules.specs.Rebuild.{made, to_fill};
ghost use Rattle.server_rules.specs.Standing.{replica};
ghost use Rattle.stripe_repair.specs.Pieces.{IsPiece};
ghost use Rattle.stripe_repair.specs.Restored.{fill_of, restored_rows, CanBeMade};

use crate::codewords::{code_of, unit_with};
use crate::columns::{end_unlike, first_unlike};
use crate::piece_writes::write_columns;
use crate::replicas::replica;
use crate::rows::{row_from, unit_rows, zeros};
use data_map::DataMap;
use osd_lists::{Bytes, Memory, Numbers, Rows};
use parity_code::decode;
use server_rules::{Awaited, Component, Heard, Kept, Piece, Target};
use std::alloc::Global;

/// The units of a stripe whose positions have no present replica.
#[tactic(auto, unfolding(server_rules::specs::Decoding::lost_units))]
pub fn lost_units(
    alloc: Global,
    map: &DataMap,
    components: &[Component],
    stripe: u64,
) -> Result<Numbers, Memory>
    requires { length components.now ≤ MAX_COMPONENTS }
    ensures { IfOk result (λ us. us ≡ lost_units map.now components.now stripe) }
{
    let mut out = Numbers::new(alloc);
    for unit in 0..map.group_width() {
        if replica(map, components, map.position(stripe, unit)).is_none() {
            out.push(unit)?;
        }
    }
    Ok(out)
}

// The rows of a stripe, in which those that are lost are decoded.
pub(crate) fn restored_rows(
    alloc: Global,
    map: &DataMap,
    components: &[Component],
    stripe: u64,
    heard: &[Heard],
    count: usize,
) -> Result<Rows, Memory>
    requires few { length components.now ≤ MAX_COMPONENTS }
    requires count { count < 2 ^ 63 }
    requires lost { length (lost_units map.now components.now stripe) ≤ parities map.now }
    ensures { IfOk result (λ rows. rows ≡ restored_rows map.now components.now stripe heard.now count) }
{
    let mut rows = unit_rows(alloc, map, components, stripe, heard, count)?;
    let lost = lost_units(alloc, map, components, stripe)?;
    map.known();
    let decoded = decode(code_of(map), &mut rows, lost.as_slice());
    let whole = decoded.is_ok();
    prove!(whole);
    Ok(rows)
}

/// The bytes of a piece of a component that is made anew: those of the first present replica of its position,
/// else those decoded from the other positions of its stripe, of which enough have a present replica.
/// `heard` are the replies to the READs of its sources.
#[tactic(auto, unfolding(server_rules::specs::Rebuild::made))]
pub fn made(
    alloc: Global,
    kept: &Kept,
    target: Target,
    piece: Piece,
    heard: &[Heard],
) -> Result<Bytes, Memory>
    requires few { length kept.now.components ≤ MAX_COMPONENTS }
    requires piece { IsPiece piece }
    requires readable { CanBeMade kept.now target piece }
    ensures value { IfOk result (λ bytes. bytes ≡ made kept.now target piece heard.now) }
    ensures long { IfOk result (λ bytes. length bytes ≡ piece.count) }
{
    let map = &kept.map;
    let components = kept.components.as_slice();
    let count = piece.count as usize;
    match replica(map, components, target.component / map.replicas()) {
        Some(component) => row_from(alloc, heard, component, count),
        None => {
            let rows = restored_rows(alloc, map, components, piece.stripe, heard, count)?;
            let unit = unit_with(map, piece.stripe, target.component);
            Bytes::copied(alloc, rows.get(unit as usize).as_slice())
        }
    }
}

/// The WRITE of a piece to the component that is made anew, from its first to its last byte that isn't 0; none
/// where it has only zeros.
pub fn fill(
    alloc: Global,
    kept: &Kept,
    target: Target,
    piece: Piece,
    bytes: &[u8],
    nonce: u64,
) -> Result<Option<Awaited>, Memory>
    requires piece { IsPiece piece }
    requires long { length bytes.now ≡ piece.count }
    ensures { IfOk result (λ w. w ≡ fill_of kept.now target piece bytes.now nonce) }
{
    let zeros = zeros(alloc, piece.count as usize)?;
    let end = end_unlike(bytes, zeros.as_slice());
    if end > 0 {
        let first = first_unlike(bytes, zeros.as_slice());
        let write = write_columns(alloc, kept, piece, bytes, first, end, target, nonce)?;
        return Ok(Some(write));
    }
    Ok(None)
}
