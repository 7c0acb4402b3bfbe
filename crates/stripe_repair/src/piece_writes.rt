// The WRITEs that make a piece what it should be.
ghost use Rattle.std.specs.Prelude.{◌≡◌, ◌<◌, ◌≤◌, ◌^◌, length, IfOk};
ghost use Rattle.data_map.specs.declared.check.TheConstants.{MAX_COMPONENTS};
ghost use Rattle.server_rules.specs.Pieces.{stores};
ghost use Rattle.stripe_repair.specs.Pieces.{IsPiece, columns_write, rows_of, store_between, store_in, wanted_rows};

use crate::codewords::{unit_with, wanted_rows};
use crate::columns::{end_unlike, first_unlike};
use crate::commands::write_to;
use crate::offsets::offset_of;
use crate::replicas::group_with;
use crate::rows::row_from;
use osd_lists::{Bytes, Memory, Rows};
use server_rules::{Awaited, AwaitedCommands, Component, Heard, Kept, Piece, Target};
use std::alloc::Global;

// The WRITE of some columns of a piece's row.
pub(crate) fn write_columns(
    alloc: Global,
    kept: &Kept,
    piece: Piece,
    row: &[u8],
    first: usize,
    end: usize,
    to: Target,
    nonce: u64,
) -> Result<Awaited, Memory>
    requires piece { IsPiece piece }
    requires rising { first ≤ end }
    requires inside { end ≤ length row.now }
    ensures { IfOk result (λ a. a ≡ columns_write kept.now piece row.now first end to nonce) }
{
    let offset = offset_of(&kept.map, piece) + first as u64;
    let bytes = Bytes::copied(alloc, &row[first..end])?;
    Ok(write_to(kept, offset, bytes, to, nonce))
}

// The WRITE that makes one row of a piece another, where they differ.
fn to_store(
    alloc: Global,
    kept: &Kept,
    piece: Piece,
    have: &[u8],
    want: &[u8],
    to: Target,
    nonce: u64,
) -> Result<Option<Awaited>, Memory>
    requires piece { IsPiece piece }
    requires same { length have.now ≡ length want.now }
    ensures { IfOk result (λ w. w ≡ store_between kept.now piece have.now want.now to nonce) }
{
    let end = end_unlike(have, want);
    if end > 0 {
        let first = first_unlike(have, want);
        let write = write_columns(alloc, kept, piece, want, first, end, to, nonce)?;
        return Ok(Some(write));
    }
    Ok(None)
}

// The WRITE to a component, where its row isn't the wanted one.
#[tactic(auto, unfolding(crate::specs::Pieces::store_of))]
fn store_of(
    alloc: Global,
    kept: &Kept,
    piece: Piece,
    wanted: &Rows,
    heard: &[Heard],
    at: &Component,
    component: u32,
    nonce: u64,
) -> Result<Option<Awaited>, Memory>
    requires piece { IsPiece piece }
    requires wanted { wanted.now ≡ wanted_rows kept.now.map (rows_of kept.now piece heard.now) piece.count }
    ensures { IfOk result (λ w. w ≡ store_in kept.now piece heard.now at.now component nonce) }
{
    if at.missing || group_with(&kept.map, component) != kept.map.group(piece.stripe) {
        return Ok(None);
    }
    let have = row_from(alloc, heard, component, piece.count as usize)?;
    let want = wanted.get(unit_with(&kept.map, piece.stripe, component) as usize);
    let to = Target {
        component,
        drive: at.drive,
        object: at.object,
    };
    to_store(
        alloc,
        kept,
        piece,
        have.as_slice(),
        want.as_slice(),
        to,
        nonce,
    )
}

/// The WRITEs that make the rows of a piece codewords of their data, equal in all replicas: to each present
/// component of its group whose row differs from the wanted one, from the first to the last column that
/// differs, in order of components, with nonces that rise from `first` on.
///
/// The piece is of a stripe that begins inside the longest file. `heard` are the replies to its READs.
#[tactic(auto, unfolding(server_rules::specs::Pieces::stores_from, crate::specs::Pieces::store_of))]
pub fn stores(
    alloc: Global,
    kept: &Kept,
    piece: Piece,
    heard: &[Heard],
    first: u64,
) -> Result<AwaitedCommands, Memory>
    requires few { length kept.now.components ≤ MAX_COMPONENTS }
    requires low { first < 2 ^ 63 }
    requires piece { IsPiece piece }
    ensures { IfOk result (λ cs. cs ≡ stores kept.now piece heard.now first) }
{
    let components = kept.components.as_slice();
    let count = piece.count as usize;
    let wanted = wanted_rows(alloc, &kept.map, components, piece.stripe, heard, count)?;
    let mut out = AwaitedCommands::new(alloc);
    let mut nonce = first;
    let mut component = 0u32;
    for at in components {
        if let Some(write) = store_of(alloc, kept, piece, &wanted, heard, at, component, nonce)? {
            out.push(write)?;
            nonce += 1;
        }
        component += 1;
    }
    Ok(out)
}
