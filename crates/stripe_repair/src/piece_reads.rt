// The READs of a piece.
ghost use Rattle.std.specs.Prelude.{◌≡◌, ◌<◌, ◌≤◌, ◌^◌, length, IfOk, OnOk, OnErr};
ghost use Rattle.data_map.specs.declared.check.TheConstants.{MAX_COMPONENTS};
ghost use Rattle.data_map.specs.Striping.{group_of};
ghost use Rattle.server_rules.specs.Standing.{is_short};
ghost use Rattle.server_rules.specs.Pieces.{reads, short_with};
ghost use Rattle.server_rules.specs.Repair.{is_left, repair_reads};
ghost use Rattle.server_rules.specs.Rebuild.{sources};
ghost use Rattle.stripe_repair.specs.Pieces.{IsPiece, reading_of};

use crate::commands::{Ask, Which, to_all};
use crate::marks::Marks;
use crate::offsets::offset_of;
use crate::replicas::{group_with, is_beyond, is_short, replica};
use data_map::DataMap;
use osd_lists::Memory;
use server_rules::{AwaitedCommands, Kept, Piece, Target};
use std::alloc::Global;

// What is read of a component.
fn read_of(map: &DataMap, piece: Piece) -> Ask
    requires { IsPiece piece }
    ensures { result ≡ reading_of map.now piece }
{
    Ask::Read {
        offset: offset_of(map, piece),
        length: piece.count,
    }
}

/// The READs of a piece: of each present component of its group, with nonces that rise from `nonce` on. The
/// piece is of a stripe that begins inside the longest file.
pub fn reads(
    alloc: Global,
    kept: &Kept,
    piece: Piece,
    nonce: u64,
) -> Result<AwaitedCommands, Memory>
    requires few { length kept.now.components ≤ MAX_COMPONENTS }
    requires low { nonce < 2 ^ 63 }
    requires piece { IsPiece piece }
    ensures { IfOk result (λ cs. cs ≡ reads kept.now piece nonce) }
{
    let which = Which::Group {
        group: kept.map.group(piece.stripe),
    };
    to_all(alloc, kept, which, read_of(&kept.map, piece), nonce)
}

/// Whether a position of the stripe of a piece has no present replica.
pub fn has_short_stripe(alloc: Global, kept: &Kept, piece: Piece) -> Result<bool, Memory>
    requires few { length kept.now.components ≤ MAX_COMPONENTS }
    ensures { IfOk result (λ b. b ≡ is_short kept.now.map kept.now.components (group_of kept.now.map piece.stripe)) }
{
    let group = kept.map.group(piece.stripe);
    is_short(alloc, &kept.map, kept.components.as_slice(), group)
}

/// Whether a repair leaves a piece as it is: its stripe has parity and is short, or the file has neither
/// parity nor mirrors.
pub fn is_left(alloc: Global, kept: &Kept, piece: Piece) -> Result<bool, Memory>
    requires few { length kept.now.components ≤ MAX_COMPONENTS }
    ensures { IfOk result (λ b. b ≡ is_left kept.now piece) }
{
    if kept.map.parities() == 0 {
        return Ok(kept.map.raw().mirrors == 0);
    }
    has_short_stripe(alloc, kept, piece)
}

/// The READs of a piece in a repair: none where it is left as it is.
#[tactic(auto, unfolding(server_rules::specs::Repair::repair_reads))]
pub fn repair_reads(
    alloc: Global,
    kept: &Kept,
    piece: Piece,
    nonce: u64,
) -> Result<AwaitedCommands, Memory>
    requires few { length kept.now.components ≤ MAX_COMPONENTS }
    requires low { nonce < 2 ^ 63 }
    requires piece { IsPiece piece }
    ensures { IfOk result (λ cs. cs ≡ repair_reads kept.now piece nonce) }
{
    if is_left(alloc, kept, piece)? {
        return Ok(AwaitedCommands::new(alloc));
    }
    reads(alloc, kept, piece, nonce)
}

/// Marks the stripe of a piece where it is short.
///
/// # Errors
///
/// Want of memory alone. Then nothing changes.
#[tactic(auto, unfolding(server_rules::specs::Pieces::short_with))]
pub fn mark_short(alloc: Global, kept: &Kept, piece: Piece, short: &mut Marks) -> Result<(), Memory>
    requires few { length kept.now.components ≤ MAX_COMPONENTS }
    ensures ok { OnOk result (short.new ≡ short_with kept.now piece short.old) }
    ensures err { OnErr result (short.new ≡ short.old) }
{
    if has_short_stripe(alloc, kept, piece)? {
        short.mark(piece.stripe)?;
    }
    Ok(())
}

/// The READs of a piece in the rebuild of a component: of the first present replica of its position, else of
/// the first present replica of each other position of its group. There are none where the piece is lost.
#[tactic(auto, unfolding(server_rules::specs::Rebuild::sources))]
pub fn sources(
    alloc: Global,
    kept: &Kept,
    target: Target,
    piece: Piece,
    nonce: u64,
) -> Result<AwaitedCommands, Memory>
    requires few { length kept.now.components ≤ MAX_COMPONENTS }
    requires target { target.component < MAX_COMPONENTS }
    requires low { nonce < 2 ^ 63 }
    requires piece { IsPiece piece }
    ensures { IfOk result (λ cs. cs ≡ sources kept.now target piece nonce) }
{
    let map = &kept.map;
    let components = kept.components.as_slice();
    let ask = read_of(map, piece);
    match replica(map, components, target.component / map.replicas()) {
        Some(component) => to_all(alloc, kept, Which::One { component }, ask, nonce),
        None => {
            let group = group_with(map, target.component);
            if is_beyond(alloc, map, components, group)? {
                return Ok(AwaitedCommands::new(alloc));
            }
            to_all(alloc, kept, Which::Firsts { group }, ask, nonce)
        }
    }
}
