// What an audit finds of a piece.
ghost use Rattle.std.specs.Prelude.{◌≡◌, ◌<◌, ◌≤◌, length, IfOk};
ghost use Rattle.data_map.specs.declared.check.TheConstants.{MAX_COMPONENTS};
ghost use Rattle.stripe_repair.specs.Auditing.{state_of};
ghost use Rattle.stripe_repair.specs.Pieces.{IsPiece};

use crate::piece_reads::has_short_stripe;
use crate::piece_writes::stores;
use osd_lists::Memory;
use server_rules::{Heard, Kept, Piece};
use std::alloc::Global;

/// What an audit finds of a piece.
#[derive(Clone, Copy, PartialEq, Eq)]
pub enum StripeState {
    /// The stripe's columns are codewords, equal in all replicas.
    Whole,
    /// A position of its stripe has no present replica.
    Short,
    /// The stripe is neither.
    Bad,
}

/// What an audit finds of a piece; `heard` are the replies to its READs. The piece is of a stripe that begins
/// inside the longest file.
#[tactic(auto, unfolding(crate::specs::Auditing::state_of))]
pub fn judge(
    alloc: Global,
    kept: &Kept,
    piece: Piece,
    heard: &[Heard],
) -> Result<StripeState, Memory>
    requires few { length kept.now.components ≤ MAX_COMPONENTS }
    requires piece { IsPiece piece }
    ensures { IfOk result (λ state. state ≡ state_of kept.now piece heard.now) }
{
    if has_short_stripe(alloc, kept, piece)? {
        return Ok(StripeState::Short);
    }
    if stores(alloc, kept, piece, heard, 0)?.is_empty() {
        return Ok(StripeState::Whole);
    }
    Ok(StripeState::Bad)
}
