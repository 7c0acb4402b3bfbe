// The pieces of a group's stripes, which are never listed.
ghost use Rattle.std.specs.Prelude.{◌≡◌, ◌≢◌, ◌<◌, ◌≤◌, ℕ, drop, slice_get};
ghost use Rattle.data_map.specs.Striping.{group_of, groups};
ghost use Rattle.data_map.specs.declared.ranges.TheConstants.{MAX_FILE_SIZE};
ghost use Rattle.server_rules.specs.Maps.{pieces_in};
ghost use Rattle.stripe_repair.specs.GroupCursor.{left_in_group, StandsInGroup};

use crate::cursor::{Spot, behind, piece_at};
use data_map::DataMap;
use server_rules::Piece;
use std::marker::Model;

/// The pieces of the stripes of one group, in order, from one on. Contracts see it as their list; a step takes
/// the same time wherever the next stripe of the group is.
#[derive(Drop)]
pub struct GroupCursor {
    map: DataMap,
    group: u32,
    spot: Spot,
}

impl Model for GroupCursor {
    ghost use Rattle.std.specs.Prelude.{List};
    ghost use Rattle.server_rules.specs.declared.jobs.Piece.{Piece as RulesPiece};
    ghost use Rattle.stripe_repair.specs.GroupCursor.{left_in_group, StandsInGroup};

    ghost Value = { List RulesPiece };

    ghost view = { λ c. left_in_group c.map c.group c.spot };

    ghost invariant = { λ c. StandsInGroup c.map c.group c.spot };
}

// The first stripe from one on that stands in a group.
fn next_in_group(map: &DataMap, group: u32, stripe: u64) -> u64
    requires group { group < groups map.now }
    requires low { stripe ≤ MAX_FILE_SIZE }
    ensures from { stripe ≤ result }
    ensures stands { group_of map.now result ≡ group }
    ensures none { (s : ℕ) → stripe ≤ s → s < result → group_of map.now s ≢ group }
{
    let own = map.group(stripe);
    if own == group {
        return stripe;
    }
    map.known();
    let depth = u64::from(map.raw().depth);
    let further = (group + map.groups() - own) % map.groups();
    (stripe / depth + u64::from(further)) * depth
}

// The spot itself if its stripe is in the group, else the first of the next such stripe, if there is one.
fn settled(map: &DataMap, group: u32, spot: Spot) -> Spot
    requires group { group < groups map.now }
    requires begin { spot.column ≡ 0 }
    requires low { spot.end ≤ MAX_FILE_SIZE }
    ensures same { left_in_group map.now group result ≡ left_in_group map.now group spot }
    ensures stands { StandsInGroup map.now group result }
{
    map.known();
    if spot.stripe < spot.end {
        return Spot {
            stripe: next_in_group(map, group, spot.stripe),
            ..spot
        };
    }
    spot
}

impl GroupCursor {
    /// All pieces of the stripes below `high` that stand in a group of a map.
    pub fn new(map: DataMap, group: u32, high: u64) -> Self
        requires group { group < groups map }
        requires low { high ≤ MAX_FILE_SIZE }
        ensures { result ≡ pieces_in map group high }
    {
        let start = Spot {
            stripe: 0,
            column: 0,
            end: high,
            next: 0,
        };
        let spot = settled(&map, group, start);
        GroupCursor { map, group, spot }
    }

    /// The first piece, `None` exactly where none is left.
    pub fn first(&self) -> Option<Piece>
        ensures { result ≡ slice_get self.now 0 }
    {
        if self.spot.stripe < self.spot.end {
            return Some(piece_at(self.map.raw().unit, self.spot));
        }
        None
    }

    /// Goes past the first piece, if any is left.
    pub fn advance(&mut self)
        ensures { self.new ≡ drop 1 self.old }
    {
        if self.spot.stripe < self.spot.end {
            let next = behind(self.map.raw().unit, self.spot);
            self.spot = if next.column == 0 {
                settled(&self.map, self.group, next)
            } else {
                next
            };
        }
    }
}
