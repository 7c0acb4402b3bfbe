ghost use Rattle.std.specs.Prelude.{◌≡◌, ◌<◌, ◌∷◌, ◌⊎◌, List, drop, slice_get};
ghost use Rattle.server_rules.specs.Maps.{pieces, pieces_along};
ghost use Rattle.server_rules.specs.declared.grants.Stripes.{Stripes as AStripes};
ghost use Rattle.stripe_repair.specs.Cursor.{rest_at, rest_in, piece_at, IsSettled};

use osd_lists::Sequence;
use server_rules::{MAX_PIECE, Piece, Stripes};
use std::alloc::Global;
use std::marker::Model;

/// A cursor's place: in a stripe of a range, before further ranges.
#[derive(Clone, Copy, PartialEq, Eq)]
pub struct Spot {
    /// The stripe in work.
    pub stripe: u64,
    /// The stripe's first column that isn't worked yet.
    pub column: u64,
    /// The stripe behind the range in work.
    pub end: u64,
    /// The number of the next range.
    pub next: usize,
}

/// The pieces of some ranges of stripes, in order, from one on. Contracts see it as their list; it takes
/// no memory but for the ranges.
#[derive(Drop)]
pub struct PieceCursor {
    unit: u64,
    ranges: Sequence<Stripes>,
    spot: Spot,
}

impl Model for PieceCursor {
    ghost use Rattle.std.specs.Prelude.{List};
    ghost use Rattle.server_rules.specs.declared.jobs.Piece.{Piece as RulesPiece};
    ghost use Rattle.stripe_repair.specs.Cursor.{rest_at, IsSettled};

    ghost Value = { List RulesPiece };

    ghost view = { λ s. rest_at s.unit s.ranges s.spot };

    ghost invariant = { λ s. IsSettled s.unit s.ranges s.spot };
}

// The spot itself if it has a piece, else the first of the next range that has a stripe.
fn settled(unit: u64, ranges: &[Stripes], spot: Spot) -> Spot
    requires unit { 0 < unit }
    requires column { spot.column < unit }
    ensures same { rest_at unit ranges.now result ≡ rest_at unit ranges.now spot }
    ensures settled { IsSettled unit ranges.now result }
{
    let mut spot = spot;
    while spot.stripe >= spot.end && spot.next < ranges.len() {
        let range = ranges[spot.next];
        spot = Spot {
            stripe: range.first,
            column: 0,
            end: range.end,
            next: spot.next + 1,
        };
    }
    spot
}

// The piece at a spot.
pub(crate) fn piece_at(unit: u64, spot: Spot) -> Piece
    requires { spot.column < unit }
    ensures { result ≡ piece_at unit spot }
{
    Piece {
        stripe: spot.stripe,
        column: spot.column,
        count: MAX_PIECE.min(unit - spot.column),
    }
}

// The spot behind the piece at this one.
pub(crate) fn behind(unit: u64, spot: Spot) -> Spot
    requires column { spot.column < unit }
    requires inside { spot.stripe < spot.end }
    ensures column { result.column < unit }
    ensures end { result.end ≡ spot.end }
    ensures stripe { (result.column ≡ 0) ⊎ (result.stripe ≡ spot.stripe) }
    ensures left { rest_in unit spot ≡ piece_at unit spot ∷ rest_in unit result }
    ensures rest { (ranges : List AStripes)
        → rest_at unit ranges spot ≡ piece_at unit spot ∷ rest_at unit ranges result }
{
    if unit - spot.column > MAX_PIECE {
        return Spot {
            column: spot.column + MAX_PIECE,
            ..spot
        };
    }
    Spot {
        stripe: spot.stripe + 1,
        column: 0,
        ..spot
    }
}

impl PieceCursor {
    /// All pieces of these ranges of stripes, in a file whose stripe unit is `unit` bytes.
    pub fn new(unit: u64, ranges: Sequence<Stripes>) -> Self
        requires { 0 < unit }
        ensures { result ≡ pieces unit ranges }
    {
        let start = Spot {
            stripe: 0,
            column: 0,
            end: 0,
            next: 0,
        };
        let spot = settled(unit, ranges.as_slice(), start);
        PieceCursor { unit, ranges, spot }
    }

    /// All pieces of the stripes below `high`, in a file whose stripe unit is `unit` bytes.
    pub fn below(alloc: Global, unit: u64, high: u64) -> Self
        requires { 0 < unit }
        ensures { result ≡ pieces_along unit 0 high }
    {
        let ranges = Sequence::new(alloc);
        let spot = Spot {
            stripe: 0,
            column: 0,
            end: high,
            next: 0,
        };
        PieceCursor { unit, ranges, spot }
    }

    /// The first piece, `None` exactly where none is left.
    pub fn first(&self) -> Option<Piece>
        ensures { result ≡ slice_get self.now 0 }
    {
        if self.spot.stripe < self.spot.end {
            return Some(piece_at(self.unit, self.spot));
        }
        None
    }

    /// Goes past the first piece, if any is left.
    pub fn advance(&mut self)
        ensures { self.new ≡ drop 1 self.old }
    {
        if self.spot.stripe < self.spot.end {
            let next = behind(self.unit, self.spot);
            self.spot = settled(self.unit, self.ranges.as_slice(), next);
        }
    }
}
