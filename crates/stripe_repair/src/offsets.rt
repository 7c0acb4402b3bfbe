// The place of a piece in a component.
ghost use Rattle.std.specs.Prelude.{◌≡◌, ◌<◌, ◌^◌};
ghost use Rattle.data_map.specs.Striping.{offset_of};
ghost use Rattle.stripe_repair.specs.Pieces.{IsPiece};

use data_map::DataMap;
use server_rules::Piece;

/// The offset of a piece in its components.
pub fn offset_of(map: &DataMap, piece: Piece) -> u64
    requires { IsPiece piece }
    ensures value { result ≡ offset_of map.now piece.stripe piece.column }
    ensures bound { result < 2 ^ 62 }
{
    map.known();
    map.row(piece.stripe) * map.raw().unit + piece.column
}
