// What performing an act says of the world, for the crates above.
ghost use Rattle.world_network.specs.Moving.{ActsAreMoves};

use crate::laws::network_shows;

/// Where a network shows that of a world and an act is the world's, performing it is the world's move: the network
/// shows the world's again, and the lines are the move's; at the limit of kept bytes they are those up to it.
pub fn acts_are_moves()
    ensures { ActsAreMoves }
{
    network_shows();
}
