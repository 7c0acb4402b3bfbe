ghost use Rattle.std.specs.Prelude.{◌≡◌};
ghost use Rattle.world_history.specs.Spelled.{node_of};
ghost use Rattle.world_history.specs.Names.{named_party};

use osd_lists::Node;
use scenario_text::{ClientName, DriveName, Party};

/// A party as a line names it, `None` exactly where no line can.
pub fn party_of(node: Node) -> Option<Party>
    ensures { result ≡ named_party node }
{
    match node {
        Node::Server => Some(Party::Server),
        Node::Drive(number) => match DriveName::new(number) {
            Some(drive) => Some(Party::Drive { drive }),
            None => None,
        },
        Node::Client(number) => match ClientName::new(number) {
            Some(client) => Some(Party::Client { client }),
            None => None,
        },
    }
}

/// The party that a line names, by its number.
pub fn node_of(party: Party) -> Node
    ensures { result ≡ node_of party }
{
    match party {
        Party::Server => Node::Server,
        Party::Drive { drive } => Node::Drive(drive.number()),
        Party::Client { client } => Node::Client(client.number()),
    }
}
