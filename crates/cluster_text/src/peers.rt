// Whom the parties of a cluster know.
ghost use Rattle.std.specs.Prelude.{◌≡◌, ◌++◌, map, IfErr, IfOk, OnOk, OnErr};
ghost use Rattle.cluster_text.specs.Peers.{StopsSettling, peer_of, peers_of};

use crate::cluster::{Cluster, ClusterDrive};
use crate::stop::CommandStop;
use osd_bytes::{Links, Peer, Peers};
use osd_lists::{Bytes, Memory, Node};
use std::alloc::Global;

// Adds the drives with their addresses.
fn push_drives(alloc: Global, peers: &mut Peers, drives: &[ClusterDrive]) -> Result<(), Memory>
    ensures { OnOk result (peers.new ≡ peers.old ++ map peer_of drives.now) }
{
    for drive in drives {
        let address = Bytes::copied(alloc, drive.address.as_slice())?;
        peers.push(Peer {
            node: Node::Drive(drive.number),
            address,
        })?;
    }
    Ok(())
}

/// The server of a cluster and its drives, with their addresses.
pub fn peers_of(alloc: Global, cluster: &Cluster) -> Result<Peers, Memory>
    ensures { IfOk result (λ peers. peers ≡ peers_of cluster.now) }
{
    let mut peers = Peers::new(alloc);
    let address = Bytes::copied(alloc, cluster.server.as_slice())?;
    peers.push(Peer {
        node: Node::Server,
        address,
    })?;
    push_drives(alloc, &mut peers, cluster.drives.as_slice())?;
    Ok(peers)
}

/// Gives the links the addresses of a cluster. They listen at `listen`, unless that is empty.
///
/// # Errors
///
/// [`CommandStop::LinkFault`] if the links couldn't be settled, [`CommandStop::Memory`]. In either case the
/// connections are as before.
pub fn settle_at<L: Links>(
    alloc: Global,
    links: &mut L,
    cluster: &Cluster,
    listen: &[u8],
) -> Result<(), CommandStop>
    ensures standing { OnOk result (L.standing links.new ≡
        record (L.standing links.old) { listen = listen.now; peers = peers_of cluster.now }) }
    ensures told { L.told links.new ≡ L.told links.old }
    ensures stays { OnErr result (L.standing links.new ≡ L.standing links.old) }
    ensures same { OnOk result (L.faults links.new ≡ L.faults links.old) }
    ensures stops { IfErr result (StopsSettling (L.faults links.old) (L.faults links.new)) }
{
    let peers = peers_of(alloc, cluster)?;
    let listen = Bytes::copied(alloc, listen)?;
    match links.settle(listen, peers) {
        Ok(()) => Ok(()),
        Err(_) => Err(CommandStop::LinkFault),
    }
}
