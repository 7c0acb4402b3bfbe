ghost use Rattle.std.specs.Prelude.{◌≡◌, ◌<◌, ◌∷◌, [], false, is_ok, length, Option, Some, IfOk, IsErr, OnOk, OnErr};
ghost use Rattle.std.specs.Io.{ReadsAtMost, WritesAtMost};
ghost use Rattle.osd_bytes.specs.Connections.{Standing, Traffic, connected_to, Accepts, Connects, Takes, Puts, Receives, Sends, after_notes};
ghost use Rattle.osd_bytes.specs.Counts.{Faults, HasLinkCause, asking_count};

use crate::source::Fault;
use osd_lists::{Bytes, Memory, Node, Sequence};

/// A node and the address at which it listens.
#[derive(PartialEq, Drop)]
pub struct Peer {
    pub node: Node,
    pub address: Bytes,
}

/// A list of peers.
pub type Peers = Sequence<Peer>;

/// Connections to other nodes: one that was accepted, and one that asks.
///
/// The accepted one is used by `take` and `put`, the asking one by `receive`, `send` and `hang_up`.
/// Where there is no such connection, these fail, and `hang_up` does nothing.
///
/// Four counts tell how many calls failed: of `settle` and `accept`, of `take` and `put`, of
/// `connect`, `send` and `receive` where the server is asked, and of these where another node is
/// asked, or none. No count falls, and each stays at its greatest number. A [`Fault`] comes only
/// where the count of the call rose.
pub trait Links {
    /// The addresses, and which connections there are.
    ghost standing: { Self → Standing };

    /// The four counts of calls that failed.
    ghost faults: { Self → Faults };

    /// What came and what comes on each connection, and the notes, where the links tell that.
    ghost told: { Self → Option Traffic };

    /// Keeps the addresses, and listens at `listen` where that isn't empty.
    fn settle(&mut self, listen: Bytes, peers: Peers) -> Result<(), Fault>
        ensures standing { OnOk result (standing self.new ≡ record (standing self.old) { listen = listen; peers = peers }) }
        ensures err { OnErr result (standing self.new ≡ standing self.old) }
        ensures told { told self.new ≡ told self.old }
        ensures cause { HasLinkCause (λ f. f.listening) (faults self.old) (faults self.new) result };

    /// Waits for a connection. The former accepted one is closed.
    fn accept(&mut self) -> Result<(), Fault>
        ensures standing { standing self.new ≡ record (standing self.old) { accepted = is_ok result } }
        ensures told { Accepts (told self.old) (told self.new) result }
        ensures cause { HasLinkCause (λ f. f.listening) (faults self.old) (faults self.new) result };

    /// Takes some of the bytes that come on the accepted connection. No bytes for a buffer that
    /// isn't empty are the end.
    fn take(&mut self, buf: &mut [u8]) -> Result<usize, Fault>
        ensures bound { ReadsAtMost result buf.new }
        ensures none { (standing self.old).accepted ≡ false → IsErr result }
        ensures standing { standing self.new ≡ standing self.old }
        ensures told { Takes (told self.old) (told self.new) result buf.new }
        ensures cause { HasLinkCause (λ f. f.accepted) (faults self.old) (faults self.new) result };

    /// Puts some of the bytes on the accepted connection, at least one where there is one.
    fn put(&mut self, bytes: &[u8]) -> Result<usize, Fault>
        ensures bound { WritesAtMost result bytes.now }
        ensures some { IfOk result (λ n. 0 < length bytes.now → 0 < n) }
        ensures none { (standing self.old).accepted ≡ false → IsErr result }
        ensures standing { standing self.new ≡ standing self.old }
        ensures told { Puts (told self.old) (told self.new) result bytes.now }
        ensures cause { HasLinkCause (λ f. f.accepted) (faults self.old) (faults self.new) result };

    /// Opens a connection that asks a node. The former one is closed.
    fn connect(&mut self, to: Node) -> Result<(), Fault>
        ensures standing { standing self.new ≡ record (standing self.old) { asked = connected_to to result } }
        ensures told { Connects to (told self.old) (told self.new) result }
        ensures cause { HasLinkCause (asking_count (Some to)) (faults self.old) (faults self.new) result };

    /// Takes some of the bytes that come on the asking connection. No bytes for a buffer that isn't
    /// empty are the end.
    fn receive(&mut self, buf: &mut [u8]) -> Result<usize, Fault>
        ensures bound { ReadsAtMost result buf.new }
        ensures none { (standing self.old).asked ≡ None → IsErr result }
        ensures standing { standing self.new ≡ standing self.old }
        ensures told { Receives (told self.old) (told self.new) result buf.new }
        ensures cause { HasLinkCause (asking_count (standing self.old).asked) (faults self.old)
            (faults self.new) result };

    /// Sends some of the bytes on the asking connection, at least one where there is one.
    fn send(&mut self, bytes: &[u8]) -> Result<usize, Fault>
        ensures bound { WritesAtMost result bytes.now }
        ensures some { IfOk result (λ n. 0 < length bytes.now → 0 < n) }
        ensures none { (standing self.old).asked ≡ None → IsErr result }
        ensures standing { standing self.new ≡ standing self.old }
        ensures told { Sends (told self.old) (told self.new) result bytes.now }
        ensures cause { HasLinkCause (asking_count (standing self.old).asked) (faults self.old)
            (faults self.new) result };

    /// Closes the asking connection. It never fails.
    fn hang_up(&mut self)
        ensures standing { standing self.new ≡ record (standing self.old) { asked = None } }
        ensures told { told self.new ≡ told self.old }
        ensures same { faults self.new ≡ faults self.old };

    /// Tells whoever watches the program a note: one line of text, without its end. No connection has
    /// a part in it. Links that can't tell it, as to a standard error that is closed, go on without.
    ///
    /// # Errors
    ///
    /// [`Memory`], of links that keep their notes; then the note isn't kept.
    fn note(&mut self, line: &[u8]) -> Result<(), Memory>
        ensures ok { OnOk result (told self.new ≡ after_notes (line.now ∷ []) (told self.old)) }
        ensures err { OnErr result (told self.new ≡ told self.old) }
        ensures standing { standing self.new ≡ standing self.old }
        ensures same { faults self.new ≡ faults self.old };
}
