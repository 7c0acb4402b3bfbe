ghost use Rattle.std.specs.Prelude.{◌≡◌, ◌≤◌, ◌++◌, None, drop, false, true, length, nat_lt, IfOk, OnOk, IsTrue, ◌↔◌};
ghost use Rattle.osd_bytes.specs.Records.{framed};
ghost use Rattle.osd_bytes.specs.declared.records.TheConstants.{MAX_RECORD};
ghost use Rattle.node_loop.specs.Nodes.{held};
ghost use Rattle.node_loop.specs.Points.{Reads};

use osd_bytes::{ByteLists, Memory, Node};
use port_loop::Session;
use std::alloc::Global;
use std::marker::Model;

/// What is kept of a connection that is open.
#[derive(Drop)]
pub(crate) struct Peer {
    session: Session,
    // Towards which node it was opened, if others didn't begin it.
    to: Option<Node>,
    // The last put didn't take all, and there was no room since.
    is_full: bool,
    // A message was posted on it, and no byte came since.
    is_awaited: bool,
}

impl Model for Peer {
    ghost use Rattle.node_loop.specs.Nodes.{Held};

    ghost Value = { Held };

    ghost view = { λ p. record {
      begun = p.session.begun;
      unsent = p.session.unsent;
      to = p.to;
      is_full = p.is_full;
      is_awaited = p.is_awaited;
    } };
}

impl Peer {
    /// Of a connection on which nothing came. It was opened towards this node, or others began it.
    pub(crate) fn new(alloc: Global, to: Option<Node>) -> Self
        ensures { result ≡ held to }
    {
        Peer {
            session: Session::new(alloc),
            to,
            is_full: false,
            is_awaited: false,
        }
    }

    /// Towards which node it was opened, if others didn't begin it.
    pub(crate) fn to(&self) -> Option<Node>
        ensures { result ≡ self.now.to }
    {
        self.to
    }

    /// Whether there is no room on it.
    pub(crate) fn is_full(&self) -> bool
        ensures { result ≡ self.now.is_full }
    {
        self.is_full
    }

    /// Whether a message was posted on it, and no byte came since.
    pub(crate) fn is_awaited(&self) -> bool
        ensures { result ≡ self.now.is_awaited }
    {
        self.is_awaited
    }

    /// Whether a record was too long.
    pub(crate) fn is_broken(&self) -> bool
        ensures { IsTrue result ↔ (self.now.begun ≡ None) }
    {
        self.session.is_broken()
    }

    /// The records that a piece completes, up to one that is too long. After such a one there are none.
    pub(crate) fn read(&mut self, piece: &[u8]) -> Result<ByteLists, Memory>
        ensures { IfOk result (λ records. Reads piece.now records self.old self.new) }
    {
        self.is_awaited = false;
        self.session.read(piece)
    }

    /// One more message is to be put.
    pub(crate) fn post(&mut self, message: &[u8]) -> Result<(), Memory>
        requires { length message.now ≤ MAX_RECORD }
        ensures { OnOk result (self.new ≡ record self.old {
          unsent = self.old.unsent ++ framed message.now;
          is_awaited = true;
        }) }
    {
        self.is_awaited = true;
        self.session.owe(message)
    }

    /// There is room on it again.
    pub(crate) fn drained(&mut self)
        ensures { self.new ≡ record self.old { is_full = false } }
    {
        self.is_full = false;
    }

    /// What is still to be put.
    pub(crate) fn unsent(&self) -> &[u8]
        ensures { result.now ≡ self.now.unsent }
    {
        self.session.unsent()
    }

    /// So many bytes of what is to be put were put. If that weren't all, there is no room.
    pub(crate) fn went(&mut self, count: usize) -> Result<(), Memory>
        requires { count ≤ length self.old.unsent }
        ensures { OnOk result (self.new ≡ record self.old {
          unsent = drop count self.old.unsent;
          is_full = nat_lt count (length self.old.unsent);
        }) }
    {
        self.is_full = count < self.session.unsent().len();
        self.session.went(count)
    }
}
