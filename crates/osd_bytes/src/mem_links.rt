ghost use Rattle.std.specs.Prelude.{◌≡◌, ◌<◌, ◌↔◌, ◌++◌, ◌∷◌, [], None, false, Contains, IsTrue, IfSome, OnOk, OnErr, length, slice_get};
ghost use Rattle.osd_bytes.specs.Connections.{begin, next_stream};
ghost use Rattle.osd_bytes.specs.Counts.{asking_count};
ghost use Rattle.osd_bytes.specs.InMemory.{Faulted};

use crate::conversation::Conversations;
use crate::in_memory::is_listed;
use crate::links::{Links, Peers};
use crate::source::Fault;
use osd_lists::{ByteLists, Bytes, Memory, Node, Numbers, Sequence};
use std::alloc::Global;
use std::marker::Model;

/// The four counts of links.
#[derive(Clone, Copy, Drop)]
struct Counts {
    listening: u64,
    accepted: u64,
    server: u64,
    others: u64,
}

/// Connections in memory.
#[derive(Drop)]
pub struct MemLinks {
    alloc: Global,
    listen: Bytes,
    peers: Peers,
    has_accepted: bool,
    asks: Option<Node>,
    counts: Counts,
    accepted: Conversations,
    asked: Conversations,
    nodes: Sequence<Node>,
    notes: ByteLists,
    fails: Numbers,
    calls: u64,
}

impl Model for MemLinks {
    ghost use Rattle.std.specs.Prelude.{◌≡◌, ◌<◌, true, Some, length};
    ghost use Rattle.osd_lists.specs.declared.node.Node.{Node};
    ghost use Rattle.osd_bytes.specs.InMemory.{Linked};

    ghost Value = { Linked };

    ghost view = { λ m. record {
      standing = record { listen = m.listen; peers = m.peers; accepted = m.has_accepted; asked = m.asks };
      faults = record {
        listening = m.counts.listening;
        accepted = m.counts.accepted;
        server = m.counts.server;
        others = m.counts.others;
      };
      traffic = record {
        to_accept = m.accepted.coming;
        accepted = m.accepted.talks;
        to_ask = m.asked.coming;
        asked = m.asked.talks;
        nodes = m.nodes;
        notes = m.notes;
      };
      fails = m.fails;
      calls = m.calls;
    } };

    ghost invariant = { λ m. (m.has_accepted ≡ true → 0 < length m.accepted.talks) ×
        ((to : Node) → m.asks ≡ Some to → 0 < length m.asked.talks) };
}

impl MemLinks {
    /// Links on whose accepted connections these bytes come, in order, and on whose asking ones
    /// those, one for each call of `connect`, in order, also for one that fails. Past the end of its
    /// list nothing comes. The calls whose numbers stand in `fails` fail, counted from 0; `hang_up`
    /// and `note` have no number.
    pub fn new(alloc: Global, accepted: ByteLists, asked: ByteLists, fails: Numbers) -> Self
        ensures { result ≡ record {
          standing = record { listen = []; peers = []; accepted = false; asked = None };
          faults = record { listening = 0; accepted = 0; server = 0; others = 0 };
          traffic = record { to_accept = accepted; accepted = []; to_ask = asked; asked = []; nodes = []; notes = [] };
          fails = fails;
          calls = 0;
        } }
    {
        MemLinks {
            alloc,
            listen: Bytes::new(alloc),
            peers: Peers::new(alloc),
            has_accepted: false,
            asks: None,
            counts: Counts {
                listening: 0,
                accepted: 0,
                server: 0,
                others: 0,
            },
            accepted: Conversations::new(alloc, accepted),
            asked: Conversations::new(alloc, asked),
            nodes: Sequence::new(alloc),
            notes: ByteLists::new(alloc),
            fails,
            calls: 0,
        }
    }

    /// How many connections were accepted.
    pub fn accepts(&self) -> usize
        ensures { result ≡ length self.now.traffic.accepted }
    {
        self.accepted.len()
    }

    /// What was put on the accepted connection `i`, from 0.
    pub fn put_on(&self, i: usize) -> &[u8]
        requires { i < length self.now.traffic.accepted }
        ensures { IfSome (slice_get self.now.traffic.accepted i) (λ talk. result.now ≡ talk.put) }
    {
        self.accepted.get(i).bytes()
    }

    /// How many connections asked.
    pub fn asked_count(&self) -> usize
        ensures { result ≡ length self.now.traffic.asked }
    {
        self.asked.len()
    }

    /// What was sent on the asking connection `i`, from 0.
    pub fn sent_on(&self, i: usize) -> &[u8]
        requires { i < length self.now.traffic.asked }
        ensures { IfSome (slice_get self.now.traffic.asked i) (λ talk. result.now ≡ talk.put) }
    {
        self.asked.get(i).bytes()
    }

    /// The notes that were told, in order.
    pub fn notes(&self) -> &[Bytes]
        ensures { result.now ≡ self.now.traffic.notes }
    {
        self.notes.as_slice()
    }

    // Counts a call, which fails where its number is listed.
    fn call_fails(&mut self) -> bool
        ensures fails { IsTrue result ↔ Contains self.old.fails self.old.calls }
        ensures same { self.new ≡ record self.old { calls = self.new.calls } }
    {
        let call = self.calls;
        self.calls = self.calls.saturating_add(1);
        is_listed(self.fails.as_slice(), call)
    }

    fn listening_fault(&mut self) -> Fault
        ensures { Faulted (λ f. f.listening) self.old self.new }
    {
        self.counts.listening = self.counts.listening.saturating_add(1);
        Fault
    }

    fn accepted_fault(&mut self) -> Fault
        ensures { Faulted (λ f. f.accepted) self.old self.new }
    {
        self.counts.accepted = self.counts.accepted.saturating_add(1);
        Fault
    }

    fn asking_fault(&mut self, asked: Option<Node>) -> Fault
        ensures { Faulted (asking_count asked) self.old self.new }
    {
        match asked {
            Some(Node::Server) => self.counts.server = self.counts.server.saturating_add(1),
            _ => self.counts.others = self.counts.others.saturating_add(1),
        }
        Fault
    }

    // Begins a connection that asks a node. If there is no memory, nothing changes.
    fn begin_asking(&mut self, to: Node) -> Result<(), Memory>
        ensures ok { OnOk result (self.new ≡ record self.old {
          traffic = record self.old.traffic {
            asked = self.old.traffic.asked ++ begin (next_stream self.old.traffic.to_ask) ∷ [];
            nodes = self.old.traffic.nodes ++ to ∷ [];
          };
        }) }
        ensures err { OnErr result (self.new ≡ self.old) }
    {
        let before = self.nodes.len();
        self.nodes.push(to)?;
        match self.asked.begin(self.alloc) {
            Ok(()) => Ok(()),
            Err(refused) => {
                self.nodes.truncate(before);
                Err(refused)
            }
        }
    }
}

impl Links for MemLinks {
    ghost use Rattle.std.specs.Prelude.{Some};

    ghost standing = { λ m. m.standing };

    ghost faults = { λ m. m.faults };

    ghost told = { λ m. Some m.traffic };

    fn settle(&mut self, listen: Bytes, peers: Peers) -> Result<(), Fault> {
        if self.call_fails() {
            return Err(self.listening_fault());
        }
        self.listen = listen;
        self.peers = peers;
        Ok(())
    }

    fn accept(&mut self) -> Result<(), Fault> {
        self.has_accepted = false;
        if self.call_fails() || self.accepted.begin(self.alloc).is_err() {
            return Err(self.listening_fault());
        }
        self.accepted.skip();
        self.has_accepted = true;
        Ok(())
    }

    fn take(&mut self, buf: &mut [u8]) -> Result<usize, Fault> {
        if self.call_fails() || !self.has_accepted {
            return Err(self.accepted_fault());
        }
        Ok(self.accepted.take(buf))
    }

    fn put(&mut self, bytes: &[u8]) -> Result<usize, Fault> {
        if self.call_fails() || !self.has_accepted || self.accepted.put(bytes).is_err() {
            return Err(self.accepted_fault());
        }
        Ok(bytes.len())
    }

    fn connect(&mut self, to: Node) -> Result<(), Fault> {
        self.asks = None;
        let failed = self.call_fails() || self.begin_asking(to).is_err();
        self.asked.skip();
        if failed {
            return Err(self.asking_fault(Some(to)));
        }
        self.asks = Some(to);
        Ok(())
    }

    fn receive(&mut self, buf: &mut [u8]) -> Result<usize, Fault> {
        if self.call_fails() || self.asks.is_none() {
            return Err(self.asking_fault(self.asks));
        }
        Ok(self.asked.take(buf))
    }

    fn send(&mut self, bytes: &[u8]) -> Result<usize, Fault> {
        if self.call_fails() || self.asks.is_none() || self.asked.put(bytes).is_err() {
            return Err(self.asking_fault(self.asks));
        }
        Ok(bytes.len())
    }

    fn hang_up(&mut self) {
        self.asks = None;
    }

    fn note(&mut self, line: &[u8]) -> Result<(), Memory> {
        let line = Bytes::copied(self.alloc, line)?;
        self.notes.push(line)
    }
}
