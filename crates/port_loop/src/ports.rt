ghost use Rattle.std.specs.Prelude.{◌≡◌, ℕ, List, Option, Some, OnOk, OnErr};
ghost use Rattle.osd_bytes.specs.Causes.{HasCause};
ghost use Rattle.port_loop.specs.Ports.{Adds, Arrives, Opens, PutsOn};
ghost use Rattle.port_loop.specs.declared.ports.Happening.{Happening};
ghost use Rattle.port_loop.specs.declared.ports.Happening.TheVariants.{Closed};

use osd_bytes::{Bytes, Fault, Node};

/// What happened next on some connection.
#[derive(Clone, Copy)]
pub enum Arrival {
    /// A connection is open now, under this number.
    Opens { port: u64 },
    /// So many bytes came on it, and are at the front of the buffer.
    Brings { port: u64, count: usize },
    /// There is room on it again.
    Drains { port: u64 },
    /// It is at its end: its peer hung up, it failed, or it was silent too long.
    Closes { port: u64 },
    /// Nothing happened for a while.
    Quiet,
}

/// What happened on a connection, or on none.
#[derive(Drop)]
pub enum Happening {
    /// It began.
    Began {
        port: u64,
    },
    /// It was opened from here, towards this node.
    Opened {
        port: u64,
        to: Node,
    },
    /// None could be opened towards this node.
    Refused {
        to: Node,
    },
    /// Bytes came on it.
    Came {
        port: u64,
        bytes: Bytes,
    },
    /// Bytes were put on it, and it was full then, or not.
    Went {
        port: u64,
        bytes: Bytes,
        is_full: bool,
    },
    /// A put on it failed.
    Failed {
        port: u64,
    },
    /// There was room on it again.
    Drained {
        port: u64,
    },
    /// It ended by itself.
    Ended {
        port: u64,
    },
    /// It was closed from here.
    Closed {
        port: u64,
    },
    /// Nothing happened on any connection for a while.
    Passed,
}

/// Connections that stand side by side, each under a number of its own, which is never used again. They are those that
/// peers open at the address at which the ports listen, and those that are opened from here.
///
/// No call waits for one peer: `next` waits for all of them, and `put` leaves what there is no room for. A connection on
/// which a `put` didn't take all is full until it drains.
///
/// The count of calls that failed never falls, and stays at its greatest number. A [`Fault`] comes only if it rose.
pub trait Ports {
    /// How many connections were opened.
    ghost opened: { Self → ℕ };

    /// How many calls failed.
    ghost faults: { Self → ℕ };

    /// What happened on the connections, the newest first, if the ports tell that. They may cease to.
    ghost told: { Self → Option (List Happening) };

    /// The address at which they listen, if they do.
    ghost listens: { Self → Option (List ℕ) };

    /// Listens at an address in place of the one before. After a [`Fault`] they listen where they did.
    fn listen(&mut self, address: &[u8]) -> Result<(), Fault>
        ensures ok { OnOk result (listens self.new ≡ Some address.now) }
        ensures err { OnErr result (listens self.new ≡ listens self.old) }
        ensures told { told self.new ≡ told self.old }
        ensures opened { opened self.new ≡ opened self.old }
        ensures cause { HasCause (faults self.old) (faults self.new) result };

    /// Waits for what happens next on any connection, at most for a while. The buffer isn't empty.
    fn next(&mut self, buf: &mut [u8]) -> Result<Arrival, Fault>
        ensures arrives { Arrives (opened self.old) (opened self.new) (told self.old) (told self.new) result buf.new }
        ensures listens { listens self.new ≡ listens self.old }
        ensures cause { HasCause (faults self.old) (faults self.new) result };

    /// Begins a connection towards a node, under the next number. It is open then. One that can't be connected ends.
    ///
    /// # Errors
    ///
    /// [`Fault`] if it can't be begun, as for want of the node's address.
    fn open(&mut self, to: Node) -> Result<u64, Fault>
        ensures opens { Opens to (opened self.old) (opened self.new) (told self.old) (told self.new) result }
        ensures listens { listens self.new ≡ listens self.old }
        ensures cause { HasCause (faults self.old) (faults self.new) result };

    /// Puts bytes on a connection, from the front, as many as there is room for; perhaps none.
    fn put(&mut self, port: u64, bytes: &[u8]) -> Result<usize, Fault>
        ensures puts { PutsOn port (told self.old) (told self.new) result bytes.now }
        ensures opened { opened self.new ≡ opened self.old }
        ensures listens { listens self.new ≡ listens self.old }
        ensures cause { HasCause (faults self.old) (faults self.new) result };

    /// Closes a connection. It never fails.
    fn close(&mut self, port: u64)
        ensures told { Adds (Closed port) (told self.old) (told self.new) }
        ensures opened { opened self.new ≡ opened self.old }
        ensures listens { listens self.new ≡ listens self.old }
        ensures same { faults self.new ≡ faults self.old };
}
