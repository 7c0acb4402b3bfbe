ghost use Rattle.std.specs.Prelude.{◌≡◌, ◌<◌, [], None, false, length, IfOk};
ghost use Rattle.std.specs.Io.{ReadsAtMost, WritesAtMost};
ghost use Rattle.osd_bytes.specs.Counts.{asking_count};
ghost use Rattle.osd_links.specs.Linked.{Faulted};

use crate::faults::{Cause, LinkFault, Party};
use crate::patience::{Limits, Patience};
use crate::printable::Printable;
use crate::resting::Resting;
use crate::stopwatch::Stopwatch;
use crate::timed::Timed;
use osd_bytes::{Fault, Links, Peers};
use osd_lists::{Bytes, Memory, Node};
use std::alloc::Global;
use std::io::{Eprint, ErrorKind, Read, Write};
use std::marker::Model;
use std::net::{Net, OpenListener, OpenStream, TcpListener, TcpStream, ToSocketAddrs};
use std::time::{Clock, Duration};
use std::{io, str};

// The four counts of calls that failed.
#[derive(Clone, Copy, Drop)]
struct Counts {
    listening: u64,
    accepted: u64,
    server: u64,
    others: u64,
}

// A connection that was accepted, and whether it is written or read now.
#[derive(Drop)]
struct Caller<S> {
    timed: Timed<S>,
    is_written: bool,
}

// A connection that asks a node.
#[derive(Drop)]
struct Asking<S> {
    node: Node,
    timed: Timed<S>,
}

impl<S: OpenStream + Read + Write + Drop> Asking<S> {
    fn read(&mut self, buf: &mut [u8], now: Option<Duration>) -> Result<usize, Cause>
        ensures bound { ReadsAtMost result buf.new }
        ensures node { self.new.node ≡ self.old.node }
    {
        self.timed.read(buf, now)
    }

    fn write(&mut self, bytes: &[u8], now: Option<Duration>) -> Result<usize, Cause>
        ensures bound { WritesAtMost result bytes.now }
        ensures some { IfOk result (λ n. 0 < length bytes.now → 0 < n) }
        ensures node { self.new.node ≡ self.old.node }
    {
        self.timed.write(bytes, now)
    }
}

// What failed last: whom it was about, and why.
#[derive(Clone, Copy, Drop)]
struct Last {
    party: Party,
    cause: Cause,
}

/// Connections over TCP. Addresses are a host and a port, as in `127.0.0.1:7000`.
///
/// A call on a peer fails where it keeps silent too long, or takes too long over a whole record, as [`Patience`]
/// says. The record that comes on an accepted connection has its time from the first `take` behind an `accept` or a
/// `put` on, the answer from the first `put` behind a `take` on, and an exchange with a node that is asked from
/// `connect` on. `accept` waits for a connection as long as it takes, and passes over one that its peer gave up
/// while it waited.
///
/// Where the links listen, a drive that didn't answer in time isn't asked for a while: `connect` fails at once then.
///
/// A note goes to standard error as a line of its own, at once. Where that fails nobody is told.
#[derive(Drop)]
pub struct TcpLinks<R: Net + Clock + Eprint> {
    runtime: R,
    patience: Patience,
    listen: Bytes,
    peers: Peers,
    listener: Option<R::Listener>,
    accepted: Option<Caller<R::Stream>>,
    asking: Option<Asking<R::Stream>>,
    counts: Counts,
    resting: Resting,
    last: Option<Last>,
    refused: Bytes,
}

impl<R: Net + Clock + Eprint> Model for TcpLinks<R> {
    ghost use Rattle.std.specs.Prelude.{is_some, option_map};
    ghost use Rattle.osd_links.specs.Linked.{Linked};

    ghost Value = { Linked };

    ghost view = { λ l. record {
      standing = record {
        listen = l.listen;
        peers = l.peers;
        accepted = is_some l.accepted;
        asked = option_map (λ a. a.node) l.asking;
      };
      faults = record {
        listening = l.counts.listening;
        accepted = l.counts.accepted;
        server = l.counts.server;
        others = l.counts.others;
      };
    } };
}

// The next connection. One that its peer gave up while it waited is passed over.
fn next_stream<L: OpenListener>(listener: &L) -> io::Result<L::Stream> {
    for _ in 0..u64::MAX {
        match listener.accept() {
            Ok((stream, _)) => return Ok(stream),
            Err(e) if is_passed_over(e.kind()) => {}
            Err(e) => return Err(e),
        }
    }
    Err(io::Error::from(ErrorKind::Interrupted))
}

// Whether a call of accept tells of the connection that it was to give alone, and not of the listener.
fn is_passed_over(kind: ErrorKind) -> bool {
    matches!(
        kind,
        ErrorKind::ConnectionAborted | ErrorKind::ConnectionReset | ErrorKind::Interrupted
    )
}

// The first connection to one of an address's places that comes about within the limits.
fn connected<R: Net + Clock>(
    runtime: &R,
    address: &str,
    limits: Limits,
    watch: &mut Stopwatch,
) -> Result<R::Stream, Cause> {
    let places = match address.to_socket_addrs(runtime) {
        Ok(places) => places,
        Err(e) => return Err(Cause::of_address(e)),
    };
    let mut cause = Cause::NoHost;
    for place in places {
        let left = watch.left_of(limits.whole, runtime.monotonic().ok());
        if left.is_zero() {
            return Err(Cause::Silent);
        }
        match TcpStream::connect_timeout(runtime, &place, left.min(limits.silence)) {
            Ok(stream) => return Ok(stream),
            Err(e) => cause = Cause::of(e),
        }
    }
    Err(cause)
}

impl<R: Net + Clock + Eprint + Drop> TcpLinks<R> {
    /// Links without an address and without a connection, by a handle of the runtime, with the program's patience.
    pub fn new(runtime: R, alloc: Global) -> Self
        ensures { result ≡ record {
          standing = record { listen = []; peers = []; accepted = false; asked = None };
          faults = record { listening = 0; accepted = 0; server = 0; others = 0 };
        } }
    {
        TcpLinks::with_patience(runtime, alloc, Patience::usual())
    }

    /// The same with another patience.
    pub fn with_patience(runtime: R, alloc: Global, patience: Patience) -> Self
        ensures { result ≡ record {
          standing = record { listen = []; peers = []; accepted = false; asked = None };
          faults = record { listening = 0; accepted = 0; server = 0; others = 0 };
        } }
    {
        TcpLinks {
            runtime,
            patience,
            listen: Bytes::new(alloc),
            peers: Peers::new(alloc),
            listener: None,
            accepted: None,
            asking: None,
            counts: Counts {
                listening: 0,
                accepted: 0,
                server: 0,
                others: 0,
            },
            resting: Resting::new(alloc),
            last: None,
            refused: Bytes::new(alloc),
        }
    }

    /// What failed last: where the links couldn't listen or accept, or where a node that was asked didn't answer.
    /// An answer of a node ends it. What happens on accepted connections isn't among it.
    pub fn last_fault(&self) -> Option<LinkFault<'_>> {
        let last = self.last?;
        let address = match last.party {
            Party::Own if self.refused.is_empty() => self.listen.as_slice(),
            Party::Own => self.refused.as_slice(),
            Party::Asked(node) => self.address_of(node),
        };
        Some(LinkFault {
            party: last.party,
            address,
            cause: last.cause,
        })
    }

    // The address of a node, empty where none is known.
    fn address_of(&self, node: Node) -> &[u8] {
        match self.peers.as_slice().iter().find(|peer| peer.node == node) {
            Some(peer) => peer.address.as_slice(),
            None => &[],
        }
    }

    // The time of a clock that doesn't go back, where it can be read.
    fn now(&self) -> Option<Duration> {
        self.runtime.monotonic().ok()
    }

    // How long these links wait for a node.
    fn limits_for(&self, node: Node) -> Limits {
        match node {
            Node::Drive(_) if self.listener.is_some() => self.patience.drive_of_server,
            Node::Drive(_) => self.patience.drive,
            Node::Server | Node::Client(_) => self.patience.server,
        }
    }

    // Whether a node isn't asked now, since it didn't answer in time before.
    fn leaves_alone(&self, node: Node) -> bool {
        match (node, self.now()) {
            (Node::Drive(drive), Some(now)) => self.resting.has(drive, now, self.patience.rest),
            _ => false,
        }
    }

    // A connection to the node, where its address is known and it answers in time.
    fn opened(&self, to: Node) -> Result<Timed<R::Stream>, Cause> {
        if self.leaves_alone(to) {
            return Err(Cause::Resting);
        }
        let address = self.address_of(to);
        if address.is_empty() {
            return Err(Cause::Unknown);
        }
        let Ok(address) = str::from_utf8(address) else {
            return Err(Cause::Malformed);
        };
        let limits = self.limits_for(to);
        let mut watch = Stopwatch::new();
        match connected(&self.runtime, address, limits, &mut watch) {
            Ok(stream) => Ok(Timed::new(stream, limits, watch)),
            Err(cause) => Err(cause),
        }
    }

    // A listener at the address.
    fn listener_at(&self, listen: &Bytes) -> Result<R::Listener, Cause> {
        let Ok(address) = str::from_utf8(listen.as_slice()) else {
            return Err(Cause::Malformed);
        };
        let places = match address.to_socket_addrs(&self.runtime) {
            Ok(places) => places,
            Err(e) => return Err(Cause::of_address(e)),
        };
        let mut cause = Cause::NoHost;
        for place in places {
            match TcpListener::bind(&self.runtime, place) {
                Ok(listener) => return Ok(listener),
                Err(e) => cause = Cause::of(e),
            }
        }
        Err(cause)
    }

    fn listening_fault(&mut self, cause: Cause) -> Fault
        ensures { Faulted (λ f. f.listening) self.old self.new }
    {
        self.counts.listening = self.counts.listening.saturating_add(1);
        self.last = Some(Last {
            party: Party::Own,
            cause,
        });
        Fault
    }

    fn accepted_fault(&mut self) -> Fault
        ensures { Faulted (λ f. f.accepted) self.old self.new }
    {
        self.counts.accepted = self.counts.accepted.saturating_add(1);
        Fault
    }

    // Counts a call of the asking connection, or one without it.
    fn asking_fault(&mut self, failed: Option<Cause>) -> Fault
        ensures { Faulted (asking_count self.old.standing.asked) self.old self.new }
    {
        let asked = self.asked();
        if let (Some(node), Some(cause)) = (asked, failed) {
            self.remember(node, cause);
        }
        self.count_asking(asked)
    }

    fn count_asking(&mut self, asked: Option<Node>) -> Fault
        ensures { Faulted (asking_count asked) self.old self.new }
    {
        match asked {
            Some(Node::Server) => self.counts.server = self.counts.server.saturating_add(1),
            _ => self.counts.others = self.counts.others.saturating_add(1),
        }
        Fault
    }

    // What a node that was asked failed of. Where the links listen, a drive that is late isn't asked for a while.
    fn remember(&mut self, asked: Node, cause: Cause)
        ensures { self.new ≡ self.old }
    {
        self.last = Some(Last {
            party: Party::Asked(asked),
            cause,
        });
        if !cause.is_late() || self.listener.is_none() {
            return;
        }
        if let (Node::Drive(drive), Some(now)) = (asked, self.now()) {
            self.resting.begin(drive, now);
        }
    }

    // The node that is asked sent so many bytes. None of them are its end, where some were wanted.
    fn hear(&mut self, count: usize, wants_none: bool)
        ensures { self.new ≡ self.old }
    {
        let Some(node) = self.asked() else {
            return;
        };
        if count > 0 {
            self.last = None;
            self.wake(node);
        } else if !wants_none {
            self.remember(node, Cause::Ended);
        }
    }

    // A node that answers may be asked again.
    fn wake(&mut self, node: Node)
        ensures { self.new ≡ self.old }
    {
        if let Node::Drive(drive) = node {
            self.resting.end(drive);
        }
    }

    fn asked(&self) -> Option<Node>
        ensures { result ≡ self.now.standing.asked }
    {
        match &self.asking {
            Some(asking) => Some(asking.node),
            None => None,
        }
    }
}

impl<R: Net + Clock + Eprint + Drop> Links for TcpLinks<R> {
    ghost use Rattle.std.specs.Prelude.{None};

    ghost standing = { λ l. l.standing };

    ghost faults = { λ l. l.faults };

    ghost told = { λ _. None };

    fn settle(&mut self, listen: Bytes, peers: Peers) -> Result<(), Fault> {
        let listener = if listen.is_empty() {
            None
        } else {
            match self.listener_at(&listen) {
                Ok(listener) => Some(listener),
                Err(cause) => {
                    self.refused = listen;
                    return Err(self.listening_fault(cause));
                }
            }
        };
        self.listener = listener;
        self.listen = listen;
        self.peers = peers;
        Ok(())
    }

    fn accept(&mut self) -> Result<(), Fault> {
        self.accepted = None;
        let came = match &self.listener {
            Some(listener) => next_stream(listener),
            None => Err(io::Error::from(ErrorKind::NotConnected)),
        };
        match came {
            Ok(stream) => {
                self.accepted = Some(Caller {
                    timed: Timed::new(stream, self.patience.caller, Stopwatch::new()),
                    is_written: false,
                });
                Ok(())
            }
            Err(e) => Err(self.listening_fault(Cause::of(e))),
        }
    }

    fn take(&mut self, buf: &mut [u8]) -> Result<usize, Fault> {
        let now = self.now();
        if let Some(caller) = &mut self.accepted {
            if caller.is_written {
                caller.is_written = false;
                caller.timed.begin();
            }
            if let Ok(count) = caller.timed.read(buf, now) {
                return Ok(count);
            }
        }
        Err(self.accepted_fault())
    }

    fn put(&mut self, bytes: &[u8]) -> Result<usize, Fault> {
        let now = self.now();
        if let Some(caller) = &mut self.accepted {
            if !caller.is_written {
                caller.is_written = true;
                caller.timed.begin();
            }
            if let Ok(count) = caller.timed.write(bytes, now) {
                return Ok(count);
            }
        }
        Err(self.accepted_fault())
    }

    fn connect(&mut self, to: Node) -> Result<(), Fault> {
        self.asking = None;
        match self.opened(to) {
            Ok(timed) => {
                self.asking = Some(Asking { node: to, timed });
                Ok(())
            }
            Err(cause) => {
                self.remember(to, cause);
                Err(self.count_asking(Some(to)))
            }
        }
    }

    fn receive(&mut self, buf: &mut [u8]) -> Result<usize, Fault> {
        let now = self.now();
        let mut failed = None;
        if let Some(asking) = &mut self.asking {
            match asking.read(buf, now) {
                Ok(count) => {
                    self.hear(count, buf.is_empty());
                    return Ok(count);
                }
                Err(cause) => failed = Some(cause),
            }
        }
        Err(self.asking_fault(failed))
    }

    fn send(&mut self, bytes: &[u8]) -> Result<usize, Fault> {
        let now = self.now();
        let mut failed = None;
        if let Some(asking) = &mut self.asking {
            match asking.write(bytes, now) {
                Ok(count) => return Ok(count),
                Err(cause) => failed = Some(cause),
            }
        }
        Err(self.asking_fault(failed))
    }

    fn hang_up(&mut self) {
        self.asking = None;
    }

    fn note(&mut self, line: &[u8]) -> Result<(), Memory> {
        let _told = self.runtime.eprintln(Printable::new(line));
        Ok(())
    }
}
