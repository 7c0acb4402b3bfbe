ghost use Rattle.std.specs.Prelude.{◌≡◌, ◌≤◌, ℕ, List, Some, OnErr, OnOk};
ghost use Rattle.osd_bytes.specs.Causes.{Rose};

use crate::limits::PortLimits;
use crate::poller::Poller;
use crate::slot::Slot;
use crate::table::{LISTENER, Table};
use mio::Token;
use mio::net::{TcpListener, TcpStream};
use osd_bytes::{Bytes, Fault, Node, Peers};
use osd_links::{Cause, LinkFault, Party};
use port_loop::{Arrival, Ports};
use std::alloc::Global;
use std::collections::VecDeque;
use std::io::{self, ErrorKind};
use std::marker::Model;
use std::net::{Net, ToSocketAddrs};
use std::str;
use std::time::{Clock, Duration};

// How long `next` waits at most, and how often it looks for peers that are late.
const WAIT_MILLIS: u64 = 1_000;

// How many connections that their peers gave up are passed over at once.
const MOST_GIVEN_UP: u32 = 16;

// Why the ports couldn't listen or wait last, and the address at which they were to listen, if it was that.
#[derive(Drop)]
struct Last {
    refused: Option<Bytes>,
    cause: Cause,
}

/// Connections over TCP that were accepted or opened, as far as [`PortLimits`] allow. Addresses are a host and a port, and of
/// the places of a host that is asked the first one is taken.
///
/// They have their turns one after the other: a connection brings one piece, then each other that has something. A full one
/// isn't read until there is room on it again. A peer that is silent too long, or takes too long over a record or a reply, is
/// hung up on; the time of a record begins with the connection, or with its first byte after a reply. A peer that is asked has
/// its time for a command until all of it is written, and then for the first byte of an answer. If the table is full and one
/// more comes or is opened, the connection that was silent longest goes.
///
/// The bytes are the system's: no contract says that they are those of the socket, or that something comes at all.
#[derive(Drop)]
pub struct TcpPorts<R: Net + Clock> {
    runtime: R,
    alloc: Global,
    table: Table,
    poller: Option<Poller>,
    listener: Option<TcpListener>,
    // Where it listens.
    address: Option<Bytes>,
    // Where nodes are asked.
    peers: Peers,
    // Connections that went for others, and of which that isn't told yet.
    gone: VecDeque<u64>,
    // A connection that was accepted when the table was full.
    newcomer: Option<TcpStream>,
    // The time of a clock that doesn't go back, as it was read last.
    now: Duration,
    // When no peer was late.
    looked: Duration,
    opened: u64,
    faults: u64,
    last: Option<Last>,
}

impl<R: Net + Clock> Model for TcpPorts<R> {
    ghost use Rattle.mio_ports.specs.Counted.{Counted};

    ghost Value = { Counted };

    ghost view = { λ p. record { opened = p.opened; faults = p.faults; listens = p.address } };
}

// Whether a call of accept tells of the connection that it was to give alone, and not of the listener.
fn is_given_up(kind: ErrorKind) -> bool {
    matches!(
        kind,
        ErrorKind::ConnectionAborted | ErrorKind::ConnectionReset | ErrorKind::Interrupted
    )
}

// The next connection, or why there is none. Those that their peers gave up are passed over.
fn next_stream(listener: &TcpListener) -> io::Result<TcpStream> {
    for _ in 0..MOST_GIVEN_UP {
        match listener.accept() {
            Ok((stream, _)) => return Ok(stream),
            Err(e) if is_given_up(e.kind()) => {}
            Err(e) => return Err(e),
        }
    }
    Err(io::Error::from(ErrorKind::Interrupted))
}

impl<R: Net + Clock + Drop> TcpPorts<R> {
    ghost use Rattle.mio_ports.specs.Counted.{Arrived, Begun, nothing_counted};

    /// No connections, which nobody listens for yet, by a handle of the runtime.
    pub fn new(runtime: R, alloc: Global, limits: PortLimits) -> Self
        ensures { result ≡ nothing_counted }
    {
        TcpPorts {
            runtime,
            alloc,
            table: Table::new(alloc, limits),
            poller: None,
            listener: None,
            address: None,
            peers: Peers::new(alloc),
            gone: VecDeque::new(alloc),
            newcomer: None,
            now: Duration::ZERO,
            looked: Duration::ZERO,
            opened: 0,
            faults: 0,
            last: None,
        }
    }

    /// Why it couldn't listen, or couldn't wait for connections, last. What happens on connections isn't among it.
    pub fn last_fault(&self) -> Option<LinkFault<'_>> {
        let last = self.last.as_ref()?;
        let address = match (&last.refused, &self.address) {
            (Some(refused), _) => refused.as_slice(),
            (None, Some(address)) => address.as_slice(),
            (None, None) => &[],
        };
        Some(LinkFault {
            party: Party::Own,
            address,
            cause: last.cause,
        })
    }

    // Listens at an address in place of the one before, or else where it did.
    fn listen_at(&mut self, address: &[u8]) -> Result<(), Cause>
        ensures ok { OnOk result (self.new ≡ record self.old { listens = Some address.now }) }
        ensures err { OnErr result (self.new ≡ self.old) }
    {
        let kept = match Bytes::copied(self.alloc, address) {
            Ok(kept) => kept,
            Err(_) => return Err(Cause::of(io::Error::from(ErrorKind::OutOfMemory))),
        };
        let mut listener = self.listener_at(address)?;
        match self.watch(&mut listener) {
            Ok(()) => {}
            Err(e) => return Err(Cause::of(e)),
        }
        self.listener = Some(listener);
        self.address = Some(kept);
        self.table.queue_listener();
        Ok(())
    }

    /// These are the addresses of the nodes that may be asked.
    pub fn meet(&mut self, peers: Peers)
        ensures { self.new ≡ self.old }
    {
        self.peers = peers;
    }

    // A listener at the address.
    fn listener_at(&self, address: &[u8]) -> Result<TcpListener, Cause> {
        let Ok(address) = str::from_utf8(address) else {
            return Err(Cause::Malformed);
        };
        let places = match address.to_socket_addrs(&self.runtime) {
            Ok(places) => places,
            Err(e) => return Err(Cause::of_address(e)),
        };
        let mut cause = Cause::NoHost;
        for place in places {
            match TcpListener::bind(&self.runtime, place) {
                Ok(listener) => return Ok(listener),
                Err(e) => cause = Cause::of(e),
            }
        }
        Err(cause)
    }

    // Has something that waits for readiness.
    fn have_poller(&mut self) -> io::Result<()>
        ensures { self.new ≡ self.old }
    {
        if self.poller.is_none() {
            self.poller = Some(Poller::new(&self.runtime, self.alloc)?);
        }
        Ok(())
    }

    // Has the waits tell of the listener.
    fn watch(&mut self, listener: &mut TcpListener) -> io::Result<()>
        ensures { self.new ≡ self.old }
    {
        self.have_poller()?;
        match &self.poller {
            Some(poller) => poller.add(listener, LISTENER),
            None => Ok(()),
        }
    }

    fn fault(&mut self) -> Fault
        ensures opened { self.new.opened ≡ self.old.opened }
        ensures listens { self.new.listens ≡ self.old.listens }
        ensures rose { Rose self.old.faults self.new.faults }
        ensures later { self.old.faults ≤ self.new.faults }
    {
        self.faults = self.faults.saturating_add(1);
        Fault
    }

    // Reads the clock. One that can't be read stands still.
    fn tick(&mut self)
        ensures { self.new ≡ self.old }
    {
        if let Ok(now) = self.runtime.monotonic() {
            self.now = now;
        }
    }

    // A connection that waits to be taken.
    fn arriving(&mut self) -> Option<TcpStream>
        ensures { self.new ≡ self.old }
    {
        if let Some(stream) = self.newcomer.take() {
            self.table.queue_listener_first();
            return Some(stream);
        }
        match next_stream(self.listener.as_ref()?) {
            Ok(stream) => {
                self.table.queue_listener_first();
                Some(stream)
            }
            Err(e) => {
                if is_given_up(e.kind()) {
                    self.table.queue_listener();
                }
                None
            }
        }
    }

    // Keeps a stream under the next number, of one that was accepted or is asked. Where that fails the stream is dropped.
    fn keep(&mut self, mut stream: TcpStream, is_asked: bool) -> Option<u64>
        ensures { Begun self.old self.new result }
    {
        let port = self.opened;
        if port == u64::MAX {
            return None;
        }
        let _ = stream.set_nodelay(true);
        let is_watched = match &self.poller {
            Some(poller) => poller.add(&mut stream, Token(port as usize)).is_ok(),
            None => false,
        };
        let slot = if is_asked {
            Slot::asking(stream, self.now)
        } else {
            Slot::new(stream, self.now)
        };
        if !is_watched || !self.table.keep(port, slot) {
            return None;
        }
        self.opened += 1;
        Some(port)
    }

    // What comes of the listener's turn: a new connection, or the end of one that makes room for it.
    fn admit(&mut self) -> Option<Arrival>
        ensures { (buf : List ℕ) → Arrived self.old self.new result buf }
    {
        let stream = self.arriving()?;
        if self.table.is_full() {
            let port = self.table.longest_silent()?;
            self.newcomer = Some(stream);
            self.table.queue_listener_first();
            self.table.remove(port);
            return Some(Arrival::Closes { port });
        }
        let port = self.keep(stream, false)?;
        Some(Arrival::Opens { port })
    }

    // A stream that begins to connect to a node.
    fn connecting(&self, to: Node) -> Option<TcpStream> {
        let peer = self.peers.as_slice().iter().find(|peer| peer.node == to)?;
        let address = str::from_utf8(peer.address.as_slice()).ok()?;
        let place = address.to_socket_addrs(&self.runtime).ok()?.next()?;
        TcpStream::connect(&self.runtime, place).ok()
    }

    // Has room for one connection more. If the table is full, the one that was silent longest goes.
    fn make_room(&mut self) -> Option<()>
        ensures { self.new ≡ self.old }
    {
        if self.table.is_full() {
            let port = self.table.longest_silent()?;
            self.gone.push_back(port).ok()?;
            self.table.remove(port);
        }
        Some(())
    }

    // A connection towards a node, under the next number.
    fn begin(&mut self, to: Node) -> Option<u64>
        ensures { Begun self.old self.new result }
    {
        let stream = self.connecting(to)?;
        self.have_poller().ok()?;
        self.make_room()?;
        self.keep(stream, true)
    }

    // What comes of the next turn.
    fn turn(&mut self, buf: &mut [u8]) -> Option<Arrival>
        ensures { Arrived self.old self.new result buf.new }
    {
        let token = self.table.next_turn()?;
        if token == LISTENER {
            return self.admit();
        }
        let port = token.0 as u64;
        if port >= self.opened {
            return None;
        }
        self.table.turn(port, buf, self.now)
    }

    // What comes of the turns that are left in this round.
    fn round(&mut self, buf: &mut [u8]) -> Option<Arrival>
        ensures { Arrived self.old self.new result buf.new }
    {
        for _ in 0..self.table.left() {
            if let Some(arrival) = self.turn(buf) {
                return Some(arrival);
            }
        }
        None
    }

    // Asks what is ready, and waits for that if nobody waits for a turn.
    fn wait(&mut self) -> io::Result<()>
        ensures { self.new ≡ self.old }
    {
        let millis = if self.table.is_calm() { WAIT_MILLIS } else { 0 };
        let Some(poller) = &mut self.poller else {
            return Err(io::Error::from(ErrorKind::NotConnected));
        };
        poller.wait(Duration::from_millis(millis))?;
        self.table.note(poller);
        self.table.begin_round();
        self.tick();
        Ok(())
    }

    // A connection whose peer is late, by what the last wait told. If there is none, the listener has a turn: connections may
    // wait that the system had no descriptors for.
    fn late(&mut self) -> Option<u64>
        ensures { self.new ≡ self.old }
    {
        if self.now.saturating_sub(self.looked) < Duration::from_millis(WAIT_MILLIS) {
            return None;
        }
        match &self.poller {
            Some(poller) if !poller.may_have_more() => {}
            _ => return None,
        }
        let late = self.table.late(self.now);
        if late.is_none() {
            self.looked = self.now;
            self.table.queue_listener();
        }
        late
    }
}

impl<R: Net + Clock + Drop> Ports for TcpPorts<R> {
    ghost use Rattle.std.specs.Prelude.{None};

    ghost opened = { λ p. p.opened };

    ghost faults = { λ p. p.faults };

    ghost told = { λ _. None };

    ghost listens = { λ p. p.listens };

    // The address is a host and a port as in `127.0.0.1:7000`. It fails if that isn't one, or the system doesn't let it
    // listen there.
    fn listen(&mut self, address: &[u8]) -> Result<(), Fault> {
        match self.listen_at(address) {
            Ok(()) => Ok(()),
            Err(cause) => {
                self.last = Some(Last {
                    refused: Bytes::copied(self.alloc, address).ok(),
                    cause,
                });
                Err(self.fault())
            }
        }
    }

    // Where it doesn't listen it fails.
    fn next(&mut self, buf: &mut [u8]) -> Result<Arrival, Fault> {
        self.tick();
        if let Some(port) = self.gone.pop_front() {
            return Ok(Arrival::Closes { port });
        }
        if let Some(arrival) = self.round(buf) {
            return Ok(arrival);
        }
        match self.wait() {
            Ok(()) => {}
            Err(e) => {
                self.last = Some(Last {
                    refused: None,
                    cause: Cause::of(e),
                });
                return Err(self.fault());
            }
        }
        if let Some(port) = self.late() {
            self.table.remove(port);
            return Ok(Arrival::Closes { port });
        }
        match self.round(buf) {
            Some(arrival) => Ok(arrival),
            None => Ok(Arrival::Quiet),
        }
    }

    fn open(&mut self, to: Node) -> Result<u64, Fault> {
        self.tick();
        match self.begin(to) {
            Some(port) => Ok(port),
            None => Err(self.fault()),
        }
    }

    fn put(&mut self, port: u64, bytes: &[u8]) -> Result<usize, Fault> {
        self.tick();
        match self.table.put(port, bytes, self.now) {
            Ok(count) => Ok(count),
            Err(_) => Err(self.fault()),
        }
    }

    fn close(&mut self, port: u64) {
        self.table.remove(port);
    }
}
