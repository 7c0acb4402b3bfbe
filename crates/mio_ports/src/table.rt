ghost use Rattle.std.specs.Prelude.{◌≤◌};
ghost use Rattle.std.specs.BTreeMap.{btree_map_len};
ghost use Rattle.std.specs.Io.{WritesAtMost};
ghost use Rattle.mio_ports.specs.Counted.{ArrivesOn};

use crate::limits::PortLimits;
use crate::poller::Poller;
use crate::slot::{Slot, Turn};
use mio::Token;
use osd_bytes::Fault;
use port_loop::Arrival;
use std::alloc::Global;
use std::collections::{BTreeMap, VecDeque};
use std::time::Duration;

/// The token of the listener. No connection has its number.
pub(crate) const LISTENER: Token = Token(usize::MAX);

// How many turns the listener has in one round at most. With one, a newcomer waited for as many rounds as came before it.
const MOST_ACCEPTED: u32 = 64;

/// The connections that stand, by their numbers, and whose turn it is.
#[derive(Drop)]
pub(crate) struct Table {
    limits: PortLimits,
    slots: BTreeMap<u64, Slot>,
    // The listener, and the connections that may have something, in turn.
    queue: VecDeque<Token>,
    has_listener_queued: bool,
    // How many of them have their turn before it is asked again what is ready.
    left: usize,
    // How often the listener comes first until then.
    accepts: u32,
    // Never more connections stand than may.
    ghost few: { btree_map_len slots ≤ limits.connections },
}

impl Table {
    pub(crate) fn new(alloc: Global, limits: PortLimits) -> Self {
        Table {
            limits,
            slots: BTreeMap::new(alloc),
            queue: VecDeque::new(alloc),
            has_listener_queued: false,
            left: 0,
            accepts: 0,
        }
    }

    /// Whether nobody waits for a turn.
    pub(crate) fn is_calm(&self) -> bool {
        self.queue.is_empty()
    }

    /// How many have their turn in this round still.
    pub(crate) fn left(&self) -> usize {
        self.left
    }

    /// All that wait for a turn now have one in this round.
    pub(crate) fn begin_round(&mut self) {
        self.left = self.queue.len();
        self.accepts = MOST_ACCEPTED;
    }

    /// Whose turn it is.
    pub(crate) fn next_turn(&mut self) -> Option<Token> {
        if self.left == 0 {
            return None;
        }
        self.left -= 1;
        let token = self.queue.pop_front()?;
        if token == LISTENER {
            self.has_listener_queued = false;
        }
        Some(token)
    }

    /// The listener has a turn after the others.
    pub(crate) fn queue_listener(&mut self) {
        if !self.has_listener_queued {
            self.has_listener_queued = self.queue.push_back(LISTENER).is_ok();
        }
    }

    /// The listener has its next turn at once, for some times in a round.
    pub(crate) fn queue_listener_first(&mut self) {
        if self.accepts == 0 {
            return self.queue_listener();
        }
        self.accepts -= 1;
        if self.queue.push_front(LISTENER).is_ok() {
            self.has_listener_queued = true;
            self.left = self.left.saturating_add(1);
        }
    }

    /// A connection has a turn after the others. Without memory for that its peer seems silent.
    fn queue(&mut self, port: u64) {
        let Some(slot) = self.slots.get_mut(&port) else {
            return;
        };
        if !slot.is_queued {
            slot.is_queued = self.queue.push_back(Token(port as usize)).is_ok();
        }
    }

    /// Notes what a wait told.
    pub(crate) fn note(&mut self, poller: &Poller) {
        for event in poller.events.iter() {
            let token = event.token();
            if token == LISTENER {
                self.queue_listener();
                continue;
            }
            let port = token.0 as u64;
            if let Some(slot) = self.slots.get_mut(&port) {
                slot.wake(event.is_writable(), event.is_read_closed());
            }
            self.queue(port);
        }
    }

    /// Whether one connection more would be too many.
    pub(crate) fn is_full(&self) -> bool {
        self.slots.len() >= self.limits.connections
    }

    /// Keeps a connection. Whether there was room and memory for it.
    pub(crate) fn keep(&mut self, port: u64, slot: Slot) -> bool {
        if self.slots.len() >= self.limits.connections {
            return false;
        }
        let is_kept = self.slots.insert(port, slot).is_ok();
        self.queue(port);
        is_kept
    }

    /// A connection is at its end.
    pub(crate) fn remove(&mut self, port: u64) {
        self.slots.remove(&port);
    }

    /// The connection that was silent longest.
    pub(crate) fn longest_silent(&self) -> Option<u64> {
        let longest = self.slots.iter().min_by_key(|(_, slot)| slot.heard())?;
        Some(*longest.0)
    }

    /// A connection whose peer is late.
    pub(crate) fn late(&self, now: Duration) -> Option<u64> {
        let limits = self.limits;
        let late = self
            .slots
            .iter()
            .find(|(_, slot)| slot.is_late(now, &limits))?;
        Some(*late.0)
    }

    /// What a connection has at its turn.
    pub(crate) fn turn(&mut self, port: u64, buf: &mut [u8], now: Duration) -> Option<Arrival>
        ensures { ArrivesOn port result buf.new }
    {
        let limits = self.limits;
        let slot = self.slots.get_mut(&port)?;
        let turn = slot.turn(buf, now, &limits);
        if slot.wants_turn() {
            self.queue(port);
        }
        match turn {
            Turn::Brings(count) => Some(Arrival::Brings { port, count }),
            Turn::Drains => Some(Arrival::Drains { port }),
            Turn::Ends => {
                self.remove(port);
                Some(Arrival::Closes { port })
            }
            Turn::Rests => None,
        }
    }

    /// Puts bytes on a connection, as many as there is room for.
    pub(crate) fn put(&mut self, port: u64, bytes: &[u8], now: Duration) -> Result<usize, Fault>
        ensures { WritesAtMost result bytes.now }
    {
        let Some(slot) = self.slots.get_mut(&port) else {
            return Err(Fault);
        };
        let put = slot.put(bytes, now);
        if slot.wants_turn() {
            self.queue(port);
        }
        put
    }
}
