ghost use Rattle.std.specs.Prelude.{◌≡◌, ◌≤◌, [], Ok, Some, length, reverse, take, IfSome};
ghost use Rattle.osd_bytes.specs.Causes.{Rose};
ghost use Rattle.port_loop.specs.InMemory.{Arrived, nothing_happened};
ghost use Rattle.port_loop.specs.Ports.{Adds, PutsOn};

use crate::ports::{Arrival, Happening, Ports};
use osd_bytes::{Bytes, Fault, Node, Sequence};
use std::alloc::Global;
use std::marker::Model;
use std::mem;

/// What comes next on connections in memory.
#[derive(Drop)]
pub enum Planned {
    /// A connection begins.
    Opens,
    /// Bytes come on a connection, as many as there is room for in the buffer.
    Brings { port: u64, bytes: Bytes },
    /// There is room on it again.
    Drains { port: u64 },
    /// It ends by itself.
    Closes { port: u64 },
    /// Nothing happens, as where the plan is at its end.
    Quiet,
}

/// How a put ends.
#[derive(Clone, Copy)]
pub enum Room {
    /// It takes so many bytes at most.
    Takes { count: usize },
    /// It fails.
    Fails,
}

/// Connections in memory. They do what is planned, open towards any node, and tell what happened, as long as there is memory
/// to keep that.
#[derive(Drop)]
pub struct MemPorts {
    alloc: Global,
    planned: Sequence<Planned>,
    next: usize,
    rooms: Sequence<Room>,
    puts: usize,
    // What happened, the oldest first.
    log: Sequence<Happening>,
    is_lost: bool,
    opened: u64,
    faults: u64,
    listens: Option<Bytes>,
}

impl Model for MemPorts {
    ghost use Rattle.port_loop.specs.InMemory.{Known, told_of};

    ghost Value = { Known };

    ghost view = { λ p. record {
      opened = p.opened;
      faults = p.faults;
      told = told_of p.is_lost p.log;
      listens = p.listens;
    } };
}

// Copies the front of some bytes, as much as there is room for, and gives how much that is.
fn copy_front(bytes: &[u8], buf: &mut [u8]) -> usize
    ensures count { (result ≤ length bytes.now) × (result ≤ length buf.new) }
    ensures front { take result buf.new ≡ take result bytes.now }
{
    let count = bytes.len().min(buf.len());
    buf[..count].copy_from_slice(&bytes[..count]);
    count
}

impl MemPorts {
    /// Connections that do what is planned. The puts take as many bytes as the rooms say, one after the other, and all
    /// after the last of them.
    pub fn new(alloc: Global, planned: Sequence<Planned>, rooms: Sequence<Room>) -> Self
        ensures { result ≡ nothing_happened }
    {
        MemPorts {
            alloc,
            planned,
            next: 0,
            rooms,
            puts: 0,
            log: Sequence::new(alloc),
            is_lost: false,
            opened: 0,
            faults: 0,
            listens: None,
        }
    }

    /// What happened, the oldest first, unless there was no memory to keep that.
    pub fn happened(&self) -> Option<&[Happening]>
        ensures { IfSome result (λ log. self.now.told ≡ Some (reverse log.now)) }
    {
        if self.is_lost {
            return None;
        }
        Some(self.log.as_slice())
    }

    fn fault(&mut self) -> Fault
        ensures opened { self.new.opened ≡ self.old.opened }
        ensures told { self.new.told ≡ self.old.told }
        ensures listens { self.new.listens ≡ self.old.listens }
        ensures rose { Rose self.old.faults self.new.faults }
        ensures later { self.old.faults ≤ self.new.faults }
    {
        self.faults = self.faults.saturating_add(1);
        Fault
    }

    // Keeps what happened, if there is memory for that.
    fn note(&mut self, happening: Happening)
        ensures told { Adds happening self.old.told self.new.told }
        ensures opened { self.new.opened ≡ self.old.opened }
        ensures listens { self.new.listens ≡ self.old.listens }
        ensures faults { self.new.faults ≡ self.old.faults }
    {
        match self.log.push(happening) {
            Ok(()) => {}
            Err(_) => self.is_lost = true,
        }
    }

    // The next thing that is planned.
    fn planned(&mut self) -> Planned
        ensures { self.new ≡ self.old }
    {
        if self.next >= self.planned.len() {
            return Planned::Quiet;
        }
        let planned = mem::replace(self.planned.get_mut(self.next), Planned::Quiet);
        self.next += 1;
        planned
    }

    // How the next put ends.
    fn room(&mut self) -> Room
        ensures { self.new ≡ self.old }
    {
        if self.puts >= self.rooms.len() {
            return Room::Takes { count: usize::MAX };
        }
        let room = *self.rooms.get(self.puts);
        self.puts += 1;
        room
    }

    fn rest(&mut self) -> Arrival
        ensures { Arrived self.old self.new result [] }
    {
        self.note(Happening::Passed);
        Arrival::Quiet
    }

    fn begin(&mut self) -> Arrival
        ensures { Arrived self.old self.new result [] }
    {
        if self.opened == u64::MAX {
            return self.rest();
        }
        let port = self.opened;
        self.opened += 1;
        self.note(Happening::Began { port });
        Arrival::Opens { port }
    }

    fn bring(&mut self, port: u64, bytes: Bytes, buf: &mut [u8]) -> Arrival
        ensures { Arrived self.old self.new result buf.new }
    {
        let mut bytes = bytes;
        let count = copy_front(bytes.as_slice(), buf);
        if count == 0 || port >= self.opened {
            return self.rest();
        }
        bytes.truncate(count);
        self.note(Happening::Came { port, bytes });
        Arrival::Brings { port, count }
    }

    // Keeps what was put on a connection.
    fn note_put(&mut self, port: u64, bytes: &[u8], count: usize)
        requires { count ≤ length bytes.now }
        ensures puts { PutsOn port self.old.told self.new.told (Ok count) bytes.now }
        ensures opened { self.new.opened ≡ self.old.opened }
        ensures listens { self.new.listens ≡ self.old.listens }
        ensures faults { self.new.faults ≡ self.old.faults }
    {
        let (front, rest) = bytes.split_at(count);
        match Bytes::copied(self.alloc, front) {
            Ok(bytes) => self.note(Happening::Went {
                port,
                bytes,
                is_full: !rest.is_empty(),
            }),
            Err(_) => self.is_lost = true,
        }
    }
}

impl Ports for MemPorts {
    ghost opened = { λ p. p.opened };

    ghost faults = { λ p. p.faults };

    ghost told = { λ p. p.told };

    ghost listens = { λ p. p.listens };

    // It fails only if there is no memory for the address.
    fn listen(&mut self, address: &[u8]) -> Result<(), Fault> {
        match Bytes::copied(self.alloc, address) {
            Ok(address) => {
                self.listens = Some(address);
                Ok(())
            }
            Err(_) => Err(self.fault()),
        }
    }

    fn next(&mut self, buf: &mut [u8]) -> Result<Arrival, Fault> {
        match self.planned() {
            Planned::Opens => Ok(self.begin()),
            Planned::Brings { port, bytes } => Ok(self.bring(port, bytes, buf)),
            Planned::Drains { port } => {
                self.note(Happening::Drained { port });
                Ok(Arrival::Drains { port })
            }
            Planned::Closes { port } => {
                self.note(Happening::Ended { port });
                Ok(Arrival::Closes { port })
            }
            Planned::Quiet => Ok(self.rest()),
        }
    }

    fn open(&mut self, to: Node) -> Result<u64, Fault> {
        if self.opened == u64::MAX {
            self.note(Happening::Refused { to });
            return Err(self.fault());
        }
        let port = self.opened;
        self.opened += 1;
        self.note(Happening::Opened { port, to });
        Ok(port)
    }

    fn put(&mut self, port: u64, bytes: &[u8]) -> Result<usize, Fault> {
        match self.room() {
            Room::Takes { count } => {
                let count = count.min(bytes.len());
                self.note_put(port, bytes, count);
                Ok(count)
            }
            Room::Fails => {
                self.note(Happening::Failed { port });
                Err(self.fault())
            }
        }
    }

    fn close(&mut self, port: u64) {
        self.note(Happening::Closed { port });
    }
}
