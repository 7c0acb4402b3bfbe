// What failed last, for a person to read.
use crate::printable::Printable;
use osd_lists::Node;
use std::fmt::{Display, Formatter, Write};
use std::io::ErrorKind;
use std::{fmt, io};

/// Whom a call of the links was about that failed.
#[derive(Clone, Copy, PartialEq, Eq)]
pub enum Party {
    /// The links' own address, at which they listen.
    Own,
    /// A node that was asked.
    Asked(Node),
}

impl Display for Party {
    fn fmt<W: Write>(&self, f: &mut Formatter<W>) -> fmt::Result {
        match self {
            Party::Own => f.write_str("own address"),
            Party::Asked(Node::Server) => f.write_str("server"),
            Party::Asked(Node::Drive(number)) => write!(f, "drive {}", number),
            Party::Asked(Node::Client(number)) => write!(f, "client {}", number),
        }
    }
}

/// Why a call of the links failed.
#[derive(Clone, Copy)]
pub enum Cause {
    /// No address of the node is known.
    Unknown,
    /// The address isn't a host, a colon and a port of at most 65535.
    Malformed,
    /// The host's name has no address.
    NoHost,
    /// Nothing listens at the address.
    Refused,
    /// No way leads to the host.
    NoRoute,
    /// The peer kept silent too long.
    Silent,
    /// The peer took too long over a whole record.
    Slow,
    /// The drive didn't answer in time before, and isn't asked again for a while.
    Resting,
    /// Another program listens at the address.
    PortTaken,
    /// The address is none of this machine.
    Elsewhere,
    /// The system doesn't allow it, as to listen at a port below 1024.
    Forbidden,
    /// The peer ended the connection.
    Ended,
    /// What else the system said.
    System(io::Error),
}

impl Cause {
    /// Why a call of the system failed on a socket.
    pub fn of(e: io::Error) -> Self {
        match e.kind() {
            ErrorKind::ConnectionRefused => Cause::Refused,
            ErrorKind::HostUnreachable | ErrorKind::NetworkUnreachable | ErrorKind::NetworkDown =>
                Cause::NoRoute,
            ErrorKind::TimedOut | ErrorKind::WouldBlock => Cause::Silent,
            ErrorKind::AddrInUse => Cause::PortTaken,
            ErrorKind::AddrNotAvailable => Cause::Elsewhere,
            ErrorKind::PermissionDenied => Cause::Forbidden,
            ErrorKind::ConnectionReset | ErrorKind::ConnectionAborted | ErrorKind::BrokenPipe =>
                Cause::Ended,
            _ => Cause::System(e),
        }
    }

    /// Why an address gave no place to connect to or to listen at.
    pub fn of_address(e: io::Error) -> Self {
        match e.kind() {
            ErrorKind::InvalidInput => Cause::Malformed,
            _ => Cause::NoHost,
        }
    }

    // Whether the peer used up the time that it had.
    pub(crate) fn is_late(&self) -> bool {
        matches!(self, Cause::Silent | Cause::Slow)
    }

    fn text(&self) -> &'static str {
        match self {
            Cause::Unknown => "no address of it is known",
            Cause::Malformed => "the address isn't HOST:PORT with a port of at most 65535",
            Cause::NoHost => "no such host",
            Cause::Refused => "connection refused: nothing listens there",
            Cause::NoRoute => "no route to it",
            Cause::Silent => "no answer in time",
            Cause::Slow => "its record wasn't whole in time",
            Cause::Resting => "no answer in time a while ago, so it isn't asked yet",
            Cause::PortTaken => "the port is taken: another program listens there",
            Cause::Elsewhere => "the address is none of this machine",
            Cause::Forbidden => "the system doesn't allow it",
            Cause::Ended => "it ended the connection",
            Cause::System(_) => "the system refused it",
        }
    }
}

impl Display for Cause {
    fn fmt<W: Write>(&self, f: &mut Formatter<W>) -> fmt::Result {
        match self {
            Cause::System(e) => Display::fmt(e, f),
            _ => f.write_str(self.text()),
        }
    }
}

/// The call of the links that failed last: whom it was about, at which address, and why. It is shown as in
/// `drive 3 at 127.0.0.1:7003: no answer in time`.
#[derive(Clone, Copy)]
pub struct LinkFault<'a> {
    /// Whom it was about.
    pub party: Party,
    /// The address, empty where none is known.
    pub address: &'a [u8],
    /// Why it failed.
    pub cause: Cause,
}

impl<'a> Display for LinkFault<'a> {
    fn fmt<W: Write>(&self, f: &mut Formatter<W>) -> fmt::Result {
        let party = self.party;
        let cause = self.cause;
        if self.address.is_empty() {
            return write!(f, "{party}: {cause}");
        }
        let address = Printable::new(self.address);
        write!(f, "{party} at {address}: {cause}")
    }
}
