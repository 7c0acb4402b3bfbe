// What waits for readiness.
use mio::event::Source;
use mio::{Events, Interest, Poll, Token};
use std::alloc::Global;
use std::io;
use std::net::Net;
use std::time::Duration;

// How many sources one wait tells of at most.
const MOST_EVENTS: usize = 256;

/// Sources that are waited for, and what the last wait told.
#[derive(Drop)]
pub(crate) struct Poller {
    poll: Poll,
    pub(crate) events: Events,
}

impl Poller {
    pub(crate) fn new(net: &impl Net, alloc: Global) -> io::Result<Self> {
        Ok(Poller {
            poll: Poll::new(net)?,
            events: Events::with_capacity(alloc, MOST_EVENTS)?,
        })
    }

    /// Has the waits tell when the source may be read or written, under this token.
    pub(crate) fn add<S: Source>(&self, source: &mut S, token: Token) -> io::Result<()> {
        let both = Interest::READABLE | Interest::WRITABLE;
        self.poll.registry().register(source, token, both)
    }

    /// Waits until a source is ready, at most so long.
    pub(crate) fn wait(&mut self, at_most: Duration) -> io::Result<()> {
        self.poll.poll(&mut self.events, Some(at_most))
    }

    /// More sources may be ready than the last wait told of.
    pub(crate) fn may_have_more(&self) -> bool {
        self.events.iter().len() >= MOST_EVENTS
    }
}
