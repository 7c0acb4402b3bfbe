ghost use Rattle.osd_bytes.specs.Connections.{accepted_left, accepted_put, asked_left, asked_put};
ghost use Rattle.osd_bytes.specs.Counts.{asking_count};

use crate::links::Links;
use crate::sink::Sink;
use crate::source::{Fault, Source};

/// The accepted connection of some links, as a source and a sink.
#[derive(Drop)]
pub struct Accepted<'a, L> {
    pub links: &'a mut L,
}

impl<'a, L: Links> Source for Accepted<'a, L> {
    ghost left = { λ s. accepted_left (L.told s.links.now) };

    ghost faults = { λ s. (L.faults s.links.now).accepted };

    ghost loan = { λ s. s.links.ghost_name };

    #[tactic(auto, using(crate::proofs::EndLaws::takes_consumes))]
    fn take(&mut self, buf: &mut [u8]) -> Result<usize, Fault> {
        self.links.take(buf)
    }
}

impl<'a, L: Links> Sink for Accepted<'a, L> {
    ghost taken = { λ s. accepted_put (L.told s.links.now) };

    ghost faults = { λ s. (L.faults s.links.now).accepted };

    ghost loan = { λ s. s.links.ghost_name };

    #[tactic(auto, using(crate::proofs::EndLaws::puts_append))]
    fn put(&mut self, bytes: &[u8]) -> Result<usize, Fault> {
        self.links.put(bytes)
    }
}

/// The asking connection of some links, as a source and a sink.
#[derive(Drop)]
pub struct Asking<'a, L> {
    pub links: &'a mut L,
}

impl<'a, L: Links> Source for Asking<'a, L> {
    ghost left = { λ s. asked_left (L.told s.links.now) };

    ghost faults = { λ s. asking_count (L.standing s.links.now).asked (L.faults s.links.now) };

    ghost loan = { λ s. s.links.ghost_name };

    #[tactic(auto, using(crate::proofs::EndLaws::receives_consumes))]
    fn take(&mut self, buf: &mut [u8]) -> Result<usize, Fault> {
        self.links.receive(buf)
    }
}

impl<'a, L: Links> Sink for Asking<'a, L> {
    ghost taken = { λ s. asked_put (L.told s.links.now) };

    ghost faults = { λ s. asking_count (L.standing s.links.now).asked (L.faults s.links.now) };

    ghost loan = { λ s. s.links.ghost_name };

    #[tactic(auto, using(crate::proofs::EndLaws::sends_append))]
    fn put(&mut self, bytes: &[u8]) -> Result<usize, Fault> {
        self.links.send(bytes)
    }
}
