// A server that is made of records again.
ghost use Rattle.std.specs.Prelude.{◌≡◌, [], Option, Some, None, IfOk, IfErr, OnErr};
ghost use Rattle.server_rules.specs.Making.{new_server};
ghost use Rattle.server_entries.specs.Applying.{applied_to};
ghost use Rattle.server_entries.specs.Taking.{Takes};
ghost use Rattle.server_entries.specs.declared.applied.Applied.TheVariants.{Unmade};
ghost use Rattle.kept_server.specs.Restoring.{Opens, Restores, SaysUnmade};

use crate::server::KeptServer;
use entry_replay::apply_all;
use layout_server::ServerCore;
use osd_lists::{Memory as WantOfMemory, Sequence};
use server_entries::{Applied, Entry, Record};
use server_state::{State, Step, list_all};
use std::alloc::Global;
use std::marker::Model;
use std::mem;
use thiserror::Error;

/// Why no server is made of records.
#[derive(Clone, Copy, Debug, PartialEq, Eq, Error)]
pub enum RestoreErr {
    /// The record at this place is the first of which nothing can be made.
    #[error("nothing can be made of record {place}")]
    Unmade { place: u64 },
    /// There was no memory.
    #[error("out of memory")]
    Memory,
}

impl From<WantOfMemory> for RestoreErr {
    ghost use Rattle.kept_server.specs.declared.restoration.RestoreErr.TheVariants.{Memory};

    ghost from_gives = { λ _ e. e ≡ Memory };

    fn from(_: WantOfMemory) -> Self {
        RestoreErr::Memory
    }
}

/// A server that is being made of records: what those taken so far make. Contracts see the server.
#[derive(Drop)]
pub struct Restoration {
    // The server's state to be, and what it keeps.
    state: State,
    mirror: State,
}

impl Model for Restoration {
    ghost use Rattle.std.specs.Prelude.{◌≡◌};
    ghost use Rattle.server_rules.specs.declared.server.Server.{Server};
    ghost use Rattle.server_state.specs.States.{server_of, IsReady};

    ghost Value = { Server };

    ghost view = { λ r. server_of r.state };

    ghost invariant = { λ r. IsReady r.state × IsReady r.mirror × (server_of r.mirror ≡ server_of r.state) };
}

impl Restoration {
    /// Of no records.
    pub fn new(alloc: Global) -> Self
        ensures { result ≡ new_server [] }
    {
        Restoration {
            state: State::new(alloc),
            mirror: State::new(alloc),
        }
    }

    /// Takes the entries of a record, and tells whether something can be made of each. If not, or at an error, the
    /// restoration is over, and nothing is left of what was taken.
    pub fn take(&mut self, alloc: Global, entries: &[Entry]) -> Result<Applied, WantOfMemory>
        ensures takes { IfOk result (λ a. Takes a self.new (applied_to (Some self.old) entries.now)) }
        ensures unmade { IfOk result (λ a. a ≡ Unmade → self.new ≡ new_server []) }
        ensures failed { OnErr result (self.new ≡ new_server []) }
    {
        let mut state = mem::replace(&mut self.state, State::new(alloc));
        let mut mirror = mem::replace(&mut self.mirror, State::new(alloc));
        match apply_all(alloc, &mut state, entries) {
            Ok(Applied::Done) => {}
            Ok(Applied::Unmade) => return Ok(Applied::Unmade),
            Err(e) => return Err(e),
        }
        match apply_all(alloc, &mut mirror, entries) {
            Ok(Applied::Done) => {}
            Ok(Applied::Unmade) => return Ok(Applied::Unmade),
            Err(e) => return Err(e),
        }
        self.state = state;
        self.mirror = mirror;
        Ok(Applied::Done)
    }

    /// Opens the server that the records make. Its changes are those of the opening.
    ///
    /// # Errors
    ///
    /// Want of memory; and, in place of it, a counter of 64 bits without room in the middle of the step.
    pub fn open(self, alloc: Global) -> Result<(KeptServer, Step), WantOfMemory>
        ensures { IfOk result (λ x. Opens self x.0 x.1) }
    {
        let Restoration { state, mirror } = self;
        let mut state = state;
        list_all(alloc, &mut state)?;
        let core = ServerCore::of_state(alloc, state);
        KeptServer::opened(alloc, core, mirror)
    }
}

/// Makes a server of records, and opens it. Its changes are those of the opening.
///
/// # Errors
///
/// [`RestoreErr::Unmade`] exactly where nothing can be made of a record, with the place of the first such from 0. Want of
/// memory; and, in place of it, a counter of 64 bits without room in the middle of the opening.
pub fn restore(alloc: Global, records: &[Record]) -> Result<(KeptServer, Step), RestoreErr>
    ensures restored { IfOk result (λ x. Restores records.now x.0 x.1) }
    ensures unmade { IfErr result (SaysUnmade records.now) }
{
    let mut restoration = Restoration::new(alloc);
    for place in 0..records.len() {
        match restoration.take(alloc, records[place].entries.as_slice()) {
            Ok(Applied::Done) => {}
            Ok(Applied::Unmade) => {
                return Err(RestoreErr::Unmade {
                    place: place as u64,
                });
            }
            Err(_) => return Err(RestoreErr::Memory),
        }
    }
    match restoration.open(alloc) {
        Ok(opened) => Ok(opened),
        Err(_) => Err(RestoreErr::Memory),
    }
}
