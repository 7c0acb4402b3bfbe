ghost use Rattle.std.specs.Prelude.{◌≡◌, OnOk};
ghost use Rattle.osd_drive.specs.Table.{is_checked};
ghost use Rattle.world_watch.specs.Guessing.{injects, no_guess, opens, sees, sees_event};

use crate::sightings::Sightings;
use osd_commands::{Command, CommandErr, holds, read_command};
use osd_lists::Memory;
use scenario_text::{DriveName, Event, Line, Party};
use server_rules::KEY_VERSION;
use std::alloc::Global;
use std::collections::BTreeMap;
use std::marker::Model;
use world_network::Network;

/// The keys of the drives, the messages to them, and whether all injected messages so far were sent before.
#[derive(Drop)]
pub struct Guesses {
    keys: BTreeMap<u32, [u8; 20]>,
    sightings: Sightings,
    unguessed: bool,
}

impl Model for Guesses {
    ghost use Rattle.world_watch.specs.Guessing.{GuessState};

    ghost Value = { GuessState };

    ghost view = { λ g. record { keys = g.keys.entries; sightings = g.sightings; unguessed = g.unguessed } };
}

// Whether the check value of a command is the one that the key gives.
fn is_checked(key: &[u8; 20], command: &Command) -> bool
    ensures { result ≡ is_checked key.now command.now }
{
    holds(key, command)
}

impl Guesses {
    /// Of a run that has no line yet.
    pub fn new(alloc: Global) -> Self
        ensures { result ≡ no_guess }
    {
        Guesses {
            keys: BTreeMap::new(alloc),
            sightings: Sightings::new(alloc),
            unguessed: true,
        }
    }

    /// Whether each injected message so far that spells a command whose check value holds under a key of
    /// the drive equals a message that was sent to that drive before.
    pub fn unguessed(&self) -> bool
        ensures { result ≡ self.now.unguessed }
    {
        self.unguessed
    }

    /// The messages to drives.
    pub fn sightings(&self) -> &Sightings
        ensures { result.now ≡ self.now.sightings }
    {
        &self.sightings
    }

    // Whether a key of the drive opens the command.
    fn opens(&self, drive: DriveName, command: &Command) -> bool
        ensures { result ≡ opens self.now drive command.now }
    {
        match self.keys.get(&drive.number()) {
            Some(key) => {
                KEY_VERSION == command.capability.key_version && is_checked(key, command)
            }
            None => false,
        }
    }

    // Bytes are injected.
    fn inject(
        &mut self,
        alloc: Global,
        network: &Network,
        drive: DriveName,
        bytes: &[u8],
    ) -> Result<(), Memory>
        ensures { OnOk result (self.new ≡ injects self.old network.now.messages drive bytes.now) }
    {
        match read_command(alloc, bytes) {
            Ok(command) => {
                if self.opens(drive, &command)
                    && self.sightings.find(network, drive, bytes).is_none()
                {
                    self.unguessed = false;
                }
                Ok(())
            }
            Err(CommandErr::Memory) => Err(Memory),
            Err(_) => Ok(()),
        }
    }

    // An event.
    fn see_event(&mut self, alloc: Global, network: &Network, event: &Event) -> Result<(), Memory>
        ensures { OnOk result (self.new ≡ sees_event self.old network.now.messages event.now) }
    {
        match event {
            Event::Drive { drive, key, .. } | Event::Disk { drive, key, .. } => {
                self.keys.insert(drive.number(), *key)?;
                Ok(())
            }
            Event::Inject { drive, bytes } => {
                self.inject(alloc, network, *drive, bytes.as_slice())
            }
            _ => Ok(()),
        }
    }

    /// Sees a line more. `network` has all messages of the lines so far, and may have more.
    pub fn see(&mut self, alloc: Global, network: &Network, line: &Line) -> Result<(), Memory>
        ensures { OnOk result (self.new ≡ sees self.old network.now.messages line.now) }
    {
        match line {
            Line::Event { event } => self.see_event(alloc, network, event),
            Line::Message {
                message,
                to: Party::Drive { drive },
                bytes,
                ..
            } => self
                .sightings
                .add(network, *message as usize, *drive, bytes.as_slice()),
            _ => Ok(()),
        }
    }
}
