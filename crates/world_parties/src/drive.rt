ghost use Rattle.std.specs.Prelude.{◌≡◌, IfOk, OnOk, OnErr};
ghost use Rattle.osd_commands.specs.Commands.{reading};
ghost use Rattle.world_history.specs.Drives.{judges, made_drive, raised, at_time, fallen, crashed, reopened, is_deaf};
ghost use Rattle.world_parties.specs.Drive.{Judges, LeavesEither};

use crate::backing::{Backing, DriveMake, crash, new_backing, wake};
use crate::judging::{Judged, empty, judge, raise_least};
use osd_lists::Memory;
use std::alloc::Global;
use std::marker::Model;

/// A drive of a world and its clock in seconds. One that failed has lost its objects, and is deaf. One that is stored has a
/// store on a disk in memory. It can crash: then it is down, and deaf, and its disk is all that it has, until the store is
/// opened again.
#[derive(Drop)]
pub struct WorldDrive {
    backing: Backing,
    made: DriveMake,
    clock: u64,
    failed: bool,
    down: bool,
}

impl Model for WorldDrive {
    ghost use Rattle.world_history.specs.State.{DriveAt};
    ghost use Rattle.world_parties.specs.Backing.{Stands, state_in};

    ghost Value = { DriveAt };

    ghost view = { λ d. record {
      state = state_in d.made d.backing;
      clock = d.clock;
      failed = d.failed;
      stored = d.made.stored;
      down = d.down;
    } };

    ghost invariant = { λ d. Stands d.made d.backing };
}

impl WorldDrive {
    /// A drive without objects, with its number, the key that it shares with the server and its capacity in
    /// bytes. Its clock shows 0. One that is stored keeps over a crash what it has.
    pub fn new(
        alloc: Global,
        number: u32,
        key: [u8; 20],
        capacity: u64,
        stored: bool,
    ) -> Result<Self, Memory>
        ensures { IfOk result (λ drive. drive ≡ made_drive number key capacity stored) }
    {
        let made = DriveMake {
            number,
            key,
            capacity,
            stored,
        };
        let backing = new_backing(alloc, made)?;
        Ok(WorldDrive {
            backing,
            made,
            clock: 0,
            failed: false,
            down: false,
        })
    }

    /// Whether it failed.
    pub fn has_failed(&self) -> bool
        ensures { result ≡ self.now.failed }
    {
        self.failed
    }

    /// Whether it keeps over a crash what it has.
    pub fn is_stored(&self) -> bool
        ensures { result ≡ self.now.stored }
    {
        self.made.stored
    }

    /// Whether it crashed and wasn't opened again.
    pub fn is_down(&self) -> bool
        ensures { result ≡ self.now.down }
    {
        self.down
    }

    /// Whether nothing that is sent to it reaches it: it failed, or is down.
    pub fn is_deaf(&self) -> bool
        ensures { result ≡ is_deaf self.now }
    {
        self.failed || self.down
    }

    /// Judges bytes as a command, performs it where nothing stands against it, and says the verdict and the
    /// reply. A drive that is deaf would do the same: who delivers a message looks at that first.
    ///
    /// # Errors
    ///
    /// Want of memory alone. Then nothing changed; or a drive that is stored performed the command and has no answer, since
    /// its disk wanted memory. From then on it wants memory for whatever is asked.
    #[tactic(auto, unfolding(world_history::specs::Drives::judges))]
    pub fn judge(&mut self, alloc: Global, bytes: &[u8]) -> Result<Judged, Memory>
        ensures judged { IfOk result (λ told. Judges (judges self.old (reading bytes.now)) self.new told) }
        ensures err { OnErr result (LeavesEither self.old self.new (judges self.old (reading bytes.now)).drive) }
    {
        wake(&mut self.backing, alloc, self.made)?;
        judge(&mut self.backing, alloc, self.made, self.clock, bytes)
    }

    /// Takes no more capabilities of a format below this one, which is 1 or 2. The least format never falls.
    ///
    /// # Errors
    ///
    /// As those of [`WorldDrive::judge`].
    pub fn raise_least(&mut self, alloc: Global, format: u8) -> Result<(), Memory>
        ensures ok { OnOk result (self.new ≡ raised self.old format) }
        ensures err { OnErr result (LeavesEither self.old self.new (raised self.old format)) }
    {
        wake(&mut self.backing, alloc, self.made)?;
        raise_least(&mut self.backing, alloc, self.made, format)
    }

    /// Sets its clock, in seconds.
    pub fn set_clock(&mut self, time: u64)
        ensures { self.new ≡ at_time self.old time }
    {
        self.clock = time;
    }

    /// It crashes: it is down until it is opened again. Its clock and all that it has stay: of a stored drive, on its disk.
    pub fn crash(&mut self, alloc: Global)
        ensures { self.new ≡ crashed self.old }
    {
        crash(&mut self.backing, alloc, self.made);
        self.down = true;
    }

    /// It is opened again after a crash, as its disk has it.
    ///
    /// # Errors
    ///
    /// Want of memory alone; then nothing changes.
    pub fn reopen(&mut self, alloc: Global) -> Result<(), Memory>
        ensures ok { OnOk result (self.new ≡ reopened self.old) }
        ensures err { OnErr result (self.new ≡ self.old) }
    {
        wake(&mut self.backing, alloc, self.made)?;
        self.down = false;
        Ok(())
    }

    /// It fails: it loses its objects, and their memory and that of its disk is given back.
    ///
    /// # Errors
    ///
    /// Want of memory alone; then nothing changes.
    pub fn fail(&mut self, alloc: Global) -> Result<(), Memory>
        ensures ok { OnOk result (self.new ≡ fallen self.old) }
        ensures err { OnErr result (self.new ≡ self.old) }
    {
        wake(&mut self.backing, alloc, self.made)?;
        empty(&mut self.backing, alloc, self.made)?;
        self.failed = true;
        Ok(())
    }
}
