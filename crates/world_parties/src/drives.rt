ghost use Rattle.std.specs.Prelude.{◌≡◌, [], IfOk, OnOk, OnErr};
ghost use Rattle.std.specs.Option.{option_copied};
ghost use Rattle.osd_commands.specs.Commands.{reading};
ghost use Rattle.world_history.specs.State.{at_number, and_number};
ghost use Rattle.world_history.specs.Drives.{Judged as WorldJudged, made_drive, raised, at_time, fallen, crashed, reopened};
ghost use Rattle.world_parties.specs.Drives.{changed, replied, heard_one, HearsOne, heard, Hears, injected, Injects};
ghost use Rattle.world_parties.specs.Drives.{StaysOrDoes};

use crate::drive::WorldDrive;
use crate::judging::Judged;
use osd_commands::write_reply;
use osd_lists::Memory;
use scenario_text::{Delivery, DriveName, Party, Verdict};
use std::alloc::Global;
use std::collections::BTreeMap;
use std::marker::Model;
use world_network::{Act, Handed, Posting};

/// The drives of a world by their numbers.
#[derive(Drop)]
pub struct WorldDrives {
    by_number: BTreeMap<u32, WorldDrive>,
}

impl Model for WorldDrives {
    ghost use Rattle.std.specs.Prelude.{List, ℕ};
    ghost use Rattle.world_history.specs.State.{DriveAt};

    ghost Value = { List (ℕ × DriveAt) };

    ghost view = { λ d. d.by_number.entries };
}

// The reply of a drive to who sent it a message.
fn reply_to(alloc: Global, drive: DriveName, from: Party, judged: &Judged) -> Result<Handed, Memory>
    ensures { IfOk result (λ h. (j : WorldJudged) → judged.now.verdict ≡ j.verdict → judged.now.reply ≡ j.reply
        → h ≡ (replied drive from j).handed) }
{
    let posting = Posting {
        from: Party::Drive { drive },
        to: from,
        bytes: write_reply(alloc, &judged.reply)?,
        logged: 0,
    };
    Ok(Handed {
        receipt: Delivery::Judged {
            verdict: judged.verdict,
        },
        act: Act::post(alloc, posting)?,
    })
}

// A message comes to a drive.
fn hear_at(
    found: &mut WorldDrive,
    alloc: Global,
    drive: DriveName,
    from: Party,
    bytes: &[u8],
) -> Result<Handed, Memory>
    ensures { IfOk result (λ h. HearsOne (heard_one drive from (reading bytes.now) found.old) found.new h) }
{
    if found.is_deaf() {
        return Ok(Handed::quiet(alloc, Delivery::Deaf));
    }
    let judged = found.judge(alloc, bytes)?;
    reply_to(alloc, drive, from, &judged)
}

impl WorldDrives {
    /// No drives. It takes no memory.
    pub fn new(alloc: Global) -> Self
        ensures { result ≡ [] }
    {
        WorldDrives {
            by_number: BTreeMap::new(alloc),
        }
    }

    /// The drive of that number, `None` exactly where there is none.
    pub fn get(&self, drive: DriveName) -> Option<&WorldDrive>
        ensures { option_copied result ≡ at_number self.now drive }
    {
        self.by_number.get(&drive.number())
    }

    /// Makes a drive with its key and its capacity in bytes, stored or not. There must be none of that number.
    ///
    /// # Errors
    ///
    /// Want of memory alone; then nothing changes.
    pub fn add(
        &mut self,
        alloc: Global,
        drive: DriveName,
        key: [u8; 20],
        capacity: u64,
        stored: bool,
    ) -> Result<(), Memory>
        ensures ok { OnOk result (self.new ≡ and_number self.old drive (made_drive drive key capacity stored)) }
        ensures err { OnErr result (self.new ≡ self.old) }
    {
        let made = WorldDrive::new(alloc, drive.number(), key, capacity, stored)?;
        self.by_number.insert(drive.number(), made)?;
        Ok(())
    }

    /// A message comes to a drive: it judges it and replies to the sender. One that there isn't, that
    /// failed or that is down is deaf.
    pub fn hear(
        &mut self,
        alloc: Global,
        drive: DriveName,
        from: Party,
        bytes: &[u8],
    ) -> Result<Handed, Memory>
        ensures { IfOk result (λ h. Hears (heard self.old drive from (reading bytes.now)) self.new h) }
    {
        match self.by_number.get_mut(&drive.number()) {
            Some(found) => hear_at(found, alloc, drive, from, bytes),
            None => Ok(Handed::quiet(alloc, Delivery::Deaf)),
        }
    }

    /// A drive judges bytes, and its reply goes nowhere: its verdict, `None` exactly where there is no such drive.
    ///
    /// # Errors
    ///
    /// Want of memory alone. Then nothing changed; or a stored drive judged the bytes, and its verdict isn't told.
    pub fn inject(
        &mut self,
        alloc: Global,
        drive: DriveName,
        bytes: &[u8],
    ) -> Result<Option<Verdict>, Memory>
        ensures ok { IfOk result (λ verdict. Injects (injected self.old drive (reading bytes.now)) self.new verdict) }
        ensures err { OnErr result (StaysOrDoes (injected self.old drive (reading bytes.now)).drives self.old self.new) }
    {
        match self.by_number.get_mut(&drive.number()) {
            Some(found) => Ok(Some(found.judge(alloc, bytes)?.verdict)),
            None => Ok(None),
        }
    }

    /// A drive takes no more capabilities of a format below this one, which is 1 or 2.
    ///
    /// # Errors
    ///
    /// Want of memory alone. Then nothing changed; or a stored drive did that.
    pub fn raise_least(&mut self, alloc: Global, drive: DriveName, format: u8) -> Result<(), Memory>
        ensures ok { OnOk result (self.new ≡ changed self.old drive (λ a. raised a format)) }
        ensures err { OnErr result (StaysOrDoes (changed self.old drive (λ a. raised a format)) self.old self.new) }
    {
        if let Some(found) = self.by_number.get_mut(&drive.number()) {
            found.raise_least(alloc, format)?;
        }
        Ok(())
    }

    /// The clock of a drive shows this, in seconds.
    pub fn set_clock(&mut self, drive: DriveName, time: u64)
        ensures { self.new ≡ changed self.old drive (λ a. at_time a time) }
    {
        if let Some(found) = self.by_number.get_mut(&drive.number()) {
            found.set_clock(time);
        }
    }

    /// A drive crashes, and is down.
    pub fn crash(&mut self, alloc: Global, drive: DriveName)
        ensures { self.new ≡ changed self.old drive crashed }
    {
        if let Some(found) = self.by_number.get_mut(&drive.number()) {
            found.crash(alloc);
        }
    }

    /// A drive is opened again after a crash.
    ///
    /// # Errors
    ///
    /// Want of memory alone; then nothing changes.
    pub fn reopen(&mut self, alloc: Global, drive: DriveName) -> Result<(), Memory>
        ensures ok { OnOk result (self.new ≡ changed self.old drive reopened) }
        ensures err { OnErr result (self.new ≡ self.old) }
    {
        if let Some(found) = self.by_number.get_mut(&drive.number()) {
            found.reopen(alloc)?;
        }
        Ok(())
    }

    /// A drive fails.
    ///
    /// # Errors
    ///
    /// Want of memory alone; then nothing changes.
    pub fn fail(&mut self, alloc: Global, drive: DriveName) -> Result<(), Memory>
        ensures ok { OnOk result (self.new ≡ changed self.old drive fallen) }
        ensures err { OnErr result (self.new ≡ self.old) }
    {
        if let Some(found) = self.by_number.get_mut(&drive.number()) {
            found.fail(alloc)?;
        }
        Ok(())
    }
}
