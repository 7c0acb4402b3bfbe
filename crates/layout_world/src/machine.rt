// The metadata server of a world over its disk.
ghost use Rattle.std.specs.Prelude.{◌≡◌, ◌<◌, [], List, ℕ, false, option_map, IfErr, IfOk, IsTrue, OnOk};
ghost use Rattle.std.specs.Option.{option_copied};
ghost use Rattle.data_map.specs.Check.{HasAlgorithm};
ghost use Rattle.zone_place.specs.declared.loads.TheConstants.{MAX_DRIVES};
ghost use Rattle.server_rules.specs.Envelopes.{on_bytes};
ghost use Rattle.server_rules.specs.Files.{file_at};
ghost use Rattle.server_rules.specs.Making.{add_drive, new_server, set_format};
ghost use Rattle.server_rules.specs.Messages.{resend};
ghost use Rattle.server_rules.specs.Openings.{crash, reopen};
ghost use Rattle.server_rules.specs.Orders.{ordered};
ghost use Rattle.server_rules.specs.Zoning.{put_in_zone};
ghost use Rattle.server_requests.specs.Sending.{all_sent};
ghost use Rattle.server_state.specs.States.{Did, HasRoom};
ghost use Rattle.layout_server.specs.Adding.{IsNew, drive_of};
ghost use Rattle.layout_server.specs.Calls.{IsRefused, Makes};
ghost use Rattle.layout_server.specs.Zones.{is_known};
ghost use Rattle.server_journal.specs.declared.errors.JournalErr.TheVariants.{Memory as WantOfMemory};
ghost use Rattle.server_journal.specs.Journals.{core_of, is_over_in};
ghost use Rattle.layout_world.specs.Machine.{IsWell, Rests, Stands, state_in, told_back};

use data_map::RawMap;
use kept_server::KeptServer;
use layout_ops::OrderKind;
use layout_server::{DriveInfo, DriveTable, FileErr, Sends, Step};
use osd_disk::{Disk, FaultlessDisk};
use osd_lists::{Memory, Node};
use server_journal::{JournalErr, JournalFileErr, JournaledServer, contents_stand_for_one_server};
use server_rules::{Drive, Kept};
use std::alloc::Global;
use std::marker::Model;
use std::mem;
use stripe_repair::Place;

/// What there is of the server.
#[derive(Drop)]
pub(crate) enum Standing {
    /// It runs, and has each change in the journal on its disk before it answers.
    Up {
        journal: JournaledServer<FaultlessDisk>,
    },
    /// Its disk, as a crash left it. What it was tells which files there are, and is dropped once the journal is opened.
    Down {
        was: KeptServer,
        disk: FaultlessDisk,
    },
    /// Nothing: there was no memory to open it.
    Gone,
}

/// The metadata server of a world. Contracts see the server of the rules.
///
/// Where it is down, or found no memory in an earlier call, each call that can answer so answers that there is no memory. No
/// event of a replay comes to that: what is asked of a server that is down is refused before.
#[derive(Drop)]
pub(crate) struct ServerMachine {
    standing: Standing,
}

impl Model for ServerMachine {
    ghost use Rattle.server_rules.specs.declared.server.Server.{Server};
    ghost use Rattle.layout_world.specs.Machine.{Stands, state_in};

    ghost Value = { Server };

    ghost view = { λ m. state_in m.standing };

    ghost invariant = { λ m. Stands ⟦<FaultlessDisk as Disk>⟧ m.standing };
}

// What is left of an error of a journal whose disk doesn't fail.
fn want_of(e: JournalErr) -> Memory
    requires { e ≡ WantOfMemory }
{
    match e {
        JournalErr::Memory => Memory,
        JournalErr::NotEmpty { .. } | JournalErr::NotAJournal { .. } | JournalErr::DiskFault => {
            unreachable!()
        }
    }
}

// Why a file isn't made, as a server without a journal tells it.
fn file_err(e: JournalFileErr) -> FileErr
    ensures { result ≡ told_back e }
{
    match e {
        JournalFileErr::FileExists => FileErr::FileExists,
        JournalFileErr::BadMap(why) => FileErr::BadMap(why),
        JournalFileErr::TooFewDrives { online } => FileErr::TooFewDrives { online },
        JournalFileErr::NoSpread { online } => FileErr::NoSpread { online },
        JournalFileErr::Journal(_) => FileErr::Memory,
    }
}

// A journal without records.
fn new_journal(alloc: Global) -> Result<JournaledServer<FaultlessDisk>, Memory>
    ensures server { IfOk result (λ j. core_of j ≡ new_server []) }
    ensures well { IfOk result (IsWell ⟦<FaultlessDisk as Disk>⟧) }
{
    match JournaledServer::create(alloc, FaultlessDisk::new(alloc), DriveTable::new(alloc)) {
        Ok(journal) => Ok(journal),
        Err((e, _)) => Err(want_of(e)),
    }
}

// Bytes come to a server that runs.
fn hear<P: Place>(
    journal: &mut JournaledServer<FaultlessDisk>,
    now: u64,
    from: Node,
    bytes: &[u8],
    placer: &P,
) -> Result<Step, Memory>
    requires well { IsWell ⟦<FaultlessDisk as Disk>⟧ journal.old }
    requires placer { P.is_placer placer.now }
    ensures did { IfOk result (λ out. (chosen : List ℕ)
        × Did out (core_of journal.new) (on_bytes (core_of journal.old) now chosen from bytes.now)) }
    ensures well { IsWell ⟦<FaultlessDisk as Disk>⟧ journal.new }
{
    if journal.is_over() {
        return Err(Memory);
    }
    match journal.on_message(now, from, bytes, placer) {
        Ok(step) => Ok(step),
        Err(e) => Err(want_of(e)),
    }
}

// A server that runs is given an order.
fn obey<P: Place>(
    journal: &mut JournaledServer<FaultlessDisk>,
    kind: OrderKind,
    target: u32,
    placer: &P,
) -> Result<Step, Memory>
    requires well { IsWell ⟦<FaultlessDisk as Disk>⟧ journal.old }
    requires room { HasRoom (core_of journal.old) }
    requires placer { P.is_placer placer.now }
    ensures did { IfOk result (λ out. (chosen : List ℕ)
        × Did out (core_of journal.new) (ordered (core_of journal.old) chosen kind target).step) }
    ensures well { IsWell ⟦<FaultlessDisk as Disk>⟧ journal.new }
{
    if journal.is_over() {
        return Err(Memory);
    }
    match journal.order(kind, target, placer) {
        Ok(step) => Ok(step),
        Err(e) => Err(want_of(e)),
    }
}

// A server that runs makes a file, or refuses to.
fn create<P: Place>(
    journal: &mut JournaledServer<FaultlessDisk>,
    file: u32,
    raw: RawMap,
    tag: u32,
    zoned: bool,
    placer: &P,
) -> Result<Step, FileErr>
    requires well { IsWell ⟦<FaultlessDisk as Disk>⟧ journal.old }
    requires room { HasRoom (core_of journal.old) }
    requires placer { P.is_placer placer.now }
    requires algorithm { HasAlgorithm raw }
    ensures refused { IfErr result (IsRefused file raw zoned (core_of journal.old) (core_of journal.new)) }
    ensures made { IfOk result (λ out. Makes file raw tag zoned (core_of journal.old) (core_of journal.new) out) }
    ensures well { IsWell ⟦<FaultlessDisk as Disk>⟧ journal.new }
{
    if journal.is_over() {
        return Err(FileErr::Memory);
    }
    if zoned {
        match journal.create_zoned(file, raw, tag, placer) {
            Ok(step) => Ok(step),
            Err(e) => Err(file_err(e)),
        }
    } else {
        match journal.create_file(file, raw, tag, placer) {
            Ok(step) => Ok(step),
            Err(e) => Err(file_err(e)),
        }
    }
}

// A server that runs knows a further drive.
fn add(journal: &mut JournaledServer<FaultlessDisk>, info: DriveInfo) -> Result<(), Memory>
    requires well { IsWell ⟦<FaultlessDisk as Disk>⟧ journal.old }
    requires new { IsNew info.number (core_of journal.old).drives }
    requires low { info.number < MAX_DRIVES }
    ensures added { OnOk result (core_of journal.new
        ≡ record (core_of journal.old) { drives = add_drive (core_of journal.old).drives (drive_of info) }) }
    ensures well { IsWell ⟦<FaultlessDisk as Disk>⟧ journal.new }
{
    if journal.is_over() {
        return Err(Memory);
    }
    match journal.add_drive(info) {
        Ok(()) => Ok(()),
        Err(e) => Err(want_of(e)),
    }
}

// A drive of a server that runs is put into a zone, and stays in one where it is.
fn put(journal: &mut JournaledServer<FaultlessDisk>, drive: u32, zone: u32) -> Result<(), Memory>
    requires well { IsWell ⟦<FaultlessDisk as Disk>⟧ journal.old }
    requires known { IsTrue (is_known drive (core_of journal.old).drives) }
    ensures put { OnOk result (core_of journal.new
        ≡ record (core_of journal.old) { drives = put_in_zone (core_of journal.old).drives drive zone }) }
    ensures well { IsWell ⟦<FaultlessDisk as Disk>⟧ journal.new }
{
    if journal.is_over() {
        return Err(Memory);
    }
    match journal.set_zone(drive, zone) {
        Ok(_put) => Ok(()),
        Err(e) => Err(want_of(e)),
    }
}

// The format of a server that runs rises.
fn set_to(journal: &mut JournaledServer<FaultlessDisk>, format: u8) -> Result<(), Memory>
    requires well { IsWell ⟦<FaultlessDisk as Disk>⟧ journal.old }
    ensures set { OnOk result (core_of journal.new ≡ set_format (core_of journal.old) format) }
    ensures well { IsWell ⟦<FaultlessDisk as Disk>⟧ journal.new }
{
    if journal.is_over() {
        return Err(Memory);
    }
    match journal.set_format(format) {
        Ok(()) => Ok(()),
        Err(e) => Err(want_of(e)),
    }
}

// What a crash leaves of a server that runs.
fn crashed(journal: JournaledServer<FaultlessDisk>) -> Standing
    requires goes_on { is_over_in journal ≡ false }
    requires well { IsWell ⟦<FaultlessDisk as Disk>⟧ journal }
    ensures state { state_in result ≡ crash (core_of journal) }
    ensures stands { Stands ⟦<FaultlessDisk as Disk>⟧ result }
{
    let (was, disk) = journal.into_parts();
    Standing::Down {
        was,
        disk: disk.crash(),
    }
}

// The server that a disk has, and the step of its opening.
fn opened(
    alloc: Global,
    was: KeptServer,
    disk: FaultlessDisk,
) -> Result<(JournaledServer<FaultlessDisk>, Step), Memory>
    requires { Rests was disk }
    ensures did { IfOk result (λ found. Did found.1 (core_of found.0) (reopen (crash was.server))) }
    ensures well { IfOk result (λ found. IsWell ⟦<FaultlessDisk as Disk>⟧ found.0) }
{
    contents_stand_for_one_server();
    let _was = was;
    match JournaledServer::open(alloc, disk) {
        Ok(found) => Ok(found),
        Err((e, _)) => Err(want_of(e)),
    }
}

impl ServerMachine {
    /// A server that knows no drive and has no file.
    pub fn new(alloc: Global) -> Result<Self, Memory>
        ensures { IfOk result (λ server. server ≡ new_server []) }
    {
        let journal = new_journal(alloc)?;
        Ok(ServerMachine {
            standing: Standing::Up { journal },
        })
    }

    /// Bytes come from a node, at a time of the server's clock in seconds.
    pub fn on_message<P: Place>(
        &mut self,
        now: u64,
        from: Node,
        bytes: &[u8],
        placer: &P,
    ) -> Result<Step, Memory>
        requires placer { P.is_placer placer.now }
        ensures { IfOk result (λ out. (chosen : List ℕ)
            × Did out self.new (on_bytes self.old now chosen from bytes.now)) }
    {
        match &mut self.standing {
            Standing::Up { journal } => hear(journal, now, from, bytes, placer),
            _ => Err(Memory),
        }
    }

    /// It is given an order on a file, or on a drive that is declared.
    pub fn order<P: Place>(
        &mut self,
        kind: OrderKind,
        target: u32,
        placer: &P,
    ) -> Result<Step, Memory>
        requires room { HasRoom self.old }
        requires placer { P.is_placer placer.now }
        ensures { IfOk result (λ out. (chosen : List ℕ)
            × Did out self.new (ordered self.old chosen kind target).step) }
    {
        match &mut self.standing {
            Standing::Up { journal } => obey(journal, kind, target, placer),
            _ => Err(Memory),
        }
    }

    /// A file is made on drives that the placer names, which for a zoned file are spread over their zones.
    ///
    /// # Errors
    ///
    /// As [`FileErr`] says. Then nothing is changed, want of memory excepted.
    pub fn create<P: Place>(
        &mut self,
        file: u32,
        raw: RawMap,
        tag: u32,
        zoned: bool,
        placer: &P,
    ) -> Result<Step, FileErr>
        requires room { HasRoom self.old }
        requires placer { P.is_placer placer.now }
        requires algorithm { HasAlgorithm raw }
        ensures refused { IfErr result (IsRefused file raw zoned self.old self.new) }
        ensures made { IfOk result (λ out. Makes file raw tag zoned self.old self.new out) }
    {
        match &mut self.standing {
            Standing::Up { journal } => create(journal, file, raw, tag, zoned, placer),
            _ => Err(FileErr::Memory),
        }
    }

    /// It knows a further drive, of a new number below 64.
    pub fn add_drive(&mut self, info: DriveInfo) -> Result<(), Memory>
        requires new { IsNew info.number self.old.drives }
        requires low { info.number < MAX_DRIVES }
        ensures { OnOk result (self.new ≡ record self.old { drives = add_drive self.old.drives (drive_of info) }) }
    {
        match &mut self.standing {
            Standing::Up { journal } => add(journal, info),
            _ => Err(Memory),
        }
    }

    /// A drive is put into a zone, and stays in one where it is. There has to be such a drive.
    pub fn set_zone(&mut self, drive: u32, zone: u32) -> Result<(), Memory>
        requires known { IsTrue (is_known drive self.old.drives) }
        ensures put { OnOk result (self.new ≡ record self.old { drives = put_in_zone self.old.drives drive zone }) }
    {
        match &mut self.standing {
            Standing::Up { journal } => put(journal, drive, zone),
            _ => Err(Memory),
        }
    }

    /// Fences leave files with this format at least, 1 or 2.
    pub fn set_format(&mut self, format: u8) -> Result<(), Memory>
        ensures { OnOk result (self.new ≡ set_format self.old format) }
    {
        match &mut self.standing {
            Standing::Up { journal } => set_to(journal, format),
            _ => Err(Memory),
        }
    }

    /// Every command that a job waits for, once more.
    pub fn resend(&self) -> Result<Sends, Memory>
        ensures { IfOk result (λ sends. sends ≡ all_sent (resend self.now)) }
    {
        match &self.standing {
            Standing::Up { journal } => match journal.resend() {
                Ok(sends) => Ok(sends),
                Err(e) => Err(want_of(e)),
            },
            _ => Err(Memory),
        }
    }

    /// It crashes: no job runs any more, and it is down to its disk.
    pub fn crash(&mut self) -> Result<(), Memory>
        ensures { OnOk result (self.new ≡ crash self.old) }
    {
        match mem::replace(&mut self.standing, Standing::Gone) {
            Standing::Up { journal } => {
                if journal.is_over() {
                    return Err(Memory);
                }
                self.standing = crashed(journal);
                Ok(())
            }
            _ => Err(Memory),
        }
    }

    /// It is opened after a crash, from what its disk has.
    pub fn reopen(&mut self, alloc: Global) -> Result<Step, Memory>
        ensures { IfOk result (λ out. Did out self.new (reopen self.old)) }
    {
        match mem::replace(&mut self.standing, Standing::Gone) {
            Standing::Down { was, disk } => {
                let (journal, step) = opened(alloc, was, disk)?;
                self.standing = Standing::Up { journal };
                Ok(step)
            }
            _ => Err(Memory),
        }
    }

    /// Whether it runs, and the counters of 64 bits have room: each is below 9,223,372,036,854,775,808.
    pub fn has_room(&self) -> bool
        ensures { IsTrue result → HasRoom self.now }
    {
        match &self.standing {
            Standing::Up { journal } => journal.counters_low(),
            _ => false,
        }
    }

    /// What is kept of a file, `None` exactly where there is no such file.
    pub fn file(&self, number: u32) -> Option<&Kept>
        ensures { option_copied result ≡ option_map (λ f. f.kept) (file_at self.now.files number) }
    {
        match &self.standing {
            Standing::Up { journal } => journal.file(number),
            Standing::Down { was, .. } => was.file(number),
            Standing::Gone => None,
        }
    }

    /// The drives, in order of their numbers.
    pub fn drives(&self) -> &[Drive]
        ensures { result.now ≡ self.now.drives }
    {
        match &self.standing {
            Standing::Up { journal } => journal.drives(),
            Standing::Down { was, .. } => was.drives(),
            Standing::Gone => &[],
        }
    }
}
