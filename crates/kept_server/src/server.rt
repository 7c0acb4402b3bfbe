ghost use Rattle.std.specs.Prelude.{Some, ◌≡◌, ◌≢◌, ◌↔◌, ◌<◌, [], List, ℕ, true, false, is_err, IsTrue, map, option_map, IfOk, IfErr, IsErr, OnOk};
ghost use Rattle.std.specs.Option.{option_copied};
ghost use Rattle.layout_ops.specs.declared.orders.OrderKind.TheVariants as order;
ghost use Rattle.data_map.specs.Check.{HasAlgorithm};
ghost use Rattle.zone_place.specs.declared.loads.TheConstants.{MAX_DRIVES};
ghost use Rattle.server_rules.specs.Envelopes.{on_bytes};
ghost use Rattle.server_rules.specs.Files.{file_at};
ghost use Rattle.server_rules.specs.Making.{add_drive, new_server, set_format};
ghost use Rattle.server_rules.specs.Zoning.{put_in_zone};
ghost use Rattle.server_rules.specs.Messages.{counters_have_room, resend};
ghost use Rattle.server_rules.specs.Openings.{crash};
ghost use Rattle.server_rules.specs.Orders.{ordered};
ghost use Rattle.server_requests.specs.Sending.{all_sent};
ghost use Rattle.server_state.specs.States.{server_of, Did, HasRoom, IsGood, IsReady};
ghost use Rattle.layout_server.specs.Adding.{IsNew, CanAdd, and_drives, drive_of};
ghost use Rattle.layout_server.specs.Resending.{waited_of};
ghost use Rattle.layout_server.specs.Calls.{Makes, IsRefused};
ghost use Rattle.layout_server.specs.Zones.{is_in_zone, is_known};
ghost use Rattle.server_entries.specs.Applying.{applied_all};
ghost use Rattle.server_entries.specs.Spelling.{RecordWritable};
ghost use Rattle.server_differences.specs.Differences.{differences};
ghost use Rattle.kept_server.specs.Keeping.{Ends, Follows, GoesOn, IsMirror, IsQuiet, Keeps, SaysNoMore, StaysOver};
ghost use Rattle.kept_server.specs.Restoring.{Opens};

use data_map::RawMap;
use entry_replay::apply_all;
use layout_ops::OrderKind;
use layout_server::{DriveInfo, DriveTable, FileErr, Sends, ServerCore, ZoneErr};
use osd_lists::{Memory, Node, Numbers};
use server_differences::{differences, is_mirror};
use server_entries::{Applied, Entries, Record, is_writable};
use server_rules::{Drive, Kept};
use server_state::{State, Step};
use std::alloc::Global;
use std::marker::Model;
use std::mem;
use stripe_repair::Place;

/// A server, and the entries of what its last call changed of what it keeps. Contracts see both, and that it is over.
///
/// Behind each call the entries are taken into a second state, without jobs, which is compared with what the server
/// keeps. Want of memory ends the server, also that in the place of entries that don't make the one of the other: then
/// each further call that can answer so answers that there is no memory.
#[derive(Drop)]
pub struct KeptServer {
    alloc: Global,
    core: ServerCore,
    // What the server keeps, without jobs.
    mirror: State,
    changes: Record,
    // A call began and isn't done, or found no memory.
    is_over: bool,
}

impl Model for KeptServer {
    ghost use Rattle.std.specs.Prelude.{◌≡◌, false};
    ghost use Rattle.server_entries.specs.Spelling.{RecordWritable};
    ghost use Rattle.kept_server.specs.Views.{Keeping};
    ghost use Rattle.kept_server.specs.Keeping.{IsMirror};

    ghost Value = { Keeping };

    ghost view = { λ s. record { server = s.core; changes = s.changes; is_over = s.is_over } };

    ghost invariant = { λ s. RecordWritable s.changes × (s.is_over ≡ false → IsMirror s.mirror s.core) };
}

impl KeptServer {
    /// A server without files, with these drives. Its changes are the entries that make it of a server without drives.
    pub fn new(alloc: Global, drives: DriveTable) -> Result<Self, Memory>
        requires { CanAdd [] drives }
        ensures new { IfOk result (λ server. server.server ≡ new_server (and_drives [] drives)) }
        ensures follows { IfOk result (Follows (new_server [])) }
        ensures quiet { IfOk result (SaysNoMore (new_server [])) }
        ensures over { IfOk result (λ server. server.is_over ≡ false) }
    {
        let core = ServerCore::new(alloc, drives)?;
        let mut server = KeptServer {
            alloc,
            core,
            mirror: State::new(alloc),
            changes: no_changes(alloc),
            is_over: true,
        };
        server.settle(State::new(alloc))?;
        Ok(server)
    }

    // The opening of a server that keeps no job.
    pub(crate) fn opened(
        alloc: Global,
        core: ServerCore,
        mirror: State,
    ) -> Result<(Self, Step), Memory>
        requires ready { IsReady mirror }
        requires same { server_of mirror ≡ core }
        ensures { IfOk result (λ x. Opens core x.0 x.1) }
    {
        let mut core = core;
        let step = core.reopen()?;
        let mut server = KeptServer {
            alloc,
            core,
            mirror: State::new(alloc),
            changes: no_changes(alloc),
            is_over: true,
        };
        server.settle(mirror)?;
        Ok((server, step))
    }

    // What is kept before a call. The server is over until the call is done.
    fn begin(&mut self) -> Result<State, Memory>
        ensures mirror { IfOk result (λ mirror. IsMirror mirror self.old.server) }
        ensures goes_on { OnOk result (self.old.is_over ≡ false) }
        ensures server { self.new.server ≡ self.old.server }
        ensures over { self.new.is_over ≡ true }
    {
        if self.is_over {
            return Err(Memory);
        }
        self.is_over = true;
        Ok(mem::replace(&mut self.mirror, State::new(self.alloc)))
    }

    // The call is done: the entries are made that lead from what was kept before to what is kept now.
    fn settle(&mut self, mirror: State) -> Result<(), Memory>
        requires { IsReady mirror }
        ensures server { self.new.server ≡ self.old.server }
        ensures over { self.new.is_over ≡ is_err result }
        ensures follows { OnOk result (applied_all (server_of mirror) self.new.changes.entries ≡ Some (crash self.new.server)) }
        ensures quiet { OnOk result (server_of mirror ≡ crash self.new.server → self.new.changes.entries ≡ []) }
    {
        self.is_over = true;
        let mut mirror = mirror;
        let changes = changes_to(self.alloc, &mut mirror, self.core.state())?;
        self.mirror = mirror;
        self.changes = changes;
        self.is_over = false;
        Ok(())
    }

    /// Whether a call found no memory. Then the server has to be made of its records again.
    pub fn is_over(&self) -> bool
        ensures { result ≡ self.now.is_over }
    {
        self.is_over
    }

    /// What the last call changed of what is kept, which is nothing if it was refused. Unless the server is over, these
    /// entries make what is kept now of what was kept before that call.
    pub fn changes(&self) -> &Record
        ensures value { result.now ≡ self.now.changes }
        ensures writable { RecordWritable result.now }
    {
        &self.changes
    }

    /// The server knows a further drive, of a new number below 64.
    pub fn add_drive(&mut self, info: DriveInfo) -> Result<(), Memory>
        requires new { IsNew info.number self.old.server.drives }
        requires low { info.number < MAX_DRIVES }
        ensures added { OnOk result
            (self.new.server ≡ record self.old.server { drives = add_drive self.old.server.drives (drive_of info) }) }
        ensures kept { Keeps self.old self.new }
        ensures quiet { IsQuiet self.old self.new }
        ensures stays_over { StaysOver self.old self.new }
        ensures over { self.new.is_over ≡ is_err result }
    {
        let mirror = self.begin()?;
        self.core.add_drive(info)?;
        self.settle(mirror)
    }

    /// A file is made, as [`ServerCore::create_file`] makes it.
    ///
    /// # Errors
    ///
    /// As [`FileErr`] says. Then nothing is changed, want of memory excepted.
    pub fn create_file<P: Place>(
        &mut self,
        file: u32,
        raw: RawMap,
        tag: u32,
        placer: &P,
    ) -> Result<Step, FileErr>
        requires room { HasRoom self.old.server }
        requires placer { P.is_placer placer.now }
        requires algorithm { HasAlgorithm raw }
        ensures refused { IfErr result (IsRefused file raw false self.old.server self.new.server) }
        ensures made { IfOk result (λ out. Makes file raw tag false self.old.server self.new.server out) }
        ensures kept { Keeps self.old self.new }
        ensures quiet { IsQuiet self.old self.new }
        ensures stays_over { StaysOver self.old self.new }
        ensures over { OnOk result (self.new.is_over ≡ false) }
        ensures goes_on { IfErr result (GoesOn self.new) }
        ensures ends { IfErr result (Ends self.new) }
    {
        let mirror = self.begin()?;
        let made = self.core.create_file(file, raw, tag, placer);
        if let Err(FileErr::Memory) = made {
            return Err(FileErr::Memory);
        }
        self.settle(mirror)?;
        made
    }

    /// A file is made, as [`ServerCore::create_zoned`] makes it.
    ///
    /// # Errors
    ///
    /// As [`FileErr`] says. Then nothing is changed, want of memory excepted.
    pub fn create_zoned<P: Place>(
        &mut self,
        file: u32,
        raw: RawMap,
        tag: u32,
        placer: &P,
    ) -> Result<Step, FileErr>
        requires room { HasRoom self.old.server }
        requires placer { P.is_placer placer.now }
        requires algorithm { HasAlgorithm raw }
        ensures refused { IfErr result (IsRefused file raw true self.old.server self.new.server) }
        ensures made { IfOk result (λ out. Makes file raw tag true self.old.server self.new.server out) }
        ensures kept { Keeps self.old self.new }
        ensures quiet { IsQuiet self.old self.new }
        ensures stays_over { StaysOver self.old self.new }
        ensures over { OnOk result (self.new.is_over ≡ false) }
        ensures goes_on { IfErr result (GoesOn self.new) }
        ensures ends { IfErr result (Ends self.new) }
    {
        let mirror = self.begin()?;
        let made = self.core.create_zoned(file, raw, tag, placer);
        if let Err(FileErr::Memory) = made {
            return Err(FileErr::Memory);
        }
        self.settle(mirror)?;
        made
    }

    /// A drive that is in no zone is put into one. There has to be such a drive.
    ///
    /// # Errors
    ///
    /// `Ok(Err(ZoneErr::Taken))` exactly where the drive is in a zone. Then it stays there.
    pub fn set_zone(&mut self, drive: u32, zone: u32) -> Result<Result<(), ZoneErr>, Memory>
        requires known { IsTrue (is_known drive self.old.server.drives) }
        ensures put { OnOk result (self.new.server
            ≡ record self.old.server { drives = put_in_zone self.old.server.drives drive zone }) }
        ensures taken { IfOk result (λ put. IsErr put ↔ IsTrue (is_in_zone drive self.old.server.drives)) }
        ensures stays { IfOk result (λ put. IsErr put → self.new.server ≡ self.old.server) }
        ensures kept { Keeps self.old self.new }
        ensures quiet { IsQuiet self.old self.new }
        ensures stays_over { StaysOver self.old self.new }
        ensures over { self.new.is_over ≡ is_err result }
    {
        let mirror = self.begin()?;
        let put = self.core.set_zone(drive, zone);
        self.settle(mirror)?;
        Ok(put)
    }

    /// Fences leave files with this format at least, 1 or 2: the server's format becomes the greater of
    /// itself and this.
    pub fn set_format(&mut self, format: u8) -> Result<(), Memory>
        ensures set { OnOk result (self.new.server ≡ set_format self.old.server format) }
        ensures kept { Keeps self.old self.new }
        ensures quiet { IsQuiet self.old self.new }
        ensures stays_over { StaysOver self.old self.new }
        ensures over { self.new.is_over ≡ is_err result }
    {
        let mirror = self.begin()?;
        self.core.set_format(format);
        self.settle(mirror)
    }

    /// Bytes come from a node, as [`ServerCore::on_message`] hears them.
    pub fn on_message<P: Place>(
        &mut self,
        now: u64,
        from: Node,
        bytes: &[u8],
        placer: &P,
    ) -> Result<Step, Memory>
        requires placer { P.is_placer placer.now }
        ensures did { IfOk result (λ out. (chosen : List ℕ)
            × Did out self.new.server (on_bytes self.old.server now chosen from bytes.now)) }
        ensures kept { Keeps self.old self.new }
        ensures quiet { IsQuiet self.old self.new }
        ensures stays_over { StaysOver self.old self.new }
        ensures over { self.new.is_over ≡ is_err result }
    {
        let mirror = self.begin()?;
        let step = self.core.on_message(now, from, bytes, placer)?;
        self.settle(mirror)?;
        Ok(step)
    }

    /// The server is given an order on a file, or on a drive that is declared.
    ///
    /// # Errors
    ///
    /// Want of memory; and, where a drive is declared, a counter of 64 bits without room in the middle of the step.
    pub fn order<P: Place>(
        &mut self,
        kind: OrderKind,
        target: u32,
        placer: &P,
    ) -> Result<Step, Memory>
        requires room { HasRoom self.old.server }
        requires placer { P.is_placer placer.now }
        ensures did { IfOk result (λ out. (chosen : List ℕ)
            × Did out self.new.server (ordered self.old.server chosen kind target).step) }
        ensures kept { Keeps self.old self.new }
        ensures quiet { IsQuiet self.old self.new }
        ensures stays_over { StaysOver self.old self.new }
        ensures over { self.new.is_over ≡ is_err result }
    {
        let mirror = self.begin()?;
        let step = self.core.order(kind, target, placer)?;
        self.settle(mirror)?;
        Ok(step)
    }

    /// A recall goes to each holder of a grant on a file.
    pub fn recall(&mut self, file: u32) -> Result<Step, Memory>
        requires room { HasRoom self.old.server }
        ensures did { IfOk result (λ out. (chosen : List ℕ)
            → Did out self.new.server (ordered self.old.server chosen order.Recall file).step) }
        ensures kept { Keeps self.old self.new }
        ensures quiet { IsQuiet self.old self.new }
        ensures stays_over { StaysOver self.old self.new }
        ensures over { self.new.is_over ≡ is_err result }
    {
        let mirror = self.begin()?;
        let step = self.core.recall(file)?;
        self.settle(mirror)?;
        Ok(step)
    }

    /// A drive has failed, as [`ServerCore::declare`] takes it.
    ///
    /// # Errors
    ///
    /// Want of memory; and, in place of it, a counter of 64 bits without room in the middle of the step.
    pub fn declare<P: Place>(&mut self, drive: u32, placer: &P) -> Result<Step, Memory>
        requires placer { P.is_placer placer.now }
        ensures did { IfOk result (λ out. (chosen : List ℕ)
            × Did out self.new.server (ordered self.old.server chosen order.Declare drive).step) }
        ensures kept { Keeps self.old self.new }
        ensures quiet { IsQuiet self.old self.new }
        ensures stays_over { StaysOver self.old self.new }
        ensures over { self.new.is_over ≡ is_err result }
    {
        let mirror = self.begin()?;
        let step = self.core.declare(drive, placer)?;
        self.settle(mirror)?;
        Ok(step)
    }

    /// Every command that a job waits for, once more. A server that is over sends nothing: its last step may be one that no
    /// entries were given of.
    pub fn resend(&self) -> Result<Sends, Memory>
        ensures sends { IfOk result (λ sends. sends ≡ all_sent (resend self.now.server)) }
        ensures goes_on { OnOk result (self.now.is_over ≡ false) }
    {
        if self.is_over {
            return Err(Memory);
        }
        self.core.resend()
    }

    /// The lowest component that a file's job waits for, `None` exactly where no job of it runs.
    pub fn waits(&self, file: u32) -> Option<u32>
        ensures { result ≡ waited_of (file_at self.now.server.files file) }
    {
        self.core.waits(file)
    }

    /// Whether the counters have room: calls that raise them ask that.
    pub fn counters_low(&self) -> bool
        ensures value { result ≡ counters_have_room self.now.server }
        ensures room { IsTrue result ↔ HasRoom self.now.server }
    {
        self.core.counters_low()
    }

    /// What is kept of a file. `None` exactly where there is no such file.
    pub fn file(&self, number: u32) -> Option<&Kept>
        ensures { option_copied result ≡ option_map (λ f. f.kept) (file_at self.now.server.files number) }
    {
        self.core.file(number)
    }

    /// The numbers of the files, in rising order.
    pub fn file_numbers(&self) -> Result<Numbers, Memory>
        ensures { IfOk result (λ numbers. numbers ≡ map (λ f. f.kept.number) self.now.server.files) }
    {
        self.core.file_numbers()
    }

    /// The drives, in order of their numbers.
    pub fn drives(&self) -> &[Drive]
        ensures { result.now ≡ self.now.server.drives }
    {
        self.core.drives()
    }
}

// No entries.
fn no_changes(alloc: Global) -> Record
    ensures empty { result.entries ≡ [] }
    ensures writable { RecordWritable result }
{
    Record {
        entries: Entries::new(alloc),
    }
}

// The entries that make of the mirror, on which no job runs, what the server of a state keeps, and the mirror with them.
// Want of memory stands also for entries that don't make the one of the other.
fn changes_to(alloc: Global, mirror: &mut State, state: &State) -> Result<Record, Memory>
    requires mirror { IsReady mirror.old }
    requires state { IsGood state.now }
    ensures ready { IsReady mirror.new }
    ensures writable { IfOk result RecordWritable }
    ensures same { OnOk result (server_of mirror.new ≡ crash (server_of state.now)) }
    ensures follows { IfOk result (λ c. applied_all (server_of mirror.old) c.entries ≡ Some (crash (server_of state.now))) }
    ensures quiet { IfOk result (λ c. server_of mirror.old ≡ crash (server_of state.now) → c.entries ≡ []) }
    ensures told { IfOk result (λ c. server_of mirror.old ≢ crash (server_of state.now)
        → c.entries ≡ differences (server_of mirror.old) (server_of state.now)) }
{
    if is_mirror(mirror, state) {
        return Ok(no_changes(alloc));
    }
    let entries = differences(alloc, mirror, state)?;
    let changes = Record { entries };
    if !is_writable(&changes) {
        return Err(Memory);
    }
    match apply_all(alloc, mirror, changes.entries.as_slice()) {
        Ok(Applied::Done) => {}
        Ok(Applied::Unmade) => return Err(Memory),
        Err(e) => return Err(e),
    }
    if !is_mirror(mirror, state) {
        return Err(Memory);
    }
    Ok(changes)
}
