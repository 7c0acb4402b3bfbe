ghost use Rattle.std.specs.Prelude.{◌≡◌, [], not, is_some, IfOk, IfErr, OnOk};
ghost use Rattle.server_rules.specs.Files.{file_at, Step as RulesStep};
ghost use Rattle.server_rules.specs.Making.{new_server};
ghost use Rattle.data_map.specs.Check.{HasAlgorithm};
ghost use Rattle.server_rules.specs.History.{Obeys, Zones, Formats, Resends, Crashes, Opens};
ghost use Rattle.server_state.specs.States.{HasRoom, Did};
ghost use Rattle.world_history.specs.State.{World};
ghost use Rattle.world_history.specs.Moves.{raw_of, gives};
ghost use Rattle.layout_server.specs.Calls.{IsRefused, Makes as MakesAt};
ghost use Rattle.world_history.specs.Refusals.{lacks_file, is_zoned};
ghost use Rattle.world_network.specs.Acts.{nothing};
ghost use Rattle.layout_world.specs.ServerActing.{Acts, Adds, Does, Gives, Hears, Makes};

use crate::machine::ServerMachine;
use crate::making::{has_algorithm, has_number, is_in_zone, raw_map, tell_refusal};
use crate::posting::postings;
use layout_ops::OrderKind;
use layout_server::{DriveInfo, FileErr, Repairs, Step};
use osd_lists::{Memory, Node};
use scenario_text::{Delivery, DriveName, FileMap, FileName, Line, MapFault, Note};
use server_rules::Kept;
use std::alloc::Global;
use std::marker::Model;
use std::mem;
use stripe_repair::Place;
use world_network::{Act, Handed, Lines, lines_of};
use world_watch::KeptFiles;

/// The metadata server as a party of a world.
///
/// It has each change in a journal on a disk in memory before it tells of it, and a crash leaves it that disk. Where a counter
/// of 64 bits has no room, or the server is down, a call that gives it something to do answers that there is no memory.
#[derive(Drop)]
pub struct WorldServer {
    core: ServerMachine,
    // The repairs that the last step ended, until they are taken.
    mended: Repairs,
}

impl Model for WorldServer {
    ghost use Rattle.layout_world.specs.ServerState.{WorldServerState};

    ghost Value = { WorldServerState };

    ghost view = { λ s. record { state = s.core; mended = s.mended } };
}

impl KeptFiles for WorldServer {
    ghost use Rattle.std.specs.Prelude.{option_map};
    ghost use Rattle.server_rules.specs.Files.{file_at};

    ghost kept_of = { λ s n. option_map (λ f. f.kept) (file_at s.state.files n) };

    fn kept(&self, file: u32) -> Option<&Kept> {
        self.core.file(file)
    }
}

impl WorldServer {
    /// A server that knows no drive and has no file.
    pub fn new(alloc: Global) -> Result<Self, Memory>
        ensures { IfOk result (λ server. server ≡ record { state = new_server []; mended = [] }) }
    {
        Ok(WorldServer {
            core: ServerMachine::new(alloc)?,
            mended: Repairs::new(alloc),
        })
    }

    /// Whether there is such a file.
    pub fn has_file(&self, file: FileName) -> bool
        ensures value { result ≡ is_some (file_at self.now.state.files file) }
        ensures there { (w : World) → w.server ≡ self.now.state → lacks_file w file ≡ not result }
    {
        self.core.file(file.number()).is_some()
    }

    /// The repairs that the last step ended, unless they were taken.
    pub fn take_mended(&mut self, alloc: Global) -> Repairs
        ensures taken { result ≡ self.old.mended }
        ensures left { self.new ≡ record { state = self.old.state; mended = [] } }
    {
        mem::replace(&mut self.mended, Repairs::new(alloc))
    }

    // What a step comes to.
    fn did(&mut self, alloc: Global, step: Step) -> Result<Act, Memory>
        ensures { IfOk result (λ act. (s : RulesStep) → Did step self.old.state s → Acts s self.new act) }
    {
        let Step {
            sends,
            notes,
            mended,
        } = step;
        let told = lines_of(alloc, notes)?;
        let posts = postings(alloc, sends)?;
        self.mended = mended;
        Ok(Act { told, posts })
    }

    // The server is given something to do only where the counters have room.
    fn ready(&self) -> Result<(), Memory>
        ensures { OnOk result (HasRoom self.now.state) }
    {
        if self.core.has_room() {
            Ok(())
        } else {
            Err(Memory)
        }
    }

    /// A message comes to the server, at a time of its clock in seconds.
    pub fn hear<P: Place>(
        &mut self,
        alloc: Global,
        now: u64,
        from: Node,
        bytes: &[u8],
        placer: &P,
    ) -> Result<Handed, Memory>
        requires { P.is_placer placer.now }
        ensures { IfOk result (Hears self.old.state now from bytes.now self.new) }
    {
        let step = self.core.on_message(now, from, bytes, placer)?;
        Ok(Handed {
            receipt: Delivery::Taken,
            act: self.did(alloc, step)?,
        })
    }

    /// The server knows a further drive, with the key that they share and its capacity in bytes. One that it knows
    /// changes nothing.
    pub fn add_drive(
        &mut self,
        alloc: Global,
        drive: DriveName,
        key: [u8; 20],
        capacity: u64,
    ) -> Result<Act, Memory>
        ensures added { IfOk result (Adds self.old.state drive key capacity self.new.state) }
        ensures mended { OnOk result (self.new.mended ≡ self.old.mended) }
    {
        if has_number(self.core.drives(), drive.number()) {
            return Ok(Act::nothing(alloc));
        }
        self.core.add_drive(DriveInfo {
            number: drive.number(),
            key,
            capacity,
        })?;
        Ok(Act::nothing(alloc))
    }

    // A file is made on drives that the placer names, which for a zoned file are spread over their zones.
    fn create<P: Place>(
        &mut self,
        file: FileName,
        map: &FileMap,
        tag: u32,
        zoned: bool,
        placer: &P,
    ) -> Result<Step, FileErr>
        requires room { HasRoom self.old.state }
        requires placer { P.is_placer placer.now }
        requires algorithm { HasAlgorithm (raw_of map.now) }
        ensures refused { IfErr result (IsRefused file (raw_of map.now) zoned self.old.state self.new.state) }
        ensures made { IfOk result (MakesAt file (raw_of map.now) tag zoned self.old.state self.new.state) }
        ensures mended { self.new.mended ≡ self.old.mended }
    {
        self.core
            .create(file.number(), raw_map(map), tag, zoned, placer)
    }

    /// A file is made, spread over zones or not, or it is noted why it isn't. A map that names no parity algorithm is
    /// told as one whose groups have no width.
    pub fn make_file<P: Place>(
        &mut self,
        alloc: Global,
        file: FileName,
        map: &FileMap,
        tag: u32,
        zoned: bool,
        placer: &P,
    ) -> Result<Act, Memory>
        requires { P.is_placer placer.now }
        ensures { IfOk result (Makes self.old file (raw_of map.now) tag zoned self.new) }
    {
        self.ready()?;
        if !has_algorithm(map) {
            let why = MapFault::Width;
            return Act::line(
                alloc,
                Line::Note {
                    file,
                    note: Note::BadMap { why },
                },
            );
        }
        match self.create(file, map, tag, zoned, placer) {
            Ok(step) => self.did(alloc, step),
            Err(why) => tell_refusal(alloc, file, why),
        }
    }

    /// Whether the drive is in a zone, by the server.
    pub fn is_zoned(&self, drive: DriveName) -> bool
        ensures { result ≡ is_zoned self.now.state drive }
    {
        is_in_zone(self.core.drives(), drive.number())
    }

    /// A drive is put into a zone. One that is in a zone stays there, and one that the server doesn't know changes
    /// nothing.
    pub fn set_zone(&mut self, drive: DriveName, zone: u32) -> Result<(), Memory>
        ensures state { OnOk result (Does self.old.state (λ w. gives w [] (Zones drive zone)) self.new.state nothing) }
        ensures mended { OnOk result (self.new.mended ≡ self.old.mended) }
    {
        if !has_number(self.core.drives(), drive.number()) {
            return Ok(());
        }
        self.core.set_zone(drive.number(), zone)?;
        Ok(())
    }

    /// The server is given an order on a file, or on a failed drive that is taken out.
    pub fn order<P: Place>(
        &mut self,
        alloc: Global,
        kind: OrderKind,
        target: u32,
        placer: &P,
    ) -> Result<Act, Memory>
        requires { P.is_placer placer.now }
        ensures { IfOk result (Gives self.old.state (Obeys kind target) self.new) }
    {
        self.ready()?;
        let step = self.core.order(kind, target, placer)?;
        self.did(alloc, step)
    }

    /// What jobs wait for is sent again.
    pub fn resend(&self, alloc: Global) -> Result<Act, Memory>
        ensures { IfOk result (Does self.now.state (λ w. gives w [] Resends) self.now.state) }
    {
        let sends = self.core.resend()?;
        Ok(Act {
            told: Lines::new(alloc),
            posts: postings(alloc, sends)?,
        })
    }

    /// The server crashes: no job runs any more, and all that is kept stays, on its disk.
    pub fn crash(&mut self, alloc: Global) -> Result<Act, Memory>
        ensures { IfOk result (Gives self.old.state Crashes self.new) }
    {
        self.core.crash()?;
        self.mended = Repairs::new(alloc);
        Ok(Act::nothing(alloc))
    }

    /// The server is opened after a crash.
    pub fn reopen(&mut self, alloc: Global) -> Result<Act, Memory>
        ensures { IfOk result (Gives self.old.state Opens self.new) }
    {
        let step = self.core.reopen(alloc)?;
        self.did(alloc, step)
    }

    /// Fences leave files with this format at least, 1 or 2.
    pub fn set_format(&mut self, format: u8) -> Result<(), Memory>
        ensures state { OnOk result (Does self.old.state (λ w. gives w [] (Formats format)) self.new.state nothing) }
        ensures mended { OnOk result (self.new.mended ≡ self.old.mended) }
    {
        self.core.set_format(format)?;
        Ok(())
    }
}
