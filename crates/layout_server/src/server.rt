ghost use Rattle.std.specs.Prelude.{◌≡◌, ◌↔◌, ◌<◌, [], List, ℕ, true, false, IsTrue, map, option_map, IfOk, IfErr, IsErr, OnOk, OnErr};
ghost use Rattle.std.specs.Option.{option_copied};
ghost use Rattle.layout_ops.specs.declared.orders.OrderKind.TheVariants as order;
ghost use Rattle.data_map.specs.Check.{HasAlgorithm};
ghost use Rattle.zone_place.specs.declared.loads.TheConstants.{MAX_DRIVES};
ghost use Rattle.server_rules.specs.Envelopes.{on_bytes};
ghost use Rattle.server_rules.specs.Files.{file_at};
ghost use Rattle.server_rules.specs.Making.{add_drive, new_server, set_format};
ghost use Rattle.server_rules.specs.Zoning.{put_in_zone};
ghost use Rattle.server_rules.specs.Messages.{counters_have_room, resend};
ghost use Rattle.server_rules.specs.Openings.{crash, reopen};
ghost use Rattle.server_rules.specs.Orders.{ordered};
ghost use Rattle.server_requests.specs.Sending.{all_sent};
ghost use Rattle.server_state.specs.States.{server_of, Did, HasRoom, IsGood};
ghost use Rattle.layout_server.specs.Adding.{IsNew, CanAdd, and_drives, drive_of};
ghost use Rattle.layout_server.specs.Resending.{waited_of};
ghost use Rattle.layout_server.specs.Calls.{Makes, IsRefused};
ghost use Rattle.layout_server.specs.Zones.{is_in_zone, is_known};

use crate::drives::{DriveInfo, DriveTable, add_drive, add_drives};
use crate::kept_files::{kept_of, numbers_of};
use crate::lost_drives::order_declare;
use crate::messages::{hear, obey};
use crate::new_files::{FileErr, create_file};
use crate::openings::{crash, reopen};
use crate::orders::order_recall;
use crate::resends::{resend, waits};
use crate::zones::{ZoneErr, set_zone};
use data_map::RawMap;
use layout_ops::OrderKind;
use osd_lists::{Memory, Node, Numbers};
use server_requests::Sends;
use server_rules::{COUNTERS_END, Drive, Kept};
use server_state::{State, Step};
use std::alloc::Global;
use std::marker::Model;
use std::mem;
use stripe_repair::Place;

/// The metadata server. Contracts see the server of the rules.
///
/// A call that finds no memory in the middle of its step ends the server: nothing is left of its state, and each
/// further call that can answer so answers that there is no memory.
#[derive(Drop)]
pub struct ServerCore {
    alloc: Global,
    state: State,
    // A call began and isn't done, or found no memory.
    is_over: bool,
}

impl Model for ServerCore {
    ghost use Rattle.server_rules.specs.declared.server.Server.{Server};
    ghost use Rattle.server_state.specs.States.{server_of, IsGood};

    ghost Value = { Server };

    ghost view = { λ s. server_of s.state };

    ghost invariant = { λ s. IsGood s.state };
}

impl ServerCore {
    /// A server without files, with these drives.
    pub fn new(alloc: Global, drives: DriveTable) -> Result<Self, Memory>
        requires { CanAdd [] drives }
        ensures { IfOk result (λ server. server ≡ new_server (and_drives [] drives)) }
    {
        let mut state = State::new(alloc);
        add_drives(alloc, &mut state.drives, drives.as_slice())?;
        let is_over = false;
        Ok(ServerCore {
            alloc,
            state,
            is_over,
        })
    }

    /// The server of a state.
    pub fn of_state(alloc: Global, state: State) -> Self
        requires { IsGood state }
        ensures { result ≡ server_of state }
    {
        let is_over = false;
        ServerCore {
            alloc,
            state,
            is_over,
        }
    }

    /// The state that the server has. After want of memory it is an empty one.
    pub fn state(&self) -> &State
        ensures value { server_of result.now ≡ self.now }
        ensures good { IsGood result.now }
    {
        &self.state
    }

    // The state, in whose place a new one stands until the call is done.
    fn begin(&mut self) -> Result<State, Memory>
        ensures value { IfOk result (λ state. server_of state ≡ self.old) }
        ensures good { IfOk result IsGood }
    {
        if self.is_over {
            return Err(Memory);
        }
        self.is_over = true;
        Ok(mem::replace(&mut self.state, State::new(self.alloc)))
    }

    // The call is done, and leaves this state.
    fn keep(&mut self, state: State)
        requires { IsGood state }
        ensures { self.new ≡ server_of state }
    {
        self.state = state;
        self.is_over = false;
    }

    /// The server knows a further drive, of a new number below 64.
    pub fn add_drive(&mut self, info: DriveInfo) -> Result<(), Memory>
        requires new { IsNew info.number self.old.drives }
        requires low { info.number < MAX_DRIVES }
        ensures { OnOk result (self.new ≡ record self.old { drives = add_drive self.old.drives (drive_of info) }) }
    {
        if self.is_over {
            return Err(Memory);
        }
        add_drive(self.alloc, &mut self.state.drives, info)
    }

    /// A file is made on drives that the placer names, and its components are sent CREATE. Zones count for nothing.
    ///
    /// # Errors
    ///
    /// As [`FileErr`] says. Then nothing is changed, want of memory excepted.
    pub fn create_file<P: Place>(
        &mut self,
        file: u32,
        raw: RawMap,
        tag: u32,
        placer: &P,
    ) -> Result<Step, FileErr>
        requires room { HasRoom self.old }
        requires placer { P.is_placer placer.now }
        requires algorithm { HasAlgorithm raw }
        ensures refused { IfErr result (IsRefused file raw false self.old self.new) }
        ensures made { IfOk result (λ out. Makes file raw tag false self.old self.new out) }
    {
        self.create(file, raw, tag, false, placer)
    }

    /// A file is made on drives that the placer spreads over zones, and its components are sent CREATE. Drives that are
    /// in no zone count for nothing.
    ///
    /// # Errors
    ///
    /// As [`FileErr`] says. Then nothing is changed, want of memory excepted.
    pub fn create_zoned<P: Place>(
        &mut self,
        file: u32,
        raw: RawMap,
        tag: u32,
        placer: &P,
    ) -> Result<Step, FileErr>
        requires room { HasRoom self.old }
        requires placer { P.is_placer placer.now }
        requires algorithm { HasAlgorithm raw }
        ensures refused { IfErr result (IsRefused file raw true self.old self.new) }
        ensures made { IfOk result (λ out. Makes file raw tag true self.old self.new out) }
    {
        self.create(file, raw, tag, true, placer)
    }

    // A file is made, spread over zones or not.
    fn create<P: Place>(
        &mut self,
        file: u32,
        raw: RawMap,
        tag: u32,
        zoned: bool,
        placer: &P,
    ) -> Result<Step, FileErr>
        requires room { HasRoom self.old }
        requires placer { P.is_placer placer.now }
        requires algorithm { HasAlgorithm raw }
        ensures refused { IfErr result (IsRefused file raw zoned self.old self.new) }
        ensures made { IfOk result (λ out. Makes file raw tag zoned self.old self.new out) }
    {
        let mut state = self.begin()?;
        let made = create_file(self.alloc, &mut state, file, raw, tag, zoned, placer);
        if let Err(FileErr::Memory) = made {
            return Err(FileErr::Memory);
        }
        self.keep(state);
        made
    }

    /// A drive that is in no zone is put into one. There has to be such a drive.
    ///
    /// # Errors
    ///
    /// [`ZoneErr::Taken`] exactly where the drive is in a zone. Then it stays there.
    pub fn set_zone(&mut self, drive: u32, zone: u32) -> Result<(), ZoneErr>
        requires known { IsTrue (is_known drive self.old.drives) }
        ensures put { self.new ≡ record self.old { drives = put_in_zone self.old.drives drive zone } }
        ensures taken { IsErr result ↔ IsTrue (is_in_zone drive self.old.drives) }
        ensures stays { OnErr result (self.new ≡ self.old) }
    {
        set_zone(&mut self.state.drives, drive, zone)
    }

    /// Fences leave files with this format at least, 1 or 2: the server's format becomes the greater of
    /// itself and this.
    pub fn set_format(&mut self, format: u8)
        ensures { self.new ≡ set_format self.old format }
    {
        self.state.format = self.state.format.max(format);
    }

    /// Bytes come from a node, at a time of the server's clock in seconds. Nothing changes where they can't be read,
    /// where their sender may not send such a message, or where the counters have no room.
    pub fn on_message<P: Place>(
        &mut self,
        now: u64,
        from: Node,
        bytes: &[u8],
        placer: &P,
    ) -> Result<Step, Memory>
        requires placer { P.is_placer placer.now }
        ensures { IfOk result (λ out. (chosen : List ℕ)
            × Did out self.new (on_bytes self.old now chosen from bytes.now)) }
    {
        let has_room = self.counters_low();
        let mut state = self.begin()?;
        let step = hear(self.alloc, &mut state, now, from, bytes, placer, has_room)?;
        self.keep(state);
        Ok(step)
    }

    /// The server is given an order on a file, or on a drive that is declared. [`recall`](Self::recall),
    /// [`revoke`](Self::revoke), [`rebuild`](Self::rebuild), [`audit`](Self::audit) and [`declare`](Self::declare) say
    /// what each kind does.
    ///
    /// # Errors
    ///
    /// Want of memory; and, where a drive is declared, a counter of 64 bits without room in the middle of the step.
    pub fn order<P: Place>(
        &mut self,
        kind: OrderKind,
        target: u32,
        placer: &P,
    ) -> Result<Step, Memory>
        requires room { HasRoom self.old }
        requires placer { P.is_placer placer.now }
        ensures { IfOk result (λ out. (chosen : List ℕ)
            × Did out self.new (ordered self.old chosen kind target).step) }
    {
        let mut state = self.begin()?;
        let obeyed = obey(self.alloc, &mut state, kind, target, placer)?;
        self.keep(state);
        Ok(obeyed.step)
    }

    /// A recall goes to each holder of a grant on a file.
    pub fn recall(&mut self, file: u32) -> Result<Step, Memory>
        requires room { HasRoom self.old }
        ensures { IfOk result (λ out. (chosen : List ℕ)
            → Did out self.new (ordered self.old chosen order.Recall file).step) }
    {
        let mut state = self.begin()?;
        let obeyed = order_recall(self.alloc, &mut state, file)?;
        self.keep(state);
        Ok(obeyed.step)
    }

    /// A fence of a file begins, with the repair behind it, unless a job runs or the file's tag is spent.
    pub fn revoke<P: Place>(&mut self, file: u32, placer: &P) -> Result<Step, Memory>
        requires room { HasRoom self.old }
        requires placer { P.is_placer placer.now }
        ensures { IfOk result (λ out. (chosen : List ℕ)
            × Did out self.new (ordered self.old chosen order.Revoke file).step) }
    {
        self.order(OrderKind::Revoke, file, placer)
    }

    /// The missing components of a file are made anew on other drives, behind a fence and its repair; unless a job
    /// runs or the file's tag is spent.
    pub fn rebuild<P: Place>(&mut self, file: u32, placer: &P) -> Result<Step, Memory>
        requires room { HasRoom self.old }
        requires placer { P.is_placer placer.now }
        ensures { IfOk result (λ out. (chosen : List ℕ)
            × Did out self.new (ordered self.old chosen order.Rebuild file).step) }
    {
        self.order(OrderKind::Rebuild, file, placer)
    }

    /// The stripes of a file are read and compared, behind a fence and its repair; unless a job runs or the file's
    /// tag is spent.
    pub fn audit<P: Place>(&mut self, file: u32, placer: &P) -> Result<Step, Memory>
        requires room { HasRoom self.old }
        requires placer { P.is_placer placer.now }
        ensures { IfOk result (λ out. (chosen : List ℕ)
            × Did out self.new (ordered self.old chosen order.Audit file).step) }
    {
        self.order(OrderKind::Audit, file, placer)
    }

    /// A drive has failed: it is offline from now on, and each component on it missing. Unlike the other orders this
    /// one may be given where the counters have little room.
    ///
    /// # Errors
    ///
    /// Want of memory; and, in place of it, a counter of 64 bits without room in the middle of the step.
    pub fn declare<P: Place>(&mut self, drive: u32, placer: &P) -> Result<Step, Memory>
        requires placer { P.is_placer placer.now }
        ensures { IfOk result (λ out. (chosen : List ℕ)
            × Did out self.new (ordered self.old chosen order.Declare drive).step) }
    {
        let mut state = self.begin()?;
        let obeyed = order_declare(self.alloc, &mut state, drive, placer)?;
        self.keep(state);
        Ok(obeyed.step)
    }

    /// The server crashes: no job runs any more, and no file counts as refused at the last opening. All else that the
    /// server has is kept.
    pub fn crash(&mut self) -> Result<(), Memory>
        ensures { OnOk result (self.new ≡ crash self.old) }
    {
        let mut state = self.begin()?;
        crash(self.alloc, &mut state)?;
        self.keep(state);
        Ok(())
    }

    /// The server is opened after a crash. In the order of their numbers each file that has a grant, or whose fence or
    /// repair isn't over, is fenced; if its tag is the greatest that is refused, and noted. Any other that isn't ready
    /// is made, by a CREATE for each present component. Nothing changes where the counters have no room.
    ///
    /// # Errors
    ///
    /// Want of memory; and, in place of it, a counter of 64 bits without room in the middle of the step.
    pub fn reopen(&mut self) -> Result<Step, Memory>
        ensures { IfOk result (λ out. Did out self.new (reopen self.old)) }
    {
        let has_room = self.counters_low();
        let mut state = self.begin()?;
        let step = reopen(self.alloc, &mut state, has_room)?;
        self.keep(state);
        Ok(step)
    }

    /// Every command that a job waits for, once more.
    pub fn resend(&self) -> Result<Sends, Memory>
        ensures { IfOk result (λ sends. sends ≡ all_sent (resend self.now)) }
    {
        if self.is_over {
            return Err(Memory);
        }
        resend(self.alloc, &self.state)
    }

    /// The lowest component that a file's job waits for, `None` exactly where no job of it runs.
    pub fn waits(&self, file: u32) -> Option<u32>
        ensures { result ≡ waited_of (file_at self.now.files file) }
    {
        waits(&self.state.files, file)
    }

    /// Whether the counters of 64 bits have room: each is below 9,223,372,036,854,775,808.
    #[tactic(auto, unfolding(server_rules::specs::Messages::counters_have_room))]
    pub fn counters_low(&self) -> bool
        ensures value { result ≡ counters_have_room self.now }
        ensures room { IsTrue result ↔ HasRoom self.now }
    {
        let state = &self.state;
        state.next_nonce < COUNTERS_END
            && state.next_object < COUNTERS_END
            && state.next_recall < COUNTERS_END
    }

    /// What is kept of a file: its map, components, live grants, size and phase among others. `None` exactly where
    /// there is no such file.
    pub fn file(&self, number: u32) -> Option<&Kept>
        ensures { option_copied result ≡ option_map (λ f. f.kept) (file_at self.now.files number) }
    {
        kept_of(&self.state.files, number)
    }

    /// The numbers of the files, in rising order.
    pub fn file_numbers(&self) -> Result<Numbers, Memory>
        ensures { IfOk result (λ numbers. numbers ≡ map (λ f. f.kept.number) self.now.files) }
    {
        numbers_of(self.alloc, &self.state.files)
    }

    /// The drives, in order of their numbers.
    pub fn drives(&self) -> &[Drive]
        ensures { result.now ≡ self.now.drives }
    {
        self.state.drives.as_slice()
    }
}
