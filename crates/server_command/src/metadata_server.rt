// What takes the messages that come to a metadata server.
ghost use Rattle.std.specs.Prelude.{◌≡◌, ◌<◌, ◌↔◌, Bool, false, IsTrue, is_some, List, [], ◌∷◌, ℕ, IfErr, IfOk, OnOk};
ghost use Rattle.data_map.specs.Check.{HasAlgorithm};
ghost use Rattle.layout_server.specs.Adding.{IsNew, drive_of};
ghost use Rattle.server_requests.specs.Sending.{all_sent};
ghost use Rattle.server_rules.specs.declared.server.Server.{Server};
ghost use Rattle.server_rules.specs.Envelopes.{on_bytes};
ghost use Rattle.server_rules.specs.Files.{file_at};
ghost use Rattle.server_rules.specs.Messages.{resend};
ghost use Rattle.server_state.specs.States.{Did, HasRoom};
ghost use Rattle.zone_place.specs.declared.loads.TheConstants.{MAX_DRIVES};
ghost use Rattle.layout_server.specs.Creating.{cause_of};
ghost use Rattle.layout_server.specs.declared.new_files.FileErr.TheVariants.{Memory as NoMemory};
ghost use Rattle.server_rules.specs.declared.server.Refusal.{Refusal};
ghost use Rattle.server_command.specs.declared.metadata_server.MakeErr.TheVariants.{Memory, Refused};
ghost use Rattle.server_command.specs.declared.metadata_server.StepErr.TheVariants.{DiskFault};
ghost use Rattle.server_command.specs.Kept.{BrokeOff, Makes, MakesNot, WentOn};
ghost use Rattle.server_command.specs.Knowing.{LearnsOne};
ghost use Rattle.server_command.specs.Steps.{Adds, Hears, Raises};

use data_map::RawMap;
use layout_server::{DriveInfo, FileErr, Sends, ServerCore, Step};
use osd_lists::{Memory as WantOfMemory, Node};
use server_rules::{Drive, Refusal};
use stripe_repair::Place;
use thiserror::Error;

/// Why a step of a server wasn't done.
#[derive(Clone, Copy, Debug, PartialEq, Eq, Error)]
pub enum StepErr {
    /// The disk that keeps the server failed.
    #[error("the disk failed")]
    DiskFault,
    /// There was no memory.
    #[error("out of memory")]
    Memory,
}

impl From<WantOfMemory> for StepErr {
    ghost use Rattle.server_command.specs.declared.metadata_server.StepErr.TheVariants.{Memory};

    ghost from_gives = { λ _ e. e ≡ Memory };

    fn from(_: WantOfMemory) -> Self {
        StepErr::Memory
    }
}

/// Why a file wasn't made.
#[derive(Clone, Copy, Debug, PartialEq, Eq, Error)]
pub enum MakeErr {
    /// The rules refuse it. Nothing changed.
    #[error("the file is refused")]
    Refused(Refusal),
    /// The disk that keeps the server failed.
    #[error("the disk failed")]
    DiskFault,
    /// There was no memory.
    #[error("out of memory")]
    Memory,
}

/// A metadata server: what takes the messages of clients and drives, and gives what is to be sent. It may keep itself on
/// a disk. Then it gives nothing to send before a crash can't take the step any more.
///
/// A call that changes the server and finds no memory, or whose disk fails, ends it: it takes no more.
pub trait MetadataServer {
    /// The server as it is.
    ghost server: { Self → Server };

    /// A call of its disk failed, or found no memory. Then it takes no more.
    ghost is_over: { Self → Bool };

    /// How many calls of its disk failed. The count never falls, and stays at its greatest number.
    ghost faults: { Self → ℕ };

    /// Its disk tells its bytes, and has the server as it is.
    ghost keeps: { Self → Type 0 };

    /// The moment of its disk, as a number that never falls.
    ghost moment: { Self → ℕ };

    /// What a crash at some moment from that one on might have left on its disk.
    ghost left_since: { Self → ℕ → List ℕ → Type 0 };

    /// Whether contents of a disk stand for a server: they have all of it but its jobs.
    ghost stands_for: { Server → List ℕ → Type 0 };

    /// It keeps that a drive has made this object for it.
    ghost knows: { Self → (drive object : ℕ) → Bool };

    /// The drives, in order of their numbers.
    fn drives(&self) -> &[Drive]
        ensures { result.now ≡ (server self.now).drives };

    /// Whether there is a file of this number.
    fn has_file(&self, number: u32) -> bool
        ensures { result ≡ is_some (file_at (server self.now).files number) };

    /// Whether the counters of 64 bits have room: each is below 9,223,372,036,854,775,808.
    fn counters_low(&self) -> bool
        ensures { IsTrue result ↔ HasRoom (server self.now) };

    /// Whether the server keeps that a drive has made this object for it.
    fn has_made(&self, drive: u32, object: u64) -> bool
        ensures { result ≡ knows self.now drive object };

    /// A drive has made this object for the server, as its answer to a CREATE said. A server that keeps itself keeps that, and
    /// knows no other object more.
    fn keep_made(&mut self, drive: u32, object: u64) -> Result<(), StepErr>
        requires goes_on { is_over self.old ≡ false }
        ensures ok { OnOk result (WentOn server is_over faults keeps moment left_since stands_for [] self.old self.new) }
        ensures learns { OnOk result (keeps self.old → LearnsOne (knows self.old) (knows self.new) drive object) }
        ensures err { IfErr result (λ e. BrokeOff server is_over faults keeps moment left_since stands_for [] []
            (e ≡ DiskFault) self.old self.new) };

    /// Every command that a job waits for, once more.
    fn resend(&self) -> Result<Sends, WantOfMemory>
        ensures { IfOk result (λ sends. sends ≡ all_sent (resend (server self.now))) };

    /// The server knows a further drive, of a new number below 64.
    fn add_drive(&mut self, info: DriveInfo) -> Result<(), StepErr>
        requires goes_on { is_over self.old ≡ false }
        requires new { IsNew info.number (server self.old).drives }
        requires low { info.number < MAX_DRIVES }
        ensures ok { OnOk result (WentOn server is_over faults keeps moment left_since stands_for (Adds (drive_of info) ∷ [])
            self.old self.new) }
        ensures err { IfErr result (λ e. BrokeOff server is_over faults keeps moment left_since stands_for []
            (Adds (drive_of info) ∷ []) (e ≡ DiskFault) self.old self.new) };

    /// Fences leave files with this format at least, 1 or 2: the server's format becomes the greater of itself and this.
    fn set_format(&mut self, format: u8) -> Result<(), StepErr>
        requires goes_on { is_over self.old ≡ false }
        ensures ok { OnOk result (WentOn server is_over faults keeps moment left_since stands_for (Raises format ∷ [])
            self.old self.new) }
        ensures err { IfErr result (λ e. BrokeOff server is_over faults keeps moment left_since stands_for [] (Raises format ∷ [])
            (e ≡ DiskFault) self.old self.new) };

    /// A file is made on drives that the placer names, and its components are sent CREATE. Zones count for nothing.
    ///
    /// # Errors
    ///
    /// [`MakeErr::Refused`] exactly if the rules refuse the file, and then nothing is changed; [`MakeErr::DiskFault`] only
    /// if the count of faults rose; [`MakeErr::Memory`].
    fn create_file<P: Place>(
        &mut self,
        file: u32,
        raw: RawMap,
        tag: u32,
        placer: &P,
    ) -> Result<Step, MakeErr>
        requires goes_on { is_over self.old ≡ false }
        requires room { HasRoom (server self.old) }
        requires placer { P.is_placer placer.now }
        requires algorithm { HasAlgorithm raw }
        ensures ok { IfOk result (λ out. Makes server is_over faults keeps moment left_since stands_for file raw tag
            self.old self.new out) }
        ensures err { IfErr result (λ e. MakesNot server is_over faults keeps moment left_since stands_for file raw tag
            self.old self.new e) };

    /// Bytes come from a node, at a time of the server's clock in seconds. Nothing changes if they can't be read, if their
    /// sender may not send such a message, or if the counters have no room.
    ///
    /// # Errors
    ///
    /// [`StepErr::DiskFault`] only if the count of faults rose, and [`StepErr::Memory`]. The step was done then or not.
    fn on_message<P: Place>(
        &mut self,
        now: u64,
        from: Node,
        bytes: &[u8],
        placer: &P,
    ) -> Result<Step, StepErr>
        requires goes_on { is_over self.old ≡ false }
        requires placer { P.is_placer placer.now }
        ensures ok { IfOk result (λ out. (chosen : List ℕ)
            × Did out (server self.new) (on_bytes (server self.old) now chosen from bytes.now)
            × WentOn server is_over faults keeps moment left_since stands_for (Hears now chosen from bytes.now ∷ [])
            self.old self.new) }
        ensures err { IfErr result (λ e. (chosen : List ℕ)
            × BrokeOff server is_over faults keeps moment left_since stands_for [] (Hears now chosen from bytes.now ∷ [])
            (e ≡ DiskFault) self.old self.new) };

    /// If nothing is asked of it, a crash leaves the server as it is.
    ghost kept_stays: { (one : Self) (c : List ℕ) → keeps one → left_since one (moment one) c → stands_for (server one) c };
}

// Why a file isn't made.
fn make_err_of(e: FileErr) -> MakeErr
    ensures refused { (r : Refusal) → e ≡ cause_of r → result ≡ Refused r }
    ensures memory { e ≡ NoMemory → result ≡ Memory }
{
    match e {
        FileErr::FileExists => MakeErr::Refused(Refusal::FileExists),
        FileErr::BadMap(e) => MakeErr::Refused(Refusal::BadMap(e)),
        FileErr::TooFewDrives { online } => MakeErr::Refused(Refusal::TooFewDrives { online }),
        FileErr::NoSpread { online } => MakeErr::Refused(Refusal::NoSpread { online }),
        FileErr::Memory => MakeErr::Memory,
    }
}

/// A server in memory alone: nothing keeps it.
impl MetadataServer for ServerCore {
    ghost server = { λ core. core };

    ghost is_over = { λ _. false };

    ghost faults = { λ _. 0 };

    ghost keeps = { λ _. ⊥ };

    ghost moment = { λ _. 0 };

    ghost left_since = { λ _ _ _. ⊥ };

    ghost stands_for = { λ _ _. ⊥ };

    ghost knows = { λ _ _ _. false };

    ghost kept_stays = { λ one c kept left. kept };

    fn drives(&self) -> &[Drive] {
        ServerCore::drives(self)
    }

    fn has_file(&self, number: u32) -> bool {
        match ServerCore::file(self, number) {
            Some(_) => true,
            None => false,
        }
    }

    fn counters_low(&self) -> bool {
        ServerCore::counters_low(self)
    }

    fn has_made(&self, _drive: u32, _object: u64) -> bool {
        false
    }

    fn keep_made(&mut self, _drive: u32, _object: u64) -> Result<(), StepErr> {
        Ok(())
    }

    fn resend(&self) -> Result<Sends, WantOfMemory> {
        ServerCore::resend(self)
    }

    fn add_drive(&mut self, info: DriveInfo) -> Result<(), StepErr> {
        match ServerCore::add_drive(self, info) {
            Ok(()) => Ok(()),
            Err(WantOfMemory) => Err(StepErr::Memory),
        }
    }

    fn set_format(&mut self, format: u8) -> Result<(), StepErr> {
        ServerCore::set_format(self, format);
        Ok(())
    }

    fn create_file<P: Place>(
        &mut self,
        file: u32,
        raw: RawMap,
        tag: u32,
        placer: &P,
    ) -> Result<Step, MakeErr> {
        match ServerCore::create_file(self, file, raw, tag, placer) {
            Ok(step) => Ok(step),
            Err(e) => Err(make_err_of(e)),
        }
    }

    fn on_message<P: Place>(
        &mut self,
        now: u64,
        from: Node,
        bytes: &[u8],
        placer: &P,
    ) -> Result<Step, StepErr> {
        match ServerCore::on_message(self, now, from, bytes, placer) {
            Ok(step) => Ok(step),
            Err(WantOfMemory) => Err(StepErr::Memory),
        }
    }
}
