// A server that is kept in a journal, as what takes messages.
ghost use Rattle.std.specs.Prelude.{◌≡◌};
ghost use Rattle.server_journal.specs.declared.errors.JournalErr.TheVariants.{DiskFault};
ghost use Rattle.server_journal.specs.Errors.{IsOfDisk};
ghost use Rattle.stored_server.specs.StoredServer.{make_err_of, step_err_of};

use data_map::RawMap;
use layout_server::{DriveInfo, Sends, Step};
use osd_disk::Disk;
use osd_lists::{Memory as WantOfMemory, Node};
use server_command::{MakeErr, MetadataServer, StepErr};
use server_journal::{JournalErr, JournalFileErr, JournaledServer, MadeObject};
use server_rules::{Drive, Refusal};
use stripe_repair::Place;

// A journal that is open refuses no contents.
fn step_err_of(e: JournalErr) -> StepErr
    requires { IsOfDisk e }
    ensures { result ≡ step_err_of e }
{
    match e {
        JournalErr::DiskFault => StepErr::DiskFault,
        JournalErr::Memory => StepErr::Memory,
        JournalErr::NotEmpty { .. } | JournalErr::NotAJournal { .. } => unreachable!(),
    }
}

// Why a file isn't made.
fn make_err_of(e: JournalFileErr) -> MakeErr
    ensures { result ≡ make_err_of e }
{
    match e {
        JournalFileErr::FileExists => MakeErr::Refused(Refusal::FileExists),
        JournalFileErr::BadMap(why) => MakeErr::Refused(Refusal::BadMap(why)),
        JournalFileErr::TooFewDrives { online } => MakeErr::Refused(Refusal::TooFewDrives {
            online,
        }),
        JournalFileErr::NoSpread { online } => MakeErr::Refused(Refusal::NoSpread { online }),
        JournalFileErr::Journal(JournalErr::DiskFault) => MakeErr::DiskFault,
        JournalFileErr::Journal(_) => MakeErr::Memory,
    }
}

/// A metadata server that is kept in a journal.
#[derive(Drop)]
pub struct StoredServer<D> {
    pub(crate) journal: JournaledServer<D>,
}

impl<D> StoredServer<D> {
    ghost use Rattle.stored_server.specs.StoredServer.{kept_on};

    /// The disk, with the journal on it.
    pub(crate) fn into_disk(self) -> D
        ensures { result ≡ kept_on self }
    {
        self.journal.into_disk()
    }
}

impl<D: Disk> MetadataServer for StoredServer<D> {
    ghost use Rattle.server_journal.specs.Journals.{IsKept, core_of, is_over_in, made_of};
    ghost use Rattle.stored_server.specs.StoredServer.{StandsFor, ghosts_of, is_among, kept_on, stays};

    ghost server = { λ s. core_of s.journal };

    ghost is_over = { λ s. is_over_in s.journal };

    ghost faults = { λ s. D.faults (kept_on s) };

    ghost keeps = { λ s. IsKept D.Disk s.journal };

    ghost moment = { λ s. D.moment (kept_on s) };

    ghost left_since = { λ s. D.left_since (kept_on s) };

    ghost stands_for = { λ s c. StandsFor s c };

    ghost knows = { λ s drive object. is_among (made_of s.journal) drive object };

    ghost kept_stays = { stays (ghosts_of D.tells D.seen D.may_leave D.moment D.left_since D.faults) D.only_now };

    fn drives(&self) -> &[Drive] {
        self.journal.drives()
    }

    fn has_file(&self, number: u32) -> bool {
        match self.journal.file(number) {
            Some(_) => true,
            None => false,
        }
    }

    fn counters_low(&self) -> bool {
        self.journal.counters_low()
    }

    fn has_made(&self, drive: u32, object: u64) -> bool {
        self.journal
            .made()
            .iter()
            .any(|made| made.drive == drive && made.object == object)
    }

    fn keep_made(&mut self, drive: u32, object: u64) -> Result<(), StepErr> {
        match self.journal.keep_made(MadeObject { drive, object }) {
            Ok(()) => Ok(()),
            Err(e) => Err(step_err_of(e)),
        }
    }

    fn resend(&self) -> Result<Sends, WantOfMemory> {
        match self.journal.resend() {
            Ok(sends) => Ok(sends),
            Err(_) => Err(WantOfMemory),
        }
    }

    fn add_drive(&mut self, info: DriveInfo) -> Result<(), StepErr> {
        match self.journal.add_drive(info) {
            Ok(()) => Ok(()),
            Err(e) => Err(step_err_of(e)),
        }
    }

    fn set_format(&mut self, format: u8) -> Result<(), StepErr> {
        match self.journal.set_format(format) {
            Ok(()) => Ok(()),
            Err(e) => Err(step_err_of(e)),
        }
    }

    fn create_file<P: Place>(
        &mut self,
        file: u32,
        raw: RawMap,
        tag: u32,
        placer: &P,
    ) -> Result<Step, MakeErr> {
        match self.journal.create_file(file, raw, tag, placer) {
            Ok(step) => Ok(step),
            Err(e) => Err(make_err_of(e)),
        }
    }

    fn on_message<P: Place>(
        &mut self,
        now: u64,
        from: Node,
        bytes: &[u8],
        placer: &P,
    ) -> Result<Step, StepErr> {
        match self.journal.on_message(now, from, bytes, placer) {
            Ok(step) => Ok(step),
            Err(e) => Err(step_err_of(e)),
        }
    }
}
