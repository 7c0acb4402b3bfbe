// What takes the commands that come to a drive.
ghost use Rattle.std.specs.Prelude.{◌≡◌, ◌⊎◌, ◌≤◌, Bool, false, List, [], ◌∷◌, ℕ, length, IfOk, OnOk, OnErr};
ghost use Rattle.osd_drive.specs.declared.limits.TheConstants.{MAX_LENGTH};
ghost use Rattle.osd_drive.specs.Effects.{reply_to};
ghost use Rattle.osd_drive.specs.State.{DriveState};
ghost use Rattle.drive_command.specs.Records.{handled_at};
ghost use Rattle.drive_command.specs.Kept.{Carries, HasHandleCause};

use osd_commands::Reply;
use osd_drive::DriveCore;
use osd_lists::Memory as WantOfMemory;
use std::alloc::Global;
use thiserror::Error;

/// Why a command wasn't answered.
#[derive(Clone, Copy, Debug, PartialEq, Eq, Error)]
pub enum HandleErr {
    /// The disk that keeps the drive failed.
    #[error("the disk failed")]
    DiskFault,
    /// There was no memory.
    #[error("out of memory")]
    Memory,
}

impl From<WantOfMemory> for HandleErr {
    ghost use Rattle.drive_command.specs.declared.device_server.HandleErr.TheVariants.{Memory};

    ghost from_gives = { λ _ e. e ≡ Memory };

    fn from(_: WantOfMemory) -> Self {
        HandleErr::Memory
    }
}

/// What takes the commands that come to a drive and answers them: a device server, in the words of SCSI's architecture
/// model (SAM-5). It may keep the drive on a disk.
pub trait DeviceServer {
    /// The drive as it is.
    ghost drive: { Self → DriveState };

    /// Whether a call of its disk failed. Then it takes no more commands.
    ghost is_over: { Self → Bool };

    /// How many calls of its disk failed. The count never falls, and stays at its greatest number.
    ghost faults: { Self → ℕ };

    /// Its disk tells its bytes, and has the drive as it is.
    ghost keeps: { Self → Type 0 };

    /// The moment of its disk, as a number that never falls.
    ghost moment: { Self → ℕ };

    /// What a crash at some moment from that one on might have left on its disk.
    ghost left_since: { Self → ℕ → List ℕ → Type 0 };

    /// Whether contents of a disk stand for a drive.
    ghost stands_for: { DriveState → List ℕ → Type 0 };

    /// The drive's number.
    fn number(&self) -> u32
        ensures { result ≡ (drive self.now).number };

    /// Takes any bytes as a command, performs it if nothing stands against it, and gives the reply. `now` is the
    /// drive's clock in seconds. A reply is given only when a crash can't take the change any more.
    ///
    /// # Errors
    ///
    /// [`HandleErr::DiskFault`] only if the count of faults rose, and [`HandleErr::Memory`]. The command was performed
    /// then or not.
    fn handle(&mut self, alloc: Global, now: u64, message: &[u8]) -> Result<Reply, HandleErr>
        requires goes_on { is_over self.old ≡ false }
        ensures reply { IfOk result (λ r. r ≡ reply_to (drive self.old) now message.now) }
        ensures short { IfOk result (λ r. length r.payload ≤ MAX_LENGTH) }
        ensures ok { OnOk result (Carries drive keeps moment left_since stands_for (handled_at now message.now ∷ []) []
            self.old self.new) }
        ensures err { OnErr result (Carries drive keeps moment left_since stands_for [] [] self.old self.new
            ⊎ Carries drive keeps moment left_since stands_for [] (handled_at now message.now ∷ []) self.old self.new) }
        ensures goes_on { OnOk result (is_over self.new ≡ false) }
        ensures keeps { OnOk result (keeps self.old → keeps self.new) }
        ensures cause { HasHandleCause (faults self.old) (faults self.new) result };

    /// If nothing is asked of it, a crash leaves the drive as it is.
    ghost kept_stays: { (server : Self) (c : List ℕ) → keeps server → left_since server (moment server) c
        → stands_for (drive server) c };
}

/// A drive in memory alone: nothing keeps it.
impl DeviceServer for DriveCore {
    ghost drive = { λ core. core };

    ghost is_over = { λ _. false };

    ghost faults = { λ _. 0 };

    ghost keeps = { λ _. ⊥ };

    ghost moment = { λ _. 0 };

    ghost left_since = { λ _ _ _. ⊥ };

    ghost stands_for = { λ _ _. ⊥ };

    ghost kept_stays = { λ server c kept left. kept };

    fn number(&self) -> u32 {
        DriveCore::number(self)
    }

    fn handle(&mut self, alloc: Global, now: u64, message: &[u8]) -> Result<Reply, HandleErr> {
        match DriveCore::handle(self, alloc, now, message) {
            Ok(reply) => Ok(reply),
            Err(WantOfMemory) => Err(HandleErr::Memory),
        }
    }
}
