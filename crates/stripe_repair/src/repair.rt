// A repair as it goes from message to message.
ghost use Rattle.std.specs.Prelude.{◌≡◌, ◌<◌, ◌≤◌, ◌^◌, [], length, IfOk};
ghost use Rattle.data_map.specs.declared.check.TheConstants.{MAX_COMPONENTS};
ghost use Rattle.server_rules.specs.declared.jobs.JobKind.{JobKind};
ghost use Rattle.server_rules.specs.Going.{Going};
ghost use Rattle.server_rules.specs.Jobs.{fetched, goes_on};
ghost use Rattle.std.specs.List.{All};
ghost use Rattle.stripe_repair.specs.declared.repair.Stage.TheVariants.{Fetching};
ghost use Rattle.server_rules.specs.Maps.{pieces};
ghost use Rattle.server_rules.specs.Repair.{repairs};
ghost use Rattle.stripe_repair.specs.Pieces.{IsPiece};
ghost use Rattle.stripe_repair.specs.Repairing.{goes_to, rests_repairing, work_of, broken, AreInside, IsAt};

use crate::cursor::PieceCursor;
use crate::marks::Marks;
use crate::piece_reads::{mark_short, repair_reads};
use crate::piece_writes::stores;
use data_map::DataMap;
use osd_lists::{Memory, Sequence};
use server_rules::{AwaitedCommands, Heard, Kept, Stripes};
use std::alloc::Global;
use std::marker::Model;

/// What is awaited of the first piece.
#[derive(Clone, Copy, PartialEq, Eq)]
pub enum Stage {
    /// The rows of the first piece are read.
    Fetching,
    /// The rows that differ are written. Where a component became missing since, the piece is `broken` and
    /// begins again afterwards.
    Storing { broken: bool },
}

/// A repair: the pieces that are left, the first of which is in work, and the stripes left short. Contracts
/// see the list of the pieces; a cursor stands for it.
///
/// A repair goes on with [`Repair::next`] where it begins or the piece in work begins again, and with
/// [`Repair::feed`] when the last of the commands that it sent is answered. It is over where it sends none.
#[derive(Drop)]
pub struct Repair {
    todo: PieceCursor,
    short: Marks,
    stage: Stage,
}

impl Model for Repair {
    ghost use Rattle.std.specs.List.{All};
    ghost use Rattle.stripe_repair.specs.Pieces.{IsPiece};
    ghost use Rattle.stripe_repair.specs.Repairing.{RepairState};

    ghost Value = { RepairState };

    ghost view = { λ r. record { todo = r.todo; short = r.short; stage = r.stage } };

    ghost invariant = { λ r. All IsPiece r.todo };
}

// Goes to the first piece of which something is read, and gives its READs. No piece is left where there are
// none.
fn go_on(
    alloc: Global,
    kept: &Kept,
    todo: &mut PieceCursor,
    short: &mut Marks,
    nonce: u64,
) -> Result<AwaitedCommands, Memory>
    requires few { length kept.now.components ≤ MAX_COMPONENTS }
    requires low { nonce < 2 ^ 63 }
    requires pieces { All IsPiece todo.old }
    ensures pieces { All IsPiece todo.new }
    ensures exact { IfOk result (λ cs. record { todo = todo.new; short = short.new; reads = cs }
        ≡ goes_to kept.now nonce todo.old short.old) }
{
    while let Some(piece) = todo.first() {
        let reads = repair_reads(alloc, kept, piece, nonce)?;
        mark_short(alloc, kept, piece, short)?;
        if !reads.is_empty() {
            return Ok(reads);
        }
        todo.advance();
    }
    Ok(AwaitedCommands::new(alloc))
}

impl Repair {
    /// A repair of these ranges of stripes. Each range ends inside the longest file.
    pub fn new(alloc: Global, map: &DataMap, ranges: Sequence<Stripes>) -> Self
        requires { AreInside ranges }
        ensures { result ≡ record { todo = pieces map.now.unit ranges; short = []; stage = Fetching } }
    {
        map.known();
        Repair {
            todo: PieceCursor::new(map.raw().unit, ranges),
            short: Marks::new(alloc),
            stage: Stage::Fetching,
        }
    }

    /// The READs of the first piece of which something is read; those before it are left as they are. Where
    /// there are none the repair is over.
    pub fn next(
        &mut self,
        alloc: Global,
        kept: &Kept,
        nonce: u64,
    ) -> Result<AwaitedCommands, Memory>
        requires few { length kept.now.components ≤ MAX_COMPONENTS }
        requires low { nonce < 2 ^ 63 }
        ensures { IfOk result (λ cs. (kind : JobKind) (g : Going) → IsAt kept.now nonce g
            → repairs kind g self.old.todo self.old.short ≡ rests_repairing cs g kind self.new) }
    {
        self.stage = Stage::Fetching;
        go_on(alloc, kept, &mut self.todo, &mut self.short, nonce)
    }

    /// Goes on when what was awaited is answered; `heard` are the replies. After READs it sends the WRITEs of
    /// the piece, if it needs any. After WRITEs, or where there were none to send, it goes on with the next
    /// piece, or with the same where a component became missing meanwhile.
    pub fn feed(
        &mut self,
        alloc: Global,
        kept: &Kept,
        heard: &[Heard],
        nonce: u64,
    ) -> Result<AwaitedCommands, Memory>
        requires few { length kept.now.components ≤ MAX_COMPONENTS }
        requires low { nonce < 2 ^ 63 }
        ensures { IfOk result (λ cs. (kind : JobKind) (g : Going) → IsAt kept.now nonce g
            → goes_on kind (work_of self.old) heard.now g ≡ rests_repairing cs g kind self.new) }
    {
        match self.stage {
            Stage::Fetching => self.fetched(alloc, kept, heard, nonce),
            Stage::Storing { broken } => {
                if !broken {
                    self.todo.advance();
                }
                self.next(alloc, kept, nonce)
            }
        }
    }

    // The rows of the first piece are read.
    fn fetched(
        &mut self,
        alloc: Global,
        kept: &Kept,
        heard: &[Heard],
        nonce: u64,
    ) -> Result<AwaitedCommands, Memory>
        requires few { length kept.now.components ≤ MAX_COMPONENTS }
        requires low { nonce < 2 ^ 63 }
        ensures { IfOk result (λ cs. (kind : JobKind) (g : Going) → IsAt kept.now nonce g
            → fetched kind g self.old.todo self.old.short heard.now ≡ rests_repairing cs g kind self.new) }
    {
        if let Some(piece) = self.todo.first() {
            let writes = stores(alloc, kept, piece, heard, nonce)?;
            if !writes.is_empty() {
                self.stage = Stage::Storing { broken: false };
                return Ok(writes);
            }
            self.todo.advance();
        }
        self.next(alloc, kept, nonce)
    }

    /// A component of the file became missing. Where WRITEs are awaited, the piece begins again when the last
    /// of them is answered. Where READs are, it begins again at once, with [`Repair::next`].
    pub fn drop_component(&mut self)
        ensures { self.new ≡ record self.old { stage = broken self.old.stage } }
    {
        if let Stage::Storing { .. } = self.stage {
            self.stage = Stage::Storing { broken: true };
        }
    }

    /// The stripes left short, each once.
    pub fn short(&self) -> &[u64]
        ensures { result.now ≡ self.now.short }
    {
        self.short.as_slice()
    }

    /// How many stripes were left short.
    pub fn short_count(&self) -> u64
        ensures { result ≡ length self.now.short }
    {
        self.short.len() as u64
    }

    /// What is awaited of the first piece.
    pub fn stage(&self) -> Stage
        ensures { result ≡ self.now.stage }
    {
        self.stage
    }
}
