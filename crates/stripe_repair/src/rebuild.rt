// A rebuild of one component as it goes from message to message.
ghost use Rattle.std.specs.Prelude.{◌≡◌, ◌<◌, ◌≤◌, ◌^◌, length, IfOk, IfSome};
ghost use Rattle.data_map.specs.Striping.{groups};
ghost use Rattle.data_map.specs.declared.check.TheConstants.{MAX_COMPONENTS};
ghost use Rattle.data_map.specs.declared.ranges.TheConstants.{MAX_FILE_SIZE};
ghost use Rattle.server_rules.specs.Going.{Going};
ghost use Rattle.server_rules.specs.Jobs.{filled_in, gathered};
ghost use Rattle.server_rules.specs.Maps.{group_with};
ghost use Rattle.server_rules.specs.Rebuild.{fills, filling, made};
ghost use Rattle.stripe_repair.specs.Restored.{CanBeMade};
ghost use Rattle.stripe_repair.specs.Filling.{begins, comes_to, sourced};
ghost use Rattle.stripe_repair.specs.Filling.{ArePiecesOf, IsFetch, IsPieceOf, IsReadable, ReadsSome, StagesAs};
ghost use Rattle.stripe_repair.specs.declared.rebuild.FillStage.TheVariants.{Gathering};
ghost use Rattle.stripe_repair.specs.Repairing.{IsAt};

use crate::group_cursor::GroupCursor;
use crate::piece_reads::sources;
use crate::replicas::{group_with, lacking};
use crate::restored::{fill, made};
use data_map::DataMap;
use osd_lists::{Memory, Numbers};
use server_rules::{Awaited, AwaitedCommands, Heard, Kept, Piece, Target};
use std::alloc::Global;
use std::marker::Model;

/// What is awaited of the first piece.
#[derive(Clone, Copy, PartialEq, Eq)]
pub enum FillStage {
    /// The sources of the first piece are read.
    Gathering,
    /// The first piece is written to the component.
    Filling,
}

/// What comes of a step of a rebuild.
#[derive(Drop)]
pub enum FillStep {
    /// The READs of the sources of the next piece.
    Fetch(AwaitedCommands),
    /// The WRITE of the piece whose sources were read.
    Store(Awaited),
    /// Every piece is made: the component stands on its new drive.
    Over,
    /// The next piece can't be made: these positions of its group have no present replica, its own among
    /// them, and they are more than the code brings back.
    Lost { positions: Numbers },
}

/// The rebuild of one component: where it is made anew, and the pieces that are left, the first of which is in
/// work. Contracts see the list of the pieces; a cursor stands for it.
///
/// A rebuild goes on with [`Rebuild::next`] where it begins or the piece in work begins again, with [`Rebuild::feed`]
/// when the last READ that it sent is answered, and with [`Rebuild::stored`] when its WRITE is.
#[derive(Drop)]
pub struct Rebuild {
    target: Target,
    todo: GroupCursor,
    stage: FillStage,
}

impl Model for Rebuild {
    ghost use Rattle.std.specs.Prelude.{◌<◌};
    ghost use Rattle.data_map.specs.declared.check.TheConstants.{MAX_COMPONENTS};
    ghost use Rattle.stripe_repair.specs.Filling.{RebuildState};

    ghost Value = { RebuildState };

    ghost view = { λ r. record { target = r.target; todo = r.todo; stage = r.stage } };

    ghost invariant = { λ r. r.target.component < MAX_COMPONENTS };
}

// The READs of the sources of a piece, or that it is lost, or that there is none.
fn sourced(
    alloc: Global,
    kept: &Kept,
    target: Target,
    piece: Option<Piece>,
    nonce: u64,
) -> Result<FillStep, Memory>
    requires few { length kept.now.components ≤ MAX_COMPONENTS }
    requires target { target.component < MAX_COMPONENTS }
    requires low { nonce < 2 ^ 63 }
    requires piece { IfSome piece (IsPieceOf kept.now.map target) }
    ensures step { IfOk result (λ step. step ≡ sourced kept.now target piece nonce) }
    ensures some { IfOk result ReadsSome }
    ensures stage { IfOk result (λ step. StagesAs step Gathering) }
    ensures readable { IfOk result (λ step. IsFetch step → IfSome piece (CanBeMade kept.now target)) }
{
    let Some(piece) = piece else {
        return Ok(FillStep::Over);
    };
    kept.map.known();
    let reads = sources(alloc, kept, target, piece, nonce)?;
    if !reads.is_empty() {
        return Ok(FillStep::Fetch(reads));
    }
    let group = group_with(&kept.map, target.component);
    Ok(FillStep::Lost {
        positions: lacking(alloc, &kept.map, kept.components.as_slice(), group)?,
    })
}

impl Rebuild {
    /// The rebuild of a component of a file with this map, whose stripes are below `high`.
    pub fn new(map: DataMap, target: Target, high: u64) -> Self
        requires component { target.component < map.comps }
        requires high { high ≤ MAX_FILE_SIZE }
        ensures value { result ≡ begins map target high }
        ensures pieces { ArePiecesOf map result }
    {
        map.known();
        let group = group_with(&map, target.component);
        Rebuild {
            target,
            todo: GroupCursor::new(map, group, high),
            stage: FillStage::Gathering,
        }
    }

    /// The READs of the first piece's sources, or that it is lost, or that none is left.
    pub fn next(&mut self, alloc: Global, kept: &Kept, nonce: u64) -> Result<FillStep, Memory>
        requires few { length kept.now.components ≤ MAX_COMPONENTS }
        requires low { nonce < 2 ^ 63 }
        requires pieces { ArePiecesOf kept.now.map self.old }
        ensures rules { IfOk result (λ step. (g : Going) → IsAt kept.now nonce g
            → fills g self.old.target self.old.todo ≡ comes_to step g self.new) }
        ensures readable { IfOk result (λ step. IsFetch step → IsReadable kept.now self.new) }
        ensures some { IfOk result ReadsSome }
        ensures stage { IfOk result (λ step. StagesAs step self.new.stage) }
        ensures pieces { ArePiecesOf kept.now.map self.new }
        ensures target { self.new.target ≡ self.old.target }
    {
        self.stage = FillStage::Gathering;
        sourced(alloc, kept, self.target, self.todo.first(), nonce)
    }

    /// Makes the first piece of what its sources answered. A WRITE follows where some of its bytes isn't 0, else
    /// the next piece.
    pub fn feed(
        &mut self,
        alloc: Global,
        kept: &Kept,
        heard: &[Heard],
        nonce: u64,
    ) -> Result<FillStep, Memory>
        requires few { length kept.now.components ≤ MAX_COMPONENTS }
        requires low { nonce < 2 ^ 63 }
        requires pieces { ArePiecesOf kept.now.map self.old }
        requires readable { IsReadable kept.now self.old }
        ensures rules { IfOk result (λ step. (g : Going) → IsAt kept.now nonce g
            → gathered g self.old.target self.old.todo heard.now ≡ comes_to step g self.new) }
        ensures readable { IfOk result (λ step. IsFetch step → IsReadable kept.now self.new) }
        ensures some { IfOk result ReadsSome }
        ensures stage { IfOk result (λ step. StagesAs step self.new.stage) }
        ensures pieces { ArePiecesOf kept.now.map self.new }
        ensures target { self.new.target ≡ self.old.target }
    {
        if let Some(piece) = self.todo.first() {
            let bytes = made(alloc, kept, self.target, piece, heard)?;
            let write = fill(alloc, kept, self.target, piece, bytes.as_slice(), nonce)?;
            if let Some(write) = write {
                self.stage = FillStage::Filling;
                return Ok(FillStep::Store(write));
            }
            self.todo.advance();
        }
        self.next(alloc, kept, nonce)
    }

    /// Goes on with the next piece when the WRITE of the first is answered.
    pub fn stored(&mut self, alloc: Global, kept: &Kept, nonce: u64) -> Result<FillStep, Memory>
        requires few { length kept.now.components ≤ MAX_COMPONENTS }
        requires low { nonce < 2 ^ 63 }
        requires pieces { ArePiecesOf kept.now.map self.old }
        ensures rules { IfOk result (λ step. (g : Going) → IsAt kept.now nonce g
            → filled_in g self.old.target self.old.todo ≡ comes_to step g self.new) }
        ensures readable { IfOk result (λ step. IsFetch step → IsReadable kept.now self.new) }
        ensures some { IfOk result ReadsSome }
        ensures stage { IfOk result (λ step. StagesAs step self.new.stage) }
        ensures pieces { ArePiecesOf kept.now.map self.new }
        ensures target { self.new.target ≡ self.old.target }
    {
        self.todo.advance();
        self.next(alloc, kept, nonce)
    }

    /// The place at which the component is made anew.
    pub fn target(&self) -> Target
        ensures { result ≡ self.now.target }
    {
        self.target
    }

    /// What is awaited of the first piece.
    pub fn stage(&self) -> FillStage
        ensures { result ≡ self.now.stage }
    {
        self.stage
    }
}
