// An audit as it goes from message to message.
ghost use Rattle.std.specs.Prelude.{◌≡◌, ◌<◌, ◌≤◌, ◌^◌, length, filter, not, IfOk, OnOk};
ghost use Rattle.std.specs.List.{All};
ghost use Rattle.data_map.specs.declared.check.TheConstants.{MAX_COMPONENTS};
ghost use Rattle.data_map.specs.declared.ranges.TheConstants.{MAX_FILE_SIZE};
ghost use Rattle.server_rules.specs.Audit.{audits, present_lengths};
ghost use Rattle.server_rules.specs.Going.{Going};
ghost use Rattle.server_rules.specs.Numbers.{among};
ghost use Rattle.server_rules.specs.Jobs.{audited_on};
ghost use Rattle.stripe_repair.specs.Auditing.{audit_of, bad_by, bad_whole, inspects, rests_auditing, state_of};
ghost use Rattle.stripe_repair.specs.Pieces.{IsPiece};
ghost use Rattle.stripe_repair.specs.Repairing.{IsAt};

use crate::cursor::PieceCursor;
use crate::lengths::{lengths_of, present_lengths};
use crate::marks::Marks;
use crate::piece_reads::{mark_short, reads};
use crate::stripe_state::{StripeState, judge};
use data_map::DataMap;
use osd_lists::{Memory, Sequence};
use server_rules::{AwaitedCommands, Component, Heard, Kept, Measured, Piece};
use std::alloc::Global;
use std::marker::Model;

/// An audit: the pieces that are left, the first of which is in work, and what was found so far. Contracts see
/// the list of the pieces; a cursor stands for it.
///
/// An audit goes on with [`Audit::next`] where it begins or the piece in work begins again, and with [`Audit::feed`]
/// when the last READ that it sent is answered. It is over where it sends none.
#[derive(Drop)]
pub struct Audit {
    todo: PieceCursor,
    lengths: Sequence<Measured>,
    short: Marks,
    bad: Marks,
}

impl Model for Audit {
    ghost use Rattle.std.specs.List.{All};
    ghost use Rattle.stripe_repair.specs.Pieces.{IsPiece};
    ghost use Rattle.stripe_repair.specs.Auditing.{AuditState, tally_of};
    ghost use Rattle.stripe_repair.specs.Lengths.{AreLengths};

    ghost Value = { AuditState };

    ghost view = { λ a. record { todo = a.todo; tally = tally_of a.lengths a.short a.bad } };

    ghost invariant = { λ a. All IsPiece a.todo × AreLengths a.lengths };
}

// Goes to the first piece of which there is something to read, and gives its READs. No piece is left where there
// are none.
fn inspect_on(
    alloc: Global,
    kept: &Kept,
    todo: &mut PieceCursor,
    short: &mut Marks,
    nonce: u64,
) -> Result<AwaitedCommands, Memory>
    requires few { length kept.now.components ≤ MAX_COMPONENTS }
    requires low { nonce < 2 ^ 63 }
    requires pieces { All IsPiece todo.old }
    ensures pieces { All IsPiece todo.new }
    ensures exact { IfOk result (λ cs. record { todo = todo.new; short = short.new; reads = cs }
        ≡ inspects kept.now nonce todo.old short.old) }
{
    while let Some(piece) = todo.first() {
        let reads = reads(alloc, kept, piece, nonce)?;
        mark_short(alloc, kept, piece, short)?;
        if !reads.is_empty() {
            return Ok(reads);
        }
        todo.advance();
    }
    Ok(AwaitedCommands::new(alloc))
}

// Marks the stripe of a piece where it is bad.
fn mark_bad(
    alloc: Global,
    kept: &Kept,
    piece: Piece,
    heard: &[Heard],
    bad: &mut Marks,
) -> Result<(), Memory>
    requires few { length kept.now.components ≤ MAX_COMPONENTS }
    requires piece { IsPiece piece }
    ensures { OnOk result (bad.new ≡ bad_by (state_of kept.now piece heard.now) piece.stripe bad.old) }
{
    match judge(alloc, kept, piece, heard)? {
        StripeState::Bad => bad.mark(piece.stripe),
        StripeState::Whole | StripeState::Short => Ok(()),
    }
}

// How many of these numbers aren't marked.
fn count_others(numbers: &[u64], marks: &Marks) -> u64
    ensures { result ≡ length (filter (λ n. not (among n marks.now)) numbers.now) }
{
    let mut count = 0;
    for number in numbers {
        if !marks.contains(*number) {
            count += 1;
        }
    }
    count
}

impl Audit {
    /// An audit of the stripes below `high`, where `heard` are the replies to the questions after the lengths
    /// of the objects.
    pub fn new(alloc: Global, map: &DataMap, high: u64, heard: &[Heard]) -> Result<Audit, Memory>
        requires high { high ≤ MAX_FILE_SIZE }
        requires few { length heard.now ≤ MAX_COMPONENTS }
        ensures { IfOk result (λ audit. audit ≡ audit_of map.now.unit high heard.now) }
    {
        map.known();
        Ok(Audit {
            todo: PieceCursor::below(alloc, map.raw().unit, high),
            lengths: lengths_of(alloc, heard)?,
            short: Marks::new(alloc),
            bad: Marks::new(alloc),
        })
    }

    /// The READs of the next piece. Where there are none the audit is over.
    pub fn next(
        &mut self,
        alloc: Global,
        kept: &Kept,
        nonce: u64,
    ) -> Result<AwaitedCommands, Memory>
        requires few { length kept.now.components ≤ MAX_COMPONENTS }
        requires low { nonce < 2 ^ 63 }
        ensures { IfOk result (λ cs. (g : Going) → IsAt kept.now nonce g
            → audits g self.old.todo self.old.tally ≡ rests_auditing cs g self.new) }
    {
        inspect_on(alloc, kept, &mut self.todo, &mut self.short, nonce)
    }

    /// Judges the first piece by what was read of it, and goes on with the next.
    pub fn feed(
        &mut self,
        alloc: Global,
        kept: &Kept,
        heard: &[Heard],
        nonce: u64,
    ) -> Result<AwaitedCommands, Memory>
        requires few { length kept.now.components ≤ MAX_COMPONENTS }
        requires low { nonce < 2 ^ 63 }
        ensures { IfOk result (λ cs. (g : Going) → IsAt kept.now nonce g
            → audited_on g self.old.todo self.old.tally heard.now ≡ rests_auditing cs g self.new) }
    {
        if let Some(piece) = self.todo.first() {
            mark_bad(alloc, kept, piece, heard, &mut self.bad)?;
            self.todo.advance();
        }
        self.next(alloc, kept, nonce)
    }

    /// The sum of the lengths that the objects of the components told that are still present, in bytes.
    pub fn present_lengths(&self, components: &[Component]) -> u64
        requires { length components.now ≤ MAX_COMPONENTS }
        ensures { result ≡ present_lengths self.now.tally.lengths components.now 0 }
    {
        present_lengths(self.lengths.as_slice(), components)
    }

    /// How many stripes are short.
    pub fn short_count(&self) -> u64
        ensures { result ≡ length self.now.tally.short }
    {
        self.short.len() as u64
    }

    /// How many stripes are bad and aren't short.
    pub fn bad_count(&self) -> u64
        ensures { result ≡ length (bad_whole self.now.tally) }
    {
        count_others(self.bad.as_slice(), &self.short)
    }
}
