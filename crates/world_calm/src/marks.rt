ghost use Rattle.std.specs.Prelude.{◌≡◌, [], map, position, OnOk, IfOk};
ghost use Rattle.server_rules.specs.Numbers.{among as among_numbers};
ghost use Rattle.std.specs.List.{fold};
ghost use Rattle.world_history.specs.Stripes.{is_worked};
ghost use Rattle.world_calm.specs.Marking.{and_stripe, any_harmed, any_newly_harmed, any_short, first_mark, has_stripes, is_left, is_left_by, is_of, is_repaired, last_is, leaves, left, left_as, marked, all_mended, mended_by, stripes_left, unmarked};

use crate::files::{SeenFiles, among};
use crate::view::{KeptFiles, is_live};
use osd_lists::{Memory, Sequence};
use server_rules::{Mended, Stripes};
use std::alloc::Global;
use std::marker::Model;

/// Numbers of stripes.
pub type StripeNumbers = Sequence<u64>;

/// An unfinished write, and the stripes of a file in which a WRITE of it was performed since their last repair.
#[derive(Drop)]
pub struct Marked {
    /// The number of the write.
    pub write: usize,
    pub client: u32,
    pub grant: u32,
    pub file: u32,
    /// The grant has ended, or the client was stopped.
    pub left: bool,
    pub stripes: StripeNumbers,
}

/// A WRITE that was performed in a stripe of a file, for a write of that number.
#[derive(Clone, Copy)]
pub struct NewMark {
    pub write: usize,
    pub client: u32,
    pub grant: u32,
    pub file: u32,
    pub stripe: u64,
}

/// The stripes in which WRITEs of unfinished writes were performed. Most of the time that are those of calls which
/// are pending: they are few.
#[derive(Drop)]
pub struct Marks {
    alloc: Global,
    marked: Vec<Marked>,
}

impl Model for Marks {
    ghost use Rattle.std.specs.Prelude.{List};
    ghost use Rattle.world_calm.specs.declared.marks.Marked.{Marked as OneMarked};

    ghost Value = { List OneMarked };

    ghost view = { λ m. m.marked.items };
}

// ---- one write

// Whether these are the stripes of that write in that file.
fn is_of(marked: &Marked, write: usize, file: u32) -> bool
    ensures { result ≡ is_of write file marked.now }
{
    marked.write == write && marked.file == file
}

// Whether the stripe was marked last.
fn last_is(stripes: &[u64], stripe: u64) -> bool
    ensures { result ≡ last_is stripe stripes.now }
{
    match stripes.last() {
        Some(last) => *last == stripe,
        None => false,
    }
}

// A stripe more, unless it was marked last.
fn add_stripe(marked: &mut Marked, stripe: u64) -> Result<(), Memory>
    ensures { OnOk result (marked.new ≡ and_stripe stripe marked.old) }
{
    if last_is(marked.stripes.as_slice(), stripe) {
        return Ok(());
    }
    marked.stripes.push(stripe)
}

// The first mark of a write in a file.
fn first_mark(alloc: Global, mark: NewMark) -> Result<Marked, Memory>
    ensures { IfOk result (λ m. m ≡ first_mark mark) }
{
    let mut stripes = StripeNumbers::new(alloc);
    stripes.push(mark.stripe)?;
    Ok(Marked {
        write: mark.write,
        client: mark.client,
        grant: mark.grant,
        file: mark.file,
        left: false,
        stripes,
    })
}

// Whether the stripe is one of these.
fn is_worked(stripe: u64, worked: &[Stripes]) -> bool
    ensures { result ≡ is_worked stripe worked.now }
{
    worked
        .iter()
        .any(|some| some.first <= stripe && stripe < some.end)
}

// Whether the stripe is one of those that a repair left short.
#[tactic(auto, unfolding(server_rules::specs::Numbers::among))]
fn is_among(stripe: u64, short: &[u64]) -> bool
    ensures { result ≡ among_numbers stripe short.now }
{
    for one in short {
        if stripe == *one {
            return true;
        }
    }
    false
}

// Whether a repair has repaired the stripe: it counted it, and didn't leave it short.
fn is_repaired(mended: &Mended, stripe: u64) -> bool
    ensures { result ≡ is_repaired mended.now stripe }
{
    is_worked(stripe, mended.worked.as_slice()) && !is_among(stripe, mended.short.as_slice())
}

// The stripes that it didn't repair.
fn stripes_left(alloc: Global, mended: &Mended, stripes: &[u64]) -> Result<StripeNumbers, Memory>
    ensures { IfOk result (λ ss. ss ≡ stripes_left mended.now stripes.now) }
{
    let mut left = StripeNumbers::new(alloc);
    for stripe in stripes {
        if !is_repaired(mended, *stripe) {
            left.push(*stripe)?;
        }
    }
    Ok(left)
}

// The marks that it leaves of a write.
fn mend_one(alloc: Global, mended: &Mended, marked: &mut Marked) -> Result<(), Memory>
    ensures { OnOk result (marked.new ≡ mended_by mended.now marked.old) }
{
    if marked.file == mended.file {
        marked.stripes = stripes_left(alloc, mended, marked.stripes.as_slice())?;
    }
    Ok(())
}

// Whether the grant of a client's write has ended, or the client was stopped.
fn is_left_by<S: KeptFiles>(stopped: &[u32], server: &S, client: u32, grant: u32, file: u32) -> bool
    ensures { result ≡ is_left_by stopped.now (S.kept_of server.now) client grant file }
{
    among(client, stopped) || !is_live(server, file, grant)
}

// The same of a write that has marks.
fn is_left<S: KeptFiles>(stopped: &[u32], server: &S, marked: &Marked) -> bool
    ensures { result ≡ is_left stopped.now (S.kept_of server.now) marked.now }
{
    is_left_by(stopped, server, marked.client, marked.grant, marked.file)
}

/// Whether a mark is of a write that is left.
pub fn is_of_left<S: KeptFiles>(stopped: &[u32], server: &S, mark: NewMark) -> bool
    ensures { result ≡ is_left_by stopped.now (S.kept_of server.now) mark.client mark.grant mark.file }
{
    is_left_by(stopped, server, mark.client, mark.grant, mark.file)
}

// Whether that is so now and wasn't before.
fn leaves<S: KeptFiles>(stopped: &[u32], server: &S, marked: &Marked) -> bool
    ensures { result ≡ leaves stopped.now (S.kept_of server.now) marked.now }
{
    !marked.left && is_left(stopped, server, marked)
}

// Whether it is left is kept.
fn leave_one<S: KeptFiles>(stopped: &[u32], server: &S, marked: &mut Marked)
    ensures { marked.new ≡ left_as stopped.now (S.kept_of server.now) marked.old }
{
    marked.left = is_left(stopped, server, marked);
}

// Whether one of these stripes of a file with parity is short.
fn any_short(files: &SeenFiles, file: u32, stripes: &[u64]) -> bool
    ensures { result ≡ any_short files.now file stripes.now }
{
    for stripe in stripes {
        if files.is_short(file, *stripe) {
            return true;
        }
    }
    false
}

// Whether it has stripes.
fn has_stripes(marked: &Marked) -> bool
    ensures { result ≡ has_stripes marked.now }
{
    marked.stripes.len() > 0
}

// ---- all of them

// The place of the stripes of a write in a file.
fn place_of(all: &[Marked], write: usize, file: u32) -> Option<usize>
    ensures { result ≡ position (is_of write file) all.now }
{
    all.iter().position(|marked| is_of(marked, write, file))
}

// A repair is over.
fn mend_all(alloc: Global, mended: &Mended, all: &mut Vec<Marked>) -> Result<(), Memory>
    ensures { OnOk result (all.new.items ≡ map (mended_by mended.now) all.old.items) }
{
    let mut place = 0;
    while place < all.len() {
        mend_one(alloc, mended, &mut all[place])?;
        place += 1;
    }
    Ok(())
}

// Those writes are left whose grant has ended or whose client was stopped.
fn leave_all<S: KeptFiles>(stopped: &[u32], server: &S, all: &mut [Marked])
    ensures { all.new ≡ left stopped.now (S.kept_of server.now) all.old }
{
    let mut place = 0;
    while place < all.len() {
        leave_one(stopped, server, &mut all[place]);
        place += 1;
    }
}

impl Marks {
    /// No mark.
    pub fn new(alloc: Global) -> Self
        ensures { result ≡ [] }
    {
        Marks {
            alloc,
            marked: Vec::new(alloc),
        }
    }

    /// A WRITE of a write was performed in a stripe.
    pub fn mark(&mut self, mark: NewMark) -> Result<(), Memory>
        ensures { OnOk result (self.new ≡ marked self.old mark) }
    {
        match place_of(self.marked.as_slice(), mark.write, mark.file) {
            Some(place) => add_stripe(&mut self.marked[place], mark.stripe),
            None => {
                let first = first_mark(self.alloc, mark)?;
                self.marked.push(first)?;
                Ok(())
            }
        }
    }

    /// A write is finished.
    pub fn finish(&mut self, write: usize)
        ensures { self.new ≡ unmarked self.old write }
    {
        self.marked.retain(|marked| marked.write != write);
    }

    /// A repair is over.
    pub fn mend(&mut self, mended: &Mended) -> Result<(), Memory>
        ensures { OnOk result (self.new ≡ all_mended self.old mended.now) }
    {
        mend_all(self.alloc, mended, &mut self.marked)?;
        self.marked.retain(|marked| has_stripes(marked));
        Ok(())
    }

    /// Those writes are left whose grant has ended or whose client was stopped.
    pub fn leave<S: KeptFiles>(&mut self, stopped: &[u32], server: &S)
        ensures { self.new ≡ left stopped.now (S.kept_of server.now) self.old }
    {
        leave_all(stopped, server, self.marked.as_mut_slice());
    }

    /// Whether a write is left now that wasn't before, and a stripe of it is short.
    pub fn any_newly_harmed<S: KeptFiles>(
        &self,
        files: &SeenFiles,
        stopped: &[u32],
        server: &S,
    ) -> bool
        ensures { result ≡ any_newly_harmed stopped.now (S.kept_of server.now) files.now self.now }
    {
        for marked in self.marked.as_slice() {
            if leaves(stopped, server, marked)
                && any_short(files, marked.file, marked.stripes.as_slice())
            {
                return true;
            }
        }
        false
    }

    /// Whether a stripe of a write that was left is short.
    pub fn any_harmed(&self, files: &SeenFiles) -> bool
        ensures { result ≡ any_harmed files.now self.now }
    {
        for marked in self.marked.as_slice() {
            if marked.left && any_short(files, marked.file, marked.stripes.as_slice()) {
                return true;
            }
        }
        false
    }
}

/// Writes were acknowledged, or taken as a loss.
pub fn finish_all(marks: &mut Marks, numbers: &[usize])
    ensures { marks.new ≡ fold unmarked marks.old numbers.now }
{
    for number in numbers {
        marks.finish(*number);
    }
}
