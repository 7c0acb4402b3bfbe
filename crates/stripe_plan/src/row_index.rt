// Pieces of positions by the row that they lie in.
ghost use Rattle.std.specs.Prelude.{◌≡◌, ℕ, ◌<◌, ◌≤◌, ◌++◌, ◌∷◌, [], List, length, slice_set, slice_index_or};
ghost use Rattle.std.specs.Prelude.{◌+◌, ◌*◌, ◌/◌, true, IfOk, OnOk};
ghost use Rattle.stripe_plan.specs.declared.plan.Stretch.{Stretch};
ghost use Rattle.stripe_plan.specs.Indexed.{list_of, AreEmpty, IsInRow, IsSound, Indexes, Sifts};

use osd_lists::{Memory, Sequence};
use std::alloc::Global;

// Numbers of pieces, rising.
pub(crate) type Marks = Sequence<usize>;

// The most lists that an index has.
const MOST_LISTS: usize = 65_536;

// So many pieces are gone through one by one, since lists of them would cost more than they spare.
const FEW_PIECES: usize = 8;

// The numbers of pieces in the order in which they were added, in lists: those of one row of a position stand in one
// list, maybe with those of some others. So what is had of a row is found without going through all pieces. An index that
// is made for few pieces has no lists.
#[derive(Drop)]
pub(crate) struct RowIndex {
    // the length of a row
    unit: u64,
    // whether there are lists, and each piece ends in the row in which it begins
    is_regular: bool,
    every: Marks,
    lists: Sequence<Marks>,
}

// The list in which a row of a position stands. The factor is a prime above the number of positions.
#[tactic(auto, unfolding(crate::specs::Indexed::list_of))]
fn list_of(lists: usize, position: u32, row: u64) -> usize
    requires { (0 < lists) × (lists ≤ MOST_LISTS) }
    ensures value { result ≡ list_of lists position row }
    ensures bound { result < lists }
{
    let lists = lists as u64;
    ((row % lists * 67 + u64::from(position)) % lists) as usize
}

// How many lists an index for about so many pieces has.
fn lists_for(count: usize) -> usize
    ensures { result ≤ MOST_LISTS }
{
    if count > FEW_PIECES {
        count.min(MOST_LISTS)
    } else {
        0
    }
}

// So many empty lists.
fn empty_lists(alloc: Global, count: usize) -> Result<Sequence<Marks>, Memory>
    ensures { IfOk result (AreEmpty count) }
{
    let mut lists = Sequence::new(alloc);
    for _ in 0..count {
        lists.push(Marks::new(alloc))?;
    }
    Ok(lists)
}

// Adds a number to one of some lists.
fn add(lists: &mut Sequence<Marks>, list: usize, number: usize) -> Result<(), Memory>
    requires { list < length lists.old }
    ensures { OnOk result (lists.new
        ≡ slice_set lists.old list (slice_index_or lists.old list [] ++ number ∷ [])) }
{
    lists.get_mut(list).push(number)?;
    Ok(())
}

// Adds a number to the list in which a row of a position stands, if there are lists.
fn add_in_row(
    lists: &mut Sequence<Marks>,
    position: u32,
    row: u64,
    number: usize,
) -> Result<(), Memory>
    requires { length lists.old ≤ MOST_LISTS }
    ensures none { length lists.old ≡ 0 → OnOk result (lists.new ≡ lists.old) }
    ensures one { 0 < length lists.old → OnOk result (lists.new
        ≡ slice_set lists.old (list_of (length lists.old) position row)
        (slice_index_or lists.old (list_of (length lists.old) position row) [] ++ number ∷ [])) }
    ensures list { 0 < length lists.old → list_of (length lists.old) position row < length lists.old }
{
    if lists.is_empty() {
        return Ok(());
    }
    let list = list_of(lists.len(), position, row);
    add(lists, list, number)
}

impl RowIndex {
    // An index of no piece, for about `count` of them.
    pub(crate) fn new(alloc: Global, unit: u64, count: usize) -> Result<Self, Memory>
        requires { 0 < unit }
        ensures { IfOk result (Indexes []) }
    {
        let lists = lists_for(count);
        Ok(RowIndex {
            unit,
            is_regular: lists > 0,
            every: Marks::with_capacity(alloc, count)?,
            lists: empty_lists(alloc, lists)?,
        })
    }

    // Whether each piece, and one of these bytes too, ends in the row in which it begins.
    fn keeps_rows(&self, first: u64, end: u128) -> bool
        requires { 0 < self.now.unit }
        ensures { result ≡ true → (self.now.is_regular ≡ true)
            × IsInRow self.now.unit (record { position = 0; first = first; end = end }) }
    {
        let row_end = (u128::from(first / self.unit) + 1) * u128::from(self.unit);
        self.is_regular && u128::from(first) <= end && end <= row_end
    }

    // Adds the next piece, the bytes of a position from `first` up to `end`.
    pub(crate) fn push(&mut self, position: u32, first: u64, end: u128) -> Result<(), Memory>
        requires { IsSound self.old }
        ensures { (ts : List Stretch) → Indexes ts self.old → OnOk result
            (Indexes (ts ++ record { position = position; first = first; end = end } ∷ []) self.new) }
    {
        let is_regular = self.keeps_rows(first, end);
        let number = self.every.len();
        add_in_row(&mut self.lists, position, first / self.unit, number)?;
        self.every.push(number)?;
        self.is_regular = is_regular;
        Ok(())
    }

    // The numbers of all pieces that have bytes of a position from `first` up to `end`, and maybe of others.
    pub(crate) fn find(&self, position: u32, first: u64, end: u128) -> &[usize]
        requires { IsSound self.now }
        ensures { (ts : List Stretch) → Indexes ts self.now
            → Sifts position (record { first = first; end = end }) ts 0 result.now }
    {
        if self.keeps_rows(first, end) {
            let list = list_of(self.lists.len(), position, first / self.unit);
            return self.lists.get(list).as_slice();
        }
        self.every.as_slice()
    }
}
