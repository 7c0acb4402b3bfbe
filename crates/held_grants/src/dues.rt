// The grants that are to be returned.
ghost use Rattle.std.specs.Prelude.{◌≡◌, None, IfOk, IfSome, IfNone, OnOk, OnErr, find};
ghost use Rattle.client_rules.specs.Going.{is_held};
ghost use Rattle.held_grants.specs.Dues.{IsFirstHeld, dues_left};
ghost use Rattle.client_rules.specs.Messages.{is_due, due_with};

use crate::grants::HeldGrants;
use client_rules::Due;
use osd_lists::{Memory, Sequence};
use std::alloc::Global;

/// Grants that are to be returned, in the order in which they became due.
pub type Dues = Sequence<Due>;

// Whether a grant is due already.
fn is_due(dues: &[Due], file: u32, number: u32) -> bool
    ensures { result ≡ is_due dues.now file number }
{
    for due in dues {
        if due.file == file && due.number == number {
            return true;
        }
    }
    false
}

/// Makes a grant due, unless it is already. Where there is no memory the list is as before.
#[tactic(auto, unfolding(client_rules::specs::Messages::due_with))]
pub fn make_due(dues: &mut Dues, file: u32, number: u32) -> Result<(), Memory>
    ensures ok { OnOk result (dues.new ≡ due_with dues.old file number) }
    ensures err { OnErr result (dues.new ≡ dues.old) }
{
    if is_due(dues.as_slice(), file, number) {
        return Ok(());
    }
    dues.push(Due { file, number })
}

// The index of the first grant that is due and still held.
#[tactic(auto, unfolding(client_rules::specs::Going::due_behind))]
fn first_held(dues: &[Due], held: &HeldGrants) -> Option<usize>
    ensures some { IfSome result (λ i. IsFirstHeld held.now dues.now i) }
    ensures none { IfNone result (find (is_held held.now) dues.now ≡ None) }
{
    for i in 0..dues.len() {
        if held.holds(dues[i]) {
            return Some(i);
        }
    }
    None
}

/// Takes out the first grant that is due and still held, and those before it, which count for nothing; where there is
/// none, all of them.
pub fn take_due(alloc: Global, dues: &mut Dues, held: &HeldGrants) -> Result<Option<Due>, Memory>
    ensures found { IfOk result (λ due. due ≡ find (is_held held.now) dues.old) }
    ensures left { IfOk result (λ due. dues.new ≡ dues_left held.now dues.old due) }
    ensures err { OnErr result (dues.new ≡ dues.old) }
{
    match first_held(dues.as_slice(), held) {
        Some(i) => {
            let due = dues.as_slice()[i];
            let (_, behind) = dues.as_slice().split_at(i + 1);
            *dues = Dues::copied(alloc, behind)?;
            Ok(Some(due))
        }
        None => {
            *dues = Dues::new(alloc);
            Ok(None)
        }
    }
}
