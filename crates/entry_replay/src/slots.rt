// The last answers to clients.
ghost use Rattle.std.specs.Prelude.{◌≡◌, IfOk, IfSome};
ghost use Rattle.layout_ops.specs.Reading.{envelope_of};
ghost use Rattle.server_rules.specs.declared.server.Outgoing.TheVariants.{Answers};
ghost use Rattle.server_rules.specs.Envelopes.{bytes_of};
ghost use Rattle.server_rules.specs.Slots.{admit, admit_after, slot_of};
ghost use Rattle.server_state.specs.States.{server_of, IsReady};
ghost use Rattle.server_entries.specs.Applying.{applied, can_answer, is_new};
ghost use Rattle.server_entries.specs.declared.entry.Entry.TheVariants as entry;
ghost use Rattle.entry_replay.specs.Replaying.{Becomes, read_answer};

use layout_ops::{Answer, Envelope, OpErr, read_envelope};
use osd_lists::{Bytes, Memory};
use server_entries::{Applied, SlotEntry};
use server_rules::{GREATEST_SEQUENCE, MAX_CLIENT};
use server_state::{KeptAnswer, Slots, State, keep, slot_of};
use std::alloc::Global;

// A request of that number is the next behind one of the last number.
#[tactic(auto, unfolding(server_rules::specs::Slots::admit_after))]
fn is_next(last: u32, sequence: u32) -> bool
    ensures { result ≡ is_new (admit_after last sequence) }
{
    last < GREATEST_SEQUENCE && sequence == last + 1
}

// A request of that number is new.
#[tactic(auto, unfolding(server_rules::specs::Slots::admit))]
fn is_new(slots: &Slots, client: u32, sequence: u32) -> bool
    ensures { result ≡ is_new (admit (slot_of slots.now client) sequence) }
{
    match slot_of(slots.as_slice(), client) {
        Some(slot) => {
            let last = slot.last();
            sequence != last && is_next(last, sequence)
        }
        None => is_next(0, sequence),
    }
}

// The answer is that to the client's next request.
fn can_answer(state: &State, slot: &SlotEntry, answer: &Answer) -> bool
    ensures { result ≡ can_answer (server_of state.now) slot.now answer.now }
{
    slot.client <= MAX_CLIENT
        && is_new(&state.slots, slot.client, slot.sequence)
        && answer.client == slot.client
        && answer.sequence == slot.sequence
}

// The answer that the bytes spell, if they spell one.
fn answer_in(alloc: Global, bytes: &[u8]) -> Result<Option<Answer>, Memory>
    ensures read { IfOk result (λ found. found ≡ read_answer (envelope_of bytes.now)) }
    ensures spelled { IfOk result (λ found. IfSome found (λ a. bytes.now ≡ bytes_of (Answers a))) }
{
    match read_envelope(alloc, bytes) {
        Ok(Envelope::Answer(answer)) => Ok(Some(answer)),
        Ok(_) => Ok(None),
        Err(OpErr::Memory) => Err(Memory),
        Err(_) => Ok(None),
    }
}

#[tactic(auto, unfolding(server_entries::specs::Applying::applied))]
pub(crate) fn apply_slot(
    alloc: Global,
    state: &mut State,
    slot: &SlotEntry,
) -> Result<Applied, Memory>
    requires ready { IsReady state.old }
    ensures applied { IfOk result (Becomes state.old state.new (applied (server_of state.old) (entry.Slot slot.now))) }
    ensures ready { IsReady state.new }
{
    let answer = match answer_in(alloc, slot.answer.as_slice())? {
        Some(answer) => answer,
        None => return Ok(Applied::Unmade),
    };
    if !can_answer(state, slot, &answer) {
        return Ok(Applied::Unmade);
    }
    let bytes = Bytes::copied(alloc, slot.answer.as_slice())?;
    let kept = KeptAnswer::new(slot.client, slot.sequence, bytes);
    keep(&mut state.slots, kept)?;
    Ok(Applied::Done)
}
