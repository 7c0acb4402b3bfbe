ghost use Rattle.std.specs.Prelude.{◌≡◌, IfOk, OnOk};
ghost use Rattle.std.specs.Option.{option_copied};
ghost use Rattle.server_rules.specs.declared.server.Outgoing.TheVariants.{Answers};
ghost use Rattle.server_requests.specs.Sending.{sent_as};
ghost use Rattle.server_rules.specs.Envelopes.{bytes_of};
ghost use Rattle.server_rules.specs.Slots.{slot_of, keep};
ghost use Rattle.server_state.specs.Kept.{answer_in, IsKept, place_in};

use osd_lists::{Bytes, Memory, Node, Sequence};
use server_requests::Sent;
use std::alloc::Global;
use std::marker::Model;

/// The last request of a client, and the bytes of the answer to it. Contracts see the answer.
#[derive(Drop)]
pub struct KeptAnswer {
    client: u32,
    last: u32,
    bytes: Bytes,
}

impl Model for KeptAnswer {
    ghost use Rattle.std.specs.Prelude.{◌≡◌};
    ghost use Rattle.server_rules.specs.declared.server.Slot.{Slot};
    ghost use Rattle.server_state.specs.Kept.{answer_in, IsKept, place_in};

    ghost Value = { Slot };

    ghost view = { λ s. record { client = s.client; last = s.last; kept = answer_in s.bytes } };

    ghost invariant = { λ s. IsKept s.client s.bytes };
}

impl KeptAnswer {
    /// The answer with these bytes to a client's request of that number.
    pub fn new(client: u32, last: u32, bytes: Bytes) -> Self
        requires { IsKept client bytes }
        ensures { result ≡ record { client = client; last = last; kept = answer_in bytes } }
    {
        KeptAnswer {
            client,
            last,
            bytes,
        }
    }

    /// The client.
    pub fn client(&self) -> u32
        ensures { result ≡ self.now.client }
    {
        self.client
    }

    /// The number of its last request.
    pub fn last(&self) -> u32
        ensures { result ≡ self.now.last }
    {
        self.last
    }

    /// The bytes of the answer.
    pub fn as_bytes(&self) -> &[u8]
        ensures kept { answer_in result.now ≡ self.now.kept }
        ensures spelled { result.now ≡ bytes_of (Answers self.now.kept) }
    {
        self.bytes.as_slice()
    }

    /// The answer again.
    pub fn again(&self, alloc: Global) -> Result<Sent, Memory>
        ensures { IfOk result (λ sent. sent ≡ sent_as (Answers self.now.kept)) }
    {
        let to = Node::Client(self.client);
        let bytes = Bytes::copied(alloc, self.bytes.as_slice())?;
        Ok(Sent { to, bytes })
    }
}

/// The slots of clients, at most one for each, in the order of their first requests.
pub type Slots = Sequence<KeptAnswer>;

/// The client's slot, if it made a request.
pub fn slot_of(slots: &[KeptAnswer], client: u32) -> Option<&KeptAnswer>
    ensures { option_copied result ≡ slot_of slots.now client }
{
    for slot in slots {
        if slot.client() == client {
            return Some(slot);
        }
    }
    None
}

// The number of the client's slot, or of all slots where it has none.
#[tactic(auto, unfolding(crate::specs::Kept::place_in))]
fn place_of(slots: &[KeptAnswer], client: u32) -> usize
    ensures { result ≡ place_in slots.now client }
{
    for i in 0..slots.len() {
        if slots[i].client() == client {
            return i;
        }
    }
    slots.len()
}

/// Keeps a client's last answer in the place of its former, or behind all.
pub fn keep(slots: &mut Slots, slot: KeptAnswer) -> Result<(), Memory>
    ensures { OnOk result (slots.new ≡ keep slots.old slot) }
{
    let place = place_of(slots.as_slice(), slot.client());
    if place < slots.len() {
        *slots.get_mut(place) = slot;
        return Ok(());
    }
    slots.push(slot)
}
