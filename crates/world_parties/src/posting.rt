// What a client sends, as messages of a world.
ghost use Rattle.std.specs.Prelude.{◌≡◌, ◌++◌, Some, IfOk, OnOk};
ghost use Rattle.std.specs.List.{list_any};
ghost use Rattle.world_history.specs.Handed.{data_in};
ghost use Rattle.world_parties.specs.Posting.{is_write, logged_with, no_message, posting, postings};

use client_rules::CallOp;
use osd_commands::Action;
use osd_lists::{Bytes, Memory, Node, u16_at};
use scenario_text::{ClientName, Party};
use std::alloc::Global;
use stripe_client::{Sends, Sent};
use world_network::{Posting, Postings, party_of, take_member};

// Where a command has the number of its action (two bytes).
pub const ACTION_AT: usize = 4;

// The end of that.
pub const ACTION_END: usize = 6;

/// Whether a message that a client sends is a WRITE.
pub fn is_write(sent: &Sent) -> bool
    ensures { result ≡ is_write sent.now }
{
    match sent.to {
        Node::Drive(_) => {
            let bytes = sent.bytes.as_slice();
            bytes.len() >= ACTION_END && u16_at(bytes, ACTION_AT) == Action::Write.number()
        }
        _ => false,
    }
}

/// How many data bytes a call writes.
pub fn data_of(op: &CallOp) -> u64
    ensures { result ≡ data_in (Some op.now) }
{
    match op {
        CallOp::Write { bytes, .. } => bytes.len() as u64,
        CallOp::Read { .. } => 0,
    }
}

/// Whether a WRITE is among the messages.
pub fn any_write(sends: &[Sent]) -> bool
    ensures { result ≡ list_any is_write sends.now }
{
    sends.iter().any(|sent| is_write(sent))
}

// The bytes that the log keeps with a message.
fn logged_with(writes: bool, wrote: bool, logged: u64) -> u64
    ensures { result ≡ logged_with writes wrote logged }
{
    if writes && !wrote { logged } else { 0 }
}

// A message to a party that a line can name.
fn post(posts: &mut Postings, client: ClientName, logged: u64, sent: Sent) -> Result<(), Memory>
    ensures { OnOk result (posts.new ≡ posts.old ++ posting client logged sent) }
{
    let Sent { to, bytes } = sent;
    match party_of(to) {
        Some(to) => posts.push(Posting {
            from: Party::Client { client },
            to,
            bytes,
            logged,
        }),
        None => Ok(()),
    }
}

// A message without bytes, which stands where another was taken out.
fn no_message(alloc: Global) -> Sent
    ensures { result ≡ no_message }
{
    Sent {
        to: Node::Server,
        bytes: Bytes::new(alloc),
    }
}

/// Messages of a client, in order, with the bytes of what it sends. The first WRITE of a call, before which none was
/// sent, begins the write whose data has `logged` bytes. A message to a drive that no line can name isn't sent.
pub fn postings(
    alloc: Global,
    client: ClientName,
    wrote: bool,
    logged: u64,
    sends: Sends,
) -> Result<Postings, Memory>
    ensures { IfOk result (λ posts. posts ≡ postings client wrote logged sends) }
{
    let mut left = sends;
    let mut posts = Postings::with_capacity(alloc, left.len())?;
    let mut begun = wrote;
    let mut place = 0;
    while place < left.len() {
        let sent = take_member(&mut left, place, no_message(alloc));
        let writes = is_write(&sent);
        post(&mut posts, client, logged_with(writes, begun, logged), sent)?;
        begun = begun || writes;
        place += 1;
    }
    Ok(posts)
}
