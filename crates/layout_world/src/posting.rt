// What the server sends, as messages of a world.
ghost use Rattle.std.specs.Prelude.{◌≡◌, ◌++◌, IfOk, OnOk};
ghost use Rattle.layout_world.specs.Posting.{no_message, posting, postings};

use layout_server::{Sends, Sent};
use osd_lists::{Bytes, Memory, Node};
use scenario_text::Party;
use std::alloc::Global;
use world_network::{Posting, Postings, party_of, take_member};

// A message to a party that a line can name.
fn post(posts: &mut Postings, sent: Sent) -> Result<(), Memory>
    ensures { OnOk result (posts.new ≡ posts.old ++ posting sent) }
{
    let Sent { to, bytes } = sent;
    match party_of(to) {
        Some(to) => posts.push(Posting {
            from: Party::Server,
            to,
            bytes,
            logged: 0,
        }),
        None => Ok(()),
    }
}

// A message without bytes, which stands where another was taken out.
fn no_message(alloc: Global) -> Sent
    ensures { result ≡ no_message }
{
    Sent {
        to: Node::Server,
        bytes: Bytes::new(alloc),
    }
}

/// Messages of the server, in order, with the bytes of what it sends. One to a party that no line can name isn't sent.
pub fn postings(alloc: Global, sends: Sends) -> Result<Postings, Memory>
    ensures { IfOk result (λ posts. posts ≡ postings sends) }
{
    let mut left = sends;
    let mut posts = Postings::with_capacity(alloc, left.len())?;
    let mut place = 0;
    while place < left.len() {
        let sent = take_member(&mut left, place, no_message(alloc));
        post(&mut posts, sent)?;
        place += 1;
    }
    Ok(posts)
}
