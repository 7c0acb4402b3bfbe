ghost use Rattle.std.specs.Prelude.{◌≡◌, ◌<◌, ◌≤◌, [], length, slice_get, Some};
ghost use Rattle.world_history.specs.declared.limits.TheConstants.{MAX_KEPT};
ghost use Rattle.world_network.specs.Posting.{PostsAll};
ghost use Rattle.world_network.specs.Network.{is_pending, Delivers, Drops, PendingIs, empty_network};

use crate::acts::Postings;
use crate::members::take_member;
use crate::posting::Posting;
use osd_lists::{Bytes, Sequence};
use scenario_text::{Line, Party};
use std::alloc::Global;
use std::marker::Model;
use world_history::{MAX_KEPT, Sent, WorldErr};

/// Lines of a transcript.
pub type Lines = Sequence<Line>;

/// All messages that were ever sent, by number from 0, and the bytes that are kept: those of the messages,
/// and the data of the writes of which the first WRITE was sent.
#[derive(Drop)]
pub struct Network {
    messages: Sequence<Sent>,
    kept: u64,
}

impl Model for Network {
    ghost use Rattle.std.specs.Prelude.{◌≤◌};
    ghost use Rattle.world_history.specs.declared.limits.TheConstants.{MAX_KEPT};
    ghost use Rattle.world_network.specs.Network.{NetworkState};

    ghost Value = { NetworkState };

    ghost view = { λ n. record { messages = n.messages; kept = n.kept } };

    ghost invariant = { λ n. n.kept ≤ MAX_KEPT };
}

// Whether a message was neither delivered nor dropped.
fn is_pending(message: &Sent) -> bool
    ensures { result ≡ is_pending message.now }
{
    !message.delivered && !message.dropped
}

impl Network {
    /// A network in which nothing was sent.
    pub fn new(alloc: Global) -> Self
        ensures { result ≡ empty_network }
    {
        Network {
            messages: Sequence::new(alloc),
            kept: 0,
        }
    }

    /// How many messages were sent.
    pub fn len(&self) -> usize
        ensures { result ≡ length self.now.messages }
    {
        self.messages.len()
    }

    /// The bytes that are kept, at most [`MAX_KEPT`].
    pub fn kept(&self) -> u64
        ensures kept { result ≡ self.now.kept }
        ensures most { result ≤ MAX_KEPT }
    {
        self.kept
    }

    /// Message `number`, which must have been sent.
    pub fn message(&self, number: usize) -> &Sent
        requires { number < length self.now.messages }
        ensures { slice_get self.now.messages number ≡ Some result.now }
    {
        self.messages.get(number)
    }

    /// Marks message `number`, which must have been sent, as delivered.
    pub fn deliver(&mut self, number: usize)
        requires { number < length self.old.messages }
        ensures { Delivers self.old number self.new }
    {
        self.messages.get_mut(number).delivered = true;
    }

    /// Leaves message `number`, which must have been sent, out when messages are settled.
    pub fn drop_message(&mut self, number: usize)
        requires { number < length self.old.messages }
        ensures { Drops self.old number self.new }
    {
        self.messages.get_mut(number).dropped = true;
    }

    /// The lowest number, from `first` on, of a message that was neither delivered nor dropped.
    pub fn next_pending(&self, first: usize) -> Option<usize>
        ensures { PendingIs first self.now.messages result }
    {
        let mut number = first;
        while number < self.messages.len() {
            if is_pending(self.messages.get(number)) {
                return Some(number);
            }
            number += 1;
        }
        None
    }

    /// Sends messages in order, each with its line. Their bytes are moved here, and copied for the line.
    ///
    /// # Errors
    ///
    /// `KeptFull` exactly where a message would pass the limit of kept bytes: those before it were sent. `Memory`,
    /// and the lines of some first ones were appended.
    pub fn post_all(
        &mut self,
        alloc: Global,
        postings: Postings,
        lines: &mut Lines,
    ) -> Result<(), WorldErr>
        ensures { PostsAll self.old postings lines.old lines.new self.new result }
    {
        let mut left = postings;
        let mut place = 0;
        while place < left.len() {
            let Posting {
                from,
                to,
                bytes,
                logged,
            } = take_member(&mut left, place, Posting::none(alloc));
            let cost = u128::from(logged) + bytes.len() as u128;
            if cost > u128::from(MAX_KEPT - self.kept) {
                return Err(WorldErr::KeptFull);
            }
            let told = Line::Message {
                message: self.messages.len() as u64,
                from,
                to,
                bytes: Bytes::copied(alloc, bytes.as_slice())?,
            };
            self.messages.push(Sent {
                from,
                to,
                bytes,
                delivered: false,
                dropped: false,
            })?;
            self.kept += cost as u64;
            lines.push(told)?;
            place += 1;
        }
        Ok(())
    }
}
