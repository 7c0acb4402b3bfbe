ghost use Rattle.std.specs.Prelude.{◌≡◌, [], OnOk, Some, slice_get};
ghost use Rattle.world_watch.specs.Sighted.{first_same, is_same_at, nonce_in, of_nonce, sees_message, sighted, with_number};

use osd_lists::{Memory, Sequence, u64_at};
use scenario_text::{DriveName, Party};
use std::alloc::Global;
use std::collections::BTreeMap;
use std::marker::Model;
use world_history::Sent;
use world_network::Network;

// Where a command has its nonce, and where that ends.
const NONCE: usize = 40;

const NONCE_END: usize = 48;

/// Numbers of messages.
pub type MessageNumbers = Sequence<usize>;

/// The messages to drives, to be found by their bytes. Those of one nonce stand together, and of several
/// with the same bytes to the same drive the first stands for all.
#[derive(Drop)]
pub struct Sightings {
    alloc: Global,
    by_nonce: BTreeMap<u64, MessageNumbers>,
}

impl Model for Sightings {
    ghost use Rattle.world_watch.specs.Sighted.{Table};

    ghost Value = { Table };

    ghost view = { λ s. s.by_nonce.entries };
}

// The number by which bytes are found: a command's nonce.
fn nonce_in(bytes: &[u8]) -> u64
    ensures { result ≡ nonce_in bytes.now }
{
    if bytes.len() < NONCE_END {
        return 0;
    }
    u64_at(bytes, NONCE)
}

// Whether a message is one to that drive with these bytes.
fn is_same(sent: &Sent, drive: DriveName, bytes: &[u8]) -> bool
    ensures { result ≡ is_same_at drive bytes.now (Some sent.now) }
{
    match sent.to {
        Party::Drive { drive: to } => to == drive && sent.bytes.as_slice() == bytes,
        _ => false,
    }
}

// Whether message `number` is one to that drive with these bytes.
fn is_same_at(network: &Network, number: usize, drive: DriveName, bytes: &[u8]) -> bool
    ensures { result ≡ is_same_at drive bytes.now (slice_get network.now.messages number) }
{
    number < network.len() && is_same(network.message(number), drive, bytes)
}

// The first of these messages to that drive with these bytes.
#[tactic(auto, unfolding(crate::specs::Sighted::first_same))]
fn first_same(network: &Network, numbers: &[usize], drive: DriveName, bytes: &[u8]) -> Option<usize>
    ensures { result ≡ first_same network.now.messages drive bytes.now numbers.now }
{
    for number in numbers {
        if is_same_at(network, *number, drive, bytes) {
            return Some(*number);
        }
    }
    None
}

impl Sightings {
    /// No message.
    pub fn new(alloc: Global) -> Self
        ensures { result ≡ [] }
    {
        Sightings {
            alloc,
            by_nonce: BTreeMap::new(alloc),
        }
    }

    /// The first message to that drive with these bytes.
    pub fn find(&self, network: &Network, drive: DriveName, bytes: &[u8]) -> Option<usize>
        ensures { result ≡ sighted self.now network.now.messages drive bytes.now }
    {
        match self.by_nonce.get(&nonce_in(bytes)) {
            Some(numbers) => first_same(network, numbers.as_slice(), drive, bytes),
            None => None,
        }
    }

    // A message more, with bytes of that nonce.
    fn push(&mut self, nonce: u64, number: usize) -> Result<(), Memory>
        ensures { OnOk result (self.new ≡ with_number self.old number nonce (of_nonce self.old nonce)) }
    {
        match self.by_nonce.get_mut(&nonce) {
            Some(numbers) => numbers.push(number)?,
            None => {
                let mut numbers = MessageNumbers::new(self.alloc);
                numbers.push(number)?;
                self.by_nonce.insert(nonce, numbers)?;
            }
        }
        Ok(())
    }

    /// Message `number` to that drive, with these bytes.
    pub fn add(
        &mut self,
        network: &Network,
        number: usize,
        drive: DriveName,
        bytes: &[u8],
    ) -> Result<(), Memory>
        ensures { OnOk result (self.new ≡ sees_message self.old network.now.messages number drive bytes.now) }
    {
        if self.find(network, drive, bytes).is_some() {
            return Ok(());
        }
        self.push(nonce_in(bytes), number)
    }
}
