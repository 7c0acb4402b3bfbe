ghost use Rattle.std.specs.Prelude.{◌≡◌};
ghost use Rattle.world_network.specs.Posting.{no_posting};

use osd_lists::Bytes;
use scenario_text::Party;
use std::alloc::Global;

/// A message that is to be sent.
#[derive(Drop)]
pub struct Posting {
    pub from: Party,
    pub to: Party,
    pub bytes: Bytes,
    /// How many data bytes the log keeps of the write that begins with it.
    pub logged: u64,
}

impl Posting {
    /// A message without bytes, which stands where another was taken out. It takes no memory.
    pub fn none(alloc: Global) -> Self
        ensures { result ≡ no_posting }
    {
        Posting {
            from: Party::Server,
            to: Party::Server,
            bytes: Bytes::new(alloc),
            logged: 0,
        }
    }
}
