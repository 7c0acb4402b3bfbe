ghost use Rattle.std.specs.Prelude.{◌≡◌, IfOk};
ghost use Rattle.world_network.specs.Acts.{nothing, line_alone, one_post};

use crate::network::Lines;
use crate::posting::Posting;
use osd_lists::{Memory, Sequence};
use scenario_text::{Delivery, Line};
use std::alloc::Global;

/// Messages that are to be sent, in order.
pub type Postings = Sequence<Posting>;

/// What a party did: the lines that it tells, and behind them what it sends.
#[derive(Drop)]
pub struct Act {
    pub told: Lines,
    pub posts: Postings,
}

/// What a party did with a message that was delivered to it.
#[derive(Drop)]
pub struct Handed {
    /// What became of the message.
    pub receipt: Delivery,
    pub act: Act,
}

impl Act {
    /// Nothing is told or sent. It takes no memory.
    pub fn nothing(alloc: Global) -> Self
        ensures { result ≡ nothing }
    {
        Act {
            told: Lines::new(alloc),
            posts: Postings::new(alloc),
        }
    }

    /// A line is told, and nothing sent.
    pub fn line(alloc: Global, line: Line) -> Result<Self, Memory>
        ensures { IfOk result (λ act. act ≡ line_alone line) }
    {
        let mut act = Act::nothing(alloc);
        act.told.push(line)?;
        Ok(act)
    }

    /// A message is sent, and nothing told.
    pub fn post(alloc: Global, posting: Posting) -> Result<Self, Memory>
        ensures { IfOk result (λ act. act ≡ one_post posting) }
    {
        let mut act = Act::nothing(alloc);
        act.posts.push(posting)?;
        Ok(act)
    }
}

impl Handed {
    /// Nothing comes of the message but this. It takes no memory.
    pub fn quiet(alloc: Global, receipt: Delivery) -> Self
        ensures { result ≡ record { receipt = receipt; act = nothing } }
    {
        Handed {
            receipt,
            act: Act::nothing(alloc),
        }
    }
}
