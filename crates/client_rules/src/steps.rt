use crate::calls::{AwaitedCommands, Phase};
use crate::client::Client;
use crate::grants::Held;
use crate::outcomes::Outcome;
use layout_ops::{RecallAnswer, Request};
use osd_lists::Sequence;

/// What becomes of a call.
#[derive(Drop)]
pub enum Turn {
    Goes { phase: Phase },
    Ends { outcome: Outcome },
    /// It ends, and its grant is forgotten.
    Forgets { outcome: Outcome },
}

/// What a call's dealings with the drives did: its grant, what becomes of it, and the commands that were
/// sent.
#[derive(Drop)]
pub struct Moved {
    pub held: Held,
    pub turn: Turn,
    pub sent: AwaitedCommands,
}

/// A client in the middle of a step, and what the step sent and ended so far.
#[derive(Drop)]
pub struct Done {
    pub client: Client,
    pub recalls: Sequence<RecallAnswer>,
    pub requests: Sequence<Request>,
    pub commands: AwaitedCommands,
    pub outcome: Option<Outcome>,
}
