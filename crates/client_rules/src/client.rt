use crate::calls::Call;
use crate::grants::{Due, Held};
use layout_ops::{RecallAnswer, Request};
use osd_commands::Command;
use osd_lists::Sequence;

/// A client.
#[derive(Drop)]
pub struct Client {
    pub number: u32,
    /// The sequence number of its next request, or 0 where none is left.
    pub next: u32,
    /// The request whose answer is awaited: the call's where that waits, else a return that was due.
    pub outstanding: Option<Request>,
    /// At most one grant of a file, by rising file.
    pub held: Sequence<Held>,
    /// In the order in which they became due. One that isn't held any more counts for nothing.
    pub due: Sequence<Due>,
    pub call: Option<Call>,
}

/// A message that a client sends.
#[derive(Drop)]
pub enum Outgoing {
    AnswersRecall { answer: RecallAnswer },
    Asks { request: Request },
    ToDrive { drive: u32, command: Command },
}
