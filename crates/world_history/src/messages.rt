use layout_ops::Envelope;
use osd_commands::{Command, Reply};
use osd_lists::{Bytes, Node};
use scenario_text::Party;

/// What a message says. On the wire it is the one spelling of this.
#[derive(Drop)]
pub enum Body {
    /// To a drive.
    Command { command: Command },
    /// From a drive.
    Reply { reply: Reply },
    /// Between a client and the metadata server.
    Envelope { envelope: Envelope },
}

/// A message, as it was sent.
#[derive(Drop)]
pub struct Message {
    pub from: Node,
    pub to: Node,
    pub body: Body,
}

/// A message that was sent, and what became of it.
#[derive(Drop)]
pub struct Posted {
    pub message: Message,
    /// It was delivered, once at least.
    pub delivered: bool,
    /// It is left out when messages are settled.
    pub dropped: bool,
}

/// A message that was sent, as its line in a transcript has it, and what became of it.
#[derive(Drop)]
pub struct Sent {
    pub from: Party,
    pub to: Party,
    pub bytes: Bytes,
    /// It was delivered, once at least.
    pub delivered: bool,
    /// It is left out when messages are settled.
    pub dropped: bool,
}
