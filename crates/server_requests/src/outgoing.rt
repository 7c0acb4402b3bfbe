use osd_lists::{Bytes, Node, Sequence};

/// A message to be sent.
#[derive(PartialEq, Drop)]
pub struct Sent {
    /// To whom.
    pub to: Node,
    pub bytes: Bytes,
}

/// Messages in the order in which they are sent.
pub type Sends = Sequence<Sent>;
