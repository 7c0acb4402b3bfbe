ghost use Rattle.std.specs.Prelude.{◌≡◌, ◌≤◌, ℕ, List, IfOk, IsErrOf, OnErr, OnOk};
ghost use Rattle.osd_bytes.specs.Causes.{Rose};
ghost use Rattle.osd_lists.specs.declared.node.Node.{Node};
ghost use Rattle.node_loop.specs.declared.party.Message.{Message};
ghost use Rattle.port_loop.specs.declared.handler.HandlerErr.TheVariants.{Failed};

use osd_bytes::{Bytes, Memory, Node, Sequence};
use port_loop::HandlerErr;
use std::alloc::Global;

/// A message to be sent.
#[derive(Drop)]
pub struct Message {
    /// To whom.
    pub to: Node,
    pub bytes: Bytes,
}

/// Messages in the order in which they are sent.
pub type Messages = Sequence<Message>;

/// What hears the records of nodes, one after the other, and gives messages to nodes, as a metadata server does.
pub trait Party {
    /// The states that it can be in.
    ghost State: { Type 0 };

    /// What it may choose when it hears a record.
    ghost Choice: { Type 0 };

    /// What the messages that it gives depend on.
    ghost state: { Self → State };

    /// How many of its calls failed. The count never falls, and stays at its greatest number.
    ghost faults: { Self → ℕ };

    /// Whom a record names as its sender.
    ghost sender_of: { List ℕ → Node };

    /// The messages that a record of a node gives at a time.
    ghost given: { State → Choice → ℕ → Node → List ℕ → List Message };

    /// What a record of a node leaves at a time.
    ghost state_after: { State → Choice → ℕ → Node → List ℕ → State };

    /// The messages to which it awaits answers.
    ghost awaited: { State → List Message };

    /// Whether it takes more records. After a call that failed it need not.
    ghost goes_on: { Self → Type 0 };

    /// What else a call leaves that heard a record, such as what its disk has.
    ghost hears: { Choice → ℕ → Node → List ℕ → (old new : Self) → Type 0 };

    /// What a call leaves that failed at a record.
    ghost fails: { Choice → ℕ → Node → List ℕ → (old new : Self) → Type 0 };

    /// Whom a record names as its sender.
    fn sender(&self, alloc: Global, message: &[u8]) -> Result<Node, Memory>
        ensures { IfOk result (λ n. n ≡ sender_of message.now) };

    /// Takes a record of a node, and gives the messages that are to be sent then.
    ///
    /// # Errors
    ///
    /// [`HandlerErr::Failed`] only if the count of faults rose, and [`HandlerErr::Memory`].
    fn hear(
        &mut self,
        alloc: Global,
        now: u64,
        from: Node,
        message: &[u8],
    ) -> Result<Messages, HandlerErr>
        requires goes_on { goes_on self.old }
        ensures ok { IfOk result (λ messages. (chosen : Choice)
            × (messages ≡ given (state self.old) chosen now from message.now)
            × (state self.new ≡ state_after (state self.old) chosen now from message.now)
            × hears chosen now from message.now self.old self.new) }
        ensures goes_on { OnOk result (goes_on self.new) }
        ensures err { OnErr result ((chosen : Choice) × fails chosen now from message.now self.old self.new) }
        ensures cause { IsErrOf result Failed → Rose (faults self.old) (faults self.new) }
        ensures later { faults self.old ≤ faults self.new };

    /// The messages to which it awaits answers, once more.
    fn resend(&self, alloc: Global) -> Result<Messages, Memory>
        ensures { IfOk result (λ messages. messages ≡ awaited (state self.now)) };
}
