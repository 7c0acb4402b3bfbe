ghost use Rattle.std.specs.Prelude.{◌≡◌};
ghost use Rattle.osd_commands.specs.Actions.{action_of, number_of, right_of};

use osd_capability::{
    RIGHT_CREATE, RIGHT_GET_ATTR, RIGHT_READ, RIGHT_SET_ATTR, RIGHT_SET_TAG, RIGHT_WRITE,
};

/// What a command asks of an object.
#[derive(Clone, Copy, PartialEq, Eq)]
pub enum Action {
    /// Makes the object, with the payload as its label.
    Create,
    /// Reads `length` bytes from `offset` on.
    Read,
    /// Writes the payload, `length` bytes, from `offset` on.
    Write,
    /// Reads the attribute of that number.
    GetAttr,
    /// Sets the attribute of that number to the payload.
    SetAttr,
    /// Raises the policy access tag by 1 (RFC 5664 13.4).
    SetTag,
}

impl Action {
    /// The action's number in a command and a reply.
    pub fn number(self) -> u16
        ensures { result ≡ number_of self }
    {
        match self {
            Action::Create => 1,
            Action::Read => 2,
            Action::Write => 3,
            Action::GetAttr => 4,
            Action::SetAttr => 5,
            Action::SetTag => 6,
        }
    }

    /// The action of a number, `None` exactly where it is not from 1 to 6.
    pub fn from_number(number: u16) -> Option<Action>
        ensures { result ≡ action_of number }
    {
        match number {
            1 => Some(Action::Create),
            2 => Some(Action::Read),
            3 => Some(Action::Write),
            4 => Some(Action::GetAttr),
            5 => Some(Action::SetAttr),
            6 => Some(Action::SetTag),
            _ => None,
        }
    }

    /// The bit of a capability's rights that lets its holder do this.
    pub fn right(self) -> u32
        ensures { result ≡ right_of self }
    {
        match self {
            Action::Create => RIGHT_CREATE,
            Action::Read => RIGHT_READ,
            Action::Write => RIGHT_WRITE,
            Action::GetAttr => RIGHT_GET_ATTR,
            Action::SetAttr => RIGHT_SET_ATTR,
            Action::SetTag => RIGHT_SET_TAG,
        }
    }
}
