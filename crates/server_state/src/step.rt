use osd_lists::Sequence;
use server_requests::Sends;
use server_rules::{Mended, Note};

/// The notes of a step, in order.
pub type Notes = Sequence<Note>;

/// The repairs that a step ended, in order.
pub type Repairs = Sequence<Mended>;

/// What a step sends and tells.
#[derive(Drop)]
pub struct Step {
    pub sends: Sends,
    pub notes: Notes,
    pub mended: Repairs,
}
