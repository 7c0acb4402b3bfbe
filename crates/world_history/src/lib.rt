//! The world of a scenario and its histories, as definitions.
//!
//! The world's messages and refusals are plain structs and enums here. What a move of a party does is a total
//! function in `specs/Moves.antt`; `specs/Runs.antt` says which moves an event has, `specs/History.antt` what a
//! lawful history is. What a reader would check is read off the lines alone, in the files from
//! `specs/Reading.antt` on. The code of the world is proved equal to these definitions.
#![tactic(auto)]

mod err;
mod laws;
mod limits;
mod messages;
mod summary;

pub use err::WorldErr;
pub use laws::{
    fronts_are_lawful, full_is_cut, messages_are_read, next_is_lowest, one_event_cut,
    one_event_more, reading_goes_on,
};
pub use limits::MAX_KEPT;
pub use messages::{Body, Message, Posted, Sent};
pub use summary::Summary;
