//! The rules of a client, as definitions.
//!
//! The state of a client and what its calls come to are plain structs and enums here. What a step does with
//! them is a total function in `specs/`; `specs/History.antt` puts the parts together. The code of the
//! client is proved equal to these functions, and the laws are proved of them.
#![tactic(auto)]

mod calls;
mod client;
mod grants;
mod laws;
mod limits;
mod operation;
mod outcomes;
mod steps;

pub use calls::{Awaited, AwaitedCommands, Call, CallOp, Io, Need, Phase, TimedOut, TimedOuts};
pub use client::{Client, Outgoing};
pub use grants::{Credential, Due, Held, Listed, Reach};
pub use laws::{
    each_rest_awaits_something, nonces_rise, one_write_each, others_change_nothing,
    reads_took_replies,
};
pub use limits::{
    BAD_CHECK_VALUE, EXPIRED, GREATEST_SEQUENCE, LANE_FULL, LOSS_TAKEN, MAX_CALL, MAX_CLIENT,
    MAX_COUNT, MAX_DRIVE, MAX_FILE_COMPONENTS, MAX_LAYOUT, MAX_TRIES, NO_COMPONENT, NO_KEY,
    NO_OBJECT, NO_RIGHT, NO_SPACE, NONCES, OTHER_OBJECT, OTHER_TAG, OUT_OF_RANGE, OVER_LIMIT,
    PERFORMED, SPARE_REQUESTS, WHOLE_FILE,
};
pub use operation::{is_write, span_of};
pub use outcomes::{Awaits, CallErr, Outcome, Why};
pub use steps::{Done, Moved, Turn};
