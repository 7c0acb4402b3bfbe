//! Ready calls end in ok.
//!
//! `specs/Ready.antt` says when a call of a client is ready, `Answered.antt` what follows: it ends in ok if all that it sends
//! arrives, and within a bound of messages. The proof goes from stage to stage of the call's event
//! (`proofs/Stages.antt`), and each stage goes on by the next delivery. `Losses.antt` says how many drives may fail so that
//! each stripe of a file can be read and written.
#![tactic(auto)]

mod laws;

pub use laws::{
    borne_is_enough, clear_commands_are_carried_out, enough_is_left, events_stand_apart,
    examples_are_met, losses_are_borne, lost_are_listed, none_is_lacked, ready_calls_end_in_ok,
    room_stays, scenes_are_read,
};
