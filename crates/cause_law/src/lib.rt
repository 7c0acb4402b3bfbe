//! Causes: of each answer of the server and of each end of a call, when exactly it comes, and what an opening of the server
//! leaves, in the words of the lines.
//!
//! # How no call ends
//!
//! How no call of a client ends, in any history.
//!
//! A history is that of `world_history`. No call ends with a drive's verdict on where its command lay, whatever was
//! guessed: such a verdict would have been given on a message of the client, and each of these spells a command that
//! lies where its capability allows. With few messages no call ends since its layout can't be used either, and none is
//! refused since its client has no sequence number left.
//!
//! For that, what parties say fits its places: files, what the server keeps, what clients ask, and the reports of
//! errors with which they return grants. The objects of a grant that a client takes are new to it, so none ends for
//! want of a lane, where nothing was guessed.
//!
//! # How calls end
//!
//! How the calls of clients end: each end follows from what its call met.
//!
//! `specs/Met.antt` says what a call meets, and how it fails by that; `Ended.antt` says so of the lines of a history. For
//! that the clients, and what their calls have met, are read off the lines (`ReadClients.antt`, `ReadCalls.antt`). `Read.antt`
//! says that an answered read has what its call read of the drives, `ReadBytes.antt` where each of its bytes comes from, and
//! `Pending.antt` when a call is left pending.
//!
//! # Answers
//!
//! Laws of causes: of each answer, when exactly it comes, in the words of the lines.
//!
//! Each request that is new to the server is answered in its step, and its answer tells the first row that applies to
//! what the book of the file has. Any other answer repeats the last one, or says that its request is misordered. Nothing
//! else makes a grant live or ends one but a fence that an order or an opening begins. Components and tags go on as notes
//! and declarations tell, and what a job awaits was sent and isn't answered.
//! A call ends as only an answer says exactly if its client takes that answer.
//!
//! # Calls that are left pending
//!
//! Why a call is left pending.
//!
//! A `do` delivers what is sent in it. So a request that is sent in it is answered in it, unless the server is down, and a
//! call that is left pending waits for the answer to an older request, or its server is down.
//!
//! # Restarts
//!
//! What a server that restarts promises, in the words of the lines.
//!
//! If it crashes, a file that had a grant or a fence then is barred: until a note says that a fence of it is over, no client is
//! told a new layout of it, and none of its grants is live once the server was opened. Numbers come once over all crashes: no
//! two layouts that are given name one grant, and no two components have one object.
#![tactic(auto)]

mod cause_laws;
mod ending_laws;
mod outcome_laws;
mod pending_laws;
mod reopen_laws;

pub use cause_laws::{
    awaited_have_causes, awaited_have_ends, awaited_were_sent, components_have_causes,
    ended_have_causes, ends_are_said, grants_have_causes, losses_have_causes, messages_are_caused,
    requests_are_answered, tags_have_causes,
};
pub use ending_laws::{
    answers_are_fit, calls_end_so, commands_of_text_are_placed, files_and_answers_are_readable,
    files_are_fit, grants_are_fresh, kept_answers_fit, no_call_ends_misplaced,
    no_call_of_text_ends_misplaced, no_lane_is_wanting, nonces_are_enough, objects_are_enough,
    places_are_enough, reports_are_always_short, requests_can_be_read, short_requests_fit,
};
pub use outcome_laws::{
    answers_are_of_replies, calls_are_left, clients_are_read, each_byte_has_its_cause,
    ends_are_caused, outcomes_are_caused, pending_calls_wait,
};
pub use pending_laws::{down_is_read, pending_calls_are_unanswered, queue_is_due};
pub use reopen_laws::{crashes_bar, grants_are_named_once, objects_are_own};
