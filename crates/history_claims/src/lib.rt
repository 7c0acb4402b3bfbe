//! What holds of every lawful history, as one record of eight in the words of its lines.
//!
//! The parts are laws of the crates below: `history_law`, `exchange_law`, `component_law`, `cause_law`, `ready_law`
//! and `headline_law`. Here are more: messages are numbered as they are sent, and are taken by who hears; an event
//! delivers what it has to; what a repair leaves short it counted, and it is short; a component times out, and a client
//! refuses, where it has to; a recall has its cause; what replies carry are bytes, if messages are; at each moment the
//! components of a zoned file are spread over zones; if a file is made, its CREATEs go to its components' drives; a call
//! that ended in ok has its entry in the log; an acknowledged write has stored its bytes; a ready read of a calm event
//! gives what the writes before it leave; each note of the server has its cause, what a job is at ends with its note,
//! and until then the job awaits something; and a file's format changes only as it has to.
#![tactic(auto)]

mod laws;
mod note_laws;
mod sound_laws;

pub use laws::{
    clients_refuse, components_stand_spread, components_time_out, ended_calls_are_logged,
    events_deliver, files_are_created, messages_are_numbered, messages_are_received,
    ready_reads_are_plain, recalls_are_caused, repairs_leave_counted_short, replies_carry_bytes,
    writes_are_stored,
};
pub use note_laws::{
    formats_have_causes, founds_have_causes, heard_have_causes, jobs_wait, notes_have_causes,
    reaches_have_causes, refusals_are_told, stages_have_ends,
};
pub use sound_laws::histories_are_sound;
