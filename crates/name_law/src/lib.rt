//! What no line of a transcript can name isn't told and isn't sent, by definition (`world_history`): a line has numbers for
//! 64 drives, 16 clients and 64 files, and tags of 32 bits. The laws of this crate say that in a history of a scenario's
//! text it never comes to that: lines can name all that the server has, each party that a party sends to, each note of the
//! server and each outcome of a call. So nothing is left out.
#![tactic(auto)]

mod laws;

pub use laws::{
    calls_of_text_are_pending, clients_send_to_named, drives_reply_to_named,
    each_server_step_is_named, messages_are_named, outcomes_are_told, parties_are_named,
    server_is_named, server_leaves_nothing_out, server_sends_to_named, texts_are_named,
    verdicts_name_tags,
};
