//! What clients, the server and drives say to each other, in every history, whatever messages come, late and twice,
//! and in whichever order.
//!
//! A history is that of `world_history`. One request at a time: an answer that a client takes is the server's own to
//! the client's outstanding request. What a client holds is what the server gave it; its commands lie where their
//! capabilities allow, and where a call ends as refused, its drive gave that verdict on a command that the call
//! awaited. Where nothing is forged, an object's lanes are those of the clients and the server. Where nothing was
//! guessed, a client's newest command to it has a nonce as late as its lane's. No number with which a party counts
//! is greater than the number of messages, so numbers fit their places.
#![tactic(auto)]

mod laws;

pub use laws::{
    all_files_fit, answers_are_own, awaited_are_latest, awaited_are_taken, calls_are_pending,
    calls_end_fair, clients_agree, clients_are_counted, clients_are_in_step,
    commands_are_issued_exactly, commands_are_placed, commands_differ, counters_stay_low,
    each_message_is_kept, files_have_shape, given_is_taken, grants_are_later,
    held_grants_are_given, lanes_are_fair, lanes_are_own, messages_fit, moves_are_steps,
    no_slot_is_spent, nonces_differ, one_request, placed_are_never_misplaced, plans_stay_inside,
    reads_are_right, refusals_were_awaited, refusals_were_judged, server_is_counted,
    unforged_are_issued_exactly, within_the_limit_are_few,
};
