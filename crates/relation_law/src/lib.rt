//! Moves of a calm history and the machine of a file (`fence_law`): parts of the proof that each move keeps the relation
//! between them (`file_simulation`). `headline_law` proves the rest and joins them.
//!
//! # The relation
//!
//! `specs/Steps.antt` states what each part of the relation is behind a move. Proved are, part by part, most moves:
//! which events a move of each party can have and what these leave (`Frames`), requests (`Requests`), what the server
//! keeps (`Kept`), components and drives (`Components`, `Drive`), calls (`Calls`), messages and reads (`Messages`,
//! `Reads`), and what there is of a file when it is made (`Births`). The laws of this crate are what is whole. The other
//! modules are lemmas that these laws and `headline_law` stand on; the head of each says towards which statement.
//!
//! # Calls
//!
//! `specs/Working.antt` says what a client's call awaits of the drives while it works. The proofs follow a client's turn
//! from that: what it needs for its events and commands is there, and the plan of each write that it begins is that of the
//! write's entry in the machine. A step of the server on the client's request leaves what the answer says.
//!
//! # Repairs
//!
//! Whose the commands are that the server's jobs send for a file, and what may still come of them.
#![tactic(auto)]

mod call_laws;
mod relation_laws;
mod repair_laws;

pub use call_laws::{calls_go_on, clients_keep_runs};
pub use relation_laws::{components_go_on, files_are_shaped, kept_goes_on, requests_go_on};
pub use repair_laws::{
    drives_grow, each_fill_is_latest, each_send_is_awaited, heard_tells_of_writes,
    jobs_ask_their_own, owned_follows, quiet_follows, rebuilt_follow, spent_stays,
};
