//! The network of a world: every message that was ever sent, with its line, and the bytes that are kept.
//!
//! What a party did is an [`Act`]: what it tells, and behind that what it sends. [`perform`] appends the lines and posts
//! the messages; [`acts_are_moves`] says that this is the move of `world_history`, where the act is the world's.
//!
//! The rules of drives, clients and the server number their parties and speak in types of their own. Each of these has
//! a word in the transcript. A line can name the drives 0 to 63, the clients 0 to 15 and the files 0 to 63 alone, so a
//! value whose number is beyond these has no word.
#![tactic(auto)]

mod acts;
mod laws;
mod members;
mod move_laws;
mod network;
mod notes;
mod outcomes;
mod parties;
mod performing;
mod posting;
mod telling;
mod verdicts;

pub use acts::{Act, Handed, Postings};
pub use laws::network_shows;
pub use members::take_member;
pub use move_laws::acts_are_moves;
pub use network::{Lines, Network};
pub use notes::{told_map_err, told_note};
pub use outcomes::{kind_of, told_outcome, told_refusal, told_why};
pub use parties::{node_of, party_of};
pub use performing::{behind, perform};
pub use posting::Posting;
pub use telling::lines_of;
pub use verdicts::{told_verdict, verdict_with};
