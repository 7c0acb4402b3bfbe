//! Which grants are live, and which request of a client is carried out.
//!
//! [`Grants`] keeps the live grants of all files and never holds two that conflict. A [`Slot`] keeps of
//! one client the number of its last request and the answer to that, so that each request is carried
//! out at most once, in order, and the last one again is answered as before. The rules are those of
//! `server_rules`.
#![tactic(auto)]

mod conflict;
mod file_grants;
mod laws;
mod slot;
mod table;

pub use conflict::{conflicts, first_against, grant_of};
pub use file_grants::{FileGrants, GrantErr, refusal};
pub use laws::{slots_answer_repeats_alike, slots_carry_out_in_order, slots_follow_the_rules};
pub use server_rules::{Grant, Grants as GrantList};
pub use slot::{Admit, Slot};
pub use table::{Grants, NoGrant};
