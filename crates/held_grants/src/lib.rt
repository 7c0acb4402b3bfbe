//! The grants that a client holds, and what it asks of the server.
//!
//! [`taken`] reads the layout of an answer into a grant (RFC 5664 5.2), or says why it can't be used;
//! [`HeldGrants`] keeps the grants by their files; [`covers`] tells which calls they are for. The arguments of
//! a client's requests are made here too. The rules are those of `client_rules`.
#![tactic(auto)]

mod calls;
mod components;
mod cover;
mod credentials;
mod dues;
mod grants;
mod requests;
mod taking;

pub use calls::{asked_span, clipped, file_of};
pub use components::missing_of;
pub use cover::{covers, is_for};
pub use credentials::{all_listed, any_secured, listed};
pub use dues::{Dues, make_due, take_due};
pub use grants::HeldGrants;
pub use requests::{commit_args, get_args, return_args};
pub use taking::{grant_from, grant_in};
