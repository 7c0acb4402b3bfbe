//! Numbers that more than one crate has agree, and what follows from the limits.
//!
//! `specs/Agreement.antt` has the pairs, `specs/Consequences.antt` what the limits have to leave room for. `docs/LIMITS.md` lists
//! every limit.
#![tactic(auto)]

mod laws;

pub use laws::{limits_leave_room, numbers_agree};
