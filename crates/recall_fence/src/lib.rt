//! A fence: no drive performs anything under the ended grants of a file any more.
//!
//! A [`Fence`] asks each present component of a file to raise its policy access tag by 1 (RFC 5664 13.4)
//! and waits for all of them. From then on each capability that was written before has a former tag, so
//! no drive performs what it allows. The rules are those of `server_rules`.
#![tactic(auto)]

mod fence;
mod waiting;

pub use fence::{Fence, FenceErr, ObjectPlace};
pub use waiting::lowest;
