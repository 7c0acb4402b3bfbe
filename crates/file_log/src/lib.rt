//! The log of a file, and the judge that says whether its reads were answered rightly.
//!
//! A log lists a file's writes and reads in the order in which they started. The judge goes
//! through it once. It keeps, for each position of the file, the values that may stand there, and
//! the sizes that the file may have. An acknowledged write leaves its own bytes alone; a write that
//! isn't acknowledged adds its bytes to what may stand there; an answered read has to find its
//! bytes among them, and settles them once for all.
#![tactic(auto)]

mod entry;
mod held;
mod judgement;
mod laws;
mod sizes;
mod values;

pub use entry::Entry;
pub use judgement::judge;
pub use laws::{plain, range_found};
