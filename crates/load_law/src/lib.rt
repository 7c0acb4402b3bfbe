//! How many commands a call sends to the drives.
#![tactic(auto)]

mod laws;

pub use laws::each_call_sends_few;
