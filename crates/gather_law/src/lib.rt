//! A client's gather ends with all that its write needs: what `plan_law` asks of a write that scatters.
#![tactic(auto)]

mod laws;

pub use laws::gathers_are_ready;
