//! What the scenario comes to that is made from a seed, by laws of all histories.
//!
//! `specs/Scenario.antt` has its events, `Plays.antt` says which worlds stand behind them, and `Rests.antt` what the parties rest
//! in between two calls. No event of it is refused, and nothing in it is guessed. A history counts the calls of its events. From
//! where the parties rest on, each call is ready, and leaves them at rest again (`Going.antt`). After the file is made they rest,
//! so each call ends in ok (`Opening.antt`).
//! A call takes few messages (`Few.antt`), and the history is calm if no line tells of a loss (`Calm.antt`). Up to 1,000 calls
//! few bytes are kept, and no line tells of one, so the scenario comes to its end, and it is calm (`Kept.antt`).
//! Then its summary is that of the same calls on one plain list of bytes (`Sums.antt`).
#![tactic(auto)]

mod laws;

pub use laws::{
    calls_are_of_events, calls_are_ready, calls_keep_rest, calls_take_few, each_call_rests,
    none_is_refused, opening_rests, rests_go_on, scenario_calls_end_in_ok, scenario_goes_well,
    scenario_has_counts, scenario_is_calm, scenario_is_unguessed, summary_is_plain,
    uninjected_is_unguessed,
};
