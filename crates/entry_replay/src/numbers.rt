// Counters and formats.
ghost use Rattle.std.specs.Prelude.{◌≡◌, ◌≤◌, ◌+◌, true};
ghost use Rattle.osd_capability.specs.Layout.{is_format};
ghost use Rattle.server_rules.specs.declared.limits.TheConstants.{GREATEST_GRANT};
ghost use Rattle.server_state.specs.States.{server_of, IsReady};
ghost use Rattle.server_entries.specs.Applying.{applied, can_count, next_grant_of};
ghost use Rattle.server_entries.specs.declared.entry.Entry.TheVariants as entry;
ghost use Rattle.entry_replay.specs.Replaying.{Becomes};

use osd_capability::{FORMAT_SHA1, FORMAT_SHA256};
use server_entries::{Applied, Counters};
use server_rules::GREATEST_GRANT;
use server_state::State;

// ---- counters

// The number of the next grant, above the greatest where none is left.
fn next_grant_of(told: u32) -> u64
    ensures value { result ≡ next_grant_of told }
    ensures bound { result ≤ GREATEST_GRANT + 1 }
{
    if told == 0 {
        u64::from(GREATEST_GRANT) + 1
    } else {
        u64::from(told)
    }
}

// No counter falls.
fn can_count(state: &State, counters: &Counters) -> bool
    ensures { result ≡ can_count (server_of state.now) counters.now }
{
    state.next_grant <= next_grant_of(counters.next_grant)
        && state.next_object <= counters.next_object
        && state.next_nonce <= counters.next_nonce
        && state.next_recall <= counters.next_recall
}

#[tactic(auto, unfolding(server_entries::specs::Applying::applied))]
pub(crate) fn apply_counters(state: &mut State, counters: &Counters) -> Applied
    requires ready { IsReady state.old }
    ensures applied { Becomes state.old state.new (applied (server_of state.old) (entry.Counters counters.now)) result }
    ensures ready { IsReady state.new }
{
    if !can_count(state, counters) {
        return Applied::Unmade;
    }
    state.next_grant = next_grant_of(counters.next_grant);
    state.next_object = counters.next_object;
    state.next_nonce = counters.next_nonce;
    state.next_recall = counters.next_recall;
    Applied::Done
}

// ---- formats

/// Whether a number is that of a format.
pub(crate) fn is_format(format: u32) -> bool
    ensures { result ≡ is_format format }
{
    format == u32::from(FORMAT_SHA1) || format == u32::from(FORMAT_SHA256)
}

/// The format of that number.
pub(crate) fn format_of(format: u32) -> u8
    requires { is_format format ≡ true }
    ensures { result ≡ format }
{
    format as u8
}

#[tactic(auto, unfolding(server_entries::specs::Applying::applied))]
pub(crate) fn apply_format(state: &mut State, format: u32) -> Applied
    requires ready { IsReady state.old }
    ensures applied { Becomes state.old state.new (applied (server_of state.old) (entry.Format format)) result }
    ensures ready { IsReady state.new }
{
    if !is_format(format) {
        return Applied::Unmade;
    }
    state.format = format_of(format);
    Applied::Done
}
