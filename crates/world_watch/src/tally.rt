ghost use Rattle.std.specs.Prelude.{◌≡◌};
ghost use Rattle.scenario_text.specs.declared.line.Outcome.TheVariants.{ReadOk};
ghost use Rattle.world_history.specs.Summing.{counts_call, counts_event, counts_line, counts_outcome, no_summary};
ghost use Rattle.world_watch.specs.Capping.{capped, capped_summary, Counts, sum_onto};

use scenario_text::{Call, Event, Line, Outcome};
use std::marker::Model;
use world_history::Summary;

/// The numbers of the lines so far. A number above 18,446,744,073,709,551,615 stays there.
#[derive(Drop)]
pub struct Tally {
    summary: Summary,
}

impl Model for Tally {
    ghost use Rattle.world_history.specs.declared.summary.Summary.{Summary as Numbers};

    ghost Value = { Numbers };

    ghost view = { λ t. t.summary };
}

// A sum and these bytes.
fn add_bytes(sum: u64, bytes: &[u8]) -> u64
    ensures { result ≡ sum_onto sum bytes.now }
{
    let mut sum = sum;
    for byte in bytes {
        sum = sum.saturating_add(u64::from(*byte));
    }
    sum
}

// A call more.
fn count_call(summary: &mut Summary, call: &Call)
    ensures { Counts (λ s. counts_call s call.now) summary.old summary.new }
{
    summary.calls = summary.calls.saturating_add(1);
    match call {
        Call::Write { .. } => summary.writes = summary.writes.saturating_add(1),
        Call::Read { .. } => summary.reads = summary.reads.saturating_add(1),
    }
}

// An event, which may be a call.
fn count_event(summary: &mut Summary, event: &Event)
    ensures { Counts (λ s. counts_event s event.now) summary.old summary.new }
{
    match event {
        Event::Do { call, .. } => count_call(summary, call),
        Event::Call { call, .. } => count_call(summary, call),
        _ => {}
    }
}

// A read that was answered.
fn count_read(summary: &mut Summary, bytes: &[u8])
    ensures { Counts (λ s. counts_outcome s (ReadOk bytes.now)) summary.old summary.new }
{
    summary.ok = summary.ok.saturating_add(1);
    summary.read_bytes = summary.read_bytes.saturating_add(bytes.len() as u64);
    summary.read_sum = add_bytes(summary.read_sum, bytes);
}

// A call that ended.
fn count_outcome(summary: &mut Summary, outcome: &Outcome)
    ensures { Counts (λ s. counts_outcome s outcome.now) summary.old summary.new }
{
    match outcome {
        Outcome::WriteOk { .. } => summary.ok = summary.ok.saturating_add(1),
        Outcome::ReadOk { bytes } => count_read(summary, bytes.as_slice()),
        Outcome::Failed { .. } => {}
    }
}

impl Tally {
    /// That of no line.
    pub fn new() -> Self
        ensures { result ≡ no_summary }
    {
        Tally {
            summary: Summary {
                calls: 0,
                ok: 0,
                writes: 0,
                reads: 0,
                read_bytes: 0,
                read_sum: 0,
            },
        }
    }

    /// Counts a line more.
    pub fn count(&mut self, line: &Line)
        ensures { Counts (λ s. counts_line s line.now) self.old self.new }
    {
        match line {
            Line::Event { event } => count_event(&mut self.summary, event),
            Line::Ended { outcome, .. } => count_outcome(&mut self.summary, outcome),
            _ => {}
        }
    }

    /// The numbers so far.
    pub fn summary(&self) -> Summary
        ensures { result ≡ self.now }
    {
        self.summary
    }
}
