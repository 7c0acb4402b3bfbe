// What is kept of lines one by one: their numbers, and whether what they inject was sent before.
ghost use Rattle.std.specs.Prelude.{◌≡◌, OnOk};
ghost use Rattle.std.specs.List.{fold};
ghost use Rattle.world_history.specs.Summing.{counts_line};
ghost use Rattle.world_watch.specs.Capping.{Counts};
ghost use Rattle.world_watch.specs.Watching.{sees_all};

use crate::guesses::Guesses;
use crate::tally::Tally;
use osd_lists::Memory;
use scenario_text::Line;
use std::alloc::Global;
use world_network::Network;

/// Counts some lines.
pub fn count_all(tally: &mut Tally, lines: &[Line])
    ensures { Counts (λ s. fold counts_line s lines.now) tally.old tally.new }
{
    for line in lines {
        tally.count(line);
    }
}

/// Sees some lines. `network` has all messages of them.
pub fn see_all(
    guesses: &mut Guesses,
    alloc: Global,
    network: &Network,
    lines: &[Line],
) -> Result<(), Memory>
    ensures { OnOk result (guesses.new ≡ sees_all guesses.old network.now.messages lines.now) }
{
    for line in lines {
        guesses.see(alloc, network, line)?;
    }
    Ok(())
}
