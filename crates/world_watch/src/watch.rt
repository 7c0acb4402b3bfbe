ghost use Rattle.std.specs.Prelude.{◌≡◌, OnOk};
ghost use Rattle.scenario_text.specs.declared.line.Line.TheVariants.{Last};
ghost use Rattle.world_watch.specs.State.{no_watch};
ghost use Rattle.world_watch.specs.Steps.{sees_move};
ghost use Rattle.world_watch.specs.Watching.{HasSeen};

use crate::guesses::Guesses;
use crate::lines::{count_all, see_all};
use crate::steps::see_steps;
use crate::tally::Tally;
use osd_lists::Memory;
use scenario_text::Line;
use server_rules::Mended;
use std::alloc::Global;
use std::marker::Model;
use world_calm::{Calm, KeptFiles};
use world_history::Summary;
use world_network::Network;

/// The two flags of a transcript's last line, and the numbers of its calls, as far as the lines go.
#[derive(Drop)]
pub struct Watch {
    alloc: Global,
    calm: Calm,
    guesses: Guesses,
    tally: Tally,
}

impl Model for Watch {
    ghost use Rattle.world_watch.specs.State.{WatchState};

    ghost Value = { WatchState };

    ghost view = { λ w. record { guesses = w.guesses; summary = w.tally; moments = w.calm } };
}

impl Watch {
    /// Of a run that has no line yet.
    pub fn new(alloc: Global) -> Self
        ensures { result ≡ no_watch }
    {
        Watch {
            alloc,
            calm: Calm::new(alloc),
            guesses: Guesses::new(alloc),
            tally: Tally::new(),
        }
    }

    /// The last line of a transcript that ends here.
    pub fn last_line(&self) -> Line
        ensures { result ≡ Last self.now.moments.calm self.now.guesses.unguessed }
    {
        Line::Last {
            calm: self.calm.calm(),
            unguessed: self.guesses.unguessed(),
        }
    }

    /// The numbers of the lines so far.
    pub fn summary(&self) -> Summary
        ensures { result ≡ self.now.summary }
    {
        self.tally.summary()
    }

    /// Sees the lines of a move, after it, as far as calm hangs on them: `server` and `network` are as it leaves them,
    /// and `mended` are the repairs that it ended. The lines of earlier events were seen by [`Watch::see_event`].
    pub fn see_move<S: KeptFiles>(
        &mut self,
        network: &Network,
        lines: &[Line],
        server: &S,
        mended: &[Mended],
    ) -> Result<(), Memory>
        ensures guesses { self.new.guesses ≡ self.old.guesses }
        ensures summary { self.new.summary ≡ self.old.summary }
        ensures moments { OnOk result
            (self.new.moments ≡ sees_move
            (S.kept_of server.now) mended.now self.old.guesses.sightings network.now.messages self.old.moments lines.now) }
    {
        see_steps(
            &mut self.calm,
            self.guesses.sightings(),
            network,
            lines,
            server,
            mended,
        )
    }

    /// Sees all lines of an event, after it: `network` is as it leaves it.
    pub fn see_event(&mut self, network: &Network, lines: &[Line]) -> Result<(), Memory>
        ensures seen { OnOk result (HasSeen network.now.messages lines.now self.old self.new) }
        ensures moments { self.new.moments ≡ self.old.moments }
    {
        count_all(&mut self.tally, lines);
        see_all(&mut self.guesses, self.alloc, network, lines)
    }
}
