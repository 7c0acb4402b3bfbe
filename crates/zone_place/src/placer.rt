ghost use Rattle.std.specs.Prelude.{◌≡◌};
ghost use Rattle.std.specs.Result.{ForOk};
ghost use Rattle.zone_place.specs.Choosing.{CanSpread, Spreads, IsZonePlacer};

use crate::asks::ZoneAsk;
use crate::loads::ZoneLoad;
use osd_lists::{Memory, Numbers};
use std::marker::Model;

/// A rule, as a closure, by which the components of a file are spread over zones. Contracts see it as the closure.
///
/// The closure must be a placer: for at most 64 different drives, of which those online have room for what is asked, it
/// may be called, and its list has different online drives of these, as many as are asked, group after group, and no
/// group has more in one zone than is asked. A closure that doesn't keep that can't be stored.
#[derive(Drop)]
pub struct ZonePlacer<Z> {
    rule: Z,
}

impl<Z> Model for ZonePlacer<Z> {
    ghost Value = { Z };

    ghost view = { λ p. p.rule };
}

impl<Z> ZonePlacer<Z>
where
    Z: Fn(&ZoneAsk, &[ZoneLoad]) -> Result<Numbers, Memory>,
{
    /// Keeps a closure that is a placer.
    pub fn new(rule: Z) -> Self
        requires { IsZonePlacer Z.Fn rule }
        ensures { result ≡ rule }
    {
        ZonePlacer { rule }
    }

    /// Chooses online drives of these, spread as is asked. That the closure is a placer is asked again, since a type
    /// can't keep a fact about a closure.
    pub fn place(&self, ask: &ZoneAsk, loads: &[ZoneLoad]) -> Result<Numbers, Memory>
        requires rule { IsZonePlacer Z.Fn self.now }
        requires asked { CanSpread ask.now loads.now }
        ensures { ForOk result (Spreads ask.now loads.now) }
    {
        (self.rule)(ask, loads)
    }
}
