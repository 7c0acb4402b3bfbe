ghost use Rattle.std.specs.Prelude.{◌≡◌};
ghost use Rattle.std.specs.Result.{ForOk};
ghost use Rattle.zone_place.specs.Choosing.{CanSpread, Spreads};
ghost use Rattle.stripe_repair.specs.Placing.{CanPlace, Places, IsPlacer};

use crate::loads::DriveLoad;
use osd_lists::{Memory, Numbers};
use std::alloc::Global;
use std::marker::Model;
use zone_place::{ZoneAsk, ZoneLoad, deal};

/// A rule that chooses drives for components. Contracts of callers ask [`place`](Place::place) and
/// [`spread`](Place::spread) alone, so a rule may be a struct of its own, or a closure behind [`Placer`].
pub trait Place {
    /// The value keeps what its method promises. A type whose every value does leaves this as it is; [`Placer`] has
    /// here what its closure must keep, since a type can't keep a fact about a closure.
    ghost is_placer: { Self → Type 0 } = { λ _. Unit {0} };

    /// Chooses `count` different online drives of these, which are at most 64 different drives with as many online.
    fn place(&self, count: u32, loads: &[DriveLoad]) -> Result<Numbers, Memory>
        requires placer { is_placer self.now }
        requires asked { CanPlace count loads.now }
        ensures { ForOk result (Places count loads.now) };

    /// Chooses different online drives of these, spread over their zones as is asked. A rule that doesn't say how
    /// deals them to the groups by turns.
    fn spread(&self, alloc: Global, ask: &ZoneAsk, loads: &[ZoneLoad]) -> Result<Numbers, Memory>
        requires placer { is_placer self.now }
        requires asked { CanSpread ask.now loads.now }
        ensures { ForOk result (Spreads ask.now loads.now) }
    {
        deal(alloc, ask, loads)
    }
}

/// A placement rule that is a closure. Contracts see it as the closure.
///
/// The closure must be a placer: for at most 64 different drives of which at least as many are online as
/// are asked, it may be called, and its list has as many different online drives of these. A closure that
/// doesn't keep that can't be stored.
#[derive(Drop)]
pub struct Placer<F> {
    rule: F,
}

impl<F> Model for Placer<F> {
    ghost Value = { F };

    ghost view = { λ p. p.rule };
}

impl<F> Placer<F>
where
    F: Fn(u32, &[DriveLoad]) -> Result<Numbers, Memory>,
{
    /// Keeps a closure that is a placer.
    pub fn new(rule: F) -> Self
        requires { IsPlacer F.Fn rule }
        ensures { result ≡ rule }
    {
        Placer { rule }
    }

    /// Chooses `count` different online drives of these. That the closure is a placer is asked again, since a type
    /// can't keep a fact about a closure.
    pub fn place(&self, count: u32, loads: &[DriveLoad]) -> Result<Numbers, Memory>
        requires rule { IsPlacer F.Fn self.now }
        requires asked { CanPlace count loads.now }
        ensures { ForOk result (Places count loads.now) }
    {
        (self.rule)(count, loads)
    }
}

impl<F> Place for Placer<F>
where
    F: Fn(u32, &[DriveLoad]) -> Result<Numbers, Memory>,
{
    ghost is_placer = { λ rule. IsPlacer F.Fn rule };

    fn place(&self, count: u32, loads: &[DriveLoad]) -> Result<Numbers, Memory> {
        self.place(count, loads)
    }
}
