// Stripes that are counted once.
ghost use Rattle.std.specs.Prelude.{◌≡◌, length, [], OnOk, OnErr};
ghost use Rattle.server_rules.specs.Numbers.{among, marked};

use osd_lists::{Memory, Times};
use std::alloc::Global;
use std::marker::Model;

/// Numbers that were marked, each once, in the order in which they were. A number above all of them is marked
/// in no more time than it takes to add it.
#[derive(Drop)]
pub struct Marks {
    numbers: Times,
    top: u64,
}

impl Model for Marks {
    ghost use Rattle.std.specs.Prelude.{ℕ, List};
    ghost use Rattle.stripe_repair.specs.Marks.{AreUpTo};

    ghost Value = { List ℕ };

    ghost view = { λ m. m.numbers };

    ghost invariant = { λ m. AreUpTo m.top m.numbers };
}

// Whether a number is one of these.
#[tactic(auto, unfolding(server_rules::specs::Numbers::among))]
fn among(number: u64, numbers: &[u64]) -> bool
    ensures { result ≡ among number numbers.now }
{
    for other in numbers {
        if number == *other {
            return true;
        }
    }
    false
}

impl Marks {
    /// None yet.
    pub fn new(alloc: Global) -> Self
        ensures { result ≡ [] }
    {
        Marks {
            numbers: Times::new(alloc),
            top: 0,
        }
    }

    /// How many there are.
    pub fn len(&self) -> usize
        ensures { result ≡ length self.now }
    {
        self.numbers.len()
    }

    /// Whether a number is marked.
    pub fn contains(&self, number: u64) -> bool
        ensures { result ≡ among number self.now }
    {
        if number > self.top {
            return false;
        }
        among(number, self.numbers.as_slice())
    }

    /// The numbers.
    pub fn as_slice(&self) -> &[u64]
        ensures { result.now ≡ self.now }
    {
        self.numbers.as_slice()
    }

    /// Marks a number. Where there is no memory nothing changes.
    #[tactic(auto, unfolding(server_rules::specs::Numbers::marked))]
    pub fn mark(&mut self, number: u64) -> Result<(), Memory>
        ensures ok { OnOk result (self.new ≡ marked number self.old) }
        ensures err { OnErr result (self.new ≡ self.old) }
    {
        if self.contains(number) {
            return Ok(());
        }
        self.numbers.push(number)?;
        self.top = self.top.max(number);
        Ok(())
    }
}
