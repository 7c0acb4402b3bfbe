// Lost rows as sums of multiples of the two syndromes, the sums of a column's data with P and with Q in which lost
// bytes count as 0 (Anvin's formulas).
ghost use Rattle.std.specs.Prelude.{◌≡◌, ℕ, ◌+◌, ◌<◌, ◌≤◌, slice_index};
ghost use Rattle.gf256.specs.Lanes.{HasLanes};
ghost use Rattle.parity_code.specs.Repairs.{repaired, repair_of, first_repair, second_repair, IsRepair, AreRepairs, HasTables};

use gf256::lanes::{self, ProductTables};
use gf256::{inverse, mul, power};
use std::simd::prelude::*;

// Row `row` is `by_p` times the syndrome of P and `by_q` times that of Q.
#[derive(Clone, Copy)]
pub(crate) struct Repair {
    pub(crate) row: usize,
    pub(crate) by_p: u8,
    pub(crate) by_q: u8,
}

// Of one lost row.
pub(crate) fn repair_of_one(units: usize, x: usize) -> Repair
    requires { x ≤ units + 1 }
    ensures value { result ≡ repair_of units x }
    ensures repair { IsRepair units x result }
{
    if x <= units {
        Repair {
            row: x,
            by_p: 1,
            by_q: 0,
        }
    } else {
        Repair {
            row: x,
            by_p: 0,
            by_q: 1,
        }
    }
}

// Of two lost rows.
pub(crate) fn repairs_of_two(units: usize, x: usize, y: usize) -> (Repair, Repair)
    requires rising { x < y }
    requires last { y ≤ units + 1 }
    requires few { units ≤ 255 }
    ensures value { result ≡ (first_repair units x y, second_repair units x y) }
    ensures repair { AreRepairs units x y result.0 result.1 }
{
    if y < units {
        two_units(units, x, y)
    } else if y == units {
        unit_and_p(units, x, y)
    } else if x < units {
        unit_and_q(units, x, y)
    } else {
        p_and_q(units, x, y)
    }
}

fn two_units(units: usize, x: usize, y: usize) -> (Repair, Repair)
    requires rising { x < y }
    requires last { y < units }
    requires few { units ≤ 255 }
    ensures value { result ≡ (first_repair units x y, second_repair units x y) }
    ensures repair { AreRepairs units x y result.0 result.1 }
{
    let by_q = inverse(power(x as u32) ^ power(y as u32));
    let by_p = mul(by_q, power(y as u32));
    let first = Repair { row: x, by_p, by_q };
    let second = Repair {
        row: y,
        by_p: by_p ^ 1,
        by_q,
    };
    (first, second)
}

fn unit_and_p(units: usize, x: usize, y: usize) -> (Repair, Repair)
    requires unit { x < units }
    requires p { y ≡ units }
    requires few { units ≤ 255 }
    ensures value { result ≡ (first_repair units x y, second_repair units x y) }
    ensures repair { AreRepairs units x y result.0 result.1 }
{
    let by_q = inverse(power(x as u32));
    let first = Repair {
        row: x,
        by_p: 0,
        by_q,
    };
    let second = Repair {
        row: y,
        by_p: 1,
        by_q,
    };
    (first, second)
}

fn unit_and_q(units: usize, x: usize, y: usize) -> (Repair, Repair)
    requires unit { x < units }
    requires q { units < y }
    requires few { units ≤ 255 }
    ensures value { result ≡ (first_repair units x y, second_repair units x y) }
    ensures repair { AreRepairs units x y result.0 result.1 }
{
    let first = Repair {
        row: x,
        by_p: 1,
        by_q: 0,
    };
    let second = Repair {
        row: y,
        by_p: power(x as u32),
        by_q: 1,
    };
    (first, second)
}

fn p_and_q(units: usize, x: usize, y: usize) -> (Repair, Repair)
    requires p { x ≡ units }
    requires q { units < y }
    ensures value { result ≡ (first_repair units x y, second_repair units x y) }
    ensures repair { AreRepairs units x y result.0 result.1 }
{
    let first = Repair {
        row: x,
        by_p: 1,
        by_q: 0,
    };
    let second = Repair {
        row: y,
        by_p: 0,
        by_q: 1,
    };
    (first, second)
}

impl Repair {
    // The lost byte.
    pub(crate) fn byte(&self, p: u8, q: u8) -> u8
        ensures { result ≡ repaired self.now p q }
    {
        mul(self.by_p, p) ^ mul(self.by_q, q)
    }
}

// A repair for 64 columns at a time.
#[derive(Clone, Copy)]
pub(crate) struct RepairTables {
    pub(crate) row: usize,
    by_p: ProductTables,
    by_q: ProductTables,
}

impl RepairTables {
    pub(crate) fn new(repair: Repair) -> RepairTables
        ensures { HasTables repair result }
    {
        RepairTables {
            row: repair.row,
            by_p: ProductTables::new(repair.by_p),
            by_q: ProductTables::new(repair.by_q),
        }
    }

    // The lost bytes.
    #[inline(always)]
    pub(crate) fn block(&self, p: u8x64, q: u8x64) -> u8x64
        ensures { (r : Repair) → HasTables r self.now →
            HasLanes result (λ k. repaired r (slice_index p k) (slice_index q k)) }
    {
        lanes::sum(self.by_p.times(p), self.by_q.times(q))
    }
}
