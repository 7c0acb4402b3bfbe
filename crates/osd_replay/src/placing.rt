// Where components go.
ghost use Rattle.std.specs.Prelude.{IfOk, ◌≡◌, ℕ, map, take};
ghost use Rattle.std.specs.Result.{ForOk};
ghost use Rattle.stripe_repair.specs.Placing.{CanPlace, Places};
ghost use Rattle.osd_replay.specs.Placing.{online_pairs, IsInOrder, TakesFewest};

use osd_lists::{Memory, Numbers};
use std::alloc::Global;
use stripe_repair::DriveLoad;

// The online drives, each as its objects and its number, in no order.
fn online_drives(alloc: Global, loads: &[DriveLoad]) -> Result<Vec<(u32, u32)>, Memory>
    ensures { IfOk result (λ pairs. pairs.items ≡ online_pairs loads.now) }
{
    Ok(
        loads
            .iter()
            .filter(|load| load.online)
            .map(|load| (load.objects, load.drive))
            .collect(alloc)?,
    )
}

// The same, those with fewer objects first, and of equals those with lower numbers.
fn in_order(alloc: Global, loads: &[DriveLoad]) -> Result<Vec<(u32, u32)>, Memory>
    ensures { IfOk result (λ pairs. IsInOrder loads.now pairs.items) }
{
    let mut online = online_drives(alloc, loads)?;
    online.sort()?;
    Ok(online)
}

// The numbers of the first `count` of them.
fn first_numbers(alloc: Global, count: u32, pairs: &[(u32, u32)]) -> Result<Vec<u32>, Memory>
    ensures { IfOk result (λ chosen. chosen.items ≡ map (λ (pair : ℕ × ℕ). pair.1) (take count pairs.now)) }
{
    Ok(
        pairs
            .iter()
            .take(count as usize)
            .map(|pair| pair.1)
            .collect(alloc)?,
    )
}

/// So many online drives: those with the fewest objects, of equals those with the lower numbers first.
pub fn fewest_first(alloc: Global, count: u32, loads: &[DriveLoad]) -> Result<Numbers, Memory>
    requires { CanPlace count loads.now }
    ensures places { ForOk result (Places count loads.now) }
    ensures fewest { ForOk result (TakesFewest count loads.now) }
{
    let online = in_order(alloc, loads)?;
    let chosen = first_numbers(alloc, count, &online)?;
    Ok(Numbers::from_vec(chosen))
}
