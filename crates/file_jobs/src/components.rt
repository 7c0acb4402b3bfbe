// Components that become missing, and drives that are free for a file.
ghost use Rattle.std.specs.Prelude.{◌≡◌, ◌<◌, ◌≤◌, ◌^◌, ◌∷◌, [], length, IfOk};
ghost use Rattle.server_rules.specs.declared.limits.TheConstants.{MAX_FILE_COMPONENTS};
ghost use Rattle.server_rules.specs.Standing.{any_on, lose_from, lose_on, stood_on};

use osd_lists::Memory;
use server_rules::{Component, Components};
use std::alloc::Global;

/// The components, of which those on a drive are missing.
#[tactic(auto, unfolding(server_rules::specs::Standing::lose_on))]
pub fn lose_on(alloc: Global, components: &[Component], drive: u32) -> Result<Components, Memory>
    ensures { IfOk result (λ left. left ≡ lose_on drive components.now) }
{
    let mut left = Components::new(alloc);
    for at in components {
        let missing = at.missing || at.drive == drive;
        left.push(Component { missing, ..*at })?;
    }
    Ok(left)
}

/// The components, of which one is missing.
#[tactic(auto, unfolding(server_rules::specs::Standing::lose_from, server_rules::specs::Numbers::among))]
pub fn lose(alloc: Global, components: &[Component], lost: u32) -> Result<Components, Memory>
    requires { length components.now ≤ MAX_FILE_COMPONENTS }
    ensures { IfOk result (λ left. left ≡ lose_from (lost ∷ []) components.now 0) }
{
    let mut left = Components::new(alloc);
    let mut k = 0u32;
    for at in components {
        let missing = at.missing || k == lost;
        left.push(Component { missing, ..*at })?;
        k += 1;
    }
    Ok(left)
}

/// Whether a present component stands on the drive.
#[tactic(auto, unfolding(server_rules::specs::Standing::any_on))]
pub fn any_on(drive: u32, components: &[Component]) -> bool
    ensures { result ≡ any_on drive components.now }
{
    for at in components {
        if !at.missing && at.drive == drive {
            return true;
        }
    }
    false
}

/// Whether a component stands on the drive, or last stood there.
#[tactic(auto, unfolding(server_rules::specs::Standing::stood_on))]
pub fn stood_on(drive: u32, components: &[Component]) -> bool
    ensures { result ≡ stood_on drive components.now }
{
    for at in components {
        if at.drive == drive {
            return true;
        }
    }
    false
}
