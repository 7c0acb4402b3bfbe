// The components of a layout.
ghost use Rattle.std.specs.Prelude.{◌≡◌, ◌≤◌, IfOk, length};
ghost use Rattle.layout_types.specs.declared.parts.TheConstants.{MAX_MEMBERS};
ghost use Rattle.client_rules.specs.Grants.{missing_from};

use client_rules::Listed;
use osd_lists::{Memory, Numbers};
use std::alloc::Global;

/// The numbers of the components that a list has as missing, rising. There are at most
/// [`MAX_MEMBERS`](layout_types::MAX_MEMBERS) components.
#[tactic(auto, unfolding(client_rules::specs::Grants::missing_from))]
pub fn missing_of(alloc: Global, components: &[Listed]) -> Result<Numbers, Memory>
    requires { length components.now ≤ MAX_MEMBERS }
    ensures { IfOk result (λ ks. ks ≡ missing_from components.now 0) }
{
    let mut missing = Numbers::new(alloc);
    for k in 0..components.len() {
        if components[k].credential.is_none() {
            missing.push(k as u32)?;
        }
    }
    Ok(missing)
}
