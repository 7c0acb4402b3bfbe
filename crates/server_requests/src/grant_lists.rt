ghost use Rattle.std.specs.Prelude.{◌≡◌, IfOk};
ghost use Rattle.server_rules.specs.Grants.{against, any_expired, without};

use grant_table::conflicts;
use osd_lists::Memory;
use server_rules::{Grant, Grants};
use std::alloc::Global;

/// The grants that conflict with a further one, in order.
pub fn against(alloc: Global, grants: &[Grant], asked: &Grant) -> Result<Grants, Memory>
    ensures { IfOk result (λ gs. gs ≡ against grants.now asked.now) }
{
    let mut found = Grants::new(alloc);
    for grant in grants {
        if conflicts(asked, grant) {
            found.push(*grant)?;
        }
    }
    Ok(found)
}

/// Whether a grant that conflicts with a further one is expired at this time of the server's clock.
pub fn any_expired(now: u64, grants: &[Grant], asked: &Grant) -> bool
    ensures { result ≡ any_expired now (against grants.now asked.now) }
{
    for grant in grants {
        if conflicts(asked, grant) && grant.expiry < now {
            return true;
        }
    }
    false
}

/// The grants of the other clients, in order.
pub fn without(alloc: Global, grants: &[Grant], client: u32) -> Result<Grants, Memory>
    ensures { IfOk result (λ gs. gs ≡ without grants.now client) }
{
    let mut left = Grants::new(alloc);
    for grant in grants {
        if grant.client != client {
            left.push(*grant)?;
        }
    }
    Ok(left)
}
