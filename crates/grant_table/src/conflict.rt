ghost use Rattle.std.specs.Prelude.{◌≡◌, find};
ghost use Rattle.server_rules.specs.Grants.{conflicts, grant_of};

use server_rules::Grant;

/// Whether two grants of one file can't both be live: their clients differ, and one is for writing and
/// some stripe is in both, or one is extending.
#[tactic(auto, unfolding(server_rules::specs::Grants::conflicts, server_rules::specs::Grants::overlaps))]
pub fn conflicts(a: &Grant, b: &Grant) -> bool
    ensures { result ≡ conflicts a.now b.now }
{
    let overlap = a.first.max(b.first) < a.end.min(b.end);
    a.client != b.client && ((a.rw || b.rw) && overlap || (a.extending || b.extending))
}

/// The first grant of the client.
pub fn grant_of(grants: &[Grant], client: u32) -> Option<Grant>
    ensures { result ≡ grant_of grants.now client }
{
    for grant in grants {
        if grant.client == client {
            return Some(*grant);
        }
    }
    None
}

/// The first of these grants of a file that conflicts with a further one.
pub fn first_against(grants: &[Grant], asked: &Grant) -> Option<Grant>
    ensures { result ≡ find (conflicts asked.now) grants.now }
{
    for grant in grants {
        if conflicts(asked, grant) {
            return Some(*grant);
        }
    }
    None
}
