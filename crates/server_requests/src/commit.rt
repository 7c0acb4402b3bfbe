ghost use Rattle.std.specs.Prelude.{◌≡◌, ◌<◌, true};
ghost use Rattle.data_map.specs.declared.ranges.TheConstants.{MAX_FILE_SIZE};
ghost use Rattle.server_rules.specs.Commit.{commit_row, may_commit};
ghost use Rattle.server_requests.specs.Rows.{committed_rule};

use data_map::MAX_FILE_SIZE;
use grant_table::grant_of;
use server_rules::{Grant, Kept};

/// What a LAYOUTCOMMIT comes to.
#[derive(Clone, Copy, PartialEq, Eq)]
pub enum Committed {
    /// The client has no grant on the file.
    NoGrant,
    /// The grant isn't extending, or no last offset is told, or one that isn't in the grant's range.
    Wrong,
    /// The file has this size from now on, in bytes.
    Sizes { size: u64 },
}

// Whether the last offset may be committed under the grant.
#[tactic(auto, unfolding(server_rules::specs::Commit::may_commit))]
fn may_commit(stripe: u64, grant: &Grant, last: u64) -> bool
    ensures value { result ≡ may_commit stripe grant.now last }
    ensures low { result ≡ true → last < MAX_FILE_SIZE }
{
    let stripe = u128::from(stripe);
    let at = u128::from(last);
    grant.extending
        && u128::from(grant.first) * stripe <= at
        && at < u128::from(grant.end) * stripe
        && last < MAX_FILE_SIZE
}

/// The row of a LAYOUTCOMMIT of a client whose last written byte has this offset, if it tells one.
#[tactic(auto, unfolding(server_rules::specs::Commit::commit_under))]
pub fn commit_row(kept: &Kept, client: u32, last: Option<u64>) -> Committed
    ensures { committed_rule result ≡ commit_row kept.now client last }
{
    let grant = match grant_of(kept.grants.as_slice(), client) {
        Some(grant) => grant,
        None => return Committed::NoGrant,
    };
    let last = match last {
        Some(last) => last,
        None => return Committed::Wrong,
    };
    if may_commit(kept.map.stripe_length(), &grant, last) {
        return Committed::Sizes {
            size: kept.size.max(last + 1),
        };
    }
    Committed::Wrong
}
