// The stripes of ended grants.
ghost use Rattle.std.specs.Prelude.{◌≡◌, ◌≤◌, IfOk};
ghost use Rattle.data_map.specs.declared.ranges.TheConstants.{MAX_FILE_SIZE};
ghost use Rattle.server_rules.specs.Grants.{count_stripes, joined, merged};
ghost use Rattle.file_jobs.specs.Ranges.{EndInside, Rise};

use osd_lists::{Memory, Sequence};
use server_rules::{Grant, Stripes};
use std::alloc::Global;

// Joins one more range to ranges that rise and don't touch.
#[tactic(auto, unfolding(server_rules::specs::Grants::joined))]
fn joined(alloc: Global, range: Stripes, ranges: &[Stripes]) -> Result<Sequence<Stripes>, Memory>
    ensures { IfOk result (λ all. all ≡ joined range ranges.now) }
{
    let mut all = Sequence::new(alloc);
    let mut range = range;
    for i in 0..ranges.len() {
        let next = ranges[i];
        if next.end < range.first {
            all.push(next)?;
        } else if range.end < next.first {
            let (_, rest) = ranges.split_at(i);
            all.push(range)?;
            all.extend_from_slice(rest)?;
            return Ok(all);
        } else {
            range = Stripes {
                first: range.first.min(next.first),
                end: range.end.max(next.end),
            };
        }
    }
    all.push(range)?;
    Ok(all)
}

/// The stripes of the grants for writing, each once, in order.
#[tactic(auto, unfolding(server_rules::specs::Grants::merged))]
pub fn merged(alloc: Global, grants: &[Grant]) -> Result<Sequence<Stripes>, Memory>
    requires { EndInside grants.now }
    ensures value { IfOk result (λ ranges. ranges ≡ merged grants.now) }
    ensures rise { IfOk result (λ ranges. Rise 0 ranges) }
{
    let mut ranges = Sequence::new(alloc);
    let mut i = grants.len();
    while i > 0 {
        i -= 1;
        let grant = grants[i];
        if grant.rw {
            let range = Stripes {
                first: grant.first,
                end: grant.end,
            };
            ranges = joined(alloc, range, ranges.as_slice())?;
        }
    }
    Ok(ranges)
}

/// How many stripes the ranges have.
pub fn count_stripes(ranges: &[Stripes]) -> u64
    requires { Rise 0 ranges.now }
    ensures value { result ≡ count_stripes ranges.now }
    ensures bound { result ≤ MAX_FILE_SIZE }
{
    let mut count = 0u64;
    for range in ranges {
        count += range.end.saturating_sub(range.first);
    }
    count
}
