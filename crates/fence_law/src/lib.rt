// One striped file under leases with a fence, over every schedule: its laws.
#![tactic(auto)]

ghost use Rattle.fence_law.specs.Runs.{IsMeantThen};
ghost use Rattle.fence_law.specs.Examples.{IsShown};
ghost use Rattle.fence_law.specs.Law.{IsAudited, IsConflictFree, IsFenced, IsGranted, IsJudged, IsKept, IsLogged, IsRestored, IsSized, IsSpared, IsWhole};

/// In every run, beside an extending grant no other client has one, and grants of different clients that share a column are both
/// for reading.
pub fn conflict_free()
    ensures { IsConflictFree }
{}

/// In every run, what a drive may write is of a grant for writing that is live, or that the running fence ends.
pub fn granted()
    ensures { IsGranted }
{}

/// In every run, nothing of a grant that a fence ended is performed from the fence's end on.
pub fn fenced()
    ensures { IsFenced }
{}

/// In every run, a client's call under a live grant knows the size.
pub fn sized()
    ensures { IsSized }
{}

/// In every run, no call's command is performed at a component that was dropped after its grant.
pub fn spared()
    ensures { IsSpared }
{}

/// Right after a repair no column that it counts as repaired is disturbed.
pub fn restored()
    ensures { IsRestored }
{}

/// The judge accepts the log of every calm run.
pub fn judged()
    ensures { IsJudged }
{}

/// A calm run whose writes are pieces of bytes has a log that the judge reads.
pub fn has_log()
    ensures { IsLogged }
{}

/// In every run, what a proof that follows the program's steps may use of grants, writes and sizes.
pub fn kept()
    ensures { IsKept }
{}

/// In a calm run a column that isn't disturbed is whole, of bytes among the judge's values, which are the
/// same for all columns.
pub fn whole()
    ensures { IsWhole }
{}

/// In a calm run, while no repair runs and no grant is outstanding, each column is whole.
pub fn audited()
    ensures { IsAudited }
{}

/// Three short runs, and what their reads answer.
pub fn shown()
    ensures { IsShown }
{}

/// With "lost" meant of the present moment, an undisturbed column needn't be whole.
pub fn meant_then()
    ensures { IsMeantThen }
{}
