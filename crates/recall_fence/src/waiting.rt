ghost use Rattle.std.specs.Prelude.{◌≡◌, ◌==◌, not, filter};
ghost use Rattle.recall_fence.specs.Waiting.{lowest};

/// The lowest of some numbers, `None` exactly where there is none.
#[tactic(auto, unfolding(crate::specs::Waiting::lower))]
pub fn lowest(numbers: &[u32]) -> Option<u32>
    ensures { result ≡ lowest numbers.now }
{
    let mut least = None;
    for number in numbers {
        least = match least {
            Some(found) if found <= *number => Some(found),
            _ => Some(*number),
        };
    }
    least
}
