ghost use Rattle.std.specs.Prelude.{◌≡◌};
ghost use Rattle.server_rules.specs.Get.{lowest};
ghost use Rattle.server_state.specs.FileRequests.{waited};

use file_jobs::FileState;
use server_rules::Awaited;

/// The lowest component of some commands, 0 where there is none.
#[tactic(auto, unfolding(server_rules::specs::Get::lowest_after))]
pub fn lowest(awaited: &[Awaited]) -> u32
    ensures { result ≡ lowest awaited.now }
{
    let mut least = None;
    for command in awaited {
        least = match least {
            Some(found) => Some(command.component.min(found)),
            None => Some(command.component),
        };
    }
    least.unwrap_or(0)
}

/// The lowest component that the file's job waits for, `None` exactly where no job runs.
pub fn waits(file: &FileState) -> Option<u32>
    ensures { result ≡ waited file.now.job }
{
    match &file.job {
        Some(job) => Some(lowest(job.awaited.as_slice())),
        None => None,
    }
}
