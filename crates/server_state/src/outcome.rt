ghost use Rattle.std.specs.Prelude.{◌≡◌};
ghost use Rattle.server_state.specs.FileRequests.{said};

use server_requests::Told;
use server_rules::Grants;
use std::alloc::Global;

/// Who asks, when, and what the server counts on.
#[derive(Clone, Copy, PartialEq, Eq)]
pub struct Asking {
    /// The number of the client.
    pub client: u32,
    /// The time of the server's clock, in seconds.
    pub time: u64,
    /// The number of the next grant.
    pub next_grant: u64,
    /// The least format that a fence leaves a file with, 1 or 2.
    pub format: u8,
}

/// What a request did besides the file.
#[derive(Drop)]
pub struct Outcome {
    /// The grants whose holders are recalled.
    pub recalled: Grants,
    /// How many numbers of grants were used.
    pub numbers: u64,
    /// What is answered.
    pub told: Told,
}

/// An answer and nothing else.
pub fn says(alloc: Global, status: u32, detail: u32) -> Outcome
    ensures { result ≡ said status detail }
{
    Outcome {
        recalled: Grants::new(alloc),
        numbers: 0,
        told: Told {
            status,
            detail,
            grant: None,
        },
    }
}
