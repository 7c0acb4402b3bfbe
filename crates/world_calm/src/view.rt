ghost use Rattle.std.specs.Prelude.{◌≡◌, ◌==◌, ℕ, Option};
ghost use Rattle.std.specs.List.{list_any};
ghost use Rattle.std.specs.Option.{option_copied};
ghost use Rattle.world_history.specs.ServerNames.{Kept as KeptOf};
ghost use Rattle.world_calm.specs.Marking.{is_live_in};

use server_rules::{Grant, Kept};

/// What is read of the metadata server.
pub trait KeptFiles {
    /// What the server keeps of each file, by its number.
    ghost kept_of: { Self → ℕ → Option KeptOf };

    /// What the server keeps of a file, None where it has no file of that number.
    fn kept(&self, file: u32) -> Option<&Kept>
        ensures { option_copied result ≡ kept_of self.now file };
}

// Whether a grant is one of these.
fn has_grant(grants: &[Grant], number: u32) -> bool
    ensures { result ≡ list_any (λ g. g.number == number) grants.now }
{
    grants.iter().any(|grant| grant.number == number)
}

/// Whether a grant on a file is live.
pub fn is_live<S: KeptFiles>(server: &S, file: u32, grant: u32) -> bool
    ensures { result ≡ is_live_in grant (S.kept_of server.now file) }
{
    match server.kept(file) {
        Some(kept) => has_grant(kept.grants.as_slice(), grant),
        None => false,
    }
}
