//! What was done to a disk, where only clauses read it.
ghost use Rattle.std.specs.Prelude.{List, ℕ};
ghost use Rattle.osd_disk.specs.declared.calls.Call.{Call};
ghost use base.Fml.{ftrue};

use std::marker::Model;

/// The bytes of a disk before its first call, and its calls since. They are known to clauses alone: a `Past` takes no memory.
#[derive(Drop)]
pub(crate) struct Past {
    pub ghost first: { List ℕ },
    pub ghost calls: { List Call },
}

impl Model for Past {
    ghost also_owns = { λ _. ftrue };
}

impl Past {
    ghost use Rattle.std.specs.Prelude.{◌≡◌, ◌∷◌, [], ◌++◌};
    ghost use Rattle.osd_disk.specs.Medium.{Medium};
    ghost use Rattle.osd_disk.specs.declared.calls.Call.TheVariants.{Sync, Write};

    /// Nothing was done to a disk with these bytes.
    pub(crate) fn of_these(bytes: &[u8]) -> Past
        ensures first { result.first ≡ bytes.now }
        ensures calls { result.calls ≡ [] }
    {
        Past::from_bytes(bytes)
    }

    /// This past, and then a write of bytes from a place on.
    pub(crate) fn with_write(&self, at: u64, bytes: &[u8]) -> Past
        ensures first { result.first ≡ self.now.first }
        ensures calls { result.calls ≡ self.now.calls ++ Write at bytes.now ∷ [] }
    {
        self.from_call(at, bytes)
    }

    /// This past, and then a sync.
    pub(crate) fn with_sync(&self) -> Past
        ensures first { result.first ≡ self.now.first }
        ensures calls { result.calls ≡ self.now.calls ++ Sync ∷ [] }
    {
        self.from_call(0, &[])
    }

    // A past that the caller's proof tells of these bytes.
    fn from_bytes(_bytes: &[u8]) -> Past
        ghost told: { Medium }
        ensures first { result.first ≡ told.first }
        ensures calls { result.calls ≡ told.calls }
    {
        Past::from_nothing()
    }

    // A past that the caller's proof tells of this one and of a call.
    fn from_call(&self, _at: u64, _bytes: &[u8]) -> Past
        ghost told: { Medium }
        ensures first { result.first ≡ told.first }
        ensures calls { result.calls ≡ told.calls }
    {
        Past::from_nothing()
    }

    // A past that the caller's proof tells.
    fn from_nothing() -> Past
        ghost told: { Medium }
        ensures { (result.first ≡ told.first) × (result.calls ≡ told.calls) }
    {
        Past {}
    }
}
