ghost use Rattle.std.specs.Prelude.{◌≡◌, [], ◌∷◌, ◌++◌, ◌↔◌, Err, find, is_some, IsTrue, MatchOption, OnOk, OnErr, IfErr};
ghost use Rattle.server_rules.specs.Laws.{Apart};
ghost use Rattle.grant_table.specs.declared.file_grants.GrantErr.TheVariants.{Memory as NoMemory};
ghost use Rattle.grant_table.specs.Refusals.{refusal};
ghost use Rattle.grant_table.specs.Numbered.{has_number, without_number};

use crate::conflict::{first_against, grant_of};
use server_rules::Grant;
use std::alloc::{AllocFailed, Global};
use std::marker::Model;
use thiserror::Error;

/// Why a grant isn't added. The first that applies is given, in this order.
#[derive(Clone, Copy, Debug, PartialEq, Eq, Error)]
pub enum GrantErr {
    /// A grant of this client conflicts with it; of several the oldest grant's client.
    #[error("a grant of client {holder} conflicts")]
    Conflict { holder: u32 },
    /// The grant's client has one on the file.
    #[error("the client has a grant on the file")]
    Twice,
    /// There is no memory for it.
    #[error("no memory for a grant")]
    Memory,
}

impl<T: Drop> From<AllocFailed<T>> for GrantErr {
    ghost use Rattle.grant_table.specs.declared.file_grants.GrantErr.TheVariants.{Memory};

    ghost from_gives = { λ _ e. e ≡ Memory };

    fn from(_: AllocFailed<T>) -> Self {
        GrantErr::Memory
    }
}

/// Why a grant may not stand beside the live ones of its file, `None` exactly where it may.
pub fn refusal(grants: &[Grant], grant: &Grant) -> Option<GrantErr>
    ensures { result ≡ refusal grants.now grant.now }
{
    if let Some(held) = first_against(grants, grant) {
        return Some(GrantErr::Conflict {
            holder: held.client,
        });
    }
    match grant_of(grants, grant.client) {
        Some(_) => Some(GrantErr::Twice),
        None => None,
    }
}

/// The live grants of one file, oldest first: no two conflict, and a client has at most one.
#[derive(Drop)]
pub struct FileGrants {
    grants: Vec<Grant>,
}

impl Model for FileGrants {
    ghost use Rattle.std.specs.Prelude.{List};
    ghost use Rattle.server_rules.specs.declared.grants.Grant.{Grant as Live};
    ghost use Rattle.server_rules.specs.Laws.{Apart};

    ghost Value = { List Live };

    ghost view = { λ s. s.grants.items };

    ghost invariant = { λ s. Apart s.grants.items };
}

// Whether a grant has that number.
fn has_number(grants: &[Grant], number: u32) -> bool
    ensures { result ≡ is_some (find (has_number number) grants.now) }
{
    for grant in grants {
        if grant.number == number {
            return true;
        }
    }
    false
}

// Takes out the first grant of that number.
fn take_out(grants: &mut Vec<Grant>, number: u32) -> Option<Grant>
    ensures found { result ≡ find (has_number number) grants.old.items }
    ensures left { grants.new.items ≡ without_number number grants.old.items }
{
    for i in 0..grants.len() {
        if grants[i].number == number {
            return Some(grants.remove(i));
        }
    }
    None
}

impl FileGrants {
    /// No grants, which takes no memory.
    pub fn new(alloc: Global) -> Self
        ensures { result ≡ [] }
    {
        FileGrants {
            grants: Vec::new(alloc),
        }
    }

    /// The grants, oldest first.
    pub fn as_slice(&self) -> &[Grant]
        ensures value { result.now ≡ self.now }
        ensures apart { Apart self.now }
    {
        self.grants.as_slice()
    }

    /// Whether there is no grant.
    pub fn is_empty(&self) -> bool
        ensures { IsTrue result ↔ (self.now ≡ []) }
    {
        self.grants.is_empty()
    }

    /// Adds a grant, the newest.
    ///
    /// # Errors
    ///
    /// As [`GrantErr`] says. Then the grants are as before.
    pub fn add(&mut self, grant: Grant) -> Result<(), GrantErr>
        ensures refused { MatchOption (refusal self.old grant) (IfErr result (λ e. e ≡ NoMemory))
            (λ e. result ≡ Err e) }
        ensures ok { OnOk result (self.new ≡ self.old ++ grant ∷ []) }
        ensures err { OnErr result (self.new ≡ self.old) }
    {
        match refusal(self.grants.as_slice(), &grant) {
            Some(reason) => return Err(reason),
            None => self.grants.push(grant)?,
        }
        Ok(())
    }

    /// Whether a grant has that number.
    pub fn has(&self, number: u32) -> bool
        ensures { result ≡ is_some (find (has_number number) self.now) }
    {
        has_number(self.grants.as_slice(), number)
    }

    /// Takes out the first grant of that number, `None` exactly where there is none.
    pub fn remove(&mut self, number: u32) -> Option<Grant>
        ensures found { result ≡ find (has_number number) self.old }
        ensures left { self.new ≡ without_number number self.old }
    {
        take_out(&mut self.grants, number)
    }
}
