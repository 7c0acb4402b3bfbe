ghost use Rattle.std.specs.Prelude.{◌≡◌, [], ◌∷◌, ◌++◌, ℕ, Err, find, is_some, MatchOption, IsSome, IfSome, IfNone, OnOk, OnErr, IfErr, IfOk};
ghost use Rattle.server_rules.specs.Laws.{Apart};
ghost use Rattle.grant_table.specs.declared.file_grants.GrantErr.TheVariants.{Memory as NoMemory};
ghost use Rattle.grant_table.specs.Refusals.{refusal};
ghost use Rattle.grant_table.specs.Numbered.{has_number, without_number};
ghost use Rattle.grant_table.specs.Tables.{grants_of, Replaces, Removes, HasNone, Same};

use crate::file_grants::{FileGrants, GrantErr};
use osd_lists::Memory;
use server_rules::{Grant, Grants as GrantList};
use std::alloc::Global;
use std::collections::BTreeMap;
use std::marker::Model;
use thiserror::Error;

/// There is no grant of that number.
#[derive(Clone, Copy, Debug, PartialEq, Eq, Error)]
#[error("there is no such grant")]
pub struct NoGrant;

/// The live grants of all files. Of no file it ever holds two that conflict, or two of one client.
///
/// Contracts see it as the lists of grants by file, in order of files.
#[derive(Drop)]
pub struct Grants {
    alloc: Global,
    by_file: BTreeMap<u32, FileGrants>,
    // The file of each grant by its number, so that one is found without looking through all files. Where
    // it names none, or one without the grant, the files are looked through all the same.
    file_by_number: BTreeMap<u32, u32>,
}

impl Model for Grants {
    ghost use Rattle.std.specs.Prelude.{List, ℕ};
    ghost use Rattle.server_rules.specs.declared.grants.Grant.{Grant as Live};

    ghost Value = { List (ℕ × List Live) };

    ghost view = { λ s. s.by_file.entries };
}

// The first file that has a grant of that number.
fn file_with(by_file: &BTreeMap<u32, FileGrants>, number: u32) -> Option<u32>
    ensures some { IfSome result (λ file. IsSome (find (has_number number) (grants_of by_file.now.entries file))) }
    ensures none { IfNone result (HasNone number by_file.now.entries) }
{
    for (file, grants) in by_file.iter() {
        if grants.has(number) {
            return Some(*file);
        }
    }
    None
}

// Whether the file has a grant of that number.
fn holds(by_file: &BTreeMap<u32, FileGrants>, file: u32, number: u32) -> bool
    ensures { result ≡ is_some (find (has_number number) (grants_of by_file.now.entries file)) }
{
    match by_file.get(&file) {
        Some(grants) => grants.has(number),
        None => false,
    }
}

// A file that has a grant of that number: where this one has it, this one.
fn locate(by_file: &BTreeMap<u32, FileGrants>, likely: Option<u32>, number: u32) -> Option<u32>
    ensures some { IfSome result (λ file. IsSome (find (has_number number) (grants_of by_file.now.entries file))) }
    ensures none { IfNone result (HasNone number by_file.now.entries) }
{
    match likely {
        Some(file) if holds(by_file, file, number) => Some(file),
        _ => file_with(by_file, number),
    }
}

// Adds a grant to those of its file, as the newest.
fn add_to(
    by_file: &mut BTreeMap<u32, FileGrants>,
    alloc: Global,
    grant: Grant,
) -> Result<(), GrantErr>
    ensures refused { MatchOption (refusal (grants_of by_file.old.entries grant.file) grant)
        (IfErr result (λ e. e ≡ NoMemory)) (λ e. result ≡ Err e) }
    ensures ok { OnOk result (Replaces by_file.old.entries grant.file
        (grants_of by_file.old.entries grant.file ++ grant ∷ []) by_file.new.entries) }
    ensures err { OnErr result (Same by_file.old.entries by_file.new.entries) }
{
    if let Some(grants) = by_file.get_mut(&grant.file) {
        return grants.add(grant);
    }
    let mut grants = FileGrants::new(alloc);
    grants.add(grant)?;
    by_file.insert(grant.file, grants)?;
    Ok(())
}

// Takes out the file's first grant of that number.
fn take_from(by_file: &mut BTreeMap<u32, FileGrants>, file: u32, number: u32) -> Option<Grant>
    ensures found { result ≡ find (has_number number) (grants_of by_file.old.entries file) }
    ensures left { Replaces by_file.old.entries file
        (without_number number (grants_of by_file.old.entries file)) by_file.new.entries }
{
    match by_file.get_mut(&file) {
        Some(grants) => grants.remove(number),
        None => None,
    }
}

// Forgets the file where it has no grant.
fn forget_empty(by_file: &mut BTreeMap<u32, FileGrants>, file: u32)
    ensures { Same by_file.old.entries by_file.new.entries }
{
    let is_empty = match by_file.get(&file) {
        Some(grants) => grants.is_empty(),
        None => false,
    };
    if is_empty {
        by_file.remove(&file);
    }
}

impl Grants {
    /// No grants, which takes no memory.
    pub fn new(alloc: Global) -> Self
        ensures { (file : ℕ) → grants_of result file ≡ [] }
    {
        Grants {
            alloc,
            by_file: BTreeMap::new(alloc),
            file_by_number: BTreeMap::new(alloc),
        }
    }

    /// Adds a grant to those of its file, as the newest.
    ///
    /// # Errors
    ///
    /// As [`GrantErr`] says. Then the grants of each file are as before.
    pub fn add(&mut self, grant: Grant) -> Result<(), GrantErr>
        ensures refused { MatchOption (refusal (grants_of self.old grant.file) grant) (IfErr result (λ e. e ≡ NoMemory))
            (λ e. result ≡ Err e) }
        ensures ok { OnOk result (Replaces self.old grant.file (grants_of self.old grant.file ++ grant ∷ []) self.new) }
        ensures err { OnErr result (Same self.old self.new) }
    {
        add_to(&mut self.by_file, self.alloc, grant)?;
        // If there is no memory for the hint, the grant is found all the same.
        let _ = self.file_by_number.insert(grant.number, grant.file);
        Ok(())
    }

    /// Takes out the grant of that number; where several have it, one that is the oldest such of its file.
    ///
    /// # Errors
    ///
    /// [`NoGrant`] exactly where no grant has the number. Then nothing changes.
    pub fn remove(&mut self, number: u32) -> Result<Grant, NoGrant>
        ensures ok { IfOk result (λ g. (file : ℕ) × Removes self.old number file g self.new) }
        ensures err { OnErr result (HasNone number self.old × Same self.old self.new) }
    {
        let likely = self.file_by_number.remove(&number);
        let file = match locate(&self.by_file, likely, number) {
            Some(file) => file,
            None => return Err(NoGrant),
        };
        match take_from(&mut self.by_file, file, number) {
            Some(grant) => {
                forget_empty(&mut self.by_file, file);
                Ok(grant)
            }
            None => Err(NoGrant),
        }
    }

    /// The live grants of a file, oldest first. No two conflict, and a client has at most one.
    pub fn of_file(&self, file: u32) -> Result<GrantList, Memory>
        ensures ok { IfOk result (λ gs. gs ≡ grants_of self.now file) }
        ensures apart { Apart (grants_of self.now file) }
    {
        match self.by_file.get(&file) {
            Some(grants) => GrantList::copied(self.alloc, grants.as_slice()),
            None => Ok(GrantList::new(self.alloc)),
        }
    }
}
