// The grants that a client holds.
ghost use Rattle.std.specs.Prelude.{◌≡◌, [], ℕ, Some, None, IfSome, IfNone, OnOk, OnErr};
ghost use Rattle.client_rules.specs.declared.grants.Held.{Held as Grant};
ghost use Rattle.client_rules.specs.Grants.{held_of, put_held, without_held};
ghost use Rattle.client_rules.specs.Going.{is_held};
ghost use Rattle.client_rules.specs.Steps.{all_due};
ghost use Rattle.std.specs.Map.{values_of};

use crate::dues::{Dues, make_due};
use client_rules::{Due, Held};
use osd_lists::Memory;
use std::alloc::Global;
use std::collections::BTreeMap;
use std::marker::Model;

/// The grants that a client holds, at most one of a file. Contracts see them as a list by rising file.
#[derive(Drop)]
pub struct HeldGrants {
    by_file: BTreeMap<u32, Held>,
}

impl Model for HeldGrants {
    ghost use Rattle.std.specs.Prelude.{List};
    ghost use Rattle.std.specs.Map.{values_of};
    ghost use Rattle.client_rules.specs.declared.grants.Held.{Held as Grant};
    ghost use Rattle.held_grants.specs.ByFile.{AreByFile};

    ghost Value = { List Grant };

    ghost view = { λ s. values_of s.by_file.entries };

    ghost invariant = { λ s. AreByFile s.by_file.entries };
}

impl HeldGrants {
    /// No grants, which takes no memory.
    pub fn new(alloc: Global) -> Self
        ensures { result ≡ [] }
    {
        HeldGrants {
            by_file: BTreeMap::new(alloc),
        }
    }

    /// The grant of a file.
    pub fn get(&self, file: u32) -> Option<&Held>
        ensures some { IfSome result (λ h. held_of self.now file ≡ Some h.now) }
        ensures none { IfNone result (held_of self.now file ≡ None) }
    {
        self.by_file.get(&file)
    }

    /// Whether a grant that is due is held.
    pub fn holds(&self, due: Due) -> bool
        ensures { result ≡ is_held self.now due }
    {
        match self.by_file.get(&due.file) {
            Some(held) => held.number == due.number,
            None => false,
        }
    }

    /// Takes out the grant of a file.
    pub fn take(&mut self, file: u32) -> Option<Held>
        ensures found { result ≡ held_of self.old file }
        ensures left { self.new ≡ without_held self.old file }
        // Put back it stands where it stood.
        ensures back { (h : Grant) → h.file ≡ file → put_held self.new h ≡ put_held self.old h }
    {
        self.by_file.remove(&file)
    }

    /// Puts a grant in the place of its file's former one. Where there is no memory nothing changes.
    pub fn put(&mut self, held: Held) -> Result<(), Memory>
        ensures ok { OnOk result (self.new ≡ put_held self.old held) }
        ensures err { OnErr result (self.new ≡ self.old) }
    {
        self.by_file.insert(held.file, held)?;
        Ok(())
    }

    /// Makes each grant due, by rising file.
    pub fn make_due(&self, dues: &mut Dues) -> Result<(), Memory>
        ensures { OnOk result (dues.new ≡ all_due dues.old self.now) }
    {
        make_each_due(&self.by_file, dues)
    }
}

// Makes each grant due, by rising file.
#[tactic(auto, unfolding(client_rules::specs::Steps::all_due))]
fn make_each_due(by_file: &BTreeMap<u32, Held>, dues: &mut Dues) -> Result<(), Memory>
    ensures { OnOk result (dues.new ≡ all_due dues.old (values_of by_file.now.entries)) }
{
    for (_, held) in by_file.iter() {
        make_due(dues, held.file, held.number)?;
    }
    Ok(())
}
