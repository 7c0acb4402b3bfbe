ghost use Rattle.std.specs.Prelude.{◌≡◌, ◌<◌, ◌⊎◌, [], ◌∷◌, length, is_some, IsSome, IfOk, OnOk, OnErr};
ghost use Rattle.std.specs.Ordering.{nat_cmp};
ghost use Rattle.std.specs.BTreeMap.{insert_entry};
ghost use Rattle.std.specs.Option.{option_copied};
ghost use Rattle.osd_objects.specs.Attributes.{value_of};

use osd_lists::{Bytes, Memory};
use std::alloc::Global;
use std::collections::BTreeMap;
use std::marker::Model;

/// The number of the attribute that keeps an object's label, and the first of a user's own.
pub const FIRST_USER_ATTRIBUTE: u32 = 65_536;

/// How many attributes of its users an object keeps, its label being one of them.
pub const MAX_ATTRIBUTES: usize = 16;

/// Values by number.
#[derive(Drop)]
pub struct Attributes {
    by_number: BTreeMap<u32, Bytes>,
}

impl Model for Attributes {
    ghost use Rattle.std.specs.Prelude.{List, ℕ, ◌≤◌, length};
    ghost use Rattle.osd_objects.specs.declared.attributes.TheConstants.{MAX_ATTRIBUTES};

    ghost Value = { List (ℕ × List ℕ) };

    ghost view = { λ s. s.by_number.entries };

    ghost invariant = { λ s. length s.by_number.entries ≤ MAX_ATTRIBUTES };
}

impl Attributes {
    /// A label alone.
    pub fn labelled(alloc: Global, label: &[u8]) -> Result<Self, Memory>
        ensures { IfOk result (λ attributes. attributes ≡ (FIRST_USER_ATTRIBUTE, label.now) ∷ []) }
    {
        let mut by_number = BTreeMap::new(alloc);
        by_number.insert(FIRST_USER_ATTRIBUTE, Bytes::copied(alloc, label)?)?;
        Ok(Attributes { by_number })
    }

    /// How many values there are.
    pub fn len(&self) -> u32
        ensures { result ≡ length self.now }
    {
        self.by_number.len() as u32
    }

    /// The value of a number.
    pub fn get(&self, number: u32) -> Option<&Bytes>
        ensures { option_copied result ≡ value_of self.now number }
    {
        self.by_number.get(&number)
    }

    /// Sets the value of a number. Where there is no memory nothing changes.
    pub fn set(&mut self, alloc: Global, number: u32, value: &[u8]) -> Result<(), Memory>
        requires { IsSome (value_of self.old number) ⊎ (length self.old < MAX_ATTRIBUTES) }
        ensures ok { OnOk result (self.new ≡ insert_entry nat_cmp self.old number value.now) }
        ensures err { OnErr result (self.new ≡ self.old) }
    {
        let value = Bytes::copied(alloc, value)?;
        self.by_number.insert(number, value)?;
        Ok(())
    }
}
