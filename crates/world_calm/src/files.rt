ghost use Rattle.std.specs.Prelude.{◌≡◌, ◌<◌, ◌≤◌, ◌++◌, ◌∷◌, [], is_some, map, option_to_list, Some, OnOk, IfOk};
ghost use Rattle.server_rules.specs.Numbers.{among};
ghost use Rattle.server_rules.specs.Standing.{is_short as is_short_group, replica};
ghost use Rattle.world_history.specs.Stripes.{component_at, stripe_of};
ghost use Rattle.world_calm.specs.declared.files.TheConstants.{MAX_OFFSET};
ghost use Rattle.world_calm.specs.Files.{component_as, file_as, is_short_at, is_short_in, missing, no_files, seen_as, shown, standing, standing_on, stripe_in, stripes_at};

use data_map::DataMap;
use osd_lists::{Memory, Numbers, Sequence};
use server_rules::{Component, Components, Kept};
use std::alloc::Global;
use std::collections::BTreeMap;
use std::marker::Model;

// The greatest offset in an object at which a WRITE may be performed.
const MAX_OFFSET: u64 = 17_825_792;

/// A file as a moment shows it.
#[derive(Drop)]
pub struct SeenFile {
    pub map: DataMap,
    pub components: Components,
}

/// A stripe of a file.
#[derive(Clone, Copy)]
pub struct StripeOf {
    pub file: u32,
    pub stripe: u64,
}

/// Stripes of files.
pub type FileStripes = Sequence<StripeOf>;

/// The files as a moment shows them, by number, and the drives that failed.
#[derive(Drop)]
pub struct SeenFiles {
    alloc: Global,
    files: BTreeMap<u32, SeenFile>,
    failed: Numbers,
}

impl Model for SeenFiles {
    ghost use Rattle.world_calm.specs.Files.{FilesState};

    ghost Value = { FilesState };

    ghost view = { λ s. record { files = s.files.entries; failed = s.failed } };
}

/// Whether a number is one of these.
#[tactic(auto, unfolding(server_rules::specs::Numbers::among))]
pub fn among(number: u32, numbers: &[u32]) -> bool
    ensures { result ≡ among number numbers.now }
{
    for one in numbers {
        if number == *one {
            return true;
        }
    }
    false
}

// The component on a drive in that object, if a present one stands there.
#[tactic(auto, unfolding(world_history::specs::Stripes::component_at))]
fn component_at(components: &[Component], drive: u32, object: u64) -> Option<usize>
    ensures { result ≡ component_at drive object components.now 0 }
{
    let mut k = 0usize;
    for at in components {
        if !at.missing && (at.drive == drive && at.object == object) {
            return Some(k);
        }
        k += 1;
    }
    None
}

// The stripe of an offset in a component of that number, which is one of the map's.
#[tactic(auto, using(crate::proofs::Places::stripe_sum))]
fn stripe_of(map: &DataMap, component: u32, offset: u64) -> u64
    requires component { component < map.now.comps }
    requires offset { offset ≤ MAX_OFFSET }
    ensures { result ≡ stripe_of map.now component offset }
{
    let raw = map.raw();
    let row = offset / raw.unit;
    if raw.width == 0 {
        return row;
    }
    let group = u64::from(component / map.replicas() / map.group_width());
    let depth = u64::from(raw.depth);
    (row - row % depth) * u64::from(map.groups()) + group * depth + row % depth
}

// The stripe of a file in which a WRITE on a drive, at an offset of an object, is performed.
fn stripe_in(number: u32, file: &SeenFile, drive: u32, object: u64, offset: u64) -> Option<StripeOf>
    requires offset { offset ≤ MAX_OFFSET }
    ensures { option_to_list result ≡ stripe_in number file.now drive object offset }
{
    if file.map.parities() == 0 {
        return None;
    }
    match component_at(file.components.as_slice(), drive, object) {
        Some(k) if k < file.map.raw().comps as usize => Some(StripeOf {
            file: number,
            stripe: stripe_of(&file.map, k as u32, offset),
        }),
        _ => None,
    }
}

// Whether a replica of the position isn't lost.
#[tactic(auto, unfolding(server_rules::specs::Standing::replica_from))]
fn has_replica(file: &SeenFile, position: u64, failed: &[u32]) -> bool
    ensures { result ≡ is_some (replica file.now.map (standing failed.now file.now.components) position) }
{
    let replicas = u64::from(file.map.replicas());
    let mut k = 0u64;
    for at in file.components.as_slice() {
        let lost = at.missing || among(at.drive, failed);
        if !lost && k / replicas == position {
            return true;
        }
        k += 1;
    }
    false
}

// Whether all replicas of a position of the group are lost.
#[tactic(auto, unfolding(server_rules::specs::Standing::lacking))]
fn is_short_group(file: &SeenFile, group: u32, failed: &[u32]) -> bool
    ensures { result ≡ is_short_group file.now.map (standing failed.now file.now.components) group }
{
    let mut left = file.map.group_width();
    let mut position = u64::from(group) * u64::from(left);
    while left > 0 {
        if !has_replica(file, position, failed) {
            return true;
        }
        position += 1;
        left -= 1;
    }
    false
}

// Whether a stripe of the file is short, where it has parity.
fn is_short_in(file: &SeenFile, stripe: u64, failed: &[u32]) -> bool
    ensures { result ≡ is_short_in failed.now stripe (Some file.now) }
{
    file.map.parities() > 0 && is_short_group(file, file.map.group(stripe), failed)
}

// A component becomes missing.
fn lose_in(file: &mut SeenFile, component: u32)
    ensures { file.new ≡ component_as component missing file.old }
{
    let k = component as usize;
    if k < file.components.len() {
        file.components.get_mut(k).missing = true;
    }
}

// A component stands on a drive again.
fn stand_in(file: &mut SeenFile, component: u32, drive: u32)
    ensures { file.new ≡ component_as component (standing_on drive) file.old }
{
    let k = component as usize;
    if k < file.components.len() {
        let at = file.components.get_mut(k);
        at.drive = drive;
        at.missing = false;
    }
}

impl SeenFiles {
    /// No file, and no drive that failed.
    pub fn new(alloc: Global) -> Self
        ensures { result ≡ no_files }
    {
        SeenFiles {
            alloc,
            files: BTreeMap::new(alloc),
            failed: Numbers::new(alloc),
        }
    }

    /// A drive failed.
    pub fn fail(&mut self, drive: u32) -> Result<(), Memory>
        ensures { OnOk result (self.new ≡ record self.old { failed = self.old.failed ++ drive ∷ [] }) }
    {
        self.failed.push(drive)
    }

    /// The file is as the server keeps it.
    pub fn show(&mut self, kept: &Kept) -> Result<(), Memory>
        ensures { OnOk result (self.new ≡ shown self.old kept.now) }
    {
        let seen = SeenFile {
            map: kept.map,
            components: Components::copied(self.alloc, kept.components.as_slice())?,
        };
        self.files.insert(kept.number, seen)?;
        Ok(())
    }

    /// A component became missing.
    pub fn lose(&mut self, number: u32, component: u32)
        ensures { self.new ≡ file_as self.old number (component_as component missing) }
    {
        match self.files.get_mut(&number) {
            Some(file) => lose_in(file, component),
            None => {}
        }
    }

    /// A component stands on a drive again.
    pub fn stand(&mut self, number: u32, component: u32, drive: u32)
        ensures { self.new ≡ file_as self.old number (component_as component (standing_on drive)) }
    {
        match self.files.get_mut(&number) {
            Some(file) => stand_in(file, component, drive),
            None => {}
        }
    }

    /// The numbers of the files.
    pub fn numbers(&self) -> Result<Numbers, Memory>
        ensures { IfOk result (λ numbers. numbers ≡ map (λ e. e.0) self.now.files) }
    {
        let mut numbers = Numbers::new(self.alloc);
        for (number, _) in self.files.iter() {
            numbers.push(*number)?;
        }
        Ok(numbers)
    }

    /// Whether a stripe of a file with parity is short.
    pub fn is_short(&self, number: u32, stripe: u64) -> bool
        ensures { result ≡ is_short_at self.now number stripe }
    {
        match self.files.get(&number) {
            Some(file) => is_short_in(file, stripe, self.failed.as_slice()),
            None => false,
        }
    }

    /// The files with parity and the stripes of them in which a WRITE on a drive, at an offset of an object, is
    /// performed: each where a component stands there that isn't missing.
    pub fn stripes_at(&self, drive: u32, object: u64, offset: u64) -> Result<FileStripes, Memory>
        ensures { IfOk result (λ ss. ss ≡ stripes_at self.now drive object offset) }
    {
        let mut stripes = FileStripes::new(self.alloc);
        if offset > MAX_OFFSET {
            return Ok(stripes);
        }
        for (number, file) in self.files.iter() {
            match stripe_in(*number, file, drive, object, offset) {
                Some(stripe) => stripes.push(stripe)?,
                None => {}
            }
        }
        Ok(stripes)
    }
}
