ghost use Rattle.std.specs.Prelude.{◌≡◌, [], ◌∷◌, ◌++◌, ◌<◌, length, slice_index_or, set, option_to_list, None, IfSome, IfNone, OnOk, OnErr};
ghost use Rattle.client_rules.specs.Writes.{next_to, without_next, without_component};
ghost use Rattle.call_commands.specs.Queue.{first_place, is_to, is_to_other, NoneBefore, IsFirstTo, Notes};

use osd_lists::Memory;
use std::alloc::Global;
use std::collections::BTreeMap;
use std::marker::Model;
use stripe_plan::Store;

/// The writes of a scatter that aren't sent yet, in order. The next one to a component is found without looking
/// through all of them again.
///
/// Contracts see the list of the writes.
#[derive(Drop)]
pub struct WriteQueue {
    // None where a write was taken.
    places: Vec<Option<Store>>,
    // No place before this one has a write to the component.
    first_place: BTreeMap<u32, usize>,
}

impl Model for WriteQueue {
    ghost use Rattle.std.specs.Prelude.{List};
    ghost use Rattle.stripe_plan.specs.declared.plan.Store.{Store as Write};
    ghost use Rattle.call_commands.specs.Queue.{present, StandBehind};

    ghost Value = { List Write };

    ghost view = { λ s. present s.places.items };

    ghost invariant = { λ s. StandBehind s.first_place.entries s.places.items };
}

impl WriteQueue {
    /// No writes, which takes no memory.
    pub fn new(alloc: Global) -> Self
        ensures { result ≡ [] }
    {
        WriteQueue {
            places: Vec::new(alloc),
            first_place: BTreeMap::new(alloc),
        }
    }

    /// Adds a write at the end.
    ///
    /// # Errors
    ///
    /// Want of memory alone. Then the writes are as before.
    pub fn push(&mut self, write: Store) -> Result<(), Memory>
        ensures ok { OnOk result (self.new ≡ self.old ++ write ∷ []) }
        ensures err { OnErr result (self.new ≡ self.old) }
    {
        self.places.push(Some(write))?;
        Ok(())
    }

    /// Takes out the next write to a component, if there is one.
    pub fn take_next(&mut self, component: u32) -> Option<Store>
        ensures next { option_to_list result ≡ next_to component self.old }
        ensures left { self.new ≡ without_next component self.old }
    {
        let start = start_of(&self.first_place, component);
        let Some(place) = find_from(self.places.as_slice(), start, component) else {
            return None;
        };
        note_place(&mut self.first_place, component, place + 1);
        take_at(&mut self.places, place)
    }

    /// Takes out all writes to a component.
    pub fn drop_component(&mut self, component: u32)
        ensures { self.new ≡ without_component component self.old }
    {
        self.places.retain(|place| is_to_other(place, component));
        self.first_place.clear();
    }
}

// Where the search for a write to a component begins.
fn start_of(places: &BTreeMap<u32, usize>, component: u32) -> usize
    ensures { result ≡ first_place places.now.entries component }
{
    match places.get(&component) {
        Some(place) => *place,
        None => 0,
    }
}

// Notes where the next search begins. Where there is no memory for it, that begins earlier.
fn note_place(places: &mut BTreeMap<u32, usize>, component: u32, place: usize)
    ensures { Notes places.old.entries places.new.entries component place }
{
    match places.insert(component, place) {
        Ok(_) => {}
        Err(_) => {}
    }
}

// Empties a place.
fn take_at(places: &mut Vec<Option<Store>>, place: usize) -> Option<Store>
    requires { place < length places.old.items }
    ensures taken { result ≡ slice_index_or places.old.items place None }
    ensures left { places.new.items ≡ set places.old.items place None }
{
    places[place].take()
}

// Whether a place has a write to another component.
fn is_to_other(place: &Option<Store>, component: u32) -> bool
    ensures { result ≡ is_to_other place.now component }
{
    match place {
        Some(write) => write.ask.component != component,
        None => false,
    }
}

// Whether a place has a write to a component.
fn is_to(place: &Option<Store>, component: u32) -> bool
    ensures { result ≡ is_to place.now component }
{
    match place {
        Some(write) => write.ask.component == component,
        None => false,
    }
}

// The first place from `start` on with a write to a component.
fn find_from(places: &[Option<Store>], start: usize, component: u32) -> Option<usize>
    requires { NoneBefore places.now component start }
    ensures found { IfSome result (IsFirstTo places.now component) }
    ensures none { IfNone result (NoneBefore places.now component (length places.now)) }
{
    for i in start..places.len() {
        if is_to(&places[i], component) {
            return Some(i);
        }
    }
    None
}
