// Numbers of objects and grants that are in use.
ghost use Rattle.std.specs.Prelude.{◌≡◌, ◌==◌, ◌<◌, ◌+◌, ◌^◌, IsTrue};
ghost use Rattle.std.specs.List.{list_any};
ghost use Rattle.server_state.specs.States.{server_of};
ghost use Rattle.server_state.specs.Tables.{files_in};
ghost use Rattle.server_entries.specs.Changes.{has_grant, has_number, has_object, is_free_grant, is_free_object};

use server_rules::{Component, FIRST_OBJECT, Grant, Kept};
use server_state::{Files, State};

// ---- objects

// One of these components is that object, or was it last.
fn is_among(components: &[Component], object: u64) -> bool
    ensures { result ≡ list_any (λ at. at.object == object) components.now }
{
    components.iter().any(|at| at.object == object)
}

// A component of a file is that object, or was it last.
fn has_object(files: &Files, object: u64) -> bool
    ensures { result ≡ has_object (files_in files.now.entries) object }
{
    for (_, file) in files.iter() {
        if is_among(file.kept.components.as_slice(), object) {
            return true;
        }
    }
    false
}

/// The object's number was given out, and no component has it.
pub(crate) fn is_free_object(state: &State, object: u64) -> bool
    ensures free { result ≡ is_free_object (server_of state.now) object }
    ensures not_last { IsTrue result → object + 1 < 2 ^ 64 }
{
    FIRST_OBJECT <= object && object < state.next_object && !has_object(&state.files, object)
}

// ---- grants

/// One of these grants has the number.
pub(crate) fn has_number(grants: &[Grant], number: u32) -> bool
    ensures { result ≡ has_number grants.now number }
{
    grants.iter().any(|grant| grant.number == number)
}

// A grant of the file has the number, live or ended by the fence under way.
fn has_grant_of(kept: &Kept, number: u32) -> bool
    ensures { result ≡ has_grant kept.now number }
{
    has_number(kept.grants.as_slice(), number) || has_number(kept.ended.as_slice(), number)
}

// A grant of a file has the number.
fn has_grant(files: &Files, number: u32) -> bool
    ensures { result ≡ list_any (λ f. has_grant f.kept number) (files_in files.now.entries) }
{
    for (_, file) in files.iter() {
        if has_grant_of(&file.kept, number) {
            return true;
        }
    }
    false
}

/// The grant's number was given out, and no grant has it.
pub(crate) fn is_free_grant(state: &State, number: u32) -> bool
    ensures { result ≡ is_free_grant (server_of state.now) number }
{
    0 < number && u64::from(number) < state.next_grant && !has_grant(&state.files, number)
}
