// Whether a state without jobs stands for what a server keeps.
ghost use Rattle.std.specs.Prelude.{◌≡◌, ◌↔◌, IsTrue, map};
ghost use Rattle.file_jobs.specs.Steps.{file_of};
ghost use Rattle.server_rules.specs.Openings.{crash, crashed_file};
ghost use Rattle.server_state.specs.States.{server_of};
ghost use Rattle.server_state.specs.Tables.{files_in};
ghost use Rattle.server_differences.specs.Sameness.{HasSameContents, HasSameNumbers, HasSameTables, IsAsFar, IsMadeAs};

use data_map::RawMap;
use file_jobs::FileState;
use server_rules::{Component, Drive, Grant, Kept};
use server_state::{Files, KeptAnswer, State};

// ---- what is kept of a file

// Two maps are the same.
fn is_same_map(a: &RawMap, b: &RawMap) -> bool
    ensures { IsTrue result ↔ (a.now ≡ b.now) }
{
    a == b
}

// Components are the same, in order.
fn are_same_components(a: &[Component], b: &[Component]) -> bool
    ensures { IsTrue result ↔ (a.now ≡ b.now) }
{
    a == b
}

// Grants are the same, in order.
fn are_same_grants(a: &[Grant], b: &[Grant]) -> bool
    ensures { IsTrue result ↔ (a.now ≡ b.now) }
{
    a == b
}

// Two files were made as the same.
fn is_made_as(a: &Kept, b: &Kept) -> bool
    ensures { IsTrue result ↔ IsMadeAs a.now b.now }
{
    a.number == b.number
        && is_same_map(&a.map.raw(), &b.map.raw())
        && a.zoned == b.zoned
        && a.first_tag == b.first_tag
}

// Their fences are as far, and they are ready alike.
fn is_as_far(a: &Kept, b: &Kept) -> bool
    ensures { IsTrue result ↔ IsAsFar a.now b.now }
{
    a.tag == b.tag && a.format == b.format && a.phase == b.phase && a.ready == b.ready
}

// They are as long, and their components and grants are the same.
fn has_same_contents(a: &Kept, b: &Kept) -> bool
    ensures { IsTrue result ↔ HasSameContents a.now b.now }
{
    a.size == b.size
        && a.high == b.high
        && are_same_components(a.components.as_slice(), b.components.as_slice())
        && are_same_grants(a.grants.as_slice(), b.grants.as_slice())
        && are_same_grants(a.ended.as_slice(), b.ended.as_slice())
}

// All that may change of two files is the same.
fn is_alike(a: &Kept, b: &Kept) -> bool
    ensures { IsTrue result ↔ (IsAsFar a.now b.now × HasSameContents a.now b.now) }
{
    is_as_far(a, b) && has_same_contents(a, b)
}

// All that is kept of two files is the same.
fn is_same_kept(a: &Kept, b: &Kept) -> bool
    ensures { IsTrue result ↔ (a.now ≡ b.now) }
{
    is_made_as(a, b) && is_alike(a, b)
}

// ---- files

// The file without a job is what is kept of the other.
fn is_kept_of(idle: &FileState, file: &FileState) -> bool
    ensures { IsTrue result ↔ (file_of idle.now ≡ crashed_file (file_of file.now)) }
{
    !idle.spent && idle.job.is_none() && is_same_kept(&idle.kept, &file.kept)
}

// The files without jobs are what is kept of the others.
fn are_kept_of(idle: &Files, files: &Files) -> bool
    ensures { IsTrue result ↔ (files_in idle.now.entries ≡ map crashed_file (files_in files.now.entries)) }
{
    let mut left = idle.iter();
    for (_, file) in files.iter() {
        match left.next() {
            Some((_, kept)) => {
                if !is_kept_of(kept, file) {
                    return false;
                }
            }
            None => return false,
        }
    }
    left.next().is_none()
}

// ---- the rest

// Two slots are the same.
fn is_same_slot(a: &KeptAnswer, b: &KeptAnswer) -> bool
    ensures { IsTrue result ↔ (a.now ≡ b.now) }
{
    a.client() == b.client() && a.last() == b.last() && a.as_bytes() == b.as_bytes()
}

// Slots are the same, in order.
fn are_same_slots(a: &[KeptAnswer], b: &[KeptAnswer]) -> bool
    ensures { IsTrue result ↔ (a.now ≡ b.now) }
{
    if a.len() != b.len() {
        return false;
    }
    for i in 0..a.len() {
        if !is_same_slot(&a[i], &b[i]) {
            return false;
        }
    }
    true
}

// Drives are the same, in order.
fn are_same_drives(a: &[Drive], b: &[Drive]) -> bool
    ensures { IsTrue result ↔ (a.now ≡ b.now) }
{
    a == b
}

// The same numbers come next, and the formats are the same.
fn has_same_numbers(a: &State, b: &State) -> bool
    ensures { IsTrue result ↔ HasSameNumbers (server_of a.now) (server_of b.now) }
{
    a.next_grant == b.next_grant
        && a.next_object == b.next_object
        && a.next_nonce == b.next_nonce
        && a.next_recall == b.next_recall
        && a.format == b.format
}

// The drives and slots are the same, and the files without jobs are what is kept of the others.
fn has_same_tables(mirror: &State, state: &State) -> bool
    ensures { IsTrue result ↔ HasSameTables (server_of mirror.now) (crash (server_of state.now)) }
{
    are_same_drives(mirror.drives.as_slice(), state.drives.as_slice())
        && are_same_slots(mirror.slots.as_slice(), state.slots.as_slice())
        && are_kept_of(&mirror.files, &state.files)
}

/// Whether the mirror, on which no job runs, is what the server of a state keeps.
pub fn is_mirror(mirror: &State, state: &State) -> bool
    ensures { IsTrue result ↔ (server_of mirror.now ≡ crash (server_of state.now)) }
{
    has_same_numbers(mirror, state) && has_same_tables(mirror, state)
}
