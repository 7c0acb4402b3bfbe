// What the text of a cluster has otherwise than the journal of its server, which stays as it is.
ghost use Rattle.std.specs.Prelude.{◌≡◌, ◌∷◌, ◌++◌, [], IfOk, OnErr, OnOk, map, not, string_bytes};
ghost use Rattle.cluster_text.specs.Peers.{KeepsAddresses};
ghost use Rattle.osd_bytes.specs.Connections.{after_notes};
ghost use Rattle.server_command.specs.Notes.{TellsSome};
ghost use Rattle.server_journal.specs.Journals.{core_of};
ghost use Rattle.server_rules.specs.Files.{file_at};
ghost use Rattle.stored_server.specs.Differences.{difference_line, difference_lines, differences, drives_differences, files_differences};
ghost use Rattle.stored_server.specs.Differences.{further_drives, further_files, has_capacity, has_key, has_other_capacity};
ghost use Rattle.stored_server.specs.Differences.{has_other_key, has_other_map, has_this_key, is_same_map, is_with_key, only};
ghost use Rattle.stored_server.specs.Differences.{text_has_drive, text_has_file};

use crate::lacking::has_number;
use cluster_text::{Cluster, ClusterDrive, ClusterFile};
use data_map::RawMap;
use osd_bytes::Links;
use osd_lists::{Memory, Sequence};
use server_journal::JournaledServer;
use server_rules::{Drive, Kept};
use std::alloc::Global;

/// One thing that the text of a cluster has otherwise than the journal of its server.
#[derive(Clone, Copy)]
pub(crate) enum Difference {
    /// The key of a drive.
    Key { drive: u32 },
    /// The capacity of a drive.
    Capacity { drive: u32 },
    /// The text hasn't this drive.
    NoDrive { drive: u32 },
    /// The map of a file.
    Map { file: u32 },
    /// The text hasn't this file.
    NoFile { file: u32 },
}

type Differences = Sequence<Difference>;

// Adds a difference, if it is one.
fn add_if(differences: &mut Differences, is: bool, difference: Difference) -> Result<(), Memory>
    ensures { OnOk result (differences.new ≡ differences.old ++ only is difference) }
{
    if is {
        differences.push(difference)?;
    }
    Ok(())
}

// Adds a difference, if it isn't denied.
fn add_if_not(
    differences: &mut Differences,
    denied: bool,
    difference: Difference,
) -> Result<(), Memory>
    ensures { OnOk result (differences.new ≡ differences.old ++ only (not denied) difference) }
{
    if !denied {
        differences.push(difference)?;
    }
    Ok(())
}

// ---- drives

// Whether a drive has this number and this key.
fn is_with_key(drive: &Drive, number: u32, key: [u8; 20]) -> bool
    ensures { result ≡ is_with_key number key drive.now }
{
    drive.number == number && drive.key == key
}

// Whether one of these drives has this number and this key.
fn has_this_key(drives: &[Drive], number: u32, key: [u8; 20]) -> bool
    ensures { result ≡ has_this_key drives.now number key }
{
    drives.iter().any(|drive| is_with_key(drive, number, key))
}

/// Whether a server has the drive of this number with this key.
pub(crate) fn has_key(drives: &[Drive], number: u32, key: Option<[u8; 20]>) -> bool
    ensures { result ≡ has_key drives.now number key }
{
    match key {
        Some(key) => has_this_key(drives, number, key),
        None => false,
    }
}

// Whether a server has the drive of this number with this capacity.
fn has_capacity(drives: &[Drive], number: u32, capacity: u64) -> bool
    ensures { result ≡ has_capacity drives.now number capacity }
{
    drives.iter().any(|drive| drive.number == number && drive.capacity == capacity)
}

// Whether a server has this drive of the text with another key.
fn has_other_key(drives: &[Drive], drive: &ClusterDrive) -> bool
    ensures { result ≡ has_other_key drives.now drive.now }
{
    has_number(drives, drive.number) && !has_key(drives, drive.number, drive.key)
}

// Whether a server has this drive of the text with another capacity.
fn has_other_capacity(drives: &[Drive], drive: &ClusterDrive) -> bool
    ensures { result ≡ has_other_capacity drives.now drive.now }
{
    has_number(drives, drive.number) && !has_capacity(drives, drive.number, drive.capacity)
}

// What differs of the drives that both have.
fn add_drives(
    differences: &mut Differences,
    drives: &[Drive],
    text: &[ClusterDrive],
) -> Result<(), Memory>
    ensures { OnOk result (differences.new ≡ differences.old ++ drives_differences drives.now text.now) }
{
    for drive in text {
        let number = drive.number;
        let other_key = has_other_key(drives, drive);
        add_if(differences, other_key, Difference::Key { drive: number })?;
        let other_capacity = has_other_capacity(drives, drive);
        add_if(
            differences,
            other_capacity,
            Difference::Capacity { drive: number },
        )?;
    }
    Ok(())
}

// Whether the text has a drive of this number.
fn text_has_drive(text: &[ClusterDrive], number: u32) -> bool
    ensures { result ≡ text_has_drive text.now number }
{
    text.iter().any(|drive| drive.number == number)
}

// The drives that the text hasn't.
fn add_further_drives(
    differences: &mut Differences,
    drives: &[Drive],
    text: &[ClusterDrive],
) -> Result<(), Memory>
    ensures { OnOk result (differences.new ≡ differences.old ++ further_drives text.now drives.now) }
{
    for drive in drives {
        add_if_not(
            differences,
            text_has_drive(text, drive.number),
            Difference::NoDrive {
                drive: drive.number,
            },
        )?;
    }
    Ok(())
}

// ---- files

// Two maps are the same.
fn is_same_map(a: RawMap, b: RawMap) -> bool
    ensures { result ≡ is_same_map a b }
{
    a.comps == b.comps
        && a.unit == b.unit
        && a.width == b.width
        && a.depth == b.depth
        && a.mirrors == b.mirrors
        && a.algorithm == b.algorithm
}

// Whether a file has another map than this one.
fn has_other_map(kept: &Kept, map: RawMap) -> bool
    ensures { result ≡ not (is_same_map kept.now.map map) }
{
    !is_same_map(kept.map.raw(), map)
}

// Whether the journal has this file of the text with another map.
fn differs_in_map<D>(journal: &JournaledServer<D>, file: &ClusterFile) -> bool
    ensures { result ≡ has_other_map (file_at (core_of journal.now).files file.now.number) file.now.map }
{
    match journal.file(file.number) {
        Some(kept) => has_other_map(kept, file.map),
        None => false,
    }
}

// What differs of the files that both have.
fn add_files<D>(
    differences: &mut Differences,
    journal: &JournaledServer<D>,
    text: &[ClusterFile],
) -> Result<(), Memory>
    ensures { OnOk result (differences.new ≡ differences.old ++ files_differences (core_of journal.now).files text.now) }
{
    for file in text {
        let other = differs_in_map(journal, file);
        add_if(differences, other, Difference::Map { file: file.number })?;
    }
    Ok(())
}

// Whether the text has a file of this number.
fn text_has_file(text: &[ClusterFile], number: u32) -> bool
    ensures { result ≡ text_has_file text.now number }
{
    text.iter().any(|file| file.number == number)
}

// The files of these numbers that the text hasn't.
fn add_further_files(
    differences: &mut Differences,
    numbers: &[u32],
    text: &[ClusterFile],
) -> Result<(), Memory>
    ensures { OnOk result (differences.new ≡ differences.old ++ further_files text.now numbers.now) }
{
    for number in numbers {
        add_if_not(
            differences,
            text_has_file(text, *number),
            Difference::NoFile { file: *number },
        )?;
    }
    Ok(())
}

// ---- all

// All differences: those of the drives in the order of the text, the drives that it hasn't, and so those of the files.
fn differences_of<D>(
    alloc: Global,
    cluster: &Cluster,
    journal: &JournaledServer<D>,
) -> Result<Differences, Memory>
    ensures { IfOk result (λ found. found ≡ differences cluster.now (core_of journal.now)) }
{
    let numbers = match journal.file_numbers() {
        Ok(numbers) => numbers,
        Err(_) => return Err(Memory),
    };
    let mut found = Differences::new(alloc);
    add_drives(&mut found, journal.drives(), cluster.drives.as_slice())?;
    add_further_drives(&mut found, journal.drives(), cluster.drives.as_slice())?;
    add_files(&mut found, journal, cluster.files.as_slice())?;
    add_further_files(&mut found, numbers.as_slice(), cluster.files.as_slice())?;
    Ok(found)
}

// The note that tells of a difference.
fn difference_line(alloc: Global, difference: Difference) -> Result<String, Memory>
    ensures { IfOk result (λ line. string_bytes line ≡ difference_line difference) }
{
    match difference {
        Difference::Key { drive } => Ok(format!(in alloc;
            "d{drive} keeps the key that the journal has: the text has another"
        )?),
        Difference::Capacity { drive } => Ok(format!(in alloc;
            "d{drive} keeps the capacity that the journal has: the text has another"
        )?),
        Difference::NoDrive { drive } => {
            Ok(format!(in alloc; "d{drive} is in the journal, and not in the text")?)
        }
        Difference::Map { file } => Ok(format!(in alloc;
            "f{file} keeps the map that the journal has: the text has another"
        )?),
        Difference::NoFile { file } => {
            Ok(format!(in alloc; "f{file} is in the journal, and not in the text")?)
        }
    }
}

// Tells a difference.
fn tell<L: Links>(alloc: Global, links: &mut L, difference: &Difference) -> Result<(), Memory>
    ensures told { OnOk result (L.told links.new ≡ after_notes (difference_line difference.now ∷ []) (L.told links.old)) }
    ensures err { OnErr result (L.told links.new ≡ L.told links.old) }
    ensures same { L.faults links.new ≡ L.faults links.old }
    ensures addresses { KeepsAddresses (L.standing links.old) (L.standing links.new) }
{
    let line = difference_line(alloc, *difference)?;
    links.note(line.as_bytes())
}

// Tells these differences, in order.
fn tell_all<L: Links>(alloc: Global, links: &mut L, differences: &Differences) -> Result<(), Memory>
    ensures told { OnOk result (L.told links.new ≡ after_notes (map difference_line differences.now) (L.told links.old)) }
    ensures err { OnErr result (TellsSome (map difference_line differences.now) (L.told links.old) (L.told links.new)) }
    ensures same { L.faults links.new ≡ L.faults links.old }
    ensures addresses { KeepsAddresses (L.standing links.old) (L.standing links.new) }
{
    for i in 0..differences.len() {
        tell(alloc, links, differences.get(i))?;
    }
    Ok(())
}

/// Tells what the text of a cluster has otherwise than the journal of its server: a note for each thing that stays as the journal
/// has it, and for each drive and file that the text hasn't.
///
/// # Errors
///
/// [`Memory`]; then some first ones of the notes were told, perhaps none.
pub(crate) fn tell_differences<D, L: Links>(
    alloc: Global,
    links: &mut L,
    cluster: &Cluster,
    journal: &JournaledServer<D>,
) -> Result<(), Memory>
    ensures told { OnOk result (L.told links.new
        ≡ after_notes (difference_lines cluster.now (core_of journal.now)) (L.told links.old)) }
    ensures err { OnErr result (TellsSome (difference_lines cluster.now (core_of journal.now))
        (L.told links.old) (L.told links.new)) }
    ensures same { L.faults links.new ≡ L.faults links.old }
    ensures addresses { KeepsAddresses (L.standing links.old) (L.standing links.new) }
{
    let differences = differences_of(alloc, cluster, journal)?;
    tell_all(alloc, links, &differences)
}
