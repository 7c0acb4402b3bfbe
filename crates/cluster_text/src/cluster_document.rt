// A cluster text as a whole.
ghost use Rattle.std.specs.Prelude.{◌≡◌, ◌⊎◌, ◌++◌, Err, None, Some, if◌then◌else◌, map, nat_eq, option_map, IfErr, IfOk};
ghost use Rattle.std.specs.Cmp.Lexicographic.{pointwise};
ghost use Rattle.std.specs.List.{list_any};
ghost use Rattle.toml.specs.View.{table_view};
ghost use Rattle.cluster_text.specs.declared.errors.ClusterErr.TheVariants.{Memory as NoMemory, Refused};
ghost use Rattle.cluster_text.specs.declared.errors.ClusterKind.TheVariants.{Toml};
ghost use Rattle.cluster_text.specs.Fields.{drive_in, file_in};
ghost use Rattle.cluster_text.specs.Document.{all_in, cluster_in, cluster_of, document_of, has_twice, judged, judged_parts, repeats, shares};

use crate::cluster::{Cluster, ClusterDrive, ClusterFile, Reader};
use crate::errors::{ClusterErr, ClusterKind};
use crate::fields::{MAX_DRIVES, MAX_FILES, address_at, drive_in, file_in, format_in, owned};
use crate::shape::{has_unknown, is_wrong, lacks};
use crate::tables::tables_at;
use osd_lists::{Bytes, Memory, Sequence};
use std::alloc::Global;
use toml::Table;

// The table that the text spells.
#[tactic(auto, unfolding(crate::specs::Document::document_of))]
fn document(alloc: Global, text: &[u8]) -> Result<Table, ClusterErr>
    ensures ok { IfOk result (λ t. document_of text.now ≡ Some (table_view t)) }
    ensures err { IfErr result (λ e. (e ≡ NoMemory) ⊎ ((e ≡ Refused Toml) × (document_of text.now ≡ None))) }
{
    let Ok(text) = str::from_utf8(text) else {
        return Err(ClusterErr::Refused(ClusterKind::Toml));
    };
    match toml::table_from_str(alloc, text) {
        Ok(table) => Ok(table),
        Err(e) if e.is_memory() => Err(ClusterErr::Memory),
        Err(_) => Err(ClusterErr::Refused(ClusterKind::Toml)),
    }
}

// Adds the drives of these tables, if all their values are in their ranges.
fn add_drives(
    alloc: Global,
    tables: &[&Table],
    drives: &mut Sequence<ClusterDrive>,
) -> Result<bool, Memory>
    ensures { IfOk result (λ whole. option_map (λ more. drives.old ++ more)
        (all_in (λ t. drive_in (table_view t.now)) tables.now) ≡ (if whole then Some drives.new else None)) }
{
    for table in tables {
        match drive_in(alloc, table)? {
            Some(drive) => drives.push(drive)?,
            None => return Ok(false),
        }
    }
    Ok(true)
}

// The drives of these tables, if all their values are in their ranges.
fn drives_in(alloc: Global, tables: &[&Table]) -> Result<Option<Sequence<ClusterDrive>>, Memory>
    ensures { IfOk result (λ drives. drives ≡ all_in (λ t. drive_in (table_view t.now)) tables.now) }
{
    let mut drives = Sequence::new(alloc);
    if add_drives(alloc, tables, &mut drives)? {
        Ok(Some(drives))
    } else {
        Ok(None)
    }
}

// Adds the files of these tables, if all their values are in their ranges.
fn add_files(
    tables: &[&Table],
    drives: u64,
    files: &mut Sequence<ClusterFile>,
) -> Result<bool, Memory>
    ensures { IfOk result (λ whole. option_map (λ more. files.old ++ more)
        (all_in (λ t. file_in drives (table_view t.now)) tables.now) ≡ (if whole then Some files.new else None)) }
{
    for table in tables {
        match file_in(table, drives) {
            Some(file) => files.push(file)?,
            None => return Ok(false),
        }
    }
    Ok(true)
}

// The files of these tables, if all their values are in their ranges.
fn files_in(
    alloc: Global,
    tables: &[&Table],
    drives: u64,
) -> Result<Option<Sequence<ClusterFile>>, Memory>
    ensures { IfOk result (λ files. files ≡ all_in (λ t. file_in drives (table_view t.now)) tables.now) }
{
    let mut files = Sequence::new(alloc);
    if add_files(tables, drives, &mut files)? {
        Ok(Some(files))
    } else {
        Ok(None)
    }
}

// The cluster, if all values are in their ranges.
#[tactic(auto, unfolding(crate::specs::Document::cluster_in))]
fn cluster_in(
    alloc: Global,
    top: &Table,
    drives: &[&Table],
    files: &[&Table],
) -> Result<Option<Cluster>, Memory>
    ensures { IfOk result (λ cluster. cluster ≡ cluster_in (table_view top.now)
        (map (λ t. table_view t.now) drives.now) (map (λ t. table_view t.now) files.now)) }
{
    let count = drives.len() as u64;
    if count == 0 || count > MAX_DRIVES || files.len() as u64 > MAX_FILES {
        return Ok(None);
    }
    let Some(server) = address_at(top, "server") else {
        return Ok(None);
    };
    let Some(format) = format_in(top) else {
        return Ok(None);
    };
    let Some(drives) = drives_in(alloc, drives)? else {
        return Ok(None);
    };
    let Some(files) = files_in(alloc, files, count)? else {
        return Ok(None);
    };
    let server = owned(alloc, server)?;
    Ok(Some(Cluster {
        server,
        format,
        drives,
        files,
    }))
}

fn has_drive(drives: &[ClusterDrive], number: u32) -> bool
    ensures { result ≡ list_any (λ n. nat_eq n number) (map (λ d. d.number) drives.now) }
{
    drives.iter().any(|drive| drive.number == number)
}

fn drive_repeats(drives: &[ClusterDrive]) -> bool
    ensures { result ≡ repeats (map (λ d. d.number) drives.now) }
{
    match drives {
        [] => false,
        [first, rest @ ..] => has_drive(rest, first.number) || drive_repeats(rest),
    }
}

fn has_address(drives: &[ClusterDrive], address: &Bytes) -> bool
    ensures { result ≡ list_any (λ b. pointwise nat_eq b address.now) (map (λ d. d.address) drives.now) }
{
    drives.iter().any(|drive| drive.address == *address)
}

fn address_repeats(drives: &[ClusterDrive]) -> bool
    ensures { result ≡ shares (map (λ d. d.address) drives.now) }
{
    match drives {
        [] => false,
        [first, rest @ ..] => has_address(rest, &first.address) || address_repeats(rest),
    }
}

// Whether two drives have one number or one address, or two files one number.
fn has_twice(cluster: &Cluster) -> bool
    ensures { result ≡ has_twice cluster.now }
{
    let drives = cluster.drives.as_slice();
    drive_repeats(drives) || address_repeats(drives) || file_repeats(cluster.files.as_slice())
}

fn has_file(files: &[ClusterFile], number: u32) -> bool
    ensures { result ≡ list_any (λ n. nat_eq n number) (map (λ f. f.number) files.now) }
{
    files.iter().any(|file| file.number == number)
}

fn file_repeats(files: &[ClusterFile]) -> bool
    ensures { result ≡ repeats (map (λ f. f.number) files.now) }
{
    match files {
        [] => false,
        [first, rest @ ..] => has_file(rest, first.number) || file_repeats(rest),
    }
}

// What a table is judged to be, with the lists of drives and of files in it.
fn judge_parts(
    alloc: Global,
    reader: Reader,
    top: &Table,
    drives: &[&Table],
    files: &[&Table],
) -> Result<Cluster, ClusterErr>
    ensures { (result ≡ Err NoMemory) ⊎ (result ≡ judged_parts reader (table_view top.now)
        (map (λ t. table_view t.now) drives.now) (map (λ t. table_view t.now) files.now)) }
{
    if has_unknown(top, drives, files) {
        return Err(ClusterErr::Refused(ClusterKind::Unknown));
    }
    if lacks(reader, top, drives, files) {
        return Err(ClusterErr::Refused(ClusterKind::Missing));
    }
    if is_wrong(top, drives, files) {
        return Err(ClusterErr::Refused(ClusterKind::WrongType));
    }
    let Some(cluster) = cluster_in(alloc, top, drives, files)? else {
        return Err(ClusterErr::Refused(ClusterKind::Range));
    };
    if has_twice(&cluster) {
        return Err(ClusterErr::Refused(ClusterKind::Repeated));
    }
    Ok(cluster)
}

// What the table of a text is judged to be.
fn judge(alloc: Global, reader: Reader, top: &Table) -> Result<Cluster, ClusterErr>
    ensures { (result ≡ Err NoMemory) ⊎ (result ≡ judged reader (table_view top.now)) }
{
    let drives = tables_at(alloc, top, "drive")?;
    let files = tables_at(alloc, top, "file")?;
    judge_parts(alloc, reader, top, drives.as_slice(), files.as_slice())
}

/// Reads the text of a cluster.
///
/// # Errors
///
/// [`ClusterErr::Refused`] with the first kind of [`ClusterKind`] that applies anywhere in the text, and
/// only if one does; [`ClusterErr::Memory`].
pub fn read_cluster(alloc: Global, reader: Reader, text: &[u8]) -> Result<Cluster, ClusterErr>
    ensures { (result ≡ Err NoMemory) ⊎ (result ≡ cluster_of reader text.now) }
{
    let table = document(alloc, text)?;
    judge(alloc, reader, &table)
}
