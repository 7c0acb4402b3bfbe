// The values of a cluster text.
ghost use Rattle.std.specs.Prelude.{◌≡◌, ◌≤◌, IfOk, IfSome, option_map};
ghost use Rattle.data_map.specs.Check.{IsAlgorithm, checked};
ghost use Rattle.toml.specs.View.{table_view};
ghost use Rattle.cluster_text.specs.Fields.{address_at, drive_in, file_in, format_in, is_good_map, key_in, map_in};
ghost use Rattle.cluster_text.specs.Fields.{natural_of, number_at};

use crate::cluster::{ClusterDrive, ClusterFile};
use crate::tables::{has, integer_at, text_at};
use data_map::{DataMap, RAID_0, RAID_PQ, RawMap};
use hex::FromHex;
use osd_lists::{Bytes, Memory};
use std::alloc::Global;
use toml::Table;

/// The most drives of a cluster.
pub const MAX_DRIVES: u64 = 64;

/// The most files of a cluster.
pub const MAX_FILES: u64 = 64;

/// The most components of a file of a cluster.
pub const MAX_FILE_COMPONENTS: u64 = 64;

const MAX_U32: u64 = 4_294_967_295;

const MAX_U64: u64 = 18_446_744_073_709_551_615;

// An integer that isn't negative.
fn natural(number: i64) -> Option<u64>
    ensures { result ≡ natural_of number }
{
    u64::try_from(number).ok()
}

// The number at a key, if it is in its range.
fn number_at(table: &Table, key: &str, least: u64, most: u64) -> Option<u64>
    ensures value { result ≡ number_at key.now least most (table_view table.now) }
    ensures range { IfSome result (λ n. (least ≤ n) × (n ≤ most)) }
{
    let number = natural(integer_at(table, key)?)?;
    if least <= number && number <= most {
        Some(number)
    } else {
        None
    }
}

// The address at a key, if there is a colon between host and port.
pub(crate) fn address_at<'a>(table: &'a Table, key: &str) -> Option<&'a [u8]>
    ensures { option_map (λ a. a.now) result ≡ address_at key.now (table_view table.now) }
{
    let address = text_at(table, key)?.as_bytes();
    if address.contains(&b':') {
        Some(address)
    } else {
        None
    }
}

// The key of a drive, if there is none or one of 40 hexadecimal digits.
fn key_in(table: &Table) -> Option<Option<[u8; 20]>>
    ensures { result ≡ key_in (table_view table.now) }
{
    match text_at(table, "key") {
        Some(digits) => match <[u8; 20] as FromHex>::from_hex(digits) {
            Ok(key) => Some(Some(key)),
            Err(_) => None,
        },
        None => Some(None),
    }
}

// These bytes as a list.
pub(crate) fn owned(alloc: Global, bytes: &[u8]) -> Result<Bytes, Memory>
    ensures { IfOk result (λ list. list ≡ bytes.now) }
{
    Ok(Bytes::from_vec(Vec::from_slice(alloc, bytes)?))
}

// A drive, if its values are in their ranges.
pub(crate) fn drive_in(alloc: Global, table: &Table) -> Result<Option<ClusterDrive>, Memory>
    ensures { IfOk result (λ drive. drive ≡ drive_in (table_view table.now)) }
{
    let Some(number) = number_at(table, "number", 0, MAX_DRIVES - 1) else {
        return Ok(None);
    };
    let Some(address) = address_at(table, "address") else {
        return Ok(None);
    };
    let Some(key) = key_in(table) else {
        return Ok(None);
    };
    let Some(capacity) = number_at(table, "capacity", 0, MAX_U64) else {
        return Ok(None);
    };
    let address = owned(alloc, address)?;
    Ok(Some(ClusterDrive {
        number: number as u32,
        address,
        key,
        capacity,
    }))
}

// The map of a file as it is written down, if its numbers are in their ranges.
fn map_in(table: &Table) -> Option<RawMap>
    ensures value { result ≡ map_in (table_view table.now) }
    ensures algorithm { IfSome result (λ map. IsAlgorithm map.algorithm) }
{
    let comps = number_at(table, "components", 0, MAX_U32)?;
    let unit = number_at(table, "unit", 0, MAX_U64)?;
    let width = number_at(table, "width", 0, MAX_U32)?;
    let depth = number_at(table, "depth", 0, MAX_U32)?;
    let mirrors = number_at(table, "mirrors", 0, MAX_U32)?;
    let algorithm = number_at(table, "algorithm", u64::from(RAID_0), u64::from(RAID_PQ))?;
    Some(RawMap {
        comps: comps as u32,
        unit,
        width: width as u32,
        depth: depth as u32,
        mirrors: mirrors as u32,
        algorithm: algorithm as u32,
    })
}

// Whether a map can be used with so many drives.
fn is_good_map(map: RawMap, drives: u64) -> bool
    requires { IsAlgorithm map.algorithm }
    ensures { result ≡ is_good_map drives map }
{
    DataMap::check(map).is_ok()
        && u64::from(map.comps) <= MAX_FILE_COMPONENTS
        && u64::from(map.comps) <= drives
}

// A file of a cluster with so many drives, if its values are in their ranges.
pub(crate) fn file_in(table: &Table, drives: u64) -> Option<ClusterFile>
    ensures { result ≡ file_in drives (table_view table.now) }
{
    let number = number_at(table, "number", 0, MAX_FILES - 1)?;
    let map = map_in(table)?;
    if is_good_map(map, drives) {
        Some(ClusterFile {
            number: number as u32,
            map,
        })
    } else {
        None
    }
}

// The format, if it is 1 or 2 or isn't there.
pub(crate) fn format_in(table: &Table) -> Option<u8>
    ensures { result ≡ format_in (table_view table.now) }
{
    if !has(table, "format") {
        return Some(1);
    }
    let format = number_at(table, "format", 1, 2)?;
    Some(format as u8)
}
