// Values of a cluster text that aren't in their ranges.
use crate::findings::finding;
use crate::keys::{Form, Key, Section};
use crate::spots::Spot;
use data_map::{DataMap, MapErr, RAID_0, RAID_PQ, RawMap};
use std::alloc::{AllocError, Global};
use toml::Table;

// The most components of a file.
const MAX_FILE_COMPONENTS: u64 = 64;

// The digits of a key.
const KEY_DIGITS: usize = 40;

fn is_key(text: &str) -> bool {
    text.len() == KEY_DIGITS
        && text
            .as_bytes()
            .iter()
            .all(|digit| digit.is_ascii_hexdigit())
}

// Whether the value of a key is in its range. A value of another type is judged elsewhere.
fn is_in_range(table: &Table, key: &Key) -> bool {
    let Some(value) = table.get(key.name) else {
        return true;
    };
    match key.form {
        Form::Tables => true,
        Form::Whole(least, most) => match value.as_integer() {
            Some(number) => least <= number && number <= most,
            None => true,
        },
        Form::Key => match value.as_str() {
            Some(text) => is_key(text),
            None => true,
        },
        Form::Address => match value.as_str() {
            Some(text) => text.contains(':'),
            None => true,
        },
    }
}

// The first key of a table whose value isn't in its range.
fn key_out_of_range(spot: Spot<'_>) -> Option<&'static Key> {
    for key in spot.section.keys() {
        if !is_in_range(spot.table, key) {
            return Some(key);
        }
    }
    None
}

// The number of a key, where it is one of 32 bits.
fn number_at(table: &Table, key: &str) -> Option<u32> {
    u32::try_from(table.get(key)?.as_integer()?).ok()
}

// The map of a file.
fn map_in(table: &Table) -> Option<RawMap> {
    Some(RawMap {
        comps: number_at(table, "components")?,
        unit: u64::try_from(table.get("unit")?.as_integer()?).ok()?,
        width: number_at(table, "width")?,
        depth: number_at(table, "depth")?,
        mirrors: number_at(table, "mirrors")?,
        algorithm: number_at(table, "algorithm")?,
    })
}

// The key by which a map fails its check.
fn key_of(e: MapErr) -> &'static str {
    match e {
        MapErr::Unit => "unit",
        MapErr::TooMany | MapErr::TooFew | MapErr::Multiple => "components",
        MapErr::Width => "width",
        MapErr::Depth => "depth",
    }
}

// What is wrong with the map of a file, where so many drives stand.
fn wrong_map(
    alloc: Global,
    text: &str,
    spot: Spot<'_>,
    drives: u64,
) -> Result<Option<String>, AllocError> {
    let Some(map) = map_in(spot.table) else {
        return Ok(None);
    };
    if map.algorithm < RAID_0 || RAID_PQ < map.algorithm {
        return Ok(None);
    }
    if let Err(e) = DataMap::check(map) {
        let wrong = format!(in alloc; "{e}")?;
        return Ok(Some(finding(alloc, text, spot, key_of(e), wrong.as_str())?));
    }
    let components = u64::from(map.comps);
    if components <= drives && components <= MAX_FILE_COMPONENTS {
        return Ok(None);
    }
    let wrong = format!(in alloc;
        "{components} components, and there are {drives} drives; 64 are the most"
    )?;
    Ok(Some(finding(alloc, text, spot, "components", wrong.as_str())?))
}

// What isn't in its range, in a text with so many drives.
pub(crate) fn out_of_range(
    alloc: Global,
    text: &str,
    spot: Spot<'_>,
    drives: u64,
) -> Result<Option<String>, AllocError> {
    if let Some(key) = key_out_of_range(spot) {
        let wanted = key.wanted;
        let wrong = match spot.table.get(key.name) {
            Some(value) => match value.as_integer() {
                Some(number) => format!(in alloc; "{wanted} is wanted, and it is {number}")?,
                None => format!(in alloc; "{wanted} is wanted")?,
            },
            None => format!(in alloc; "{wanted} is wanted")?,
        };
        return Ok(Some(finding(alloc, text, spot, key.name, wrong.as_str())?));
    }
    if spot.section == Section::File {
        return wrong_map(alloc, text, spot, drives);
    }
    Ok(None)
}
