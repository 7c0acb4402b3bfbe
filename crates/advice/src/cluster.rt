// Where a cluster text is wrong.
use crate::findings::{finding, shown, whereabouts};
use crate::keys::{Form, Section};
use crate::ranges::out_of_range;
use crate::spots::{Spot, spots_in};
use crate::suggestions::Suggestion;
use cluster_text::{ClusterKind, MAX_DRIVES, MAX_FILES, Reader};
use std::alloc::{AllocError, Global};
use std::str;
use toml::{Table, Value};

// How many lines, from 1, begin before a place of a text.
fn line_at(text: &str, place: usize) -> usize {
    let mut line = 1usize;
    for (at, byte) in text.as_bytes().iter().enumerate() {
        if at < place && *byte == b'\n' {
            line = line.saturating_add(1);
        }
    }
    line
}

// What a key that isn't one of its table may have meant.
fn unknown_key(alloc: Global, section: Section, key: &str) -> Result<String, AllocError> {
    let name = section.name();
    let mut suggestion = Suggestion::new();
    for known in section.keys() {
        suggestion.offer(alloc, key, known.name)?;
    }
    let mut wrong = match suggestion.name {
        Some(meant) => format!(in alloc;
            "no such key; did you mean \"{meant}\"? The keys of {name} are"
        )?,
        None => format!(in alloc; "no such key. The keys of {name} are")?,
    };
    for known in section.keys() {
        let name = known.name;
        write!(wrong, " {name}")?;
    }
    Ok(wrong)
}

fn is_known(section: Section, key: &str) -> bool {
    for known in section.keys() {
        if known.name == key {
            return true;
        }
    }
    false
}

// A key that isn't one of its table.
fn unknown(alloc: Global, text: &str, spot: Spot<'_>) -> Result<Option<String>, AllocError> {
    for key in spot.table.keys() {
        let key = key.as_str();
        if !is_known(spot.section, key) {
            let wrong = unknown_key(alloc, spot.section, key)?;
            return Ok(Some(finding(alloc, text, spot, key, wrong.as_str())?));
        }
    }
    Ok(None)
}

// A key that is missing in its table.
fn missing(
    alloc: Global,
    text: &str,
    spot: Spot<'_>,
    reader: Reader,
) -> Result<Option<String>, AllocError> {
    for key in spot.section.keys() {
        let needs = key.is_needed(reader != Reader::Client);
        if needs && spot.table.get(key.name).is_none() {
            let place = whereabouts(alloc, text, spot)?;
            let (name, wanted) = (key.name, key.wanted);
            return Ok(Some(format!(in alloc;
                "{place}: the key \"{name}\" is missing; {wanted} is wanted"
            )?));
        }
    }
    Ok(None)
}

// Whether all values of a list are tables.
fn are_tables(value: &Value) -> bool {
    match value.as_array() {
        Some(values) => values.as_slice().iter().all(|value| value.is_table()),
        None => false,
    }
}

fn has_form(value: &Value, form: Form) -> bool {
    match form {
        Form::Address | Form::Key => value.is_str(),
        Form::Whole(_, _) => value.is_integer(),
        Form::Tables => are_tables(value),
    }
}

// A value of another type than its key asks for.
fn mistyped(alloc: Global, text: &str, spot: Spot<'_>) -> Result<Option<String>, AllocError> {
    for key in spot.section.keys() {
        let Some(value) = spot.table.get(key.name) else {
            continue;
        };
        if !has_form(value, key.form) {
            let wanted = key.wanted;
            let is = shown(alloc, value)?;
            let is = is.as_str();
            let wrong = format!(in alloc; "{wanted} is wanted, and {is}")?;
            return Ok(Some(finding(alloc, text, spot, key.name, wrong.as_str())?));
        }
    }
    Ok(None)
}

fn number_of(spot: &Spot<'_>) -> Option<i64> {
    spot.table.get("number")?.as_integer()
}

fn address_of<'a>(spot: &Spot<'a>) -> Option<&'a str> {
    spot.table.get("address")?.as_str()
}

// An address that a drive before has already.
fn shared_address(
    alloc: Global,
    text: &str,
    spots: &[Spot<'_>],
    spot: Spot<'_>,
) -> Result<Option<String>, AllocError> {
    let Some(address) = address_of(&spot) else {
        return Ok(None);
    };
    for other in spots {
        let is_before = other.section == spot.section && other.index < spot.index;
        if is_before && address_of(other) == Some(address) {
            let wrong = format!(in alloc; "the address {address} stands twice")?;
            return Ok(Some(finding(alloc, text, spot, "address", wrong.as_str())?));
        }
    }
    Ok(None)
}

// A number or an address that a table before has already.
fn repeated(
    alloc: Global,
    text: &str,
    spots: &[Spot<'_>],
    spot: Spot<'_>,
) -> Result<Option<String>, AllocError> {
    let Some(number) = number_of(&spot) else {
        return Ok(None);
    };
    for other in spots {
        let is_before = other.section == spot.section && other.index < spot.index;
        if is_before && number_of(other) == Some(number) {
            let wrong = format!(in alloc; "the number {number} stands twice")?;
            return Ok(Some(finding(alloc, text, spot, "number", wrong.as_str())?));
        }
    }
    shared_address(alloc, text, spots, spot)
}

fn count_of(spots: &[Spot<'_>], section: Section) -> u64 {
    spots.iter().filter(|spot| spot.section == section).count() as u64
}

// What is wrong with the whole of a text.
fn wrong_whole(
    alloc: Global,
    reader: Reader,
    kind: ClusterKind,
    spots: &[Spot<'_>],
) -> Result<Option<String>, AllocError> {
    let (drives, files) = (
        count_of(spots, Section::Drive),
        count_of(spots, Section::File),
    );
    match (kind, reader) {
        (ClusterKind::Missing, Reader::Drive(number)) => Ok(Some(format!(in alloc;
            "no [[drive]] has the number {number}"
        )?)),
        (ClusterKind::Range, _) if drives == 0 || drives > MAX_DRIVES => Ok(Some(format!(in alloc;
            "there are {drives} drives, and 1 to {MAX_DRIVES} may stand"
        )?)),
        (ClusterKind::Range, _) if files > MAX_FILES => Ok(Some(format!(in alloc;
            "there are {files} files, and at most {MAX_FILES} may stand"
        )?)),
        (ClusterKind::Range, _) => Ok(Some(String::from_str(
            alloc,
            "the server can't place a file on these drives",
        )?)),
        _ => Ok(None),
    }
}

// What is wrong with a table of a text.
fn wrong_spot(
    alloc: Global,
    reader: Reader,
    kind: ClusterKind,
    text: &str,
    spots: &[Spot<'_>],
    spot: Spot<'_>,
) -> Result<Option<String>, AllocError> {
    match kind {
        ClusterKind::Toml => Ok(None),
        ClusterKind::Unknown => unknown(alloc, text, spot),
        ClusterKind::Missing => missing(alloc, text, spot, reader),
        ClusterKind::WrongType => mistyped(alloc, text, spot),
        ClusterKind::Range => out_of_range(alloc, text, spot, count_of(spots, Section::Drive)),
        ClusterKind::Repeated => repeated(alloc, text, spots, spot),
    }
}

// What is wrong with a document.
fn wrong_table(
    alloc: Global,
    reader: Reader,
    kind: ClusterKind,
    text: &str,
    top: &Table,
) -> Result<Option<String>, AllocError> {
    let spots = spots_in(alloc, top)?;
    for spot in &spots {
        let wrong = wrong_spot(alloc, reader, kind, text, spots.as_slice(), *spot)?;
        if wrong.is_some() {
            return Ok(wrong);
        }
    }
    wrong_whole(alloc, reader, kind, spots.as_slice())
}

// What is wrong with a text.
fn wrong_text(
    alloc: Global,
    reader: Reader,
    kind: ClusterKind,
    text: &str,
) -> Result<Option<String>, AllocError> {
    match toml::table_from_str(alloc, text) {
        Ok(top) => wrong_table(alloc, reader, kind, text, &top),
        Err(e) => match e.span() {
            Some(span) => {
                let line = line_at(text, span.start);
                let why = e.message();
                Ok(Some(format!(in alloc; "line {line}: no TOML: {why}")?))
            }
            None => Ok(None),
        },
    }
}

/// What a person is told of a cluster text that is refused by this kind: the line and the key, and what stands and what
/// may stand there. Without the text it is the kind alone.
pub fn refused_cluster(
    alloc: Global,
    reader: Reader,
    kind: ClusterKind,
    text: Option<&[u8]>,
) -> Result<String, AllocError> {
    let found = match text {
        Some(bytes) => match str::from_utf8(bytes) {
            Ok(text) => wrong_text(alloc, reader, kind, text)?,
            Err(_) => Some(String::from_str(alloc, "the text isn't UTF-8")?),
        },
        None => None,
    };
    match found {
        Some(found) => {
            let found = found.as_str();
            format!(in alloc; "pnfs_osd: cluster text: {found}\n")
        }
        None => format!(in alloc; "pnfs_osd: cluster text: {kind}\n"),
    }
}
