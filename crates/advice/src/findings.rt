// A place of a cluster text, and what is wrong there.
use crate::keys::Section;
use crate::spots::{Spot, line_in};
use std::alloc::{AllocError, Global};
use toml::Value;

// The longest text of a value that is shown.
const MOST_SHOWN: usize = 60;

// What a person is told of a place: its line where it is found, its key, and what is wrong there.
pub(crate) fn finding(
    alloc: Global,
    text: &str,
    spot: Spot<'_>,
    key: &str,
    wrong: &str,
) -> Result<String, AllocError> {
    let name = spot.section.name();
    match line_in(text, spot.section, spot.index, Some(key)) {
        Some(line) => format!(in alloc; "line {line}, key \"{key}\" of {name}: {wrong}"),
        None => {
            let place = whereabouts(alloc, text, spot)?;
            format!(in alloc; "{place}, key \"{key}\": {wrong}")
        }
    }
}

// Where a table stands.
pub(crate) fn whereabouts(alloc: Global, text: &str, spot: Spot<'_>) -> Result<String, AllocError> {
    let name = spot.section.name();
    if spot.section == Section::Top {
        return String::from_str(alloc, name);
    }
    match line_in(text, spot.section, spot.index, None) {
        Some(line) => format!(in alloc; "{name} of line {line}"),
        None => {
            let number = spot.index.saturating_add(1);
            format!(in alloc; "{name} {number}")
        }
    }
}

// What a value is, in words.
pub(crate) fn shown(alloc: Global, value: &Value) -> Result<String, AllocError> {
    match value {
        Value::String(text) if text.len() <= MOST_SHOWN => {
            let text = text.as_str();
            format!(in alloc; "\"{text}\" is a text")
        }
        Value::String(_) => String::from_str(alloc, "there is a text"),
        Value::Integer(number) => format!(in alloc; "{number} is a whole number"),
        Value::Float(_) => String::from_str(alloc, "there is a fraction"),
        Value::Boolean(_) => String::from_str(alloc, "there is a truth value"),
        Value::Datetime(_) => String::from_str(alloc, "there is a date or time"),
        Value::Array(_) => String::from_str(alloc, "there is a list"),
        Value::Table(_) => String::from_str(alloc, "there is a table"),
    }
}
