// What is wrong with the text of a client's call or order.
use crate::suggestions::Suggestion;
use scenario_text::{EventErr, read_event};
use std::alloc::{AllocError, Global};

const NAMES: &[&str] = &[
    "write", "read", "recall", "revoke", "rebuild", "audit", "declare",
];

const FORMS: &str = "\
TEXT is 'write F OFFSET HEX', 'read F OFFSET LENGTH', 'recall F', 'revoke F', 'rebuild F', 'audit F' or 'declare D': F a file
as f0, D a drive as d0, HEX pairs of hexadecimal digits or - for the bytes behind the text of the cluster and a zero byte,
numbers in decimal digits without leading zeros, single blanks between the words.
";

// How a call or an order is written.
fn form_of(name: &str) -> Option<&'static str> {
    match name {
        "write" => Some("write F OFFSET HEX"),
        "read" => Some("read F OFFSET LENGTH"),
        "recall" => Some("recall F"),
        "revoke" => Some("revoke F"),
        "rebuild" => Some("rebuild F"),
        "audit" => Some("audit F"),
        "declare" => Some("declare D"),
        _ => None,
    }
}

// What refuses a line, if it is refused.
fn refusal_of(alloc: Global, line: &str) -> Option<EventErr> {
    match read_event(alloc, line.as_bytes()) {
        Ok(_) => None,
        Err(e) => Some(e),
    }
}

// What refuses the text of a call or an order.
fn refusal_in(alloc: Global, name: &str, text: &str) -> Result<Option<EventErr>, AllocError> {
    if name == "write" || name == "read" {
        let line = format!(in alloc; "do c0 {text}")?;
        return Ok(refusal_of(alloc, line.as_str()));
    }
    Ok(refusal_of(alloc, text))
}

// What is said of a text whose first word names nothing.
fn unknown_name(alloc: Global, name: &str) -> Result<String, AllocError> {
    let mut suggestion = Suggestion::new();
    for known in NAMES {
        suggestion.offer(alloc, name, known)?;
    }
    match suggestion.name {
        Some(meant) => format!(in alloc;
            "error: no call or order '{name}'; did you mean '{meant}'?\n\n{FORMS}"
        ),
        None => format!(in alloc; "error: no call or order '{name}'\n\n{FORMS}"),
    }
}

// What is said of the text of a call or an order, where it is refused.
pub(crate) fn refused_call(alloc: Global, text: &str) -> Result<Option<String>, AllocError> {
    let name = match text.split_once(' ') {
        Some((name, _)) => name,
        None => text,
    };
    let Some(form) = form_of(name) else {
        return Ok(Some(unknown_name(alloc, name)?));
    };
    match refusal_in(alloc, name, text)? {
        Some(e) => {
            let kind = e.name();
            Ok(Some(format!(in alloc;
                "error: --call: {e} ({kind}); the form is '{form}'\n\n{FORMS}"
            )?))
        }
        None => Ok(None),
    }
}
