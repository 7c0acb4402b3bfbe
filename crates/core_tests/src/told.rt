// What a client sends and says, as text.
use crate::places::{Form, PAYLOAD, from, number, put, put_form, put_word};
use crate::wire::{COMMIT, GET, RECALL, RETURN};
use client_rules::{Awaits, CallErr, Outcome, Why};
use osd_lists::{Bytes, Memory, Node};
use std::alloc::Global;
use stripe_client::{CStep, Sent};

const GETS_TO_READ: Form = &[("asks ", 8), (" f", 12), (" to read ", 36), ("+", 44)];

const GETS_TO_WRITE: Form = &[("asks ", 8), (" f", 12), (" to write ", 36), ("+", 44)];

const COMMITS: Form = &[
    ("asks ", 8),
    (" f", 12),
    (" wrote ", 24),
    ("+", 32),
    (" to ", 64),
];

const RETURNS: Form = &[("asks ", 8), (" f", 12), (" returns ", 64)];

const RECALL_ANSWER: Form = &[("answers ", 8), (" f", 12), (" ", 20)];

const OTHER: Form = &[("sends ", 0)];

// Behind the word and the drive: offset, length, and the grant and the place of the command.
const COMMAND: Form = &[(" ", 28), ("+", 36), (" ", 40), (".", 44)];

// Where the errors of a LAYOUTRETURN begin, and how many bytes each has.
const ERRORS: usize = 76;

const ERROR_BYTES: usize = 56;

// In an error: the drive, and the range.
const ERROR_TO_READ: Form = &[(" d", 12), (" read ", 36), ("+", 44)];

const ERROR_TO_WRITE: Form = &[(" d", 12), (" write ", 36), ("+", 44)];

// pnfs_osd_errno4, from 1 on.
const ERRNOS: &[&str] = &[
    "",
    " Eio",
    " NotFound",
    " NoSpace",
    " BadCred",
    " NoAccess",
    " Unreachable",
    " Resource",
];

fn put_all(text: &mut Bytes, parts: &[(&str, u64)]) -> Result<(), Memory> {
    for (before, number) in parts {
        put(text, before, *number)?;
    }
    Ok(())
}

fn put_behind_blank(text: &mut Bytes, bytes: &[u8]) -> Result<(), Memory> {
    text.push(b' ')?;
    text.extend_from_slice(bytes)
}

// Hexadecimal digits, or a dash for no byte.
fn put_digits(text: &mut Bytes, alloc: Global, bytes: &[u8]) -> Result<(), Memory> {
    if bytes.is_empty() {
        return put_word(text, " -");
    }
    let digits = hex::encode(alloc, bytes)?;
    put_behind_blank(text, digits.as_bytes())
}

fn tell_command(text: &mut Bytes, alloc: Global, drive: u32, bytes: &[u8]) -> Result<(), Memory> {
    let word = match number(bytes, 4) {
        0x0002_0000 => "reads d",
        0x0003_0000 => "writes d",
        _ => "does d",
    };
    put(text, word, u64::from(drive))?;
    put_form(text, bytes, COMMAND)?;
    let payload = from(bytes, PAYLOAD);
    if payload.is_empty() {
        return Ok(());
    }
    put_digits(text, alloc, payload)
}

// How an error ends and what it is of.
fn tell_error(text: &mut Bytes, error: &[u8]) -> Result<(), Memory> {
    let errno = number(error, 52) as usize;
    put_word(text, ERRNOS.get(errno).copied().unwrap_or(" ?"))?;
    let form = match number(error, 48) {
        0 => ERROR_TO_READ,
        _ => ERROR_TO_WRITE,
    };
    put_form(text, error, form)
}

// What a message to the server begins with: its kind, operation and iomode, or what stands there.
fn form_of(bytes: &[u8]) -> Form {
    match (number(bytes, 0), number(bytes, 16), number(bytes, 28)) {
        (1, GET, 1) => GETS_TO_READ,
        (1, GET, 2) => GETS_TO_WRITE,
        (1, COMMIT, _) => COMMITS,
        (1, RETURN, _) => RETURNS,
        (4, RECALL, _) => RECALL_ANSWER,
        _ => OTHER,
    }
}

fn tell_request(text: &mut Bytes, bytes: &[u8]) -> Result<(), Memory> {
    put_form(text, bytes, form_of(bytes))?;
    if number(bytes, 16) == RETURN {
        for error in from(bytes, ERRORS).chunks(ERROR_BYTES) {
            tell_error(text, error)?;
        }
    }
    Ok(())
}

// By what it says.
fn tell_message(text: &mut Bytes, alloc: Global, sent: &Sent) -> Result<(), Memory> {
    match sent.to {
        Node::Drive(drive) => tell_command(text, alloc, drive, sent.bytes.as_slice()),
        Node::Server => tell_request(text, sent.bytes.as_slice()),
        Node::Client(_) => put_word(text, "sends to a client"),
    }
}

// By to whom, and its bytes.
fn tell_bytes(text: &mut Bytes, alloc: Global, sent: &Sent) -> Result<(), Memory> {
    match sent.to {
        Node::Drive(drive) => put(text, "d", u64::from(drive))?,
        Node::Server => put_word(text, "s")?,
        Node::Client(client) => put(text, "c", u64::from(client))?,
    }
    put_digits(text, alloc, sent.bytes.as_slice())
}

// What stands between what is told.
fn part(text: &mut Bytes) -> Result<(), Memory> {
    if text.is_empty() {
        Ok(())
    } else {
        put_word(text, ", ")
    }
}

fn tell_sent(text: &mut Bytes, alloc: Global, sent: &Sent, digits: bool) -> Result<(), Memory> {
    part(text)?;
    if digits {
        tell_bytes(text, alloc, sent)
    } else {
        tell_message(text, alloc, sent)
    }
}

/// What is sent, in order.
pub fn tell_sends(
    text: &mut Bytes,
    alloc: Global,
    sends: &[Sent],
    digits: bool,
) -> Result<(), Memory> {
    for sent in sends {
        tell_sent(text, alloc, sent, digits)?;
    }
    Ok(())
}

fn name_of(why: Why) -> &'static str {
    match why {
        Why::Unreadable => "badlayout unreadable",
        Why::Index => "badlayout index",
        Why::Partial => "badlayout partial",
        Why::Ssv => "badlayout ssv",
        Why::Map => "badlayout map",
        Why::Credential => "badlayout credential",
    }
}

fn tell_lost(text: &mut Bytes, positions: &[u32]) -> Result<(), Memory> {
    put_word(text, "lost")?;
    for position in positions {
        put(text, " ", u64::from(*position))?;
    }
    Ok(())
}

// How a call ends that got no answer for its bytes.
fn tell_failure(text: &mut Bytes, outcome: &Outcome) -> Result<(), Memory> {
    match outcome {
        Outcome::Held { client } => put(text, "held ", u64::from(*client)),
        Outcome::Fencing { component } => put(text, "fencing ", u64::from(*component)),
        Outcome::Degraded { component } => put(text, "degraded ", u64::from(*component)),
        Outcome::Spent => put_word(text, "spent"),
        Outcome::Silent { component } => put(text, "silent ", u64::from(*component)),
        Outcome::BadLayout { why } => put_word(text, name_of(*why)),
        _ => put_word(text, "nofile"),
    }
}

// How a call ends.
fn tell_outcome(text: &mut Bytes, alloc: Global, outcome: &Outcome) -> Result<(), Memory> {
    match outcome {
        Outcome::WriteOk { length } => put(text, "ok ", *length),
        Outcome::ReadOk { bytes } => {
            put_word(text, "ok")?;
            put_digits(text, alloc, bytes.as_slice())
        }
        Outcome::Lost { positions } => tell_lost(text, positions.as_slice()),
        Outcome::Status { status, detail } => put_all(
            text,
            &[("status ", u64::from(*status)), (" ", u64::from(*detail))],
        ),
        Outcome::Refused {
            drive,
            verdict,
            detail,
        } => put_all(
            text,
            &[
                ("refused d", u64::from(*drive)),
                (" ", u64::from(*verdict)),
                (" ", *detail),
            ],
        ),
        outcome => tell_failure(text, outcome),
    }
}

/// What is sent, in order, and how a call ended.
pub fn tell_step(
    text: &mut Bytes,
    alloc: Global,
    step: &CStep,
    digits: bool,
) -> Result<(), Memory> {
    tell_sends(text, alloc, step.sends.as_slice(), digits)?;
    match &step.outcome {
        Some(outcome) => {
            part(text)?;
            tell_outcome(text, alloc, outcome)
        }
        None => Ok(()),
    }
}

/// Why a call isn't taken.
pub fn tell_refusal(text: &mut Bytes, refusal: CallErr) -> Result<(), Memory> {
    let word = match refusal {
        CallErr::Busy => "busy",
        CallErr::BadRange => "badrange",
        CallErr::SlotSpent => "slotspent",
        CallErr::Memory => "memory",
    };
    put_word(text, word)
}

/// Whose answer is awaited.
pub fn tell_awaits(text: &mut Bytes, awaits: Awaits) -> Result<(), Memory> {
    match awaits {
        Awaits::Nothing => put_word(text, "nothing"),
        Awaits::Server => put_word(text, "server"),
        Awaits::Drive { component } => put(text, "component ", u64::from(component)),
    }
}
