// What the server notes and sends, in words: by what stands at the places of a message, apart from the codecs.
use crate::moves::{Question, Questions};
use crate::places::{Form, PAYLOAD, from, number, put, put_form, put_word};
use crate::wire::GET;
use osd_lists::{Bytes, Memory, Node};
use server_requests::Sent;
use server_rules::{Note, NoteKind};

// The client, the number of its request, the status, the detail and the file's size.
const ANSWER: Form = &[("answer c", 4), (" ", 8), (" ", 32), (" ", 20), (" ", 28)];

const RECALL: Form = &[("recall c", 4)];

const ORDER: Form = &[("order ", 8)];

const UNREADABLE: Form = &[("unreadable ", 0)];

// The actions of commands, from 1 on.
const ACTIONS: &[&str] = &[
    "",
    "create d",
    "read d",
    "write d",
    "getattr d",
    "setattr d",
    "settag d",
];

const READ_ACTION: u32 = 2;

const WRITE_ACTION: u32 = 3;

// The offset and the length of a READ.
const READ_RANGE: Form = &[(" ", 28), (" ", 36)];

const WRITE_OFFSET: Form = &[(" ", 28)];

// Parts what comes from what came before.
fn part(text: &mut Bytes) -> Result<(), Memory> {
    if text.is_empty() {
        Ok(())
    } else {
        put_word(text, "; ")
    }
}

// A word and numbers.
fn put_numbers(text: &mut Bytes, word: &str, numbers: &[u64]) -> Result<(), Memory> {
    put_word(text, word)?;
    for number in numbers {
        put(text, " ", *number)?;
    }
    Ok(())
}

// The component that can't be made, and the lost positions.
fn put_lost(text: &mut Bytes, component: u32, positions: &[u32]) -> Result<(), Memory> {
    put(text, "lost ", u64::from(component))?;
    for position in positions {
        put(text, " ", u64::from(*position))?;
    }
    Ok(())
}

/// A note, by the words of its kind.
pub fn put_note(text: &mut Bytes, note: &Note) -> Result<(), Memory> {
    part(text)?;
    match &note.kind {
        NoteKind::Ready => put_word(text, "ready"),
        NoteKind::Fenced { tag } => put(text, "fenced ", u64::from(*tag)),
        NoteKind::Repaired { stripes, short } => put_numbers(text, "repaired", &[*stripes, *short]),
        NoteKind::Rebuilt { component, drive } => put_numbers(
            text,
            "rebuilt",
            &[u64::from(*component), u64::from(*drive)],
        ),
        NoteKind::NoDrive { component } => put(text, "nodrive ", u64::from(*component)),
        NoteKind::Lost {
            component,
            positions,
        } => put_lost(text, *component, positions.as_slice()),
        NoteKind::NoSpace { component } => put(text, "nospace ", u64::from(*component)),
        NoteKind::Audit {
            stripes,
            short,
            bad,
            bytes,
        } => put_numbers(text, "audit", &[*stripes, *short, *bad, *bytes]),
        NoteKind::Busy { component } => put(text, "busy ", u64::from(*component)),
        NoteKind::Spent => put_word(text, "spent"),
        NoteKind::Reported { component } => put(text, "reported ", u64::from(*component)),
    }
}

// The range of a READ; the offset and the bytes of a WRITE.
fn put_range(text: &mut Bytes, action: u32, bytes: &[u8]) -> Result<(), Memory> {
    match action {
        READ_ACTION => put_form(text, bytes, READ_RANGE),
        WRITE_ACTION => {
            put_form(text, bytes, WRITE_OFFSET)?;
            text.push(b' ')?;
            text.extend_from_slice(from(bytes, PAYLOAD))
        }
        _ => Ok(()),
    }
}

// A command to a drive, with the format of its capability where that is 2.
fn put_command(text: &mut Bytes, drive: u32, bytes: &[u8]) -> Result<(), Memory> {
    let action = number(bytes, 4) >> 16;
    let word = ACTIONS.get(action as usize).copied().unwrap_or("?");
    put(text, word, u64::from(drive))?;
    put_range(text, action, bytes)?;
    if bytes.get(64) == Some(&2) {
        put_word(text, " f2")?;
    }
    Ok(())
}

// What a message to a client or an operator has, by its kind.
fn form_of(bytes: &[u8]) -> Form {
    match number(bytes, 0) {
        2 => ANSWER,
        3 => RECALL,
        6 => ORDER,
        _ => UNREADABLE,
    }
}

// Whether a message is an answer with a layout.
fn has_layout(bytes: &[u8]) -> bool {
    number(bytes, 0) == 2
        && number(bytes, 16) == GET
        && number(bytes, 32) == 0
        && number(bytes, 56) != 0
}

fn put_message(text: &mut Bytes, bytes: &[u8]) -> Result<(), Memory> {
    put_form(text, bytes, form_of(bytes))?;
    if has_layout(bytes) {
        put_word(text, " layout")?;
    }
    Ok(())
}

// What a drive is to answer in a command.
fn question_in(drive: u32, bytes: &[u8]) -> Question {
    Question {
        drive,
        action: number(bytes, 4) >> 16,
        object: number(bytes, 20),
        nonce: [number(bytes, 40), number(bytes, 44)],
    }
}

/// A message that the server sends. A command is one more that a drive is to answer.
pub fn put_sent(text: &mut Bytes, questions: &mut Questions, sent: &Sent) -> Result<(), Memory> {
    part(text)?;
    let bytes = sent.bytes.as_slice();
    match sent.to {
        Node::Drive(drive) => {
            questions.push(question_in(drive, bytes))?;
            put_command(text, drive, bytes)
        }
        _ => put_message(text, bytes),
    }
}
