// A client, and what it does as lines come to it.
use crate::line::{Answer, Call, Line, Question, Verb, Word, line_of};
use crate::places::{put, put_word};
use crate::setting::{FIRST_OBJECT, Grant, STRIPED, Setting, put_layout, with_field};
use crate::told::{tell_awaits, tell_refusal, tell_sends, tell_step};
use crate::wire::{
    CLIENT, COMMIT, GET, Head, RETURN, put_answered, put_granted, put_recall, put_reply,
};
use client_rules::{CallErr, CallOp};
use osd_lists::{Bytes, Memory, Node};
use std::alloc::Global;
use std::process::Abort;
use stripe_client::{CStep, ClientCore, Sends};

// A client, and what comes to it and of it.
#[derive(Drop)]
struct Talk {
    alloc: Global,
    client: ClientCore,
    // What comes, and the layout in it.
    message: Bytes,
    layout: Bytes,
    // What came of the last line, as text.
    came: Bytes,
}

// The bytes of a line, behind an `x`.
fn bytes_of(alloc: Global, line: &Line<'_>) -> Result<Bytes, Memory> {
    let digits = line.text.strip_prefix('x').unwrap_or("");
    match hex::decode(alloc, digits) {
        Ok(bytes) => Ok(Bytes::from_vec(bytes)),
        Err(_) => Err(Memory),
    }
}

fn op_of(alloc: Global, file: u32, call: Call, line: &Line<'_>) -> Result<CallOp, Memory> {
    let [offset, length, ..] = line.numbers;
    let offset = u64::from(offset);
    match call {
        Call::Write => Ok(CallOp::Write {
            file,
            offset,
            bytes: bytes_of(alloc, line)?,
        }),
        Call::Read => Ok(CallOp::Read {
            file,
            offset,
            length: u64::from(length),
        }),
    }
}

// What an answer says before its results. Its third number is a detail, or a size.
fn head_of(answer: Answer, line: &Line<'_>) -> Head {
    let [sequence, status, number, ..] = line.numbers;
    let head = Head {
        sequence,
        operation: GET,
        detail: 0,
        size: 0,
        status,
    };
    match answer {
        Answer::Grant => Head {
            size: number,
            status: 0,
            ..head
        },
        Answer::Commit => Head {
            operation: COMMIT,
            size: number,
            ..head
        },
        Answer::Return => Head {
            operation: RETURN,
            detail: number,
            ..head
        },
        Answer::Deny | Answer::Recall => Head {
            detail: number,
            ..head
        },
    }
}

fn grant_of(line: &Line<'_>) -> Grant {
    let [_, number, _, first, length, _] = line.numbers;
    Grant {
        number,
        rw: line.text == "rw",
        first,
        length,
    }
}

// A message of the server.
fn put_served(
    message: &mut Bytes,
    layout: &mut Bytes,
    setting: &Setting<'_>,
    answer: Answer,
    line: &Line<'_>,
) -> Result<(), Memory> {
    let head = head_of(answer, line);
    match answer {
        Answer::Grant => {
            let grant = grant_of(line);
            put_layout(layout, setting, &grant)?;
            put_granted(message, setting, &head, &grant, layout.as_slice())
        }
        Answer::Recall => put_recall(message, head.sequence, setting.file, head.status),
        _ => put_answered(message, setting, &head),
    }
}

// A message of a drive, with this payload: a READ is action 2, a WRITE 3.
fn put_replied(
    message: &mut Bytes,
    verb: Verb,
    line: &Line<'_>,
    payload: &[u8],
) -> Result<(), Memory> {
    let [_, grant, place, verdict, detail, _] = line.numbers;
    let action = match verb {
        Verb::Give => 2,
        Verb::Take | Verb::Refuse => 3,
    };
    let doing = [action, verdict];
    put_reply(
        message,
        doing,
        FIRST_OBJECT,
        [grant, place],
        detail,
        payload,
    )
}

// The text of a step.
fn tell(
    came: &mut Bytes,
    alloc: Global,
    step: Result<CStep, Memory>,
    digits: bool,
) -> Result<(), Memory> {
    match step {
        Ok(step) => tell_step(came, alloc, &step, digits),
        Err(e) => Err(e),
    }
}

fn tell_call(
    came: &mut Bytes,
    alloc: Global,
    step: Result<CStep, CallErr>,
    digits: bool,
) -> Result<(), Memory> {
    match step {
        Ok(step) => tell_step(came, alloc, &step, digits),
        Err(refusal) => tell_refusal(came, refusal),
    }
}

fn tell_sent(
    came: &mut Bytes,
    alloc: Global,
    sends: Result<Sends, Memory>,
    digits: bool,
) -> Result<(), Memory> {
    match sends {
        Ok(sends) => tell_sends(came, alloc, sends.as_slice(), digits),
        Err(e) => Err(e),
    }
}

// Only an idle client may leave.
fn leave(talk: &mut Talk, digits: bool) -> Result<(), Memory> {
    if talk.client.pending().is_some() {
        return tell_refusal(&mut talk.came, CallErr::Busy);
    }
    let sends = talk.client.leave();
    tell_sent(&mut talk.came, talk.alloc, sends, digits)
}

fn nonce_of(grant: u32, place: u32) -> u64 {
    u64::from(grant) * 4_294_967_296 + u64::from(place)
}

// What the client tells of itself.
fn say(talk: &mut Talk, question: Question, line: &Line<'_>) -> Result<(), Memory> {
    let [grant, place, ..] = line.numbers;
    match question {
        Question::Awaits => tell_awaits(&mut talk.came, talk.client.awaits()),
        Question::Next => put(&mut talk.came, "", u64::from(talk.client.next_sequence())),
        Question::Awaited => match talk.client.awaited(nonce_of(grant, place)) {
            Some(component) => put(&mut talk.came, "", u64::from(component)),
            None => Ok(()),
        },
    }
}

// The message comes.
fn hear(talk: &mut Talk, from: Node, digits: bool) -> Result<(), Memory> {
    let step = talk.client.on_message(from, talk.message.as_slice());
    tell(&mut talk.came, talk.alloc, step, digits)
}

fn call(talk: &mut Talk, op: CallOp, digits: bool) -> Result<(), Memory> {
    let step = talk.client.call(op);
    tell_call(&mut talk.came, talk.alloc, step, digits)
}

fn time_out(talk: &mut Talk, component: u32, digits: bool) -> Result<(), Memory> {
    let step = talk.client.timeout(component);
    tell(&mut talk.came, talk.alloc, step, digits)
}

fn resend(talk: &mut Talk, digits: bool) -> Result<(), Memory> {
    let sends = talk.client.resend();
    tell_sent(&mut talk.came, talk.alloc, sends, digits)
}

// A message of the server comes.
fn serve(
    talk: &mut Talk,
    setting: &Setting<'_>,
    answer: Answer,
    line: &Line<'_>,
) -> Result<(), Memory> {
    put_served(&mut talk.message, &mut talk.layout, setting, answer, line)?;
    hear(talk, Node::Server, setting.digits)
}

// A message of a drive comes.
fn reply(talk: &mut Talk, verb: Verb, line: &Line<'_>, digits: bool) -> Result<(), Memory> {
    let payload = bytes_of(talk.alloc, line)?;
    put_replied(&mut talk.message, verb, line, payload.as_slice())?;
    hear(talk, Node::Drive(line.numbers[0]), digits)
}

// What the client does, as text.
fn react(talk: &mut Talk, setting: &Setting<'_>, line: &Line<'_>) -> Result<(), Memory> {
    let digits = setting.digits;
    match line.word {
        Word::Calls(kind) => match op_of(talk.alloc, setting.file, kind, line) {
            Ok(op) => call(talk, op, digits),
            Err(e) => Err(e),
        },
        Word::Serves(answer) => serve(talk, setting, answer, line),
        Word::Replies(verb) => reply(talk, verb, line, digits),
        Word::Tells(question) => say(talk, question, line),
        Word::Timeout => time_out(talk, line.numbers[0], digits),
        Word::Leave => leave(talk, digits),
        Word::Resend => resend(talk, digits),
        Word::Sets(_) => Ok(()),
        // No line of a case has this below it, so that a word that is misspelled fails.
        Word::Unknown => put_word(&mut talk.came, "unknown"),
    }
}

// What a line sets.
fn set<'a>(setting: &mut Setting<'a>, line: &Line<'a>) {
    if let Word::Sets(field) = line.word {
        *setting = with_field(*setting, field, line);
    }
}

// A case begins, or a line comes.
fn go_on<'a>(
    talk: &mut Talk,
    first: u32,
    setting: &mut Setting<'a>,
    text: &'a str,
) -> Result<(), Memory> {
    if text.starts_with('#') {
        talk.client = ClientCore::new(talk.alloc, CLIENT, first.max(1));
        *setting = STRIPED;
        return Ok(());
    }
    let line = line_of(text);
    set(setting, &line);
    talk.message.truncate(0);
    talk.layout.truncate(0);
    react(talk, setting, &line)
}

// Whether what came is what is wanted. It is done with.
fn is_told(came: &mut Bytes, wanted: &str) -> bool {
    let is_wanted = came.as_slice() == wanted.as_bytes();
    came.truncate(0);
    is_wanted
}

// Whether what came of the line before is what stands below it.
fn agrees<'a>(talk: &mut Talk, first: u32, setting: &mut Setting<'a>, text: &'a str) -> bool {
    if let Some(wanted) = text.strip_prefix("  ") {
        return is_told(&mut talk.came, wanted);
    }
    talk.came.is_empty() && go_on(talk, first, setting, text).is_ok()
}

// The first line, from 0 on, at which the client does something else, if any.
fn first_wrong_of(talk: &mut Talk, first: u32, text: &str) -> Option<usize> {
    let mut setting = STRIPED;
    let mut count = 0usize;
    for line in text.lines() {
        if !agrees(talk, first, &mut setting, line) {
            return Some(count);
        }
        count = count.wrapping_add(1);
    }
    // What comes of the last line stands below it too.
    if talk.came.is_empty() {
        None
    } else {
        Some(count)
    }
}

// The same of a client of its own.
fn first_wrong(alloc: Global, first: u32, text: &str) -> Option<usize> {
    let mut talk = Talk {
        alloc,
        client: ClientCore::new(alloc, CLIENT, first.max(1)),
        message: Bytes::new(alloc),
        layout: Bytes::new(alloc),
        came: Bytes::new(alloc),
    };
    first_wrong_of(&mut talk, first, text)
}

/// Ends the test at the first line, from 0 on, at which a client does something else.
///
/// A line that begins with `#` begins a case, with a new client. Its first request has the number `first`, or 1 where
/// that is 0. Below any other line stands, behind two blanks, what the client then sends and says, if it does anything.
pub fn play(rt: &impl Abort, alloc: Global, first: u32, text: &str) {
    let wrong = first_wrong(alloc, first, text);
    assert!(rt; wrong.is_none(), "line {}", wrong.unwrap_or(0));
}
