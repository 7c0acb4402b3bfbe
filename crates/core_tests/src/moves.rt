// What comes to the server, as bytes: spelled number by number, apart from the codecs of the project.
use crate::wire::{COMMIT, GET, RETURN, put_numbers, put_reply, size_of};
use layout_ops::OrderKind;
use osd_lists::{Bytes, Memory, Node, Sequence};

/// Layouts for reading.
pub const READ: u32 = 1;

/// Layouts for reading and writing.
pub const RW: u32 = 2;

/// Layouts of any mode, which LAYOUTGET doesn't take.
pub const ANY: u32 = 3;

/// Errors of `pnfs_osd_errno4`.
pub const EIO: u32 = 1;

/// Another of them.
pub const ENOSPC: u32 = 3;

/// A drive that can't be reached.
pub const UNREACHABLE: u32 = 6;

const LAYOUT4_OSD2_OBJECTS: u32 = 2;

// How many bytes an error of a report has.
const ERROR_BYTES: u32 = 56;

/// An error that a client reports: the drive and the object at which it came, and which it is.
pub type Trouble = (u32, u32, u32);

/// What a client asks of the server.
#[derive(Clone, Copy)]
pub enum Ask {
    /// LAYOUTGET: the file, the iomode, the offset and the length.
    Get(u32, u32, u32, u32),
    /// LAYOUTCOMMIT on file 0: the last byte that was written, if any was.
    Commit(Option<u32>),
    /// LAYOUTRETURN on file 0, with these errors.
    Return(&'static [Trouble]),
}

/// What comes to the server.
#[derive(Clone, Copy)]
pub enum Move {
    /// A request of a client, by its sequence number.
    Asks(u32, u32, Ask),
    /// An order of an operator, for a file or a drive.
    Orders(OrderKind, u32),
    /// A drive performs the latest command that was sent to it; this is the payload of its reply.
    Performs(u32, &'static [u8]),
    /// It performs the one that was sent to it before that.
    PerformsFormer(u32),
    /// A drive answers the latest command that was sent to it by another verdict, with a detail.
    Refuses(u32, u16, u32),
    /// The server's clock shows this time in seconds.
    Waits(u64),
    /// The server crashes, and is opened again.
    Restarts,
}

/// A command that a drive is to answer.
#[derive(Clone, Copy)]
pub struct Question {
    pub drive: u32,
    pub action: u32,
    pub object: u32,
    pub nonce: [u32; 2],
}

/// Commands in the order in which they were sent.
pub type Questions = Sequence<Question>;

// The arguments of a LAYOUTGET: no signal, the length as the least one, and no stateid.
#[rattlefmt::skip]
fn put_get(bytes: &mut Bytes, iomode: u32, offset: u32, length: u32) -> Result<(), Memory> {
    put_numbers(
        bytes,
        &[0, LAYOUT4_OSD2_OBJECTS, iomode, 0, offset, 0, length, 0, length, 0, 0, 0, 0, 65_536],
    )
}

// Those of a LAYOUTCOMMIT: no range, no reclaim and no stateid; behind the last byte no time, and an update without a delta
// or errors.
fn put_commit(bytes: &mut Bytes, last: Option<u32>) -> Result<(), Memory> {
    put_numbers(bytes, &[0, 0, 0, 0, 0, 0, 0, 0, 0])?;
    match last {
        Some(last) => put_numbers(bytes, &[1, 0, last])?,
        None => put_numbers(bytes, &[0])?,
    }
    put_numbers(bytes, &[0, LAYOUT4_OSD2_OBJECTS, 8, 0, 0])
}

// An error at an object, of a WRITE of one byte.
#[rattlefmt::skip]
fn put_trouble(bytes: &mut Bytes, (drive, object, errno): Trouble) -> Result<(), Memory> {
    let partition = drive.wrapping_add(65_536);
    put_numbers(bytes, &[0, 0, 0, drive, 0, partition, 0, object, 0, 0, 0, 1, 1, errno])
}

// Those of a LAYOUTRETURN of the whole file, for any iomode.
#[rattlefmt::skip]
fn put_return(bytes: &mut Bytes, troubles: &[Trouble]) -> Result<(), Memory> {
    let count = size_of(troubles.len());
    let size = count.wrapping_mul(ERROR_BYTES).wrapping_add(4);
    put_numbers(
        bytes,
        &[0, LAYOUT4_OSD2_OBJECTS, ANY, 1, 0, 0, u32::MAX, u32::MAX, 0, 0, 0, 0, size, count],
    )?;
    for trouble in troubles {
        put_trouble(bytes, *trouble)?;
    }
    Ok(())
}

// A client's request.
fn put_request(bytes: &mut Bytes, client: u32, sequence: u32, ask: Ask) -> Result<(), Memory> {
    match ask {
        Ask::Get(file, iomode, offset, length) => {
            put_numbers(bytes, &[1, client, sequence, file, GET])?;
            put_get(bytes, iomode, offset, length)
        }
        Ask::Commit(last) => {
            put_numbers(bytes, &[1, client, sequence, 0, COMMIT])?;
            put_commit(bytes, last)
        }
        Ask::Return(troubles) => {
            put_numbers(bytes, &[1, client, sequence, 0, RETURN])?;
            put_return(bytes, troubles)
        }
    }
}

// The latest two commands that were sent to a drive, the last one first; before there are any, such as the server
// never sent.
fn latest(questions: &Questions, drive: u32) -> (Question, Question) {
    let none = Question {
        drive,
        action: 0,
        object: 0,
        nonce: [0, 0],
    };
    let mut found = (none, none);
    for question in questions.as_slice() {
        if question.drive == drive {
            found = (*question, found.0);
        }
    }
    found
}

// A drive's answer to a command.
fn put_answer(
    bytes: &mut Bytes,
    question: Question,
    verdict: u16,
    detail: u32,
    payload: &[u8],
) -> Result<(), Memory> {
    let doing = [question.action, u32::from(verdict)];
    put_reply(
        bytes,
        doing,
        question.object,
        question.nonce,
        detail,
        payload,
    )
}

/// Who sends a move. A time and a crash are nobody's.
pub fn sender(next: &Move) -> Node {
    match next {
        Move::Asks(client, _, _) => Node::Client(*client),
        Move::Performs(drive, _) | Move::PerformsFormer(drive) | Move::Refuses(drive, _, _) => {
            Node::Drive(*drive)
        }
        Move::Orders(_, _) | Move::Waits(_) | Move::Restarts => Node::Server,
    }
}

/// The bytes of a move, none where it is a time or a crash.
pub fn put_move(bytes: &mut Bytes, next: &Move, questions: &Questions) -> Result<(), Memory> {
    match next {
        Move::Asks(client, sequence, ask) => put_request(bytes, *client, *sequence, *ask),
        Move::Orders(kind, target) => put_numbers(bytes, &[5, kind.number(), *target]),
        Move::Performs(drive, payload) => {
            put_answer(bytes, latest(questions, *drive).0, 0, 0, payload)
        }
        Move::PerformsFormer(drive) => put_answer(bytes, latest(questions, *drive).1, 0, 0, b""),
        Move::Refuses(drive, verdict, detail) => {
            put_answer(bytes, latest(questions, *drive).0, *verdict, *detail, b"")
        }
        Move::Waits(_) | Move::Restarts => Ok(()),
    }
}
