// What comes to a client and from drives, as bytes: spelled number by number, apart from the codecs of the project.
use crate::setting::{Grant, Setting};
use osd_lists::{Bytes, Memory};

/// The number of the client.
pub const CLIENT: u32 = 3;

/// LAYOUTCOMMIT.
pub const COMMIT: u32 = 49;

/// LAYOUTGET.
pub const GET: u32 = 50;

/// LAYOUTRETURN.
pub const RETURN: u32 = 51;

/// CB_LAYOUTRECALL.
pub const RECALL: u32 = 5;

const LAYOUT4_OSD2_OBJECTS: u32 = 2;

const LAYOUTIOMODE4_READ: u32 = 1;

const LAYOUTIOMODE4_RW: u32 = 2;

const LAYOUTIOMODE4_ANY: u32 = 3;

const NFS4ERR_LAYOUTTRYLATER: u32 = 10_058;

// `OSDr`.
const REPLY: u32 = 0x4f53_4472;

/// Numbers of 32 bits, big-endian.
pub fn put_numbers(bytes: &mut Bytes, numbers: &[u32]) -> Result<(), Memory> {
    for number in numbers {
        bytes.extend_from_slice(&number.to_be_bytes())?;
    }
    Ok(())
}

/// A length or a count as a number of 32 bits.
pub fn size_of(len: usize) -> u32 {
    if len < 1_048_576 { len as u32 } else { 0 }
}

/// What an answer of the server says before its results.
#[derive(Clone, Copy)]
pub struct Head {
    pub sequence: u32,
    pub operation: u32,
    pub detail: u32,
    /// The size of the file.
    pub size: u32,
    pub status: u32,
}

// The kind of the message, the client, the rest of the head, and the status.
fn head_of(file: u32, head: &Head) -> [u32; 9] {
    [
        2,
        CLIENT,
        head.sequence,
        file,
        head.operation,
        head.detail,
        0,
        head.size,
        head.status,
    ]
}

// Behind the head: no return on close, the stateid, and so many layouts with this body.
fn put_layouts(
    bytes: &mut Bytes,
    setting: &Setting<'_>,
    grant: &Grant,
    body: &[u8],
) -> Result<(), Memory> {
    put_numbers(bytes, &[0, 1, 0, 0, grant.number, setting.layouts])?;
    let iomode = if grant.rw {
        LAYOUTIOMODE4_RW
    } else {
        LAYOUTIOMODE4_READ
    };
    let size = size_of(body.len());
    for _ in 0..setting.layouts {
        put_numbers(
            bytes,
            &[
                0,
                grant.first,
                0,
                grant.length,
                iomode,
                LAYOUT4_OSD2_OBJECTS,
                size,
            ],
        )?;
        bytes.extend_from_slice(body)?;
    }
    Ok(())
}

/// A LAYOUTGET that is answered with a grant, and so many layouts with this body.
pub fn put_granted(
    bytes: &mut Bytes,
    setting: &Setting<'_>,
    head: &Head,
    grant: &Grant,
    body: &[u8],
) -> Result<(), Memory> {
    put_numbers(bytes, &head_of(setting.file, head))?;
    put_layouts(bytes, setting, grant, body)
}

/// Any other answer. A number follows the status where the operation was carried out, or a layout may be given later:
/// that no new size is told, that there is no stateid, or that there will be no signal.
pub fn put_answered(bytes: &mut Bytes, setting: &Setting<'_>, head: &Head) -> Result<(), Memory> {
    put_numbers(bytes, &head_of(setting.file, head))?;
    if head.status == 0 || (head.operation == GET && head.status == NFS4ERR_LAYOUTTRYLATER) {
        put_numbers(bytes, &[0])?;
    }
    Ok(())
}

/// The recall with a number of the client's grant on a file: not because the file was changed, and of one file.
#[rattlefmt::skip]
pub fn put_recall(bytes: &mut Bytes, number: u32, file: u32, grant: u32) -> Result<(), Memory> {
    put_numbers(
        bytes,
        &[
            3, CLIENT, number, file, RECALL, LAYOUT4_OSD2_OBJECTS, LAYOUTIOMODE4_ANY, 0, 1, 4, file,
            0, 0, u32::MAX, u32::MAX, 1, 0, 0, grant,
        ],
    )
}

/// The reply of a drive: its action and verdict, the object and the nonce of the command, the detail, and the payload.
pub fn put_reply(
    bytes: &mut Bytes,
    [action, verdict]: [u32; 2],
    object: u32,
    [grant, place]: [u32; 2],
    detail: u32,
    payload: &[u8],
) -> Result<(), Memory> {
    let doing = action.wrapping_mul(65_536).wrapping_add(verdict);
    let size = size_of(payload.len());
    put_numbers(
        bytes,
        &[REPLY, doing, 0, object, grant, place, 0, detail, size, 0],
    )?;
    bytes.extend_from_slice(payload)
}
