// The objects that drives have made for a server, which a journal keeps beside the server.
ghost use Rattle.std.specs.Prelude.{◌≡◌, ◌<◌, ◌^◌};
ghost use Rattle.server_journal.specs.Made.{made_in, made_item};

use osd_lists::{Sequence, put_u32, put_u64, u32_at, u64_at};

/// An object that a drive has made for the server, as its answer to a CREATE said.
#[derive(Clone, Copy, Debug, PartialEq, Eq)]
pub struct MadeObject {
    /// The drive's number.
    pub drive: u32,
    /// The object's number.
    pub object: u64,
}

/// Objects that drives have made, in the order in which they did.
pub type MadeObjects = Sequence<MadeObject>;

/// What stands in front of a made object in a record: no list of entries has so many.
const MADE: u32 = 4_294_967_295;

/// How many bytes such a record has.
const MADE_SIZE: usize = 16;

/// The body of the record that tells of a made object.
///
/// | place | size | field |
/// |---|---|---|
/// | 0 | 4 | 4,294,967,295 |
/// | 4 | 4 | number of the drive |
/// | 8 | 8 | number of the object |
///
/// Numbers are big-endian.
#[tactic(auto, unfolding(crate::specs::Made::made_item))]
pub(crate) fn made_bytes(made: MadeObject) -> [u8; MADE_SIZE]
    ensures written { result ≡ made_item made }
    ensures fits { (made.drive < 2 ^ 32) × (made.object < 2 ^ 64) }
{
    let mut out = [0u8; MADE_SIZE];
    put_u32(&mut out, 0, MADE);
    put_u32(&mut out, 4, made.drive);
    put_u64(&mut out, 8, made.object);
    out
}

/// The made object of which the body of a record tells, if it tells of one.
#[tactic(auto, unfolding(crate::specs::Made::made_in))]
pub(crate) fn read_made(bytes: &[u8]) -> Option<MadeObject>
    ensures { result ≡ made_in bytes.now }
{
    if bytes.len() != MADE_SIZE {
        return None;
    }
    if u32_at(bytes, 0) != MADE {
        return None;
    }
    Some(MadeObject {
        drive: u32_at(bytes, 4),
        object: u64_at(bytes, 8),
    })
}
