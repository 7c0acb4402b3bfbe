// A source read to its end.
ghost use Rattle.std.specs.Prelude.{◌≡◌, ◌≤◌, IfErr, IfOk, OnOk};
ghost use Rattle.osd_bytes.specs.Reading.{TakesAtMost};
ghost use Rattle.osd_bytes.specs.declared.lines.TheConstants.{MAX_INPUT, MAX_READ};
ghost use Rattle.cluster_text.specs.Inputs.{IsWhole, StopsReading};

use crate::stop::CommandStop;
use osd_bytes::{MAX_INPUT, Source};
use osd_lists::Bytes;
use std::alloc::Global;

// How many bytes are taken at once at most.
const PIECE: usize = 4096;

/// Takes all bytes of a source, and of one that has too many just one more than [`MAX_INPUT`].
///
/// # Errors
///
/// [`CommandStop::Full`] exactly if more than [`MAX_INPUT`] bytes came, [`CommandStop::ReadFault`] if
/// the source failed, [`CommandStop::Memory`].
pub fn read_whole<S: Source>(alloc: Global, source: &mut S) -> Result<Bytes, CommandStop>
    ensures whole { IfOk result (IsWhole (S.left source.old) (S.left source.new)) }
    ensures same { OnOk result (S.faults source.new ≡ S.faults source.old) }
    ensures stops { IfErr result (StopsReading (S.left source.old) (S.left source.new)
        (S.faults source.old) (S.faults source.new)) }
    ensures loan { S.loan source.new ≡ S.loan source.old }
    ensures input { TakesAtMost MAX_READ (S.left source.old) (S.left source.new) }
{
    let mut bytes = Bytes::new(alloc);
    let mut buf = [0; PIECE];
    'pieces: loop {
        let room = MAX_INPUT as usize - bytes.len() + 1;
        let (space, _) = buf.split_at_mut(room.min(PIECE));
        match source.take(space) {
            Ok(0) => return Ok(bytes),
            Ok(count) if count == room => return Err(CommandStop::Full),
            Ok(count) => {
                let (came, _) = space.split_at(count);
                bytes.extend_from_slice(came)?;
            }
            Err(_) => return Err(CommandStop::ReadFault),
        }
    }
}
