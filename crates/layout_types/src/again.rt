ghost use Rattle.std.specs.Prelude.{◌≡◌, IfOk};
ghost use Rattle.layout_types.specs.Grammar.{GivesOrMemory};
ghost use Rattle.layout_types.specs.Again.{written_of};

use crate::cred::ObjectCred;
use crate::device_addr::DeviceAddr;
use crate::err::LayoutErr;
use crate::hint::LayoutHint;
use crate::ioerrs::IoErrs;
use crate::kind::Kind;
use crate::layout::Layout;
use crate::structure::Structure;
use crate::update::LayoutUpdate;
use data_map::RawMap;
use osd_lists::Bytes;
use std::alloc::Global;

/// The structure that the bytes spell, written again. Since a value has one spelling, these are the
/// bytes themselves.
///
/// # Errors
///
/// As [`Structure::read`].
pub fn written_again(alloc: Global, kind: Kind, bytes: &[u8]) -> Result<Bytes, LayoutErr>
    // Which bytes, or which refusal.
    ensures exact { GivesOrMemory (written_of kind bytes.now) result }
    // The bytes that are written are those that were read.
    ensures same { IfOk result (λ written. written ≡ bytes.now) }
{
    let written = match kind {
        Kind::Map => RawMap::read(alloc, bytes)?.write(alloc)?,
        Kind::Cred => ObjectCred::read(alloc, bytes)?.write(alloc)?,
        Kind::Layout => Layout::read(alloc, bytes)?.write(alloc)?,
        Kind::DeviceAddr => DeviceAddr::read(alloc, bytes)?.write(alloc)?,
        Kind::Update => LayoutUpdate::read(alloc, bytes)?.write(alloc)?,
        Kind::IoErrs => IoErrs::read(alloc, bytes)?.write(alloc)?,
        Kind::Hint => LayoutHint::read(alloc, bytes)?.write(alloc)?,
    };
    Ok(written)
}
