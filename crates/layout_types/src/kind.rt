ghost use Rattle.std.specs.Prelude.{IfOk};
ghost use Rattle.layout_types.specs.Grammar.{GivesOrMemory};
ghost use Rattle.layout_types.specs.Leaves.{leaves_of, Shows};

use crate::cred::ObjectCred;
use crate::device_addr::DeviceAddr;
use crate::err::LayoutErr;
use crate::hint::LayoutHint;
use crate::ioerrs::IoErrs;
use crate::layout::Layout;
use crate::show::show_all;
use crate::update::LayoutUpdate;
use data_map::RawMap;
use osd_lists::Bytes;
use std::alloc::Global;

/// A structure of RFC 5664 that can be shown.
#[derive(Clone, Copy, PartialEq, Eq)]
pub enum Kind {
    /// [`RawMap`].
    Map,
    /// [`ObjectCred`].
    Cred,
    /// [`Layout`].
    Layout,
    /// [`DeviceAddr`].
    DeviceAddr,
    /// [`LayoutUpdate`].
    Update,
    /// [`IoErrs`].
    IoErrs,
    /// [`LayoutHint`].
    Hint,
}

/// The fields of the structure that the bytes spell, one line each and a last line `.`.
///
/// A line is the field's path, a space and its value. Names in a path are joined by `.`, and a
/// member of a list has its number as a name, from 0. Numbers, enumerations and bools are decimal;
/// opaques and strings are lower-case hexadecimal, or `-` where they are empty. A list's count
/// stands under the list's own path before its members, and the bool of an optional part before the
/// part.
///
/// # Errors
///
/// As [`Structure::read`](crate::Structure::read).
pub fn leaves(alloc: Global, kind: Kind, bytes: &[u8]) -> Result<Bytes, LayoutErr>
    // The lines are those of the value that the bytes spell.
    ensures found { IfOk result (λ text. Shows kind bytes.now text) }
    // Which lines, or which refusal.
    ensures exact { GivesOrMemory (leaves_of kind bytes.now) result }
{
    match kind {
        Kind::Map => show_all::<RawMap>(alloc, bytes),
        Kind::Cred => show_all::<ObjectCred>(alloc, bytes),
        Kind::Layout => show_all::<Layout>(alloc, bytes),
        Kind::DeviceAddr => show_all::<DeviceAddr>(alloc, bytes),
        Kind::Update => show_all::<LayoutUpdate>(alloc, bytes),
        Kind::IoErrs => show_all::<IoErrs>(alloc, bytes),
        Kind::Hint => show_all::<LayoutHint>(alloc, bytes),
    }
}
