ghost use Rattle.std.specs.Prelude.{◌≡◌, ◌<◌, ◌^◌};
ghost use Rattle.layout_types.specs.Enumerations.{errno_number, errno_of};
ghost use Rattle.layout_types.specs.Grammar.{Gives, enum_part};

use crate::err::LayoutErr;
use crate::lists::{read_list, write_list};
use crate::objid::ObjId;
use crate::parts::{read_bool, read_u32, read_u64};
use crate::structure::{Part, Structure, read_all, write_all};
use osd_lists::{Bytes, Memory, Sequence};
use std::alloc::Global;
use xdr_codec::{Reader, Writer};

/// What went wrong at a drive (`pnfs_osd_errno4`, RFC 5664 8.1).
#[derive(Clone, Copy, PartialEq, Eq)]
pub enum Errno {
    /// 1: the drive failed.
    Eio,
    /// 2: there is no such object.
    NotFound,
    /// 3: there is no space.
    NoSpace,
    /// 4: the credential doesn't hold.
    BadCred,
    /// 5: the credential doesn't allow it.
    NoAccess,
    /// 6: the drive wasn't reached.
    Unreachable,
    /// 7: a resource was wanting.
    Resource,
}

/// An error at one object (`pnfs_osd_ioerr4`, RFC 5664 8.2).
#[derive(Clone, Copy, PartialEq, Eq)]
pub struct IoErr {
    /// The object.
    pub oer_component: ObjId,
    /// The first byte of the object that was concerned.
    pub oer_comp_offset: u64,
    /// How many bytes from there on.
    pub oer_comp_length: u64,
    /// Whether they were to be written.
    pub oer_iswrite: bool,
    /// What went wrong.
    pub oer_errno: Errno,
}

/// The errors that a client reports (`pnfs_osd_layoutreturn4`, RFC 5664 8.3).
#[derive(PartialEq, Drop)]
pub struct IoErrs {
    /// The errors, at most [`MAX_MEMBERS`](crate::MAX_MEMBERS).
    pub olr_ioerr_report: Sequence<IoErr>,
}

impl Errno {
    /// The number of the error.
    pub fn number(self) -> u32
        ensures number { result ≡ errno_number self }
        ensures fits { result < 2 ^ 32 }
    {
        match self {
            Errno::Eio => 1,
            Errno::NotFound => 2,
            Errno::NoSpace => 3,
            Errno::BadCred => 4,
            Errno::NoAccess => 5,
            Errno::Unreachable => 6,
            Errno::Resource => 7,
        }
    }

    /// The error of a number, where there is one.
    pub fn from_number(number: u32) -> Option<Errno>
        ensures { result ≡ errno_of number }
    {
        match number {
            1 => Some(Errno::Eio),
            2 => Some(Errno::NotFound),
            3 => Some(Errno::NoSpace),
            4 => Some(Errno::BadCred),
            5 => Some(Errno::NoAccess),
            6 => Some(Errno::Unreachable),
            7 => Some(Errno::Resource),
            _ => None,
        }
    }
}

#[tactic(auto, unfolding(crate::specs::Grammar::enum_part))]
fn read_errno(reader: &mut Reader<'_>) -> Result<Errno, LayoutErr>
    ensures { Gives (enum_part errno_of reader.old) result reader.new }
{
    let at = reader.place();
    let value = read_u32(reader)?;
    match Errno::from_number(value) {
        Some(errno) => Ok(errno),
        None => Err(LayoutErr::BadEnum { at, value }),
    }
}

impl Part for IoErr {
    ghost use Rattle.layout_types.specs.Spelling.{ioerr_item, IoErrFits};
    ghost use Rattle.layout_types.specs.Reading.{ioerr_in};
    ghost use Rattle.std.specs.Prelude.{⊤};

    ghost spelling = { ioerr_item };

    ghost fits = { IoErrFits };

    ghost writable = { λ v. ⊤ };

    ghost reading = { ioerr_in };

    #[tactic(auto, unfolding(crate::specs::Reading::ioerr_in))]
    fn read_from(alloc: Global, reader: &mut Reader<'_>) -> Result<Self, LayoutErr> {
        Ok(IoErr {
            oer_component: ObjId::read_from(alloc, reader)?,
            oer_comp_offset: read_u64(reader)?,
            oer_comp_length: read_u64(reader)?,
            oer_iswrite: read_bool(reader)?,
            oer_errno: read_errno(reader)?,
        })
    }

    fn write_to(&self, writer: &mut Writer) -> Result<(), Memory> {
        self.oer_component.write_to(writer)?;
        writer.u64(self.oer_comp_offset)?;
        writer.u64(self.oer_comp_length)?;
        writer.bool(self.oer_iswrite)?;
        writer.u32(self.oer_errno.number())
    }
}

impl Structure for IoErr {
    fn read(alloc: Global, bytes: &[u8]) -> Result<Self, LayoutErr> {
        read_all(alloc, bytes)
    }

    fn write(&self, alloc: Global) -> Result<Bytes, Memory> {
        write_all(alloc, self)
    }
}

impl Part for IoErrs {
    ghost use Rattle.layout_types.specs.Spelling.{ioerrs_item, IoErrsFits};
    ghost use Rattle.layout_types.specs.Reading.{ioerrs_in};
    ghost use Rattle.layout_types.specs.Spelling.{IoErrsWritable};

    ghost spelling = { ioerrs_item };

    ghost fits = { IoErrsFits };

    ghost writable = { IoErrsWritable };

    ghost reading = { ioerrs_in };

    #[tactic(auto, unfolding(crate::specs::Reading::ioerrs_in))]
    fn read_from(alloc: Global, reader: &mut Reader<'_>) -> Result<Self, LayoutErr> {
        Ok(IoErrs {
            olr_ioerr_report: read_list(alloc, reader)?,
        })
    }

    fn write_to(&self, writer: &mut Writer) -> Result<(), Memory> {
        write_list(writer, &self.olr_ioerr_report)
    }
}

impl Structure for IoErrs {
    fn read(alloc: Global, bytes: &[u8]) -> Result<Self, LayoutErr> {
        read_all(alloc, bytes)
    }

    fn write(&self, alloc: Global) -> Result<Bytes, Memory> {
        write_all(alloc, self)
    }
}
