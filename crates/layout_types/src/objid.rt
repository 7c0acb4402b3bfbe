use crate::err::LayoutErr;
use crate::parts::{put_fixed, read_fixed, read_u64};
use crate::structure::{Part, Structure, read_all, write_all};
use osd_lists::{Bytes, Memory};
use std::alloc::Global;
use xdr_codec::{Reader, Writer};

/// The bytes of a device id (`deviceid4`, RFC 5661 3.3.14).
pub const DEVICE_ID_BYTES: usize = 16;

/// An object of a drive (`pnfs_osd_objid4`, RFC 5664 3.1).
#[derive(Clone, Copy, PartialEq, Eq)]
pub struct ObjId {
    /// The drive, by its device id. The project writes the drive's number, big-endian.
    pub oid_device_id: [u8; DEVICE_ID_BYTES],
    /// The partition of the drive.
    pub oid_partition_id: u64,
    /// The object in its partition.
    pub oid_object_id: u64,
}

impl Part for ObjId {
    ghost use Rattle.layout_types.specs.Spelling.{objid_item, ObjIdFits};
    ghost use Rattle.layout_types.specs.Reading.{objid_in};
    ghost use Rattle.std.specs.Prelude.{⊤};

    ghost spelling = { objid_item };

    ghost fits = { ObjIdFits };

    ghost writable = { λ v. ⊤ };

    ghost reading = { objid_in };

    #[tactic(auto, unfolding(crate::specs::Reading::objid_in))]
    fn read_from(_alloc: Global, reader: &mut Reader<'_>) -> Result<Self, LayoutErr> {
        Ok(ObjId {
            oid_device_id: read_fixed(reader)?,
            oid_partition_id: read_u64(reader)?,
            oid_object_id: read_u64(reader)?,
        })
    }

    fn write_to(&self, writer: &mut Writer) -> Result<(), Memory> {
        put_fixed(writer, &self.oid_device_id)?;
        writer.u64(self.oid_partition_id)?;
        writer.u64(self.oid_object_id)
    }
}

impl Structure for ObjId {
    fn read(alloc: Global, bytes: &[u8]) -> Result<Self, LayoutErr> {
        read_all(alloc, bytes)
    }

    fn write(&self, alloc: Global) -> Result<Bytes, Memory> {
        write_all(alloc, self)
    }
}
