ghost use Rattle.std.specs.Prelude.{◌≡◌, ◌++◌, IfOk, OnOk};
ghost use Rattle.layout_types.specs.Grammar.{Gives};
ghost use Rattle.layout_types.specs.Spelling.{target_item, TargetFits};
ghost use Rattle.layout_types.specs.Reading.{target_in};

use crate::cred::ObjectCred;
use crate::err::LayoutErr;
use crate::parts::{put_fixed, read_fixed, read_opaque, read_optional, read_u32, write_optional};
use crate::structure::{Part, Structure, read_all, write_all};
use osd_lists::{Bytes, Memory};
use std::alloc::Global;
use xdr_codec::{Reader, Writer};

/// How a drive is named (`pnfs_osd_targetid4`, RFC 5664 4.2.1).
#[derive(PartialEq, Drop)]
pub enum TargetId {
    /// 1: not at all.
    Anon,
    /// 2: by its SCSI name.
    ScsiName(Bytes),
    /// 3: by its SCSI device identifier.
    ScsiDeviceId(Bytes),
}

/// A network address (`netaddr4`, RFC 5661 3.3.9).
#[derive(PartialEq, Drop)]
pub struct NetAddr {
    /// The kind of network, as `tcp`, at most [`MAX_OPAQUE`](crate::MAX_OPAQUE) bytes.
    pub na_r_netid: Bytes,
    /// The address in that network, at most [`MAX_OPAQUE`](crate::MAX_OPAQUE) bytes.
    pub na_r_addr: Bytes,
}

/// The bytes of a logical unit number.
pub const LUN_BYTES: usize = 8;

/// The address of a drive (`pnfs_osd_deviceaddr4`, RFC 5664 4.2). The order of its
/// fields is this project's own.
#[derive(PartialEq, Drop)]
pub struct DeviceAddr {
    /// How the drive is named.
    pub oda_targetid: TargetId,
    /// Where it is reached, if that is told.
    pub oda_targetaddr: Option<NetAddr>,
    /// The logical unit number of the drive.
    pub oda_lun: [u8; LUN_BYTES],
    /// The system id of the drive, at most [`MAX_OPAQUE`](crate::MAX_OPAQUE) bytes.
    pub oda_systemid: Bytes,
    /// A credential for its root object.
    pub oda_root_obj_cred: ObjectCred,
    /// The name of the drive, at most [`MAX_OPAQUE`](crate::MAX_OPAQUE) bytes.
    pub oda_osdname: Bytes,
}

#[tactic(auto, unfolding(crate::specs::Reading::target_in))]
fn read_target(alloc: Global, reader: &mut Reader<'_>) -> Result<TargetId, LayoutErr>
    ensures exact { Gives (target_in reader.old) result reader.new }
    ensures fits { IfOk result TargetFits }
{
    let at = reader.place();
    let value = read_u32(reader)?;
    match value {
        1 => Ok(TargetId::Anon),
        2 => Ok(TargetId::ScsiName(read_opaque(alloc, reader)?)),
        3 => Ok(TargetId::ScsiDeviceId(read_opaque(alloc, reader)?)),
        _ => Err(LayoutErr::BadEnum { at, value }),
    }
}

fn put_target(writer: &mut Writer, target: &TargetId) -> Result<(), Memory>
    requires { TargetFits target.now }
    ensures { OnOk result (writer.new ≡ writer.old ++ target_item target.now) }
{
    match target {
        TargetId::Anon => writer.u32(1),
        TargetId::ScsiName(name) => {
            writer.u32(2)?;
            writer.opaque(name.as_slice())
        }
        TargetId::ScsiDeviceId(id) => {
            writer.u32(3)?;
            writer.opaque(id.as_slice())
        }
    }
}

impl Part for NetAddr {
    ghost use Rattle.layout_types.specs.Spelling.{netaddr_item, NetAddrFits};
    ghost use Rattle.layout_types.specs.Reading.{netaddr_in};

    ghost spelling = { netaddr_item };

    ghost fits = { NetAddrFits };

    ghost writable = { NetAddrFits };

    ghost reading = { netaddr_in };

    #[tactic(auto, unfolding(crate::specs::Reading::netaddr_in))]
    fn read_from(alloc: Global, reader: &mut Reader<'_>) -> Result<Self, LayoutErr> {
        Ok(NetAddr {
            na_r_netid: read_opaque(alloc, reader)?,
            na_r_addr: read_opaque(alloc, reader)?,
        })
    }

    fn write_to(&self, writer: &mut Writer) -> Result<(), Memory> {
        writer.opaque(self.na_r_netid.as_slice())?;
        writer.opaque(self.na_r_addr.as_slice())
    }
}

impl Part for DeviceAddr {
    ghost use Rattle.layout_types.specs.Spelling.{deviceaddr_item, DeviceAddrFits};
    ghost use Rattle.layout_types.specs.Reading.{deviceaddr_in};
    ghost use Rattle.layout_types.specs.Spelling.{DeviceAddrWritable};

    ghost spelling = { deviceaddr_item };

    ghost fits = { DeviceAddrFits };

    ghost writable = { DeviceAddrWritable };

    ghost reading = { deviceaddr_in };

    #[tactic(auto, unfolding(crate::specs::Reading::deviceaddr_in))]
    fn read_from(alloc: Global, reader: &mut Reader<'_>) -> Result<Self, LayoutErr> {
        Ok(DeviceAddr {
            oda_targetid: read_target(alloc, reader)?,
            oda_targetaddr: read_optional(alloc, reader)?,
            oda_lun: read_fixed(reader)?,
            oda_systemid: read_opaque(alloc, reader)?,
            oda_root_obj_cred: ObjectCred::read_from(alloc, reader)?,
            oda_osdname: read_opaque(alloc, reader)?,
        })
    }

    fn write_to(&self, writer: &mut Writer) -> Result<(), Memory> {
        put_target(writer, &self.oda_targetid)?;
        write_optional(writer, &self.oda_targetaddr)?;
        put_fixed(writer, &self.oda_lun)?;
        writer.opaque(self.oda_systemid.as_slice())?;
        self.oda_root_obj_cred.write_to(writer)?;
        writer.opaque(self.oda_osdname.as_slice())
    }
}

impl Structure for DeviceAddr {
    fn read(alloc: Global, bytes: &[u8]) -> Result<Self, LayoutErr> {
        read_all(alloc, bytes)
    }

    fn write(&self, alloc: Global) -> Result<Bytes, Memory> {
        write_all(alloc, self)
    }
}
