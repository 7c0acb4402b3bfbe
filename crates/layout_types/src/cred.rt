ghost use Rattle.std.specs.Prelude.{◌≡◌, ◌<◌, ◌^◌};
ghost use Rattle.layout_types.specs.Enumerations.{version_number, version_of, security_number, security_of};
ghost use Rattle.layout_types.specs.Grammar.{Gives, enum_part};

use crate::err::LayoutErr;
use crate::objid::ObjId;
use crate::parts::{read_opaque, read_u32};
use crate::structure::{Part, Structure, read_all, write_all};
use osd_lists::{Bytes, Memory};
use std::alloc::Global;
use xdr_codec::{Reader, Writer};

/// The version of the OSD protocol that a drive speaks (`pnfs_osd_version4`, RFC 5664 3.2).
#[derive(Clone, Copy, PartialEq, Eq)]
pub enum OsdVersion {
    /// 0: there is no such object.
    Missing,
    /// 1: OSD-1.
    Version1,
    /// 2: OSD-2.
    Version2,
}

/// How a capability key is secured (`pnfs_osd_cap_key_sec4`, RFC 5664 3.3).
#[derive(Clone, Copy, PartialEq, Eq)]
pub enum KeySecurity {
    /// 0: it stands in clear.
    None,
    /// 1: it is encrypted under the SSV.
    Ssv,
}

/// An object and the credential for it (`pnfs_osd_object_cred4`, RFC 5664 3.3).
#[derive(PartialEq, Drop)]
pub struct ObjectCred {
    /// The object.
    pub oc_object_id: ObjId,
    /// The version that its drive speaks, or that there is no such object.
    pub oc_osd_version: OsdVersion,
    /// How the key is secured.
    pub oc_cap_key_sec: KeySecurity,
    /// The key that check values are made with, at most [`MAX_OPAQUE`](crate::MAX_OPAQUE) bytes.
    pub oc_capability_key: Bytes,
    /// What its holder may do, at most [`MAX_OPAQUE`](crate::MAX_OPAQUE) bytes.
    pub oc_capability: Bytes,
}

impl OsdVersion {
    /// The number of the version.
    pub fn number(self) -> u32
        ensures number { result ≡ version_number self }
        ensures fits { result < 2 ^ 32 }
    {
        match self {
            OsdVersion::Missing => 0,
            OsdVersion::Version1 => 1,
            OsdVersion::Version2 => 2,
        }
    }

    /// The version of a number, where there is one.
    pub fn from_number(number: u32) -> Option<OsdVersion>
        ensures { result ≡ version_of number }
    {
        match number {
            0 => Some(OsdVersion::Missing),
            1 => Some(OsdVersion::Version1),
            2 => Some(OsdVersion::Version2),
            _ => None,
        }
    }
}

impl KeySecurity {
    /// The number of the way.
    pub fn number(self) -> u32
        ensures number { result ≡ security_number self }
        ensures fits { result < 2 ^ 32 }
    {
        match self {
            KeySecurity::None => 0,
            KeySecurity::Ssv => 1,
        }
    }

    /// The way of a number, where there is one.
    pub fn from_number(number: u32) -> Option<KeySecurity>
        ensures { result ≡ security_of number }
    {
        match number {
            0 => Some(KeySecurity::None),
            1 => Some(KeySecurity::Ssv),
            _ => None,
        }
    }
}

#[tactic(auto, unfolding(crate::specs::Grammar::enum_part))]
fn read_version(reader: &mut Reader<'_>) -> Result<OsdVersion, LayoutErr>
    ensures { Gives (enum_part version_of reader.old) result reader.new }
{
    let at = reader.place();
    let value = read_u32(reader)?;
    match OsdVersion::from_number(value) {
        Some(version) => Ok(version),
        None => Err(LayoutErr::BadEnum { at, value }),
    }
}

#[tactic(auto, unfolding(crate::specs::Grammar::enum_part))]
fn read_security(reader: &mut Reader<'_>) -> Result<KeySecurity, LayoutErr>
    ensures { Gives (enum_part security_of reader.old) result reader.new }
{
    let at = reader.place();
    let value = read_u32(reader)?;
    match KeySecurity::from_number(value) {
        Some(security) => Ok(security),
        None => Err(LayoutErr::BadEnum { at, value }),
    }
}

impl Part for ObjectCred {
    ghost use Rattle.layout_types.specs.Spelling.{cred_item, CredFits};
    ghost use Rattle.layout_types.specs.Reading.{cred_in};
    ghost use Rattle.layout_types.specs.Spelling.{CredWritable};

    ghost spelling = { cred_item };

    ghost fits = { CredFits };

    ghost writable = { CredWritable };

    ghost reading = { cred_in };

    #[tactic(auto, unfolding(crate::specs::Reading::cred_in))]
    fn read_from(alloc: Global, reader: &mut Reader<'_>) -> Result<Self, LayoutErr> {
        Ok(ObjectCred {
            oc_object_id: ObjId::read_from(alloc, reader)?,
            oc_osd_version: read_version(reader)?,
            oc_cap_key_sec: read_security(reader)?,
            oc_capability_key: read_opaque(alloc, reader)?,
            oc_capability: read_opaque(alloc, reader)?,
        })
    }

    fn write_to(&self, writer: &mut Writer) -> Result<(), Memory> {
        self.oc_object_id.write_to(writer)?;
        writer.u32(self.oc_osd_version.number())?;
        writer.u32(self.oc_cap_key_sec.number())?;
        writer.opaque(self.oc_capability_key.as_slice())?;
        writer.opaque(self.oc_capability.as_slice())
    }
}

impl Structure for ObjectCred {
    fn read(alloc: Global, bytes: &[u8]) -> Result<Self, LayoutErr> {
        read_all(alloc, bytes)
    }

    fn write(&self, alloc: Global) -> Result<Bytes, Memory> {
        write_all(alloc, self)
    }
}
