use crate::cred::ObjectCred;
use crate::err::LayoutErr;
use crate::lists::{read_list, write_list};
use crate::parts::read_u32;
use crate::structure::{Part, Structure, read_all, write_all};
use data_map::RawMap;
use osd_lists::{Bytes, Memory, Sequence};
use std::alloc::Global;
use xdr_codec::{Reader, Writer};

/// A layout of a file over objects (`pnfs_osd_layout4`, RFC 5664 5.2).
#[derive(PartialEq, Drop)]
pub struct Layout {
    /// How the file's bytes are spread.
    pub olo_map: RawMap,
    /// The number of the first component that is listed.
    pub olo_comps_index: u32,
    /// The components, at most [`MAX_MEMBERS`](crate::MAX_MEMBERS).
    pub olo_components: Sequence<ObjectCred>,
}

impl Part for Layout {
    ghost use Rattle.layout_types.specs.Spelling.{layout_item, LayoutFits};
    ghost use Rattle.layout_types.specs.Reading.{layout_in};
    ghost use Rattle.layout_types.specs.Spelling.{LayoutWritable};

    ghost spelling = { layout_item };

    ghost fits = { LayoutFits };

    ghost writable = { LayoutWritable };

    ghost reading = { layout_in };

    #[tactic(auto, unfolding(crate::specs::Reading::layout_in))]
    fn read_from(alloc: Global, reader: &mut Reader<'_>) -> Result<Self, LayoutErr> {
        Ok(Layout {
            olo_map: RawMap::read_from(alloc, reader)?,
            olo_comps_index: read_u32(reader)?,
            olo_components: read_list(alloc, reader)?,
        })
    }

    fn write_to(&self, writer: &mut Writer) -> Result<(), Memory> {
        self.olo_map.write_to(writer)?;
        writer.u32(self.olo_comps_index)?;
        write_list(writer, &self.olo_components)
    }
}

impl Structure for Layout {
    fn read(alloc: Global, bytes: &[u8]) -> Result<Self, LayoutErr> {
        read_all(alloc, bytes)
    }

    fn write(&self, alloc: Global) -> Result<Bytes, Memory> {
        write_all(alloc, self)
    }
}
