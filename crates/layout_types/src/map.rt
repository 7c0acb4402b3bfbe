ghost use Rattle.std.specs.Prelude.{◌≡◌, ◌++◌, OnOk, IsTrue};
ghost use Rattle.layout_types.specs.Grammar.{Gives};
ghost use Rattle.layout_types.specs.Spelling.{map_item, MapFits};
ghost use Rattle.layout_types.specs.Reading.{map_in};

use crate::err::LayoutErr;
use crate::parts::{read_algorithm, read_u32, read_u64};
use crate::structure::{Part, Structure, read_all, write_all};
use data_map::RawMap;
use osd_lists::{Bytes, Memory};
use std::alloc::Global;
use xdr_codec::{Reader, Writer};

// The map of a layout (`pnfs_osd_data_map4`, RFC 5664 5.1). A writer's caller has to know that the
// algorithm is 1 to 4.
impl Part for RawMap {
    ghost use Rattle.data_map.specs.Check.{HasAlgorithm};
    ghost use Rattle.layout_types.specs.Spelling.{map_item, MapFits};
    ghost use Rattle.layout_types.specs.Reading.{map_in};

    ghost spelling = { map_item };

    ghost fits = { MapFits };

    ghost writable = { HasAlgorithm };

    ghost reading = { map_in };

    #[tactic(auto, unfolding(crate::specs::Reading::map_in))]
    fn read_from(_alloc: Global, reader: &mut Reader<'_>) -> Result<Self, LayoutErr> {
        Ok(RawMap {
            comps: read_u32(reader)?,
            unit: read_u64(reader)?,
            width: read_u32(reader)?,
            depth: read_u32(reader)?,
            mirrors: read_u32(reader)?,
            algorithm: read_algorithm(reader)?,
        })
    }

    fn write_to(&self, writer: &mut Writer) -> Result<(), Memory> {
        writer.u32(self.comps)?;
        writer.u64(self.unit)?;
        writer.u32(self.width)?;
        writer.u32(self.depth)?;
        writer.u32(self.mirrors)?;
        writer.u32(self.algorithm)
    }
}

impl Structure for RawMap {
    fn read(alloc: Global, bytes: &[u8]) -> Result<Self, LayoutErr> {
        read_all(alloc, bytes)
    }

    fn write(&self, alloc: Global) -> Result<Bytes, Memory> {
        write_all(alloc, self)
    }
}
