use crate::err::LayoutErr;
use crate::parts::{read_bool, read_optional, write_optional};
use crate::structure::{Part, Structure, read_all, write_all};
use osd_lists::{Bytes, Memory};
use std::alloc::Global;
use xdr_codec::{Reader, Writer};

/// What a client's writes did (`pnfs_osd_layoutupdate4`, RFC 5664 6.2).
#[derive(Clone, Copy, PartialEq, Eq)]
pub struct LayoutUpdate {
    /// By how many bytes the used space grew, if that is told (`pnfs_osd_deltaspaceused4`, 6.1).
    pub dsu_delta: Option<i64>,
    /// Whether errors came up, which the layout's return reports.
    pub olu_ioerr_flag: bool,
}

impl Part for LayoutUpdate {
    ghost use Rattle.layout_types.specs.Spelling.{update_item, UpdateFits};
    ghost use Rattle.layout_types.specs.Reading.{update_in};
    ghost use Rattle.std.specs.Prelude.{⊤};

    ghost spelling = { update_item };

    ghost fits = { UpdateFits };

    ghost writable = { λ v. ⊤ };

    ghost reading = { update_in };

    #[tactic(auto, unfolding(crate::specs::Reading::update_in))]
    fn read_from(alloc: Global, reader: &mut Reader<'_>) -> Result<Self, LayoutErr> {
        Ok(LayoutUpdate {
            dsu_delta: read_optional(alloc, reader)?,
            olu_ioerr_flag: read_bool(reader)?,
        })
    }

    #[tactic(auto, using(crate::proofs::Writable::any_signed))]
    fn write_to(&self, writer: &mut Writer) -> Result<(), Memory> {
        write_optional(writer, &self.dsu_delta)?;
        writer.bool(self.olu_ioerr_flag)
    }
}

impl Structure for LayoutUpdate {
    fn read(alloc: Global, bytes: &[u8]) -> Result<Self, LayoutErr> {
        read_all(alloc, bytes)
    }

    fn write(&self, alloc: Global) -> Result<Bytes, Memory> {
        write_all(alloc, self)
    }
}
