use crate::err::LayoutErr;
use crate::parts::{read_optional, read_optional_algorithm, write_optional};
use crate::structure::{Part, Structure, read_all, write_all};
use osd_lists::{Bytes, Memory};
use std::alloc::Global;
use xdr_codec::{Reader, Writer};

/// What a client wishes of a new file's layout (`pnfs_osd_layouthint4`, RFC 5664 9.1). Its form is
/// this project's own: each wish is optional.
#[derive(Clone, Copy, PartialEq, Eq)]
pub struct LayoutHint {
    /// The most components.
    pub max_comps: Option<u32>,
    /// The length of a stripe unit in bytes.
    pub stripe_unit: Option<u64>,
    /// The components of a group.
    pub group_width: Option<u32>,
    /// The stripes of a group before the next group follows.
    pub group_depth: Option<u32>,
    /// The further replicas of each component.
    pub mirror_cnt: Option<u32>,
    /// The RAID algorithm, 1 to 4 as in a map.
    pub raid_algorithm: Option<u32>,
}

impl Part for LayoutHint {
    ghost use Rattle.layout_types.specs.Spelling.{hint_item, HintFits};
    ghost use Rattle.layout_types.specs.Reading.{hint_in};
    ghost use Rattle.layout_types.specs.Enumerations.{IsAlgorithm};
    ghost use Rattle.layout_types.specs.Grammar.{OptionalFits};

    ghost spelling = { hint_item };

    ghost fits = { HintFits };

    ghost writable = { λ v. OptionalFits IsAlgorithm v.raid_algorithm };

    ghost reading = { hint_in };

    #[tactic(auto, unfolding(crate::specs::Reading::hint_in))]
    fn read_from(alloc: Global, reader: &mut Reader<'_>) -> Result<Self, LayoutErr> {
        Ok(LayoutHint {
            max_comps: read_optional(alloc, reader)?,
            stripe_unit: read_optional(alloc, reader)?,
            group_width: read_optional(alloc, reader)?,
            group_depth: read_optional(alloc, reader)?,
            mirror_cnt: read_optional(alloc, reader)?,
            raid_algorithm: read_optional_algorithm(reader)?,
        })
    }

    #[tactic(auto, using(crate::proofs::Writable::any_number))]
    fn write_to(&self, writer: &mut Writer) -> Result<(), Memory> {
        write_optional(writer, &self.max_comps)?;
        write_optional(writer, &self.stripe_unit)?;
        write_optional(writer, &self.group_width)?;
        write_optional(writer, &self.group_depth)?;
        write_optional(writer, &self.mirror_cnt)?;
        write_optional(writer, &self.raid_algorithm)
    }
}

impl Structure for LayoutHint {
    fn read(alloc: Global, bytes: &[u8]) -> Result<Self, LayoutErr> {
        read_all(alloc, bytes)
    }

    fn write(&self, alloc: Global) -> Result<Bytes, Memory> {
        write_all(alloc, self)
    }
}
