ghost use Rattle.std.specs.Prelude.{◌≡◌, ◌++◌, ◌≤◌, ◌<◌, ◌^◌, length, IfOk, OnOk, FitsSigned};
ghost use Rattle.std.specs.Int.{w64};
ghost use Rattle.xdr_codec.specs.Items.{fixed_item};
ghost use Rattle.layout_types.specs.Enumerations.{algorithm_of, IsAlgorithm};
ghost use Rattle.layout_types.specs.Grammar.{u32_part, u64_part, i64_part, bool_part, fixed_part, opaque_part, count_part, enum_part, optional_part, optional_item, OptionalFits, Gives};
ghost use Rattle.layout_types.specs.Spelling.{IsShort};

use crate::err::LayoutErr;
use crate::structure::Part;
use data_map::{RAID_0, RAID_PQ};
use osd_lists::{Bytes, Memory};
use std::alloc::Global;
use xdr_codec::{Reader, Writer};

/// The most bytes of an opaque or a string, this project's own limit.
pub const MAX_OPAQUE: u32 = 4_096;

/// The most members of a list, this project's own limit.
pub const MAX_MEMBERS: u32 = 1_024;

#[tactic(auto, unfolding(crate::specs::Grammar::u32_part))]
pub(crate) fn read_u32(reader: &mut Reader<'_>) -> Result<u32, LayoutErr>
    ensures exact { Gives (u32_part reader.old) result reader.new }
    ensures fits { IfOk result (λ n. n < 2 ^ 32) }
{
    Ok(reader.u32()?)
}

#[tactic(auto, unfolding(crate::specs::Grammar::u64_part))]
pub(crate) fn read_u64(reader: &mut Reader<'_>) -> Result<u64, LayoutErr>
    ensures exact { Gives (u64_part reader.old) result reader.new }
    ensures fits { IfOk result (λ n. n < 2 ^ 64) }
{
    Ok(reader.u64()?)
}

#[tactic(auto, unfolding(crate::specs::Grammar::i64_part))]
pub(crate) fn read_i64(reader: &mut Reader<'_>) -> Result<i64, LayoutErr>
    ensures exact { Gives (i64_part reader.old) result reader.new }
    ensures fits { IfOk result (FitsSigned w64) }
{
    Ok(reader.i64()?)
}

#[tactic(auto, unfolding(crate::specs::Grammar::bool_part))]
pub(crate) fn read_bool(reader: &mut Reader<'_>) -> Result<bool, LayoutErr>
    ensures { Gives (bool_part reader.old) result reader.new }
{
    Ok(reader.bool()?)
}

#[tactic(auto, unfolding(crate::specs::Grammar::opaque_part))]
pub(crate) fn read_opaque(alloc: Global, reader: &mut Reader<'_>) -> Result<Bytes, LayoutErr>
    ensures exact { Gives (opaque_part reader.old) result reader.new }
    ensures fits { IfOk result IsShort }
{
    Ok(reader.opaque(alloc, MAX_OPAQUE)?)
}

#[tactic(auto, unfolding(crate::specs::Grammar::count_part))]
pub(crate) fn read_count(reader: &mut Reader<'_>) -> Result<u32, LayoutErr>
    ensures exact { Gives (count_part reader.old) result reader.new }
    ensures fits { IfOk result (λ n. n ≤ MAX_MEMBERS) }
{
    Ok(reader.count(MAX_MEMBERS)?)
}

// Bytes of a length that the structure knows.
#[tactic(auto, unfolding(crate::specs::Grammar::fixed_part))]
pub(crate) fn read_fixed<const N: usize>(reader: &mut Reader<'_>) -> Result<[u8; N], LayoutErr>
    ensures exact { Gives (fixed_part N reader.old) result reader.new }
    ensures fits { IfOk result (λ field. length field ≡ N) }
{
    let mut field = [0; N];
    reader.fixed(&mut field)?;
    Ok(field)
}

pub(crate) fn put_fixed<const N: usize>(writer: &mut Writer, field: &[u8; N]) -> Result<(), Memory>
    ensures written { OnOk result (writer.new ≡ writer.old ++ fixed_item field.now) }
    ensures fits { length field.now ≡ N }
{
    writer.fixed(field)
}

#[tactic(auto, unfolding(crate::specs::Grammar::enum_part))]
pub(crate) fn read_algorithm(reader: &mut Reader<'_>) -> Result<u32, LayoutErr>
    ensures exact { Gives (enum_part algorithm_of reader.old) result reader.new }
    ensures fits { IfOk result IsAlgorithm }
{
    let at = reader.place();
    let value = read_u32(reader)?;
    if RAID_0 <= value && value <= RAID_PQ {
        Ok(value)
    } else {
        Err(LayoutErr::BadEnum { at, value })
    }
}

// A part that stands behind a bool, where that is 1.
#[tactic(auto, unfolding(crate::specs::Grammar::optional_part))]
pub(crate) fn read_optional<T: Part>(
    alloc: Global,
    reader: &mut Reader<'_>,
) -> Result<Option<T>, LayoutErr>
    ensures exact { Gives (optional_part T.reading reader.old) result reader.new }
    ensures fits { IfOk result (OptionalFits T.fits) }
{
    if read_bool(reader)? {
        Ok(Some(T::read_from(alloc, reader)?))
    } else {
        Ok(None)
    }
}

pub(crate) fn write_optional<T: Part>(writer: &mut Writer, part: &Option<T>) -> Result<(), Memory>
    requires { OptionalFits T.writable part.now }
    ensures written { OnOk result (writer.new ≡ writer.old ++ optional_item T.spelling part.now) }
    ensures fits { OnOk result (OptionalFits T.fits part.now) }
{
    match part {
        None => writer.bool(false),
        Some(part) => {
            writer.bool(true)?;
            part.write_to(writer)
        }
    }
}

#[tactic(auto, unfolding(crate::specs::Grammar::optional_part))]
pub(crate) fn read_optional_algorithm(reader: &mut Reader<'_>) -> Result<Option<u32>, LayoutErr>
    ensures exact { Gives (optional_part (enum_part algorithm_of) reader.old) result reader.new }
    ensures fits { IfOk result (OptionalFits IsAlgorithm) }
{
    if read_bool(reader)? {
        Ok(Some(read_algorithm(reader)?))
    } else {
        Ok(None)
    }
}

impl Part for u32 {
    ghost use Rattle.std.specs.Prelude.{⊤, ◌<◌, ◌^◌};
    ghost use Rattle.xdr_codec.specs.Items.{u32_item};
    ghost use Rattle.layout_types.specs.Grammar.{u32_part};

    ghost spelling = { u32_item };

    ghost fits = { λ n. n < 2 ^ 32 };

    ghost writable = { λ n. ⊤ };

    ghost reading = { u32_part };

    fn read_from(_alloc: Global, reader: &mut Reader<'_>) -> Result<Self, LayoutErr> {
        read_u32(reader)
    }

    fn write_to(&self, writer: &mut Writer) -> Result<(), Memory> {
        writer.u32(*self)
    }
}

impl Part for u64 {
    ghost use Rattle.std.specs.Prelude.{⊤, ◌<◌, ◌^◌};
    ghost use Rattle.xdr_codec.specs.Items.{u64_item};
    ghost use Rattle.layout_types.specs.Grammar.{u64_part};

    ghost spelling = { u64_item };

    ghost fits = { λ n. n < 2 ^ 64 };

    ghost writable = { λ n. ⊤ };

    ghost reading = { u64_part };

    fn read_from(_alloc: Global, reader: &mut Reader<'_>) -> Result<Self, LayoutErr> {
        read_u64(reader)
    }

    fn write_to(&self, writer: &mut Writer) -> Result<(), Memory> {
        writer.u64(*self)
    }
}

impl Part for i64 {
    ghost use Rattle.std.specs.Prelude.{⊤, FitsSigned};
    ghost use Rattle.std.specs.Int.{w64};
    ghost use Rattle.xdr_codec.specs.Items.{i64_item};
    ghost use Rattle.layout_types.specs.Grammar.{i64_part};

    ghost spelling = { i64_item };

    ghost fits = { FitsSigned w64 };

    ghost writable = { λ n. ⊤ };

    ghost reading = { i64_part };

    fn read_from(_alloc: Global, reader: &mut Reader<'_>) -> Result<Self, LayoutErr> {
        read_i64(reader)
    }

    fn write_to(&self, writer: &mut Writer) -> Result<(), Memory> {
        writer.i64(*self)
    }
}
