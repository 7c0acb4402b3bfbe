ghost use Rattle.std.specs.Prelude.{◌≡◌, ◌++◌, ◌<◌, ◌^◌, length, OnOk, FitsSigned};
ghost use Rattle.std.specs.Int.{w64};
ghost use Rattle.xdr_codec.specs.Items.{u64_item, fixed_item, opaque_item};
ghost use Rattle.layout_types.specs.Grammar.{Gives as GivesPart, u64_part, optional_part, optional_item, OptionalFits};
ghost use Rattle.layout_ops.specs.Spelling.{IsBody, layout_type_item, stateid_item, StateIdFits, time_item, TimeFits};
ghost use Rattle.layout_ops.specs.Reading.{stateid_part, time_part};

use crate::statuses::LAYOUT4_OSD2_OBJECTS;
use layout_types::LayoutErr;
use osd_lists::{Bytes, Memory};
use xdr_codec::{Reader, Writer};

/// The bytes of a state id behind its number (RFC 5661 3.3.12).
pub const STATEID_OTHER_BYTES: usize = 12;

/// What names a layout's state at the server (`stateid4`, RFC 5661 3.3.12).
#[derive(Clone, Copy, PartialEq, Eq)]
pub struct StateId {
    /// How often the state changed.
    pub seqid: u32,
    /// Which state it is.
    pub other: [u8; STATEID_OTHER_BYTES],
}

/// A time (`nfstime4`, RFC 5661 3.3.1).
#[derive(Clone, Copy, PartialEq, Eq)]
pub struct Time {
    /// Whole seconds since the beginning of 1970, UTC, negative before.
    pub seconds: i64,
    /// The nanoseconds after them. Any number of 32 bits is read.
    pub nanoseconds: u32,
}

#[tactic(auto, unfolding(crate::specs::Reading::stateid_part, layout_types::specs::Grammar::u32_part, layout_types::specs::Grammar::fixed_part))]
pub(crate) fn stateid_from(reader: &mut Reader<'_>) -> Result<StateId, LayoutErr>
    ensures { GivesPart (stateid_part reader.old) result reader.new }
{
    let seqid = reader.u32()?;
    let mut other = [0; STATEID_OTHER_BYTES];
    reader.fixed(&mut other)?;
    Ok(StateId { seqid, other })
}

pub(crate) fn put_stateid(writer: &mut Writer, stateid: &StateId) -> Result<(), Memory>
    ensures written { OnOk result (writer.new ≡ writer.old ++ stateid_item stateid.now) }
    ensures fits { OnOk result (StateIdFits stateid.now) }
{
    writer.u32(stateid.seqid)?;
    put_other(writer, &stateid.other)
}

// The first byte of a range, and how many bytes it has.
pub(crate) fn put_range(writer: &mut Writer, offset: u64, length: u64) -> Result<(), Memory>
    ensures written { OnOk result (writer.new ≡ writer.old ++ (u64_item offset ++ u64_item length)) }
    ensures fits { (offset < 2 ^ 64) × (length < 2 ^ 64) }
{
    writer.u64(offset)?;
    writer.u64(length)
}

// The layout type, and a body of that type.
pub(crate) fn put_content(writer: &mut Writer, body: &Bytes) -> Result<(), Memory>
    requires { IsBody body.now }
    ensures { OnOk result (writer.new ≡ writer.old ++ (layout_type_item ++ opaque_item body.now)) }
{
    writer.u32(LAYOUT4_OSD2_OBJECTS)?;
    writer.opaque(body.as_slice())
}

fn put_other(writer: &mut Writer, field: &[u8; STATEID_OTHER_BYTES]) -> Result<(), Memory>
    ensures written { OnOk result (writer.new ≡ writer.old ++ fixed_item field.now) }
    ensures fits { length field.now ≡ STATEID_OTHER_BYTES }
{
    writer.fixed(field)
}

#[tactic(auto, unfolding(crate::specs::Reading::time_part, layout_types::specs::Grammar::i64_part, layout_types::specs::Grammar::u32_part))]
fn time_from(reader: &mut Reader<'_>) -> Result<Time, LayoutErr>
    ensures { GivesPart (time_part reader.old) result reader.new }
{
    Ok(Time {
        seconds: reader.i64()?,
        nanoseconds: reader.u32()?,
    })
}

// An optional part is a bool, and where it is 1 the value.
#[tactic(auto, unfolding(layout_types::specs::Grammar::optional_part, layout_types::specs::Grammar::bool_part, layout_types::specs::Grammar::u64_part))]
pub(crate) fn optional_u64_from(reader: &mut Reader<'_>) -> Result<Option<u64>, LayoutErr>
    ensures { GivesPart (optional_part u64_part reader.old) result reader.new }
{
    if reader.bool()? {
        Ok(Some(reader.u64()?))
    } else {
        Ok(None)
    }
}

#[tactic(auto, unfolding(layout_types::specs::Grammar::optional_part, layout_types::specs::Grammar::bool_part))]
pub(crate) fn optional_time_from(reader: &mut Reader<'_>) -> Result<Option<Time>, LayoutErr>
    ensures { GivesPart (optional_part time_part reader.old) result reader.new }
{
    if reader.bool()? {
        Ok(Some(time_from(reader)?))
    } else {
        Ok(None)
    }
}

#[tactic(auto, unfolding(layout_types::specs::Grammar::optional_part, layout_types::specs::Grammar::bool_part))]
pub(crate) fn optional_stateid_from(reader: &mut Reader<'_>) -> Result<Option<StateId>, LayoutErr>
    ensures { GivesPart (optional_part stateid_part reader.old) result reader.new }
{
    if reader.bool()? {
        Ok(Some(stateid_from(reader)?))
    } else {
        Ok(None)
    }
}

pub(crate) fn put_optional_u64(writer: &mut Writer, value: Option<u64>) -> Result<(), Memory>
    ensures written { OnOk result (writer.new ≡ writer.old ++ optional_item u64_item value) }
    ensures fits { OptionalFits (λ n. n < 2 ^ 64) value }
{
    match value {
        None => writer.bool(false),
        Some(n) => {
            writer.bool(true)?;
            writer.u64(n)
        }
    }
}

pub(crate) fn put_optional_time(writer: &mut Writer, value: &Option<Time>) -> Result<(), Memory>
    ensures written { OnOk result (writer.new ≡ writer.old ++ optional_item time_item value.now) }
    ensures fits { OnOk result (OptionalFits TimeFits value.now) }
{
    match value {
        None => writer.bool(false),
        Some(time) => {
            writer.bool(true)?;
            writer.i64(time.seconds)?;
            writer.u32(time.nanoseconds)
        }
    }
}

pub(crate) fn put_optional_stateid(
    writer: &mut Writer,
    value: &Option<StateId>,
) -> Result<(), Memory>
    ensures written { OnOk result (writer.new ≡ writer.old ++ optional_item stateid_item value.now) }
    ensures fits { OnOk result (OptionalFits StateIdFits value.now) }
{
    match value {
        None => writer.bool(false),
        Some(stateid) => {
            writer.bool(true)?;
            put_stateid(writer, stateid)
        }
    }
}
