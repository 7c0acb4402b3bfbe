ghost use Rattle.std.specs.Prelude.{◌≡◌};
ghost use Rattle.layout_types.specs.Grammar.{u64_part, optional_part};
ghost use Rattle.layout_ops.specs.Grammar.{Gives, u32_field, u64_field, bool_field, opaque_field, count_field, layout_type_in, file_kind_in, recall_op_in};
ghost use Rattle.layout_ops.specs.Reading.{stateid_field, time_part, stateid_part, optional_u64_field, optional_time_field, optional_stateid_field};

use crate::err::OpErr;
use crate::items::{
    StateId, Time, optional_stateid_from, optional_time_from, optional_u64_from, stateid_from,
};
use crate::statuses::{LAYOUT4_OSD2_OBJECTS, LAYOUT4_RET_REC_FILE, OP_CB_LAYOUTRECALL};
use layout_types::MAX_MEMBERS;
use osd_lists::Bytes;
use std::alloc::Global;
use xdr_codec::Reader;

/// The most bytes of the body of a layout, a commit or a return, this project's own limit.
pub const MAX_BODY: u32 = 65_536;

/// The most bytes that name a file in a recall (`NFS4_FHSIZE`, RFC 5661 3.1).
pub const MAX_FILE_HANDLE: u32 = 128;

#[tactic(auto, unfolding(crate::specs::Grammar::u32_field, layout_types::specs::Grammar::u32_part))]
pub(crate) fn read_u32(reader: &mut Reader<'_>) -> Result<u32, OpErr>
    ensures { Gives (u32_field reader.old) result reader.new }
{
    Ok(reader.u32()?)
}

#[tactic(auto, unfolding(crate::specs::Grammar::u64_field, layout_types::specs::Grammar::u64_part))]
pub(crate) fn read_u64(reader: &mut Reader<'_>) -> Result<u64, OpErr>
    ensures { Gives (u64_field reader.old) result reader.new }
{
    Ok(reader.u64()?)
}

#[tactic(auto, unfolding(crate::specs::Grammar::bool_field, layout_types::specs::Grammar::bool_part))]
pub(crate) fn read_bool(reader: &mut Reader<'_>) -> Result<bool, OpErr>
    ensures { Gives (bool_field reader.old) result reader.new }
{
    Ok(reader.bool()?)
}

#[tactic(auto, unfolding(crate::specs::Grammar::opaque_field))]
pub(crate) fn read_body(alloc: Global, reader: &mut Reader<'_>) -> Result<Bytes, OpErr>
    ensures { Gives (opaque_field MAX_BODY reader.old) result reader.new }
{
    Ok(reader.opaque(alloc, MAX_BODY)?)
}

#[tactic(auto, unfolding(crate::specs::Grammar::opaque_field))]
pub(crate) fn read_file_handle(alloc: Global, reader: &mut Reader<'_>) -> Result<Bytes, OpErr>
    ensures { Gives (opaque_field MAX_FILE_HANDLE reader.old) result reader.new }
{
    Ok(reader.opaque(alloc, MAX_FILE_HANDLE)?)
}

#[tactic(auto, unfolding(crate::specs::Grammar::count_field, layout_types::specs::Grammar::count_part))]
pub(crate) fn read_count(reader: &mut Reader<'_>) -> Result<u32, OpErr>
    ensures { Gives (count_field reader.old) result reader.new }
{
    Ok(reader.count(MAX_MEMBERS)?)
}

#[tactic(auto, unfolding(crate::specs::Reading::stateid_field))]
pub(crate) fn read_stateid(reader: &mut Reader<'_>) -> Result<StateId, OpErr>
    ensures { Gives (stateid_field reader.old) result reader.new }
{
    Ok(stateid_from(reader)?)
}

#[tactic(auto, unfolding(crate::specs::Reading::optional_u64_field))]
pub(crate) fn read_optional_u64(reader: &mut Reader<'_>) -> Result<Option<u64>, OpErr>
    ensures { Gives (optional_u64_field reader.old) result reader.new }
{
    Ok(optional_u64_from(reader)?)
}

#[tactic(auto, unfolding(crate::specs::Reading::optional_time_field))]
pub(crate) fn read_optional_time(reader: &mut Reader<'_>) -> Result<Option<Time>, OpErr>
    ensures { Gives (optional_time_field reader.old) result reader.new }
{
    Ok(optional_time_from(reader)?)
}

#[tactic(auto, unfolding(crate::specs::Reading::optional_stateid_field))]
pub(crate) fn read_optional_stateid(reader: &mut Reader<'_>) -> Result<Option<StateId>, OpErr>
    ensures { Gives (optional_stateid_field reader.old) result reader.new }
{
    Ok(optional_stateid_from(reader)?)
}

#[tactic(auto, unfolding(crate::specs::Grammar::layout_type_in))]
pub(crate) fn read_layout_type(reader: &mut Reader<'_>) -> Result<(), OpErr>
    ensures { Gives (layout_type_in reader.old) result reader.new }
{
    let value = read_u32(reader)?;
    if value == LAYOUT4_OSD2_OBJECTS {
        Ok(())
    } else {
        Err(OpErr::WrongLayoutType { value })
    }
}

#[tactic(auto, unfolding(crate::specs::Grammar::file_kind_in))]
pub(crate) fn read_file_kind(reader: &mut Reader<'_>) -> Result<(), OpErr>
    ensures { Gives (file_kind_in reader.old) result reader.new }
{
    let value = read_u32(reader)?;
    if value == LAYOUT4_RET_REC_FILE {
        Ok(())
    } else {
        Err(OpErr::WrongReturn { value })
    }
}

#[tactic(auto, unfolding(crate::specs::Grammar::recall_op_in))]
pub(crate) fn read_recall_op(reader: &mut Reader<'_>) -> Result<(), OpErr>
    ensures { Gives (recall_op_in reader.old) result reader.new }
{
    let op = read_u32(reader)?;
    if op == OP_CB_LAYOUTRECALL {
        Ok(())
    } else {
        Err(OpErr::UnknownOp { op })
    }
}
