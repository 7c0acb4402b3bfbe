ghost use Rattle.std.specs.Prelude.{◌≡◌, ◌++◌, ℕ, OnOk};
ghost use Rattle.std.specs.List.{AllByRecursion, flat_map};
ghost use Rattle.layout_types.specs.Grammar.{list_item};
ghost use Rattle.layout_types.specs.Spelling.{ListFits};
ghost use Rattle.layout_ops.specs.Grammar.{Gives, members, list_in};
ghost use Rattle.layout_ops.specs.Spelling.{segment_item, SegmentFits, SegmentWritable, get_ok_item, GetOkFits, GetOkWritable, get_result_item, GetResultFits, GetResultWritable, commit_result_item, CommitResultFits, CommitResultWritable, return_result_item, ReturnResultFits, ReturnResultWritable, operation_of_results, results_item, ResultsFits, ResultsWritable};
ghost use Rattle.layout_ops.specs.Reading.{segment_in, get_ok_in, get_result_in, commit_result_in, return_result_in, results_in};

use crate::err::OpErr;
use crate::items::{
    StateId, put_content, put_optional_stateid, put_optional_u64, put_range, put_stateid,
};
use crate::operation::Operation;
use crate::parts::{
    read_body, read_bool, read_count, read_layout_type, read_optional_stateid, read_optional_u64,
    read_stateid, read_u32, read_u64,
};
use crate::statuses::{NFS4_OK, NFS4ERR_LAYOUTTRYLATER};
use osd_lists::{Bytes, Memory, Sequence};
use std::alloc::Global;
use xdr_codec::{Reader, Writer};

/// A layout of a part of a file (`layout4`, RFC 5661 3.3.17). Its layout type is that of object-based
/// storage.
#[derive(PartialEq, Drop)]
pub struct LayoutSegment {
    /// The first byte of the file that it is for.
    pub offset: u64,
    /// How many bytes from there on.
    pub length: u64,
    /// Whether it is for reading or for writing too.
    pub iomode: u32,
    /// A [`Layout`](layout_types::Layout), at most [`MAX_BODY`](crate::MAX_BODY) bytes.
    pub body: Bytes,
}

/// The layouts that LAYOUTGET gives (`LAYOUTGET4resok`, RFC 5661 18.43.2).
#[derive(PartialEq, Drop)]
pub struct LayoutGetOk {
    /// Whether the client is to give the layouts back when it closes the file.
    pub return_on_close: bool,
    /// The state of the layouts.
    pub stateid: StateId,
    /// The layouts, at most 1,024.
    pub layouts: Sequence<LayoutSegment>,
}

/// What LAYOUTGET answers (`LAYOUTGET4res`, RFC 5661 18.43.2).
#[derive(PartialEq, Drop)]
pub enum LayoutGetResult {
    /// Status [`NFS4_OK`]: the layouts.
    Granted(LayoutGetOk),
    /// Status [`NFS4ERR_LAYOUTTRYLATER`]: whether the server will tell when a layout can be had.
    TryLater { will_signal: bool },
    /// Any other status.
    Refused { status: u32 },
}

/// What LAYOUTCOMMIT answers (`LAYOUTCOMMIT4res`, RFC 5661 18.42.2).
#[derive(Clone, Copy, PartialEq, Eq)]
pub enum LayoutCommitResult {
    /// Status [`NFS4_OK`]: the file's size, if the commit changed it.
    Committed { new_size: Option<u64> },
    /// Any other status.
    Refused { status: u32 },
}

/// What LAYOUTRETURN answers (`LAYOUTRETURN4res`, RFC 5661 18.44.2).
#[derive(Clone, Copy, PartialEq, Eq)]
pub enum LayoutReturnResult {
    /// Status [`NFS4_OK`]: the state of the layouts that the client still has, if it has any.
    Returned { stateid: Option<StateId> },
    /// Any other status.
    Refused { status: u32 },
}

/// The result of an operation.
#[derive(PartialEq, Drop)]
pub enum Results {
    /// Of [`Operation::LayoutCommit`].
    LayoutCommit(LayoutCommitResult),
    /// Of [`Operation::LayoutGet`].
    LayoutGet(LayoutGetResult),
    /// Of [`Operation::LayoutReturn`].
    LayoutReturn(LayoutReturnResult),
}

impl Results {
    /// Whose result it is.
    pub fn operation(&self) -> Operation
        ensures { result ≡ operation_of_results self.now }
    {
        match self {
            Results::LayoutCommit(_) => Operation::LayoutCommit,
            Results::LayoutGet(_) => Operation::LayoutGet,
            Results::LayoutReturn(_) => Operation::LayoutReturn,
        }
    }
}

#[tactic(auto, unfolding(crate::specs::Reading::segment_in))]
fn read_segment(alloc: Global, reader: &mut Reader<'_>) -> Result<LayoutSegment, OpErr>
    ensures { Gives (segment_in reader.old) result reader.new }
{
    let offset = read_u64(reader)?;
    let length = read_u64(reader)?;
    let iomode = read_u32(reader)?;
    read_layout_type(reader)?;
    Ok(LayoutSegment {
        offset,
        length,
        iomode,
        body: read_body(alloc, reader)?,
    })
}

fn put_segment(writer: &mut Writer, segment: &LayoutSegment) -> Result<(), Memory>
    requires { SegmentWritable segment.now }
    ensures written { OnOk result (writer.new ≡ writer.old ++ segment_item segment.now) }
    ensures fits { OnOk result (SegmentFits segment.now) }
{
    put_range(writer, segment.offset, segment.length)?;
    writer.u32(segment.iomode)?;
    put_content(writer, &segment.body)
}

fn read_segments(
    alloc: Global,
    reader: &mut Reader<'_>,
    count: u32,
) -> Result<Sequence<LayoutSegment>, OpErr>
    ensures { Gives (members segment_in count reader.old) result reader.new }
{
    let mut layouts = Sequence::new(alloc);
    for _ in 0..count {
        layouts.push(read_segment(alloc, reader)?)?;
    }
    Ok(layouts)
}

#[tactic(auto, unfolding(crate::specs::Grammar::list_in))]
fn read_layouts(alloc: Global, reader: &mut Reader<'_>) -> Result<Sequence<LayoutSegment>, OpErr>
    ensures { Gives (list_in segment_in reader.old) result reader.new }
{
    let count = read_count(reader)?;
    read_segments(alloc, reader, count)
}

fn put_segments(writer: &mut Writer, layouts: &[LayoutSegment]) -> Result<(), Memory>
    requires { AllByRecursion SegmentWritable layouts.now }
    ensures written { OnOk result (writer.new ≡ writer.old ++ flat_map segment_item layouts.now) }
    ensures fits { OnOk result (AllByRecursion SegmentFits layouts.now) }
{
    for segment in layouts {
        put_segment(writer, segment)?;
    }
    Ok(())
}

#[tactic(auto, unfolding(layout_types::specs::Grammar::list_item))]
fn put_layouts(writer: &mut Writer, layouts: &Sequence<LayoutSegment>) -> Result<(), Memory>
    requires { ListFits SegmentWritable layouts.now }
    ensures written { OnOk result (writer.new ≡ writer.old ++ list_item segment_item layouts.now) }
    ensures fits { OnOk result (ListFits SegmentFits layouts.now) }
{
    writer.u32(layouts.len() as u32)?;
    put_segments(writer, layouts.as_slice())
}

#[tactic(auto, unfolding(crate::specs::Reading::get_ok_in))]
fn read_get_ok(alloc: Global, reader: &mut Reader<'_>) -> Result<LayoutGetOk, OpErr>
    ensures { Gives (get_ok_in reader.old) result reader.new }
{
    Ok(LayoutGetOk {
        return_on_close: read_bool(reader)?,
        stateid: read_stateid(reader)?,
        layouts: read_layouts(alloc, reader)?,
    })
}

fn put_get_ok(writer: &mut Writer, granted: &LayoutGetOk) -> Result<(), Memory>
    requires { GetOkWritable granted.now }
    ensures written { OnOk result (writer.new ≡ writer.old ++ get_ok_item granted.now) }
    ensures fits { OnOk result (GetOkFits granted.now) }
{
    writer.bool(granted.return_on_close)?;
    put_stateid(writer, &granted.stateid)?;
    put_layouts(writer, &granted.layouts)
}

#[tactic(auto, unfolding(crate::specs::Reading::get_result_in))]
fn read_get_result(alloc: Global, reader: &mut Reader<'_>) -> Result<LayoutGetResult, OpErr>
    ensures { Gives (get_result_in reader.old) result reader.new }
{
    let status = read_u32(reader)?;
    if status == NFS4_OK {
        Ok(LayoutGetResult::Granted(read_get_ok(alloc, reader)?))
    } else if status == NFS4ERR_LAYOUTTRYLATER {
        let will_signal = read_bool(reader)?;
        Ok(LayoutGetResult::TryLater { will_signal })
    } else {
        Ok(LayoutGetResult::Refused { status })
    }
}

fn put_get_result(writer: &mut Writer, answer: &LayoutGetResult) -> Result<(), Memory>
    requires { GetResultWritable answer.now }
    ensures written { OnOk result (writer.new ≡ writer.old ++ get_result_item answer.now) }
    ensures fits { OnOk result (GetResultFits answer.now) }
{
    match answer {
        LayoutGetResult::Granted(granted) => {
            writer.u32(NFS4_OK)?;
            put_get_ok(writer, granted)
        }
        LayoutGetResult::TryLater { will_signal } => {
            writer.u32(NFS4ERR_LAYOUTTRYLATER)?;
            writer.bool(*will_signal)
        }
        LayoutGetResult::Refused { status } => writer.u32(*status),
    }
}

#[tactic(auto, unfolding(crate::specs::Reading::commit_result_in))]
fn read_commit_result(reader: &mut Reader<'_>) -> Result<LayoutCommitResult, OpErr>
    ensures { Gives (commit_result_in reader.old) result reader.new }
{
    let status = read_u32(reader)?;
    if status == NFS4_OK {
        let new_size = read_optional_u64(reader)?;
        Ok(LayoutCommitResult::Committed { new_size })
    } else {
        Ok(LayoutCommitResult::Refused { status })
    }
}

fn put_commit_result(writer: &mut Writer, answer: &LayoutCommitResult) -> Result<(), Memory>
    requires { CommitResultWritable answer.now }
    ensures written { OnOk result (writer.new ≡ writer.old ++ commit_result_item answer.now) }
    ensures fits { OnOk result (CommitResultFits answer.now) }
{
    match answer {
        LayoutCommitResult::Committed { new_size } => {
            writer.u32(NFS4_OK)?;
            put_optional_u64(writer, *new_size)
        }
        LayoutCommitResult::Refused { status } => writer.u32(*status),
    }
}

#[tactic(auto, unfolding(crate::specs::Reading::return_result_in))]
fn read_return_result(reader: &mut Reader<'_>) -> Result<LayoutReturnResult, OpErr>
    ensures { Gives (return_result_in reader.old) result reader.new }
{
    let status = read_u32(reader)?;
    if status == NFS4_OK {
        let stateid = read_optional_stateid(reader)?;
        Ok(LayoutReturnResult::Returned { stateid })
    } else {
        Ok(LayoutReturnResult::Refused { status })
    }
}

fn put_return_result(writer: &mut Writer, answer: &LayoutReturnResult) -> Result<(), Memory>
    requires { ReturnResultWritable answer.now }
    ensures written { OnOk result (writer.new ≡ writer.old ++ return_result_item answer.now) }
    ensures fits { OnOk result (ReturnResultFits answer.now) }
{
    match answer {
        LayoutReturnResult::Returned { stateid } => {
            writer.u32(NFS4_OK)?;
            put_optional_stateid(writer, stateid)
        }
        LayoutReturnResult::Refused { status } => writer.u32(*status),
    }
}

pub(crate) fn read_results(
    alloc: Global,
    operation: Operation,
    reader: &mut Reader<'_>,
) -> Result<Results, OpErr>
    ensures { Gives (results_in operation reader.old) result reader.new }
{
    match operation {
        Operation::LayoutCommit => Ok(Results::LayoutCommit(read_commit_result(reader)?)),
        Operation::LayoutGet => Ok(Results::LayoutGet(read_get_result(alloc, reader)?)),
        Operation::LayoutReturn => Ok(Results::LayoutReturn(read_return_result(reader)?)),
    }
}

pub(crate) fn put_results(writer: &mut Writer, results: &Results) -> Result<(), Memory>
    requires { ResultsWritable results.now }
    ensures written { OnOk result (writer.new ≡ writer.old ++ results_item results.now) }
    ensures fits { OnOk result (ResultsFits results.now) }
{
    match results {
        Results::LayoutCommit(answer) => put_commit_result(writer, answer),
        Results::LayoutGet(answer) => put_get_result(writer, answer),
        Results::LayoutReturn(answer) => put_return_result(writer, answer),
    }
}
