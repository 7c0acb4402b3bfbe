ghost use Rattle.std.specs.Prelude.{◌≡◌, ◌++◌, OnOk};
ghost use Rattle.layout_ops.specs.Grammar.{Gives};
ghost use Rattle.layout_ops.specs.Spelling.{IsBody, get_args_item, GetArgsFits, commit_args_item, CommitArgsFits, return_args_item, ReturnArgsFits, operation_of_args, args_item, ArgsFits, ArgsWritable};
ghost use Rattle.layout_ops.specs.Reading.{get_args_in, commit_args_in, return_args_in, args_in};

use crate::err::OpErr;
use crate::items::{
    StateId, Time, put_content, put_optional_time, put_optional_u64, put_range, put_stateid,
};
use crate::operation::Operation;
use crate::parts::{
    read_body, read_bool, read_file_kind, read_layout_type, read_optional_time, read_optional_u64,
    read_stateid, read_u32, read_u64,
};
use crate::statuses::{LAYOUT4_OSD2_OBJECTS, LAYOUT4_RET_REC_FILE};
use osd_lists::{Bytes, Memory};
use std::alloc::Global;
use xdr_codec::{Reader, Writer};

/// What LAYOUTGET asks for (`LAYOUTGET4args`, RFC 5661 18.43.1). Its layout type is that of
/// object-based storage.
#[derive(Clone, Copy, PartialEq, Eq)]
pub struct LayoutGetArgs {
    /// Whether the server is to tell when a layout can be had.
    pub signal_layout_avail: bool,
    /// Whether it is for reading or for writing too.
    pub iomode: u32,
    /// The first byte of the file that is wanted.
    pub offset: u64,
    /// How many bytes from there on.
    pub length: u64,
    /// The fewest bytes that serve.
    pub minlength: u64,
    /// The state that the client knows.
    pub stateid: StateId,
    /// The most bytes of the answer.
    pub maxcount: u32,
}

/// What LAYOUTCOMMIT tells (`LAYOUTCOMMIT4args`, RFC 5661 18.42.1). Its layout type is that of
/// object-based storage.
#[derive(PartialEq, Drop)]
pub struct LayoutCommitArgs {
    /// The first byte of the file that is committed.
    pub offset: u64,
    /// How many bytes from there on.
    pub length: u64,
    /// Whether it is after the server began anew.
    pub reclaim: bool,
    /// The state of the layout.
    pub stateid: StateId,
    /// The last byte that was written, if any was.
    pub last_write_offset: Option<u64>,
    /// The time of the last write, if it is told.
    pub time: Option<Time>,
    /// A [`LayoutUpdate`](layout_types::LayoutUpdate), at most [`MAX_BODY`](crate::MAX_BODY) bytes.
    pub body: Bytes,
}

/// What LAYOUTRETURN gives back: layouts of one file (`LAYOUTRETURN4args`, RFC 5661 18.44.1). Its
/// layout type is that of object-based storage.
#[derive(PartialEq, Drop)]
pub struct LayoutReturnArgs {
    /// Whether it is after the server began anew.
    pub reclaim: bool,
    /// The iomode of the layouts.
    pub iomode: u32,
    /// The first byte of the file that is given back.
    pub offset: u64,
    /// How many bytes from there on.
    pub length: u64,
    /// The state of the layout.
    pub stateid: StateId,
    /// The [`IoErrs`](layout_types::IoErrs), at most [`MAX_BODY`](crate::MAX_BODY) bytes.
    pub body: Bytes,
}

/// The arguments of an operation.
#[derive(PartialEq, Drop)]
pub enum Args {
    /// Of [`Operation::LayoutCommit`].
    LayoutCommit(LayoutCommitArgs),
    /// Of [`Operation::LayoutGet`].
    LayoutGet(LayoutGetArgs),
    /// Of [`Operation::LayoutReturn`].
    LayoutReturn(LayoutReturnArgs),
}

impl Args {
    /// Whose arguments they are.
    pub fn operation(&self) -> Operation
        ensures { result ≡ operation_of_args self.now }
    {
        match self {
            Args::LayoutCommit(_) => Operation::LayoutCommit,
            Args::LayoutGet(_) => Operation::LayoutGet,
            Args::LayoutReturn(_) => Operation::LayoutReturn,
        }
    }
}

#[tactic(auto, unfolding(crate::specs::Reading::get_args_in))]
fn read_get_args(reader: &mut Reader<'_>) -> Result<LayoutGetArgs, OpErr>
    ensures { Gives (get_args_in reader.old) result reader.new }
{
    let signal_layout_avail = read_bool(reader)?;
    read_layout_type(reader)?;
    Ok(LayoutGetArgs {
        signal_layout_avail,
        iomode: read_u32(reader)?,
        offset: read_u64(reader)?,
        length: read_u64(reader)?,
        minlength: read_u64(reader)?,
        stateid: read_stateid(reader)?,
        maxcount: read_u32(reader)?,
    })
}

fn put_get_args(writer: &mut Writer, args: &LayoutGetArgs) -> Result<(), Memory>
    ensures written { OnOk result (writer.new ≡ writer.old ++ get_args_item args.now) }
    ensures fits { OnOk result (GetArgsFits args.now) }
{
    writer.bool(args.signal_layout_avail)?;
    writer.u32(LAYOUT4_OSD2_OBJECTS)?;
    writer.u32(args.iomode)?;
    put_range(writer, args.offset, args.length)?;
    writer.u64(args.minlength)?;
    put_stateid(writer, &args.stateid)?;
    writer.u32(args.maxcount)
}

#[tactic(auto, unfolding(crate::specs::Reading::commit_args_in))]
fn read_commit_args(alloc: Global, reader: &mut Reader<'_>) -> Result<LayoutCommitArgs, OpErr>
    ensures { Gives (commit_args_in reader.old) result reader.new }
{
    let offset = read_u64(reader)?;
    let length = read_u64(reader)?;
    let reclaim = read_bool(reader)?;
    let stateid = read_stateid(reader)?;
    let last_write_offset = read_optional_u64(reader)?;
    let time = read_optional_time(reader)?;
    read_layout_type(reader)?;
    Ok(LayoutCommitArgs {
        offset,
        length,
        reclaim,
        stateid,
        last_write_offset,
        time,
        body: read_body(alloc, reader)?,
    })
}

fn put_commit_args(writer: &mut Writer, args: &LayoutCommitArgs) -> Result<(), Memory>
    requires { IsBody args.now.body }
    ensures written { OnOk result (writer.new ≡ writer.old ++ commit_args_item args.now) }
    ensures fits { OnOk result (CommitArgsFits args.now) }
{
    put_range(writer, args.offset, args.length)?;
    writer.bool(args.reclaim)?;
    put_stateid(writer, &args.stateid)?;
    put_optional_u64(writer, args.last_write_offset)?;
    put_optional_time(writer, &args.time)?;
    put_content(writer, &args.body)
}

#[tactic(auto, unfolding(crate::specs::Reading::return_args_in))]
fn read_return_args(alloc: Global, reader: &mut Reader<'_>) -> Result<LayoutReturnArgs, OpErr>
    ensures { Gives (return_args_in reader.old) result reader.new }
{
    let reclaim = read_bool(reader)?;
    read_layout_type(reader)?;
    let iomode = read_u32(reader)?;
    read_file_kind(reader)?;
    Ok(LayoutReturnArgs {
        reclaim,
        iomode,
        offset: read_u64(reader)?,
        length: read_u64(reader)?,
        stateid: read_stateid(reader)?,
        body: read_body(alloc, reader)?,
    })
}

fn put_return_args(writer: &mut Writer, args: &LayoutReturnArgs) -> Result<(), Memory>
    requires { IsBody args.now.body }
    ensures written { OnOk result (writer.new ≡ writer.old ++ return_args_item args.now) }
    ensures fits { OnOk result (ReturnArgsFits args.now) }
{
    writer.bool(args.reclaim)?;
    writer.u32(LAYOUT4_OSD2_OBJECTS)?;
    writer.u32(args.iomode)?;
    writer.u32(LAYOUT4_RET_REC_FILE)?;
    put_range(writer, args.offset, args.length)?;
    put_stateid(writer, &args.stateid)?;
    writer.opaque(args.body.as_slice())
}

pub(crate) fn read_args(
    alloc: Global,
    operation: Operation,
    reader: &mut Reader<'_>,
) -> Result<Args, OpErr>
    ensures { Gives (args_in operation reader.old) result reader.new }
{
    match operation {
        Operation::LayoutCommit => Ok(Args::LayoutCommit(read_commit_args(alloc, reader)?)),
        Operation::LayoutGet => Ok(Args::LayoutGet(read_get_args(reader)?)),
        Operation::LayoutReturn => Ok(Args::LayoutReturn(read_return_args(alloc, reader)?)),
    }
}

pub(crate) fn put_args(writer: &mut Writer, args: &Args) -> Result<(), Memory>
    requires { ArgsWritable args.now }
    ensures written { OnOk result (writer.new ≡ writer.old ++ args_item args.now) }
    ensures fits { OnOk result (ArgsFits args.now) }
{
    match args {
        Args::LayoutCommit(args) => put_commit_args(writer, args),
        Args::LayoutGet(args) => put_get_args(writer, args),
        Args::LayoutReturn(args) => put_return_args(writer, args),
    }
}
