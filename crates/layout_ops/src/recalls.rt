ghost use Rattle.std.specs.Prelude.{◌≡◌, ◌++◌, ◌≤◌, length, OnOk};
ghost use Rattle.layout_ops.specs.Grammar.{Gives};
ghost use Rattle.layout_ops.specs.Spelling.{IsFileHandle, recall_args_item, RecallArgsFits, recall_item, RecallFits, recall_answer_item, RecallAnswerFits};
ghost use Rattle.layout_ops.specs.Reading.{recall_args_in, recall_in, recall_answer_in};

use crate::err::OpErr;
use crate::items::{StateId, put_range, put_stateid};
use crate::parts::{
    read_bool, read_file_handle, read_file_kind, read_layout_type, read_recall_op, read_stateid,
    read_u32, read_u64,
};
use crate::statuses::{LAYOUT4_OSD2_OBJECTS, LAYOUT4_RET_REC_FILE, OP_CB_LAYOUTRECALL};
use osd_lists::{Bytes, Memory};
use std::alloc::Global;
use xdr_codec::{Reader, Writer};

/// What CB_LAYOUTRECALL asks back: layouts of one file (`CB_LAYOUTRECALL4args`, RFC 5661 20.3.1).
/// The layout type is always that of object-based storage.
#[derive(PartialEq, Drop)]
pub struct LayoutRecallArgs {
    /// The iomode of the layouts.
    pub iomode: u32,
    /// Whether the layout changed.
    pub changed: bool,
    /// The file's name at the server, at most [`MAX_FILE_HANDLE`](crate::MAX_FILE_HANDLE) bytes.
    pub file: Bytes,
    /// The first byte of the file that is asked back.
    pub offset: u64,
    /// How many bytes from there on.
    pub length: u64,
    /// The state of the layout.
    pub stateid: StateId,
}

/// A recall of the server to a client: its operation is
/// [`OP_CB_LAYOUTRECALL`](crate::OP_CB_LAYOUTRECALL).
#[derive(PartialEq, Drop)]
pub struct Recall {
    /// The client that is asked.
    pub client: u32,
    /// The number of the recall.
    pub number: u32,
    /// The file.
    pub file: u32,
    /// What is asked back.
    pub args: LayoutRecallArgs,
}

/// A client's answer to a recall (`CB_LAYOUTRECALL4res`, RFC 5661 20.3.2).
#[derive(Clone, Copy, PartialEq, Eq)]
pub struct RecallAnswer {
    /// The client that answers.
    pub client: u32,
    /// The number of the recall that is answered.
    pub number: u32,
    /// The file.
    pub file: u32,
    /// The status, any number of 32 bits.
    pub status: u32,
}

#[tactic(auto, unfolding(crate::specs::Reading::recall_args_in))]
fn read_recall_args(alloc: Global, reader: &mut Reader<'_>) -> Result<LayoutRecallArgs, OpErr>
    ensures { Gives (recall_args_in reader.old) result reader.new }
{
    read_layout_type(reader)?;
    let iomode = read_u32(reader)?;
    let changed = read_bool(reader)?;
    read_file_kind(reader)?;
    Ok(LayoutRecallArgs {
        iomode,
        changed,
        file: read_file_handle(alloc, reader)?,
        offset: read_u64(reader)?,
        length: read_u64(reader)?,
        stateid: read_stateid(reader)?,
    })
}

fn put_recall_args(writer: &mut Writer, args: &LayoutRecallArgs) -> Result<(), Memory>
    requires { IsFileHandle args.now.file }
    ensures written { OnOk result (writer.new ≡ writer.old ++ recall_args_item args.now) }
    ensures fits { OnOk result (RecallArgsFits args.now) }
{
    writer.u32(LAYOUT4_OSD2_OBJECTS)?;
    writer.u32(args.iomode)?;
    writer.bool(args.changed)?;
    writer.u32(LAYOUT4_RET_REC_FILE)?;
    writer.opaque(args.file.as_slice())?;
    put_range(writer, args.offset, args.length)?;
    put_stateid(writer, &args.stateid)
}

#[tactic(auto, unfolding(crate::specs::Reading::recall_in))]
pub(crate) fn read_recall(alloc: Global, reader: &mut Reader<'_>) -> Result<Recall, OpErr>
    ensures { Gives (recall_in reader.old) result reader.new }
{
    let client = read_u32(reader)?;
    let number = read_u32(reader)?;
    let file = read_u32(reader)?;
    read_recall_op(reader)?;
    Ok(Recall {
        client,
        number,
        file,
        args: read_recall_args(alloc, reader)?,
    })
}

pub(crate) fn put_recall(writer: &mut Writer, recall: &Recall) -> Result<(), Memory>
    requires { IsFileHandle recall.now.args.file }
    ensures written { OnOk result (writer.new ≡ writer.old ++ recall_item recall.now) }
    ensures fits { OnOk result (RecallFits recall.now) }
{
    writer.u32(recall.client)?;
    writer.u32(recall.number)?;
    writer.u32(recall.file)?;
    writer.u32(OP_CB_LAYOUTRECALL)?;
    put_recall_args(writer, &recall.args)
}

#[tactic(auto, unfolding(crate::specs::Reading::recall_answer_in))]
pub(crate) fn read_recall_answer(reader: &mut Reader<'_>) -> Result<RecallAnswer, OpErr>
    ensures { Gives (recall_answer_in reader.old) result reader.new }
{
    let client = read_u32(reader)?;
    let number = read_u32(reader)?;
    let file = read_u32(reader)?;
    read_recall_op(reader)?;
    Ok(RecallAnswer {
        client,
        number,
        file,
        status: read_u32(reader)?,
    })
}

pub(crate) fn put_recall_answer(writer: &mut Writer, answer: &RecallAnswer) -> Result<(), Memory>
    ensures written { OnOk result (writer.new ≡ writer.old ++ recall_answer_item answer.now) }
    ensures fits { OnOk result (RecallAnswerFits answer.now) }
{
    writer.u32(answer.client)?;
    writer.u32(answer.number)?;
    writer.u32(answer.file)?;
    writer.u32(OP_CB_LAYOUTRECALL)?;
    writer.u32(answer.status)
}
