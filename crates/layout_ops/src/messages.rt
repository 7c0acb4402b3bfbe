ghost use Rattle.std.specs.Prelude.{◌≡◌, ◌++◌, OnOk};
ghost use Rattle.layout_ops.specs.Grammar.{Gives};
ghost use Rattle.layout_ops.specs.Spelling.{ArgsWritable, ResultsWritable, request_item, RequestFits, answer_item, AnswerFits};
ghost use Rattle.layout_ops.specs.Reading.{request_in, answer_in};

use crate::args::{Args, put_args, read_args};
use crate::err::OpErr;
use crate::operation::read_operation;
use crate::parts::{read_u32, read_u64};
use crate::results::{Results, put_results, read_results};
use osd_lists::Memory;
use std::alloc::Global;
use xdr_codec::{Reader, Writer};

/// What a client asks of the server.
#[derive(PartialEq, Drop)]
pub struct Request {
    /// The client that asks.
    pub client: u32,
    /// The number of the request, which rises by 1 with each.
    pub sequence: u32,
    /// The file.
    pub file: u32,
    /// The operation and its arguments.
    pub args: Args,
}

/// What the server answers.
#[derive(PartialEq, Drop)]
pub struct Answer {
    /// The client that asked.
    pub client: u32,
    /// The number of the request that is answered.
    pub sequence: u32,
    /// The file.
    pub file: u32,
    /// What the status leaves open: a holder, a component or the expected sequence number, else 0.
    pub detail: u32,
    /// The file's size in bytes.
    pub size: u64,
    /// The operation and its result.
    pub results: Results,
}

#[tactic(auto, unfolding(crate::specs::Reading::request_in))]
pub(crate) fn read_request(alloc: Global, reader: &mut Reader<'_>) -> Result<Request, OpErr>
    ensures { Gives (request_in reader.old) result reader.new }
{
    let client = read_u32(reader)?;
    let sequence = read_u32(reader)?;
    let file = read_u32(reader)?;
    let operation = read_operation(reader)?;
    Ok(Request {
        client,
        sequence,
        file,
        args: read_args(alloc, operation, reader)?,
    })
}

pub(crate) fn put_request(writer: &mut Writer, request: &Request) -> Result<(), Memory>
    requires { ArgsWritable request.now.args }
    ensures written { OnOk result (writer.new ≡ writer.old ++ request_item request.now) }
    ensures fits { OnOk result (RequestFits request.now) }
{
    writer.u32(request.client)?;
    writer.u32(request.sequence)?;
    writer.u32(request.file)?;
    writer.u32(request.args.operation().number())?;
    put_args(writer, &request.args)
}

#[tactic(auto, unfolding(crate::specs::Reading::answer_in))]
pub(crate) fn read_answer(alloc: Global, reader: &mut Reader<'_>) -> Result<Answer, OpErr>
    ensures { Gives (answer_in reader.old) result reader.new }
{
    let client = read_u32(reader)?;
    let sequence = read_u32(reader)?;
    let file = read_u32(reader)?;
    let operation = read_operation(reader)?;
    Ok(Answer {
        client,
        sequence,
        file,
        detail: read_u32(reader)?,
        size: read_u64(reader)?,
        results: read_results(alloc, operation, reader)?,
    })
}

pub(crate) fn put_answer(writer: &mut Writer, answer: &Answer) -> Result<(), Memory>
    requires { ResultsWritable answer.now.results }
    ensures written { OnOk result (writer.new ≡ writer.old ++ answer_item answer.now) }
    ensures fits { OnOk result (AnswerFits answer.now) }
{
    writer.u32(answer.client)?;
    writer.u32(answer.sequence)?;
    writer.u32(answer.file)?;
    writer.u32(answer.results.operation().number())?;
    writer.u32(answer.detail)?;
    writer.u64(answer.size)?;
    put_results(writer, &answer.results)
}
