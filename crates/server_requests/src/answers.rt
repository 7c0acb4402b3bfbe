ghost use Rattle.std.specs.Prelude.{◌≡◌, ◌≤◌, length, IfOk};
ghost use Rattle.server_rules.specs.declared.limits.TheConstants.{MAX_FILE_COMPONENTS};
ghost use Rattle.layout_ops.specs.Spelling.{ResultsWritable};
ghost use Rattle.server_rules.specs.Answers.{get_refused, commit_result, return_result, result_of, result_with, plain_answer, file_answer};
ghost use Rattle.server_rules.specs.Served.{tells};
ghost use Rattle.server_requests.specs.Telling.{told_rule, IsAnswer, IsTold};

use crate::layout_answer::granted;
use layout_ops::{
    Answer, LayoutCommitResult, LayoutGetResult, LayoutReturnResult, NFS4_OK,
    NFS4ERR_LAYOUTTRYLATER, Results,
};
use osd_lists::Memory;
use server_rules::{ClientRequest, Drive, Grant, Kept, RequestArgs};
use std::alloc::Global;

/// What an answer says.
#[derive(Clone, Copy, PartialEq, Eq)]
pub struct Told {
    /// The status, of RFC 5661 15.1.
    pub status: u32,
    /// A holder, a component or a sequence number that goes with it, else 0.
    pub detail: u32,
    /// The grant whose layout is given, if one is.
    pub grant: Option<Grant>,
}

// The result of a LAYOUTGET that is refused.
fn get_refused(status: u32) -> LayoutGetResult
    ensures { result ≡ get_refused status }
{
    if status == NFS4ERR_LAYOUTTRYLATER {
        LayoutGetResult::TryLater { will_signal: false }
    } else {
        LayoutGetResult::Refused { status }
    }
}

// The result of a LAYOUTCOMMIT; no new size is told.
fn commit_result(status: u32) -> LayoutCommitResult
    ensures { result ≡ commit_result status }
{
    if status == NFS4_OK {
        LayoutCommitResult::Committed { new_size: None }
    } else {
        LayoutCommitResult::Refused { status }
    }
}

// The result of a LAYOUTRETURN; the client has no layout of the file left.
fn return_result(status: u32) -> LayoutReturnResult
    ensures { result ≡ return_result status }
{
    if status == NFS4_OK {
        LayoutReturnResult::Returned { stateid: None }
    } else {
        LayoutReturnResult::Refused { status }
    }
}

/// The result of a request that is answered by a status alone. A LAYOUTGET isn't answered OK so.
pub fn result_of(args: &RequestArgs, status: u32) -> Results
    requires { IsAnswer args.now status }
    ensures value { result ≡ result_of args.now status }
    ensures writable { ResultsWritable result }
{
    match args {
        RequestArgs::Get { .. } => Results::LayoutGet(get_refused(status)),
        RequestArgs::Commit { .. } => Results::LayoutCommit(commit_result(status)),
        RequestArgs::Return { .. } => Results::LayoutReturn(return_result(status)),
    }
}

/// The answer to a request by a status alone, on a file of this size.
pub fn plain_answer(request: &ClientRequest, status: u32, detail: u32, size: u64) -> Answer
    requires { IsAnswer request.now.args status }
    ensures value { result ≡ plain_answer request.now (tells status detail) size }
    ensures writable { ResultsWritable result.results }
{
    Answer {
        client: request.client,
        sequence: request.sequence,
        file: request.file,
        detail,
        size,
        results: result_of(&request.args, status),
    }
}

/// The answer to a request on a file, as the step left it: with the layout of the grant, if one is given.
pub fn file_answer(
    alloc: Global,
    drives: &[Drive],
    kept: &Kept,
    request: &ClientRequest,
    told: &Told,
) -> Result<Answer, Memory>
    requires few { length kept.now.components ≤ MAX_FILE_COMPONENTS }
    requires told { IsTold request.now.args told.now }
    ensures value { IfOk result (λ a. a ≡ file_answer drives.now kept.now request.now (told_rule told.now)) }
    ensures writable { IfOk result (λ a. ResultsWritable a.results) }
{
    let results = match &told.grant {
        Some(grant) => Results::LayoutGet(LayoutGetResult::Granted(granted(
            alloc, drives, kept, grant,
        )?)),
        None => result_of(&request.args, told.status),
    };
    Ok(Answer {
        client: request.client,
        sequence: request.sequence,
        file: request.file,
        detail: told.detail,
        size: kept.size,
        results,
    })
}
