// The arguments of a client's requests.
ghost use Rattle.std.specs.Prelude.{◌≡◌, ◌≤◌, IfOk, length};
ghost use Rattle.layout_types.specs.declared.parts.TheConstants.{MAX_MEMBERS};
ghost use Rattle.layout_types.specs.Spelling.{update_item};
ghost use Rattle.layout_ops.specs.Spelling.{IsBody, ArgsWritable};
ghost use Rattle.client_rules.specs.Requests.{stateid_of, get_args, commit_of, plain_update, return_args};
ghost use Rattle.client_rules.specs.Calls.{span_of};
ghost use Rattle.layout_ops.specs.declared.args.Args.TheVariants as args;
ghost use Rattle.held_grants.specs.Ranges.{IsInFile, AsksInFile};
ghost use Rattle.held_grants.specs.Bodies.{report_item};

use crate::calls::asked_span;
use client_rules::{CallOp, MAX_LAYOUT, WHOLE_FILE, is_write, span_of};
use layout_ops::{
    Args, LAYOUTIOMODE4_ANY, LAYOUTIOMODE4_READ, LAYOUTIOMODE4_RW, LayoutCommitArgs, LayoutGetArgs,
    LayoutReturnArgs, STATEID_OTHER_BYTES, StateId,
};
use layout_types::{IoErr, IoErrs, LayoutUpdate, Structure};
use osd_lists::{Bytes, Memory, Sequence, put_u32};
use std::alloc::Global;

// The stateid of a grant: 8 bytes of zeros, and its number.
fn stateid_of(grant: u32) -> StateId
    ensures { result ≡ stateid_of grant }
{
    let mut other = [0; STATEID_OTHER_BYTES];
    put_u32(&mut other, 8, grant);
    StateId { seqid: 1, other }
}

/// What a call's LAYOUTGET asks (RFC 5661 18.43). The call's range ends at most at
/// [`MAX_FILE_SIZE`](data_map::MAX_FILE_SIZE).
pub fn get_args(op: &CallOp) -> Args
    requires { AsksInFile op.now }
    ensures value { result ≡ get_args op.now }
    ensures writable { ArgsWritable result }
{
    let asked = asked_span(op);
    Args::LayoutGet(LayoutGetArgs {
        signal_layout_avail: false,
        iomode: if is_write(op) {
            LAYOUTIOMODE4_RW
        } else {
            LAYOUTIOMODE4_READ
        },
        offset: asked.offset,
        length: asked.length,
        minlength: asked.length,
        stateid: StateId {
            seqid: 0,
            other: [0; STATEID_OTHER_BYTES],
        },
        maxcount: MAX_LAYOUT,
    })
}

// The body of a commit that says no more than that bytes were written (RFC 5664 7).
fn commit_body(alloc: Global) -> Result<Bytes, Memory>
    ensures value { IfOk result (λ b. b ≡ update_item plain_update) }
    ensures short { IfOk result IsBody }
{
    LayoutUpdate {
        dsu_delta: None,
        olu_ioerr_flag: false,
    }
    .write(alloc)
}

/// What a call's LAYOUTCOMMIT tells under a grant (RFC 5661 18.42): that the call's bytes were written. The call's
/// range ends at most at [`MAX_FILE_SIZE`](data_map::MAX_FILE_SIZE).
pub fn commit_args(alloc: Global, grant: u32, op: &CallOp) -> Result<Args, Memory>
    requires { AsksInFile op.now }
    ensures value { IfOk result (λ a. a ≡ args.LayoutCommit (commit_of grant (span_of op.now))) }
    ensures writable { IfOk result ArgsWritable }
{
    let range = span_of(op);
    Ok(Args::LayoutCommit(LayoutCommitArgs {
        offset: range.offset,
        length: range.length,
        reclaim: false,
        stateid: stateid_of(grant),
        last_write_offset: Some((range.offset + range.length).saturating_sub(1)),
        time: None,
        body: commit_body(alloc)?,
    }))
}

// The body of a return with that report (RFC 5664 8.3).
fn return_body(alloc: Global, report: Sequence<IoErr>) -> Result<Bytes, Memory>
    requires { length report ≤ MAX_MEMBERS }
    ensures value { IfOk result (λ b. b ≡ report_item report) }
    ensures short { IfOk result IsBody }
{
    IoErrs {
        olr_ioerr_report: report,
    }
    .write(alloc)
}

/// What gives a file's layouts back (RFC 5661 18.44), with a report of at most
/// [`MAX_MEMBERS`](layout_types::MAX_MEMBERS) errors: clean where there is none.
pub fn return_args(alloc: Global, grant: u32, report: Sequence<IoErr>) -> Result<Args, Memory>
    requires { length report ≤ MAX_MEMBERS }
    ensures value { IfOk result (λ a. a ≡ return_args grant report) }
    ensures writable { IfOk result ArgsWritable }
{
    Ok(Args::LayoutReturn(LayoutReturnArgs {
        reclaim: false,
        iomode: LAYOUTIOMODE4_ANY,
        offset: 0,
        length: WHOLE_FILE,
        stateid: stateid_of(grant),
        body: return_body(alloc, report)?,
    }))
}
