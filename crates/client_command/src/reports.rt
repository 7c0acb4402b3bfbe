// What the work of a client comes to.
ghost use Rattle.std.specs.Prelude.{◌≡◌, ◌≤◌, ◌<◌, ◌++◌, IsSome, Some, None, IfOk, OnErr};
ghost use Rattle.cluster_text.specs.Peers.{KeepsAddresses};
ghost use Rattle.scenario_text.specs.LineSpelling.{lines_text};
ghost use Rattle.world_history.specs.Moves.{op_of};
ghost use Rattle.client_rules.specs.declared.limits.TheConstants.{MAX_CLIENT};
ghost use Rattle.client_command.specs.WorkEnds.{end_of};
ghost use Rattle.client_command.specs.Lines.{call_lines, next_line, refusal_lines, unnumbered_line};
ghost use Rattle.client_command.specs.OnLinks.{links_at};
ghost use Rattle.client_command.specs.Numbering.{IsNumbered};
ghost use Rattle.client_command.specs.Reports.{CutsCall, CutsFresh, CutsFrom, CutsWork};
ghost use Rattle.client_command.specs.Reports.{IsReport, Reports, ReportsCall, ReportsFresh, ReportsFrom};

use crate::calls::{CallStop, call_new};
use crate::lines::{call_text, push_next, refusal_text, unnumbered_text};
use crate::notices::{Notice, Notices};
use crate::numbering::{after, find_number};
use crate::orders::report_order;
use crate::work_ends::{ClientEnd, Refusal, Report, end_of};
use command_words::{ClientWords, ClientWork, FirstNumber};
use osd_bytes::Links;
use osd_lists::Memory;
use scenario_text::{Call, CallKind, ClientName};
use std::alloc::Global;
use stripe_client::{CallErr, CallOp};
use world_network::kind_of;

// A call as the client takes it.
fn op_of(call: Call) -> CallOp
    ensures { result ≡ op_of call }
{
    match call {
        Call::Write {
            file,
            offset,
            bytes,
        } => CallOp::Write {
            file: file.number(),
            offset,
            bytes,
        },
        Call::Read {
            file,
            offset,
            length,
        } => CallOp::Read {
            file: file.number(),
            offset,
            length,
        },
    }
}

// The report of a call that was carried out.
fn report_end(
    alloc: Global,
    client: ClientName,
    kind: CallKind,
    notices: &[Notice],
    next: u32,
) -> Result<Report, Memory>
    ensures { IfOk result (λ report. IsSome (end_of notices.now)
        × IsReport (lines_text (call_lines client kind notices.now) ++ next_line next) (end_of notices.now) report) }
{
    // A call that is over by the client's rules was told to have ended.
    let Some(end) = end_of(alloc, notices)? else {
        return Err(Memory);
    };
    let mut text = call_text(alloc, client, kind, notices)?;
    push_next(alloc, &mut text, next)?;
    Ok(Report {
        text,
        end: Some(end),
    })
}

// The report of a call that the client doesn't take.
fn report_refusal(
    alloc: Global,
    client: ClientName,
    why: CallErr,
    sequence: u32,
) -> Result<Report, Memory>
    ensures { IfOk result (IsReport (lines_text (refusal_lines client why) ++ next_line sequence)
        (Some (ClientEnd.Refused (Refusal.Call why)))) }
{
    let mut text = refusal_text(alloc, client, why)?;
    push_next(alloc, &mut text, sequence)?;
    Ok(Report {
        text,
        end: Some(ClientEnd::Refused(Refusal::Call(why))),
    })
}

// The report of a call during which the server's answer didn't come.
fn report_loss(
    alloc: Global,
    client: ClientName,
    kind: CallKind,
    notices: &[Notice],
) -> Result<Report, Memory>
    ensures { IfOk result (IsReport (lines_text (call_lines client kind notices.now)) None) }
{
    Ok(Report {
        text: call_text(alloc, client, kind, notices)?,
        end: None,
    })
}

// Carries out a call, and reports it.
fn report_call<L: Links>(
    alloc: Global,
    client: ClientName,
    sequence: u32,
    call: Call,
    links: &mut L,
) -> Result<Report, Memory>
    requires { 0 < sequence }
    ensures reports { IfOk result (ReportsCall client sequence (op_of call)
        (links_at L.Links links.old) (links_at L.Links links.new)) }
    ensures cuts { OnErr result (CutsCall client sequence (op_of call)
        (links_at L.Links links.old) (links_at L.Links links.new)) }
    ensures addresses { KeepsAddresses (L.standing links.old) (L.standing links.new) }
{
    let op = op_of(call);
    let kind = kind_of(&op);
    let mut notices = Notices::new(alloc);
    match call_new(alloc, client.number(), sequence, op, links, &mut notices) {
        Ok(next) => report_end(alloc, client, kind, notices.as_slice(), next),
        Err(CallStop::Refused(why)) => report_refusal(alloc, client, why, sequence),
        Err(CallStop::Lost) => report_loss(alloc, client, kind, notices.as_slice()),
        Err(CallStop::Memory) => Err(Memory),
    }
}

// The report of a client that learned no number.
fn report_unnumbered(alloc: Global) -> Result<Report, Memory>
    ensures { IfOk result (IsReport unnumbered_line (Some ClientEnd.Unnumbered)) }
{
    Ok(Report {
        text: unnumbered_text(alloc)?,
        end: Some(ClientEnd::Unnumbered),
    })
}

// Finds a fresh number, carries out a call under it, and reports it.
fn report_fresh<L: Links>(
    alloc: Global,
    client: ClientName,
    call: Call,
    links: &mut L,
) -> Result<Report, Memory>
    ensures reports { IfOk result (ReportsFresh client (op_of call)
        (links_at L.Links links.old) (links_at L.Links links.new)) }
    ensures cuts { OnErr result (CutsFresh client (op_of call)
        (links_at L.Links links.old) (links_at L.Links links.new)) }
    ensures addresses { KeepsAddresses (L.standing links.old) (L.standing links.new) }
{
    // Here and below, arms in place of `?` or of the bare call are for the prover (docs/dev/PROVER_FORMS.md).
    match find_number(alloc, client.number(), links) {
        Ok(Some(used)) => match report_call(alloc, client, after(used), call, links) {
            Ok(report) => Ok(report),
            Err(e) => Err(e),
        },
        Ok(None) => match report_unnumbered(alloc) {
            Ok(report) => Ok(report),
            Err(e) => Err(e),
        },
        Err(e) => Err(e),
    }
}

// Carries out a call under the number that is given or a fresh one, and reports it.
fn report_from<L: Links>(
    alloc: Global,
    client: ClientName,
    first: FirstNumber,
    call: Call,
    links: &mut L,
) -> Result<Report, Memory>
    requires { IsNumbered first }
    ensures reports { IfOk result (ReportsFrom client first (op_of call)
        (links_at L.Links links.old) (links_at L.Links links.new)) }
    ensures cuts { OnErr result (CutsFrom client first (op_of call)
        (links_at L.Links links.old) (links_at L.Links links.new)) }
    ensures addresses { KeepsAddresses (L.standing links.old) (L.standing links.new) }
{
    match first {
        FirstNumber::Given(sequence) => report_call(alloc, client, sequence, call, links),
        FirstNumber::Fresh => report_fresh(alloc, client, call, links),
    }
}

/// Does the work of a client, and reports it.
pub(crate) fn report<L: Links>(
    alloc: Global,
    words: ClientWords,
    links: &mut L,
) -> Result<Report, Memory>
    requires number { words.number ≤ MAX_CLIENT }
    requires first { IsNumbered words.first }
    ensures reports { IfOk result (Reports words.number words.first words.work
        (links_at L.Links links.old) (links_at L.Links links.new)) }
    ensures cuts { OnErr result (CutsWork words.number words.first words.work
        (links_at L.Links links.old) (links_at L.Links links.new)) }
    ensures addresses { KeepsAddresses (L.standing links.old) (L.standing links.new) }
{
    let ClientWords {
        number,
        first,
        work,
    } = words;
    match work {
        ClientWork::Call(call) => {
            let Some(client) = ClientName::new(number) else {
                unreachable!();
            };
            report_from(alloc, client, first, call, links)
        }
        ClientWork::Order(order) => report_order(alloc, first, order, links),
    }
}
