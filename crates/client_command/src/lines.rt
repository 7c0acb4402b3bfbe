// The lines that tell of a client's work.
ghost use Rattle.std.specs.Prelude.{◌≡◌, ◌++◌, IfOk, OnOk};
ghost use Rattle.scenario_text.specs.LineSpelling.{lines_text};
ghost use Rattle.client_command.specs.Lines.{call_lines, next_line, next_of, notice_lines, order_line, refusal_lines, unnumbered_line};

use crate::notices::Notice;
use crate::work_ends::copy_of;
use command_words::FirstNumber;
use osd_lists::{Bytes, Memory};
use scenario_text::{CallKind, ClientName, Line, write_lines};
use std::alloc::Global;
use stripe_client::{CallErr, Outcome};
use world_network::{Lines, told_outcome, told_refusal};

// Adds the line of an end, if a line can tell it.
fn push_end(
    alloc: Global,
    lines: &mut Lines,
    client: ClientName,
    kind: CallKind,
    outcome: &Outcome,
) -> Result<(), Memory>
    ensures { OnOk result (lines.new ≡ lines.old ++ notice_lines client kind (Notice.Ended outcome.now)) }
{
    match told_outcome(kind, copy_of(alloc, outcome)?) {
        Some(outcome) => lines.push(Line::Ended { client, outcome }),
        None => Ok(()),
    }
}

fn push_notice(
    alloc: Global,
    lines: &mut Lines,
    client: ClientName,
    kind: CallKind,
    notice: &Notice,
) -> Result<(), Memory>
    ensures { OnOk result (lines.new ≡ lines.old ++ notice_lines client kind notice.now) }
{
    match notice {
        Notice::TimedOut { component } => {
            let component = *component;
            lines.push(Line::TimedOut { client, component })
        }
        Notice::Ended { outcome } => push_end(alloc, lines, client, kind, outcome),
    }
}

// The lines of a call's notices.
fn call_lines(
    alloc: Global,
    client: ClientName,
    kind: CallKind,
    notices: &[Notice],
) -> Result<Lines, Memory>
    ensures { IfOk result (λ lines. lines ≡ call_lines client kind notices.now) }
{
    let mut lines = Lines::new(alloc);
    for notice in notices {
        push_notice(alloc, &mut lines, client, kind, notice)?;
    }
    Ok(lines)
}

/// The text of the lines of a call's notices.
pub(crate) fn call_text(
    alloc: Global,
    client: ClientName,
    kind: CallKind,
    notices: &[Notice],
) -> Result<Bytes, Memory>
    ensures { IfOk result (λ text. text ≡ lines_text (call_lines client kind notices.now)) }
{
    let lines = call_lines(alloc, client, kind, notices)?;
    write_lines(alloc, lines.as_slice())
}

/// The text of the line of a call that isn't taken.
pub(crate) fn refusal_text(alloc: Global, client: ClientName, why: CallErr) -> Result<Bytes, Memory>
    ensures { IfOk result (λ text. text ≡ lines_text (refusal_lines client why)) }
{
    let refusal = told_refusal(why);
    write_lines(alloc, &[Line::Refused { client, refusal }])
}

/// Adds the line `next Q`.
pub(crate) fn push_next(alloc: Global, text: &mut Bytes, sequence: u32) -> Result<(), Memory>
    ensures { OnOk result (text.new ≡ text.old ++ next_line sequence) }
{
    let line = format!(in alloc; "next {sequence}\n")?;
    text.extend_from_slice(line.as_bytes())
}

/// The line `order N`.
pub(crate) fn order_text(alloc: Global, answer: u32) -> Result<Bytes, Memory>
    ensures { IfOk result (λ text. text ≡ order_line answer) }
{
    let line = format!(in alloc; "order {answer}\n")?;
    Bytes::copied(alloc, line.as_bytes())
}

/// Adds the line `next Q` of a number that was given and isn't used up.
pub(crate) fn push_given(alloc: Global, text: &mut Bytes, first: FirstNumber) -> Result<(), Memory>
    ensures { OnOk result (text.new ≡ text.old ++ next_of first) }
{
    match first {
        FirstNumber::Given(sequence) => push_next(alloc, text, sequence),
        FirstNumber::Fresh => Ok(()),
    }
}

/// The line `error number`.
pub(crate) fn unnumbered_text(alloc: Global) -> Result<Bytes, Memory>
    ensures { IfOk result (λ text. text ≡ unnumbered_line) }
{
    Bytes::copied(alloc, b"error number\n")
}
