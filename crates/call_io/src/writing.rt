// Writes: the gather, the scatter, and what follows the last WRITE.
ghost use Rattle.std.specs.Prelude.{◌≡◌, [], ◌++◌, option_to_list, IfOk, OnOk};
ghost use Rattle.stripe_plan.specs.Plans.{stores};
ghost use Rattle.client_rules.specs.Calls.{span_of, bytes_of};
ghost use Rattle.client_rules.specs.Io.{outs};
ghost use Rattle.client_rules.specs.Commands.{write_commands};
ghost use Rattle.client_rules.specs.Writes.{firsts, laters, next_to, without_next, scatters_on, scatters, scatters_next, gathers_on, gathers_due, gathers, is_too_short};
ghost use Rattle.call_io.specs.Phases.{counted_move};
ghost use Rattle.call_io.specs.Inside.{IsInside};
ghost use Rattle.call_io.specs.Splits.{seen_with, new_first, new_later};

use crate::moves::written;
use crate::phase::{CallIo, CallMove, CallPhase, CallTurn};
use crate::probing::is_among;
use crate::reading::fetched;
use crate::sending::{send_reads, send_writes};
use call_commands::{PendingCommands, WriteQueue, had, out_of};
use client_rules::{AwaitedCommands, CallOp, Held, TimedOuts, span_of};
use osd_lists::{Memory, Numbers};
use std::alloc::Global;
use stripe_plan::{
    Aim, Asks, Columns, Out, PlanErr, Store, apply_and_encode, asks, check_writable, plan_stores,
};

// All writes of a scatter with their bytes. Only a write has any, and none that lacks too much is begun.
#[tactic(auto, unfolding(stripe_plan::specs::Plans::stores))]
fn stores(
    alloc: Global,
    held: &Held,
    op: &CallOp,
    got: Columns,
    out: &Out,
) -> Result<Vec<Store>, Memory>
    requires inside { IsInside op.now }
    ensures { IfOk result (λ ws. ws.items ≡ stores held.now.map (span_of op.now) (bytes_of op.now) got out.now.components) }
{
    let CallOp::Write { offset, bytes, .. } = op else {
        return Err(Memory);
    };
    let map = &held.map;
    let parts = fetched(alloc, map, got)?;
    let Ok(columns) = apply_and_encode(alloc, map, *offset, bytes.as_slice(), &parts, out) else {
        return Err(Memory);
    };
    let Ok(stores) = plan_stores(alloc, map, *offset, bytes.len() as u64, &columns, out) else {
        return Err(Memory);
    };
    Ok(stores)
}

// A write to a component that has none is one of the first; any other is queued.
fn place(
    store: Store,
    seen: &mut Numbers,
    firsts: &mut Vec<Store>,
    queue: &mut WriteQueue,
) -> Result<(), Memory>
    ensures seen { OnOk result (seen.new ≡ seen_with seen.old store.ask.component) }
    ensures firsts { OnOk result (firsts.new.items ≡ firsts.old.items ++ new_first seen.old store) }
    ensures queue { OnOk result (queue.new ≡ queue.old ++ new_later seen.old store) }
{
    let component = store.ask.component;
    if is_among(component, seen.as_slice()) {
        return queue.push(store);
    }
    seen.push(component)?;
    firsts.push(store)?;
    Ok(())
}

// The first write to each component, and a queue of the others.
fn split(alloc: Global, stores: Vec<Store>) -> Result<(Vec<Store>, WriteQueue), Memory>
    ensures firsts { IfOk result (λ r. r.0.items ≡ firsts [] stores.items) }
    ensures laters { IfOk result (λ r. r.1 ≡ laters [] stores.items) }
{
    let mut seen = Numbers::new(alloc);
    let mut firsts = Vec::new(alloc);
    let mut queue = WriteQueue::new(alloc);
    for store in stores {
        place(store, &mut seen, &mut firsts, &mut queue)?;
    }
    Ok((firsts, queue))
}

// A scatter goes on while a reply is awaited.
#[tactic(auto, unfolding(client_rules::specs::Writes::scatters_on))]
pub fn scatters_on(
    alloc: Global,
    held: &Held,
    op: &CallOp,
    timed: TimedOuts,
    queue: WriteQueue,
    sent: AwaitedCommands,
    pending: PendingCommands,
) -> CallMove
    requires { IsInside op.now }
    ensures { counted_move held.now result ≡ scatters_on held.now op.now timed queue sent pending }
{
    if pending.is_empty() {
        return CallMove {
            turn: written(held, op, timed),
            sent,
        };
    }
    let io = CallIo {
        pending,
        got: Columns::new(alloc),
        timed,
    };
    CallMove {
        turn: CallTurn::Goes {
            phase: CallPhase::Scatters { io, queue },
        },
        sent,
    }
}

// The first write to each component, out of what was gathered, and a queue of the others.
fn planned(
    alloc: Global,
    held: &Held,
    op: &CallOp,
    got: Columns,
    timed: &TimedOuts,
) -> Result<(Vec<Store>, WriteQueue), Memory>
    requires { IsInside op.now }
    ensures firsts { IfOk result
        (λ r. r.0.items ≡ firsts [] (stores held.now.map (span_of op.now) (bytes_of op.now) got (outs held.now timed.now))) }
    ensures laters { IfOk result
        (λ r. r.1 ≡ laters [] (stores held.now.map (span_of op.now) (bytes_of op.now) got (outs held.now timed.now))) }
{
    let out = out_of(alloc, held, timed)?;
    let stores = stores(alloc, held, op, got, &out)?;
    split(alloc, stores)
}

// The begin of a scatter, out of what was gathered.
#[tactic(auto, unfolding(client_rules::specs::Writes::scatters))]
fn scatters(
    alloc: Global,
    held: &Held,
    op: &CallOp,
    got: Columns,
    timed: TimedOuts,
) -> Result<CallMove, Memory>
    requires { IsInside op.now }
    ensures { IfOk result (λ m. counted_move held.now m ≡ scatters held.now op.now got timed) }
{
    let (firsts, queue) = planned(alloc, held, op, got, &timed)?;
    let mut pending = PendingCommands::new(alloc);
    let sent = send_writes(alloc, held, &mut pending, firsts)?;
    Ok(scatters_on(alloc, held, op, timed, queue, sent, pending))
}

// The list of a write, or of none.
fn one_or_none(alloc: Global, write: Option<Store>) -> Result<Vec<Store>, Memory>
    ensures { IfOk result (λ ws. ws.items ≡ option_to_list write) }
{
    let mut writes = Vec::new(alloc);
    if let Some(one) = write {
        writes.push(one)?;
    }
    Ok(writes)
}

// The next write to a component is sent.
fn send_next(
    alloc: Global,
    held: &Held,
    pending: &mut PendingCommands,
    queue: &mut WriteQueue,
    component: u32,
) -> Result<AwaitedCommands, Memory>
    ensures sent { IfOk result (λ sent. sent ≡ write_commands held.now (next_to component queue.old)) }
    ensures pending { IfOk result (λ sent. pending.new ≡ pending.old ++ sent) }
    ensures queue { OnOk result (queue.new ≡ without_next component queue.old) }
{
    let next = one_or_none(alloc, queue.take_next(component))?;
    send_writes(alloc, held, pending, next)
}

// A component answered, and is sent its next write.
#[tactic(auto, unfolding(client_rules::specs::Writes::scatters_next))]
pub fn scatters_next(
    alloc: Global,
    held: &Held,
    op: &CallOp,
    io: CallIo,
    queue: WriteQueue,
    component: u32,
) -> Result<CallMove, Memory>
    requires { IsInside op.now }
    ensures { IfOk result (λ m. counted_move held.now m ≡ scatters_next held.now op.now io.timed queue component io.pending) }
{
    let mut queue = queue;
    let CallIo { pending, timed, .. } = io;
    let mut pending = pending;
    let sent = send_next(alloc, held, &mut pending, &mut queue, component)?;
    Ok(scatters_on(alloc, held, op, timed, queue, sent, pending))
}

// A gather goes on while a reply is awaited, and then scatters.
pub fn gathers_on(
    alloc: Global,
    held: &Held,
    op: &CallOp,
    io: CallIo,
    sent: AwaitedCommands,
) -> Result<CallMove, Memory>
    requires { IsInside op.now }
    ensures { IfOk result (λ m. counted_move held.now m ≡ gathers_on held.now op.now io.got io.timed sent io.pending) }
{
    if io.pending.is_empty() {
        let CallIo { got, timed, .. } = io;
        return scatters(alloc, held, op, got, timed);
    }
    Ok(CallMove {
        turn: CallTurn::Goes {
            phase: CallPhase::Gathers { io },
        },
        sent,
    })
}

// What the plan asks and isn't had, nothing in a file without parity.
#[tactic(auto, unfolding(client_rules::specs::Writes::gathers_due))]
fn gathers_due(alloc: Global, held: &Held, op: &CallOp, io: &CallIo) -> Result<Asks, Memory>
    requires { IsInside op.now }
    ensures { IfOk result (λ xs. xs ≡ gathers_due held.now (span_of op.now) io.now.got io.now.timed io.now.pending) }
{
    if held.map.parities() == 0 {
        return Ok(Asks::new(alloc));
    }
    let out = out_of(alloc, held, &io.timed)?;
    let had = had(alloc, io.got.as_slice(), &io.pending)?;
    asks(
        alloc,
        Aim::Gathers,
        &held.map,
        span_of(op),
        &out,
        had.as_slice(),
    )
}

// A gather at its begin, and where a component timed out.
#[tactic(auto, unfolding(client_rules::specs::Writes::gathers))]
pub fn gathers(alloc: Global, held: &Held, op: &CallOp, io: CallIo) -> Result<CallMove, Memory>
    requires { IsInside op.now }
    ensures { IfOk result (λ m. counted_move held.now m ≡ gathers held.now op.now io.got io.timed io.pending) }
{
    let due = gathers_due(alloc, held, op, &io)?;
    let mut io = io;
    let sent = send_reads(alloc, held, &mut io.pending, due)?;
    gathers_on(alloc, held, op, io, sent)
}

// Whether a touched stripe lacks more positions than its parity brings back.
#[tactic(auto, unfolding(client_rules::specs::Writes::is_too_short))]
pub fn is_too_short(
    alloc: Global,
    held: &Held,
    op: &CallOp,
    timed: &TimedOuts,
) -> Result<bool, Memory>
    requires { IsInside op.now }
    ensures { IfOk result (λ b. b ≡ is_too_short held.now op.now timed.now) }
{
    let out = out_of(alloc, held, timed)?;
    match check_writable(alloc, &held.map, span_of(op), &out) {
        Ok(()) => Ok(false),
        Err(PlanErr::TooManyLost { .. }) => Ok(true),
        Err(PlanErr::Memory) => Err(Memory),
    }
}
