// Reads of a range without bytes, which want a reply all the same.
ghost use Rattle.std.specs.Prelude.{◌≡◌, ◌+◌, ◌-◌, ◌*◌, ◌/◌, ◌<◌, ◌≤◌, ◌++◌, IfOk, OnOk};
ghost use Rattle.std.specs.List.{range_with_len};
ghost use Rattle.data_map.specs.declared.check.TheConstants.{MAX_COMPONENTS};
ghost use Rattle.data_map.specs.Striping.{group_width, positions};
ghost use Rattle.stripe_plan.specs.Lost.{among, positions_out};
ghost use Rattle.client_rules.specs.Io.{had_positions, outs};
ghost use Rattle.client_rules.specs.Reads.{first_present, probe_each, probes_on, probes_due, probes_sent, is_probe_lost, probes_at, probes_by, probes};
ghost use Rattle.call_io.specs.Phases.{counted_move};
ghost use Rattle.call_io.specs.Probes.{probe_unless};

use crate::moves::without_sends;
use crate::phase::{CallIo, CallMove, CallPhase, CallTurn};
use crate::sending::send_reads;
use call_commands::{credential_of, had_positions, out_of};
use client_rules::{AwaitedCommands, Held, Outcome};
use data_map::DataMap;
use osd_lists::{Bytes, Memory, Numbers};
use std::alloc::Global;
use stripe_plan::{Ask, Asks, Out, is_out, source};

// Whether a number stands in a list.
pub fn is_among(number: u32, numbers: &[u32]) -> bool
    ensures { result ≡ among number numbers.now }
{
    for other in numbers {
        if *other == number {
            return true;
        }
    }
    false
}

// The first component that isn't missing.
#[tactic(auto, unfolding(client_rules::specs::Reads::first_present))]
fn first_present(held: &Held) -> Result<Option<u32>, Memory>
    ensures { IfOk result (λ k. k ≡ first_present held.now.components 0) }
{
    let mut component = 0u32;
    for listed in held.components.as_slice() {
        if listed.credential.is_some() {
            return Ok(Some(component));
        }
        component = match component.checked_add(1) {
            Some(next) => next,
            None => return Err(Memory),
        };
    }
    Ok(None)
}

// A READ of no byte of a position, where the range of its component's capability begins, unless it is had or out.
fn push_probe(
    asks: &mut Asks,
    held: &Held,
    out: &Out,
    have: &Numbers,
    position: u32,
) -> Result<(), Memory>
    requires { position < positions held.now.map }
    ensures { OnOk result (asks.new ≡ asks.old ++ probe_unless held.now out.now.components have.now position) }
{
    if is_among(position, have.as_slice()) {
        return Ok(());
    }
    match source(&held.map, out, position) {
        Some(component) => asks.push(Ask {
            stripe: 0,
            position,
            component,
            offset: credential_of(held, component).capability.range_start,
            length: 0,
        }),
        None => Ok(()),
    }
}

// The same of the positions from `first` up to `end`.
fn probe_each(
    alloc: Global,
    held: &Held,
    out: &Out,
    have: &Numbers,
    first: u32,
    end: u32,
) -> Result<Asks, Memory>
    requires { end ≤ positions held.now.map }
    ensures { IfOk result (λ xs. xs ≡ probe_each held.now out.now.components have.now first (end - first)) }
{
    let mut asks = Asks::new(alloc);
    for position in first..end {
        push_probe(&mut asks, held, out, have, position)?;
    }
    Ok(asks)
}

// Where the group of a position begins. It ends inside the positions, of which there are few.
fn group_start(map: &DataMap, position: u32) -> u32
    requires { position < positions map.now }
    ensures few { positions map.now ≤ MAX_COMPONENTS }
    ensures value { result ≡ position / group_width map.now * group_width map.now }
    ensures end { result + group_width map.now ≤ positions map.now }
{
    map.known();
    let _ = map.positions();
    position / map.group_width() * map.group_width()
}

// The position is asked, or where it is out each other one of its group.
#[tactic(auto, unfolding(client_rules::specs::Reads::probes_due))]
fn probes_due(
    alloc: Global,
    held: &Held,
    out: &Out,
    have: &Numbers,
    position: u32,
) -> Result<Asks, Memory>
    requires { position < positions held.now.map }
    ensures { IfOk result (λ xs. xs ≡ probes_due held.now out.now.components have.now position) }
{
    let first = group_start(&held.map, position);
    if is_out(&held.map, out, position) {
        let end = first + held.map.group_width();
        return probe_each(alloc, held, out, have, first, end);
    }
    probe_each(alloc, held, out, have, position, position + 1)
}

// The positions of a position's group that are out, rising.
#[tactic(auto, unfolding(stripe_plan::specs::Lost::positions_out))]
fn lost_beside(alloc: Global, map: &DataMap, out: &Out, position: u32) -> Result<Numbers, Memory>
    requires { position < positions map.now }
    ensures { IfOk result (λ ps. ps ≡ positions_out map.now out.now.components (position / group_width map.now)) }
{
    let first = group_start(map, position);
    let mut lost = Numbers::new(alloc);
    for other in first..first + map.group_width() {
        if is_out(map, out, other) {
            lost.push(other)?;
        }
    }
    Ok(lost)
}

// All positions, rising.
fn all_positions(alloc: Global, map: &DataMap) -> Result<Numbers, Memory>
    ensures { IfOk result (λ ps. ps ≡ range_with_len 0 (positions map.now)) }
{
    let mut all = Numbers::new(alloc);
    for position in 0..map.positions() {
        all.push(position)?;
    }
    Ok(all)
}

// It goes on while a reply is awaited.
#[tactic(auto, unfolding(client_rules::specs::Reads::probes_on))]
pub fn probes_on(alloc: Global, held: &Held, io: CallIo, sent: AwaitedCommands) -> CallMove
    ensures { counted_move held.now result ≡ probes_on held.now io.got io.timed sent io.pending }
{
    let _ = held;
    if !io.pending.is_empty() {
        return CallMove {
            turn: CallTurn::Goes {
                phase: CallPhase::Probes { io },
            },
            sent,
        };
    }
    CallMove {
        turn: CallTurn::Ends {
            outcome: Outcome::ReadOk {
                bytes: Bytes::new(alloc),
            },
        },
        sent,
    }
}

// What is due, and isn't had.
fn due(alloc: Global, held: &Held, io: &CallIo, out: &Out, position: u32) -> Result<Asks, Memory>
    requires { position < positions held.now.map }
    ensures { IfOk result (λ xs. xs ≡ probes_due held.now out.now.components (had_positions io.now.got io.now.pending) position) }
{
    let have = had_positions(alloc, io.got.as_slice(), &io.pending)?;
    probes_due(alloc, held, out, &have, position)
}

// It is sent.
fn probes_sent(
    alloc: Global,
    held: &Held,
    io: CallIo,
    out: &Out,
    position: u32,
) -> Result<CallMove, Memory>
    requires position { position < positions held.now.map }
    requires out { out.now.components ≡ outs held.now io.timed }
    ensures { IfOk result (λ m. counted_move held.now m ≡ probes_sent held.now io.got io.timed io.pending position) }
{
    let mut io = io;
    let due = due(alloc, held, &io, out, position)?;
    let sent = send_reads(alloc, held, &mut io.pending, due)?;
    Ok(probes_on(alloc, held, io, sent))
}

// The position of the first present component is meant. It ends where that is out, and with it more of its group than
// there is parity.
#[tactic(auto, unfolding(client_rules::specs::Reads::is_probe_lost))]
fn probes_at(
    alloc: Global,
    held: &Held,
    io: CallIo,
    out: &Out,
    position: u32,
) -> Result<CallMove, Memory>
    requires position { position < positions held.now.map }
    requires out { out.now.components ≡ outs held.now io.timed }
    ensures { IfOk result (λ m. counted_move held.now m ≡ probes_at held.now io.got io.timed io.pending position) }
{
    if is_out(&held.map, out, position) {
        let positions = lost_beside(alloc, &held.map, out, position)?;
        if positions.len() > held.map.parities() as usize {
            return Ok(without_sends(
                alloc,
                CallTurn::Ends {
                    outcome: Outcome::Lost { positions },
                },
            ));
        }
    }
    probes_sent(alloc, held, io, out, position)
}

// At its begin, and where a component timed out. A layout has no more components than its map.
#[tactic(auto, unfolding(client_rules::specs::Reads::probes))]
pub fn probes(alloc: Global, held: &Held, io: CallIo) -> Result<CallMove, Memory>
    ensures { IfOk result (λ m. counted_move held.now m ≡ probes held.now io.got io.timed io.pending) }
{
    let component = match first_present(held)? {
        Some(component) => component,
        None => {
            let positions = all_positions(alloc, &held.map)?;
            let outcome = Outcome::Lost { positions };
            return Ok(without_sends(alloc, CallTurn::Ends { outcome }));
        }
    };
    let position = component / held.map.replicas();
    if position >= held.map.positions() {
        return Err(Memory);
    }
    let out = out_of(alloc, held, &io.timed)?;
    probes_at(alloc, held, io, &out, position)
}
