// The plans of reads and writes.
ghost use Rattle.std.specs.Prelude.{◌≡◌, ◌⊎◌, ◌+◌, ◌≤◌, ◌++◌, Ok, Err, IfOk, IfErr};
ghost use Rattle.stripe_plan.specs.declared.plan.PlanErr.TheVariants.{Memory as NoMemory};
ghost use Rattle.stripe_plan.specs.Plans.{filled_each, gathers, parts_of, pieces_of, plan_gather, plan_read, plan_scatter};
ghost use Rattle.stripe_plan.specs.Plans.{plan_stores, span, Gives};

use crate::laid_bytes::{bytes_of, index_columns};
use crate::lost::{check_readable, check_writable};
use crate::plan::{Aim, Asks, Columns, Out, Part, Piece, Pieces, PlanErr, Span, Store, Writes};
use crate::requests::asks;
use data_map::{DataMap, MAX_FILE_SIZE};
use osd_lists::Memory;
use std::alloc::Global;

// The ranges of components that are asked.
fn pieces(alloc: Global, asks: &Asks) -> Result<Pieces, Memory>
    ensures { IfOk result (λ ps. ps ≡ pieces_of asks.now) }
{
    let mut pieces = Pieces::with_capacity(alloc, asks.len())?;
    for ask in asks.as_slice() {
        pieces.push(Piece {
            component: ask.component,
            offset: ask.offset,
            length: ask.length,
        })?;
    }
    Ok(pieces)
}

/// What a read of a range reads: its own columns of each data position, from the first component that isn't out, or,
/// in a stripe where such a position is out, the touched columns of every other position. By stripe, component and
/// offset.
///
/// The range ends at most at [`MAX_FILE_SIZE`]. `TooManyLost` comes exactly where a touched stripe has a touched data
/// position out and more positions out than it has parity, with those of the first such stripe.
#[tactic(auto, unfolding(crate::specs::Plans::plan_read))]
pub fn plan_read(
    alloc: Global,
    map: &DataMap,
    off: u64,
    len: u64,
    out: &Out,
) -> Result<Pieces, PlanErr>
    requires { off + len ≤ MAX_FILE_SIZE }
    ensures { Gives (plan_read map.now (span off len) out.now.components) result }
{
    let range = Span {
        offset: off,
        length: len,
    };
    check_readable(alloc, map, range, out)?;
    Ok(pieces(alloc, &asks(alloc, Aim::Reads, map, range, out, &[])?)?)
}

// What a write asks for before it writes.
fn gathers(alloc: Global, map: &DataMap, range: Span, out: &Out) -> Result<Asks, Memory>
    requires { range.offset + range.length ≤ MAX_FILE_SIZE }
    ensures { IfOk result (λ xs. xs ≡ gathers map.now range out.now.components) }
{
    if map.parities() == 0 {
        return Ok(Asks::new(alloc));
    }
    asks(alloc, Aim::Gathers, map, range, out, &[])
}

/// What a write of a range reads first, nothing in a file without parity. In a stripe that the range holds whole it
/// reads nothing; in another, where no position is out, its own columns of each data position and the touched columns
/// of each parity position; and where one is out, the touched columns of every position that isn't. Each is read from
/// the first component that isn't out. By stripe, component and offset.
///
/// The range ends at most at [`MAX_FILE_SIZE`]. `TooManyLost` comes exactly where a touched stripe's group has more
/// positions out than it has parity, with those of the first such stripe.
#[tactic(auto, unfolding(crate::specs::Plans::plan_gather))]
pub fn plan_gather(
    alloc: Global,
    map: &DataMap,
    off: u64,
    len: u64,
    out: &Out,
) -> Result<Pieces, PlanErr>
    requires { off + len ≤ MAX_FILE_SIZE }
    ensures { Gives (plan_gather map.now (span off len) out.now.components) result }
{
    let range = Span {
        offset: off,
        length: len,
    };
    check_writable(alloc, map, range, out)?;
    Ok(pieces(alloc, &gathers(alloc, map, range, out)?)?)
}

// The writes that are asked, each with its bytes of these columns.
fn filled(
    alloc: Global,
    map: &DataMap,
    asks: &Asks,
    columns: &Columns,
) -> Result<Vec<Store>, Memory>
    ensures { IfOk result (λ ws. ws.items ≡ filled_each columns.now asks.now) }
{
    map.known();
    let index = index_columns(alloc, map.raw().unit, columns.as_slice())?;
    let mut stores = Vec::with_capacity(alloc, asks.len())?;
    for ask in asks.as_slice() {
        let bytes = bytes_of(
            alloc,
            columns.as_slice(),
            &index,
            ask.position,
            ask.offset,
            ask.length,
        )?;
        stores.push(Store { ask: *ask, bytes })?;
    }
    Ok(stores)
}

// Writes by their components.
fn parts(alloc: Global, stores: Vec<Store>) -> Result<Writes, Memory>
    ensures { IfOk result (λ ws. ws ≡ parts_of stores.items) }
{
    let mut parts = Writes::new(alloc);
    for store in stores {
        parts.push(Part {
            component: store.ask.component,
            offset: store.ask.offset,
            bytes: store.bytes,
        })?;
    }
    Ok(parts)
}

/// The same writes as [`plan_scatter`]'s, with their stripes and positions, and each error as there.
#[tactic(auto, unfolding(crate::specs::Plans::plan_stores))]
pub fn plan_stores(
    alloc: Global,
    map: &DataMap,
    off: u64,
    len: u64,
    columns: &Columns,
    out: &Out,
) -> Result<Vec<Store>, PlanErr>
    requires { off + len ≤ MAX_FILE_SIZE }
    ensures ok { IfOk result (λ ws. plan_stores map.now (span off len) columns.now out.now.components ≡ Ok ws.items) }
    ensures err { IfErr result
        (λ e. (e ≡ NoMemory) ⊎ (plan_stores map.now (span off len) columns.now out.now.components ≡ Err e)) }
{
    let range = Span {
        offset: off,
        length: len,
    };
    check_writable(alloc, map, range, out)?;
    let asks = asks(alloc, Aim::Scatters, map, range, out, &[])?;
    Ok(filled(alloc, map, &asks, columns)?)
}

/// What a write of a range writes: its own bytes and the touched columns of each parity position, out of these columns
/// of positions, to every component that isn't out. By stripe, component and offset.
///
/// The range ends at most at [`MAX_FILE_SIZE`]. `TooManyLost` comes exactly where a touched stripe's group has more
/// positions out than it has parity, with those of the first such stripe. A byte that no column has is written as 0.
#[tactic(auto, unfolding(crate::specs::Plans::plan_scatter))]
pub fn plan_scatter(
    alloc: Global,
    map: &DataMap,
    off: u64,
    len: u64,
    columns: &Columns,
    out: &Out,
) -> Result<Writes, PlanErr>
    requires { off + len ≤ MAX_FILE_SIZE }
    ensures { Gives (plan_scatter map.now (span off len) columns.now out.now.components) result }
{
    let range = Span {
        offset: off,
        length: len,
    };
    check_writable(alloc, map, range, out)?;
    let asks = asks(alloc, Aim::Scatters, map, range, out, &[])?;
    let stores = filled(alloc, map, &asks, columns)?;
    Ok(parts(alloc, stores)?)
}
