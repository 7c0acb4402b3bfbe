ghost use Rattle.std.specs.Prelude.{◌≡◌, ◌++◌, ◌∷◌, ◌<◌, [], List, length, slice_get, slice_set, Some, IfOk, OnOk};
ghost use Rattle.world_network.specs.Posting.{IsFront};
ghost use Rattle.world_network.specs.Moving.{no_line, Performs};

use crate::acts::Act;
use crate::network::{Lines, Network};
use osd_lists::Memory;
use scenario_text::Line;
use std::alloc::Global;
use std::mem;
use world_history::WorldErr;

// A line that stands where another was taken out.
fn no_line() -> Line
    ensures { result ≡ no_line }
{
    Line::Last {
        calm: true,
        unguessed: true,
    }
}

// The line at a place, where `no_line` stands then.
fn take_line(told: &mut Lines, place: usize) -> Line
    requires { place < length told.old }
    ensures taken { slice_get told.old place ≡ Some result }
    ensures left { told.new ≡ slice_set told.old place no_line }
{
    mem::replace(told.get_mut(place), no_line())
}

// Moves lines behind others.
fn append(lines: &mut Lines, told: Lines) -> Result<(), Memory>
    ensures all { OnOk result (lines.new ≡ lines.old ++ told) }
    ensures front { (front : List Line) × (lines.new ≡ lines.old ++ front) × IsFront front told }
{
    let mut left = told;
    let mut place = 0;
    while place < left.len() {
        let line = take_line(&mut left, place);
        lines.push(line)?;
        place += 1;
    }
    Ok(())
}

/// What a party did, with a line before all that it tells.
pub fn behind(alloc: Global, line: Line, act: Act) -> Result<Act, Memory>
    ensures { IfOk result (λ a. a ≡ record { told = line ∷ act.told; posts = act.posts }) }
{
    let Act { told, posts } = act;
    let mut all = Lines::new(alloc);
    all.push(line)?;
    append(&mut all, told)?;
    Ok(Act { told: all, posts })
}

/// Appends what a party tells, and posts what it sends, each with its line.
///
/// # Errors
///
/// `KeptFull` exactly where a message would pass the limit of kept bytes: the lines before it stand. `Memory`, and some
/// first lines stand.
pub fn perform(
    network: &mut Network,
    alloc: Global,
    act: Act,
    lines: &mut Lines,
) -> Result<(), WorldErr>
    ensures { Performs network.old act lines.old lines.new network.new result }
{
    let Act { told, posts } = act;
    match append(lines, told) {
        Ok(()) => network.post_all(alloc, posts, lines),
        Err(Memory) => Err(WorldErr::Memory),
    }
}
