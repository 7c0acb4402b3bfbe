// What the server notes, told to whoever watches it.
ghost use Rattle.std.specs.Prelude.{◌≡◌, ◌∷◌, [], map, OnOk, OnErr};
ghost use Rattle.cluster_text.specs.Peers.{KeepsAddresses};
ghost use Rattle.osd_bytes.specs.Connections.{after_notes};
ghost use Rattle.scenario_text.specs.LineSpelling.{line_text};
ghost use Rattle.server_command.specs.Notes.{TellsSome, note_texts};

use layout_server::Notes;
use osd_bytes::Links;
use osd_lists::Memory;
use scenario_text::{Line, write_line};
use std::alloc::Global;
use world_network::lines_of;

// Tells a line.
fn tell<L: Links>(alloc: Global, links: &mut L, line: &Line) -> Result<(), Memory>
    ensures told { OnOk result (L.told links.new ≡ after_notes (line_text line.now ∷ []) (L.told links.old)) }
    ensures err { OnErr result (L.told links.new ≡ L.told links.old) }
    ensures same { L.faults links.new ≡ L.faults links.old }
    ensures addresses { KeepsAddresses (L.standing links.old) (L.standing links.new) }
{
    let text = write_line(alloc, line)?;
    links.note(text.as_slice())
}

// Tells these lines, in order.
fn tell_lines<L: Links>(alloc: Global, links: &mut L, lines: &[Line]) -> Result<(), Memory>
    ensures told { OnOk result (L.told links.new ≡ after_notes (map line_text lines.now) (L.told links.old)) }
    ensures err { OnErr result (TellsSome (map line_text lines.now) (L.told links.old) (L.told links.new)) }
    ensures same { L.faults links.new ≡ L.faults links.old }
    ensures addresses { KeepsAddresses (L.standing links.old) (L.standing links.new) }
{
    for line in lines {
        tell(alloc, links, line)?;
    }
    Ok(())
}

/// Tells the notes of a step, in order, each as the line that a transcript has for it. A note that no line can tell
/// isn't told.
///
/// # Errors
///
/// [`Memory`]; then some first ones of the lines were told, perhaps none.
pub fn tell_notes<L: Links>(alloc: Global, links: &mut L, notes: Notes) -> Result<(), Memory>
    ensures told { OnOk result (L.told links.new ≡ after_notes (note_texts notes) (L.told links.old)) }
    ensures err { OnErr result (TellsSome (note_texts notes) (L.told links.old) (L.told links.new)) }
    ensures same { L.faults links.new ≡ L.faults links.old }
    ensures addresses { KeepsAddresses (L.standing links.old) (L.standing links.new) }
{
    let lines = lines_of(alloc, notes)?;
    tell_lines(alloc, links, lines.as_slice())
}
