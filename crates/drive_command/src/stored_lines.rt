// The line that tells why a command with a store stopped.
ghost use Rattle.std.specs.Prelude.{◌≡◌, IfOk, OnErr, OnOk, string_bytes};
ghost use Rattle.cluster_text.specs.Lines.{PutsLine};
ghost use Rattle.drive_command.specs.StoredEnds.{stored_stop_line};
ghost use Rattle.drive_command.specs.StoredStops.{IsTold};
ghost use Rattle.drive_command.specs.declared.stored_stop.StoredStop.TheVariants.{BadStore, DiskFault};

use crate::stored_stop::StoredStop;
use cluster_text::{CommandStop, put_stop};
use osd_bytes::{Sink, put_all};
use osd_lists::Memory;
use std::alloc::Global;

// The line of a place at which a disk has no store.
fn store_line(alloc: Global, at: u64) -> Result<String, Memory>
    ensures { IfOk result (λ line. string_bytes line ≡ stored_stop_line (BadStore at)) }
{
    Ok(format!(in alloc; "error store {at}\n")?)
}

// Puts a line. It is cut only if the sink's count of faults rose.
fn put_line<K: Sink>(sink: &mut K, line: &[u8])
    ensures { PutsLine (K.taken sink.old) (K.taken sink.new) (K.faults sink.old) (K.faults sink.new) line.now }
{
    match put_all(sink, line) {
        Ok(()) | Err(_) => {}
    }
}

// The line of a disk that failed.
fn disk_line() -> &'static [u8]
    ensures { result.now ≡ stored_stop_line DiskFault }
{
    b"error disk\n"
}

// Puts the line of a place at which a disk has no store, if there is memory for it.
fn put_store_line<K: Sink>(alloc: Global, sink: &mut K, at: u64) -> Result<(), Memory>
    ensures ok { OnOk result (PutsLine (K.taken sink.old) (K.taken sink.new) (K.faults sink.old) (K.faults sink.new)
        (stored_stop_line (BadStore at))) }
    ensures err { OnErr result ((K.taken sink.new ≡ K.taken sink.old) × (K.faults sink.new ≡ K.faults sink.old)) }
{
    let line = store_line(alloc, at)?;
    put_line(sink, line.as_bytes());
    Ok(())
}

/// Puts the line that tells why a command with a store stopped, and gives that cause. If there is no memory for the line, that is
/// it.
pub fn put_stored_stop<K: Sink>(alloc: Global, sink: &mut K, stop: StoredStop) -> StoredStop
    ensures cause { IsTold stop result }
    ensures puts { PutsLine (K.taken sink.old) (K.taken sink.new) (K.faults sink.old) (K.faults sink.new)
        (stored_stop_line result) }
{
    match stop {
        StoredStop::Command(cause) => put_stop(sink, cause),
        StoredStop::DiskFault => put_line(sink, disk_line()),
        StoredStop::BadStore { at } => match put_store_line(alloc, sink, at) {
            Ok(()) => {}
            Err(Memory) => {
                put_stop(sink, CommandStop::Memory);
                return StoredStop::from(Memory);
            }
        },
    }
    stop
}
