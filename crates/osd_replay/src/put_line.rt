// Error lines, which take no memory.
ghost use Rattle.std.specs.Prelude.{◌≡◌};
ghost use Rattle.std.specs.List.{flat_map};
ghost use Rattle.osd_replay.specs.Errors.{error_line};
ghost use Rattle.osd_replay.specs.Puts.{Puts};

use itoa::Buffer;
use osd_bytes::{Sink, put_all};

/// Puts all of some pieces, one behind the other, and tells whether they went out.
pub fn put_pieces<K: Sink>(sink: &mut K, pieces: &[&[u8]]) -> bool
    ensures puts { Puts (K.taken sink.old) (K.taken sink.new) (K.faults sink.old) (K.faults sink.new)
        (flat_map (λ piece. piece.now) pieces.now) result }
    ensures loan { K.loan sink.new ≡ K.loan sink.old }
{
    for piece in pieces {
        match put_all(sink, piece) {
            Ok(()) => {}
            Err(_) => return false,
        }
    }
    true
}

/// Puts the line `error NUMBER REASON`, and tells whether it went out.
pub fn put_error<K: Sink>(sink: &mut K, number: u64, reason: &str) -> bool
    ensures puts { Puts (K.taken sink.old) (K.taken sink.new) (K.faults sink.old) (K.faults sink.new)
        (error_line number reason.now) result }
    ensures loan { K.loan sink.new ≡ K.loan sink.old }
{
    let mut buffer = Buffer::new();
    let digits = buffer.format(number).as_bytes();
    put_pieces(sink, &[b"error ", digits, b" ", reason.as_bytes(), b"\n"])
}
