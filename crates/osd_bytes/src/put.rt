ghost use Rattle.std.specs.Prelude.{◌≡◌, ◌<◌, length, take, OnOk, IfErr};
ghost use Rattle.std.specs.Io.KnownBytes.{Appends};
ghost use Rattle.osd_bytes.specs.Causes.{HasCause};
ghost use Rattle.osd_bytes.specs.Put.{written_of};

use crate::sink::Sink;
use thiserror::Error;

/// Why not all bytes went out.
#[derive(Clone, Copy, Debug, PartialEq, Eq, Error)]
pub enum PutErr {
    /// The sink failed after exactly this many bytes.
    #[error("a write failed after {written} bytes")]
    WriteFault { written: u64 },
}

/// Puts all of the bytes. It fails only where the sink's count of faults rose.
pub fn put_all<K: Sink>(sink: &mut K, bytes: &[u8]) -> Result<(), PutErr>
    ensures ok { OnOk result (Appends (K.taken sink.old) (K.taken sink.new) bytes.now) }
    ensures err { IfErr result (λ e. Appends (K.taken sink.old) (K.taken sink.new) (take (written_of e) bytes.now)) }
    ensures part { IfErr result (λ e. written_of e < length bytes.now) }
    ensures cause { HasCause (K.faults sink.old) (K.faults sink.new) result }
    ensures loan { K.loan sink.new ≡ K.loan sink.old }
{
    let mut at = 0;
    while at < bytes.len() {
        let (_, rest) = bytes.split_at(at);
        match sink.put(rest) {
            Ok(n) => at += n,
            Err(_) => {
                return Err(PutErr::WriteFault { written: at as u64 });
            }
        }
    }
    Ok(())
}
