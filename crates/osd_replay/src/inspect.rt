// Structures of RFC 5664, shown or checked line by line.
ghost use Rattle.std.specs.Prelude.{◌≡◌, ◌≢◌, ℕ, List, Ok, IfOk, IfErr};
ghost use Rattle.osd_bytes.specs.Reading.{TakesAtMost};
ghost use Rattle.osd_bytes.specs.declared.lines.TheConstants.{MAX_READ};
ghost use Rattle.hex.specs.Hex.{decode_of};
ghost use Rattle.osd_replay.specs.Ends.{ends};
ghost use Rattle.osd_replay.specs.Inspect.{refusal, checked, answer_of, Answers, StopsInspection, Promises};

use crate::command::Inspection;
use crate::status::{ScenarioKind, Status};
use crate::stop::{Stop, stop_of, stopped};
use hex::FromHexError;
use layout_types::{Kind, LayoutErr, leaves, written_again};
use osd_bytes::{LineReader, Sink, Source, put_all};
use osd_lists::{Bytes, Memory};
use std::alloc::Global;
use xdr_codec::XdrErr;

// The line `refused NAME AT`.
fn refused(alloc: Global, e: LayoutErr) -> Result<Bytes, Memory>
    ensures { IfOk result (λ text. (e ≢ LayoutErr.Memory) × (text ≡ refusal e)) }
{
    let (name, at) = match e {
        LayoutErr::Xdr(XdrErr::Short { at }) => ("Short", at),
        LayoutErr::Xdr(XdrErr::Padding { at }) => ("Padding", at),
        LayoutErr::Xdr(XdrErr::BadBool { at }) => ("BadBool", at),
        LayoutErr::Xdr(XdrErr::TooMany { at }) => ("TooMany", at),
        LayoutErr::Xdr(XdrErr::Trailing { at }) => ("Trailing", at),
        LayoutErr::BadEnum { at, .. } => ("BadEnum", at),
        LayoutErr::Xdr(XdrErr::Memory) | LayoutErr::Memory => return Err(Memory),
    };
    let text = format!(in alloc; "refused {name} {at}\n")?;
    Ok(Bytes::from_vec(text.into_bytes()))
}

// The line `ok HEX`.
fn well_formed(alloc: Global, written: &[u8]) -> Result<Bytes, Memory>
    ensures { IfOk result (λ text. text ≡ checked (Ok written.now)) }
{
    let digits = hex::encode(alloc, written)?;
    let text = format!(in alloc; "ok {digits}\n")?;
    Ok(Bytes::from_vec(text.into_bytes()))
}

// The fields of a structure, or why there is none.
fn show(alloc: Global, kind: Kind, bytes: &[u8]) -> Result<Bytes, Memory>
    ensures { IfOk result (λ text. text ≡ answer_of Inspection.Show kind bytes.now) }
{
    match leaves(alloc, kind, bytes) {
        Ok(fields) => Ok(fields),
        Err(e) => refused(alloc, e),
    }
}

// That a structure is well formed, or why there is none.
fn check(alloc: Global, kind: Kind, bytes: &[u8]) -> Result<Bytes, Memory>
    ensures { IfOk result (λ text. text ≡ answer_of Inspection.Check kind bytes.now) }
{
    match written_again(alloc, kind, bytes) {
        Ok(written) => well_formed(alloc, written.as_slice()),
        Err(e) => refused(alloc, e),
    }
}

// The answer to the bytes of a line.
fn answer(alloc: Global, inspection: Inspection, kind: Kind, bytes: &[u8]) -> Result<Bytes, Memory>
    ensures { IfOk result (λ text. text ≡ answer_of inspection kind bytes.now) }
{
    match inspection {
        Inspection::Show => show(alloc, kind, bytes),
        Inspection::Check => check(alloc, kind, bytes),
    }
}

// The bytes that a line of hexadecimal digits spells. The line isn't held any longer.
fn decoded(alloc: Global, line: Bytes) -> Result<Bytes, Stop>
    ensures ok { IfOk result (λ bytes. decode_of line ≡ Ok bytes) }
    ensures err { IfErr result (StopsInspection line) }
{
    match hex::decode(alloc, line.as_slice()) {
        Ok(bytes) => Ok(Bytes::from_vec(bytes)),
        Err(FromHexError::OutOfMemory) => Err(Stop::Memory),
        Err(_) => Err(Stop::Refused(ScenarioKind::BadHex)),
    }
}

// The answer to a line.
fn inspect_line(
    alloc: Global,
    inspection: Inspection,
    kind: Kind,
    line: Bytes,
) -> Result<Bytes, Stop>
    ensures ok { IfOk result (Answers inspection kind line) }
    ensures err { IfErr result (StopsInspection line) }
{
    let bytes = decoded(alloc, line)?;
    let text = answer(alloc, inspection, kind, bytes.as_slice())?;
    Ok(text)
}

/// Inspects the structures that the lines of the source spell in hexadecimal digits, and puts an
/// answer to each.
pub fn inspect<S: Source, K: Sink>(
    alloc: Global,
    inspection: Inspection,
    kind: Kind,
    source: &mut S,
    sink: &mut K,
) -> Status
    ensures promise { Promises inspection kind
        (ends (S.left source.old) (S.faults source.old) (K.taken sink.old) (K.faults sink.old))
        (ends (S.left source.new) (S.faults source.new) (K.taken sink.new) (K.faults sink.new)) result }
    ensures input { TakesAtMost MAX_READ (S.left source.old) (S.left source.new) }
{
    let mut reader = LineReader::new(alloc);
    let mut number = 0;
    'lines: loop {
        let line = match reader.next_line(source) {
            Ok(Some(line)) => line,
            Ok(None) => return Status::Done,
            Err(e) => return stopped(sink, stop_of(e), number + 1),
        };
        let text = match inspect_line(alloc, inspection, kind, line) {
            Ok(text) => text,
            Err(stop) => return stopped(sink, stop, number + 1),
        };
        match put_all(sink, text.as_slice()) {
            Ok(()) => number += 1,
            Err(_) => return Status::WriteFault,
        }
    }
}
