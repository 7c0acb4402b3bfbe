// Reads and writes of a log's parts on its disk.
ghost use Rattle.std.specs.Prelude.{◌≡◌, ◌<◌, ◌≤◌, ◌+◌, ◌^◌, ◌⊎◌, ◌∷◌, [], ◌++◌, List, ℕ, IsTrue, take, drop, length, OnOk, IfOk, IfErr, IfSome, IfNone, ◌↔◌};
ghost use Rattle.std.specs.Int.{w32, to_be_bytes};
ghost use Rattle.osd_disk.specs.Crashes.{Only, OnlyRead};
ghost use Rattle.gate_log.specs.Broken.{IsNoRecord};
ghost use Rattle.gate_log.specs.Errors.{HasLogCause, NotALogSays, NotEmptySays};
ghost use Rattle.gate_log.specs.Forms.{IsBody, block_size, head_of, head_size, record_of, size_of, tail_of};
ghost use Rattle.gate_log.specs.declared.errors.LogErr.TheVariants.{NotALog};
ghost use Rattle.gate_log.specs.declared.entry.TheConstants.{MAX_BODY};
ghost use Rattle.gate_log.specs.declared.header.TheConstants.{HEADER_SIZE};

use crate::checksum::{ALL_ONES, crc_32};
use crate::entry::MAX_BODY;
use crate::errors::LogErr;
use crate::form::Form;
use crate::header::{HEADER_SIZE, Header};
use osd_disk::{Disk, read_whole};
use osd_lists::{Bytes, Memory};
use std::alloc::Global;

/// What stands at the start of a log: its header and its first gate. Beside them the disk's size.
#[derive(Drop)]
pub struct First {
    pub header: Header,
    pub gate: u8,
    pub size: u64,
}

/// A record's body, how it is written, and the gate behind it.
#[derive(Drop)]
pub struct Record {
    pub form: Form,
    pub body: Bytes,
    pub next_gate: u8,
}

/// Writes a header and a closed gate on a disk that has no bytes.
pub fn write_first<D: Disk>(disk: &mut D, header: &[u8; HEADER_SIZE]) -> Result<(), LogErr>
    ensures refused { IfErr result
        (λ e. NotEmptySays (λ size. IsTrue (D.tells disk.old) → (size ≡ length (D.seen disk.old)) × (0 < size)) e) }
    ensures tells { OnOk result (D.tells disk.new ≡ D.tells disk.old) }
    ensures whole { OnOk result (length header.now ≡ HEADER_SIZE) }
    ensures empty { OnOk result (IsTrue (D.tells disk.old) → D.seen disk.old ≡ []) }
    ensures bytes { OnOk result (IsTrue (D.tells disk.old) → D.seen disk.new ≡ header.now ++ 0 ∷ []) }
    ensures durable { OnOk result (IsTrue (D.tells disk.old) → Only (D.seen disk.new) (D.may_leave disk.new)) }
    ensures cause { HasLogCause (D.faults disk.old) (D.faults disk.new) result }
{
    let size = disk.size()?;
    if size > 0 {
        return Err(LogErr::NotEmpty { size });
    }
    let mut first = [0; HEADER_SIZE + 1];
    first[..HEADER_SIZE].copy_from_slice(header);
    disk.write_at(0, &first)?;
    Ok(disk.sync()?)
}

// Syncs a disk, so that a crash leaves what is read then, and asks for its size.
fn sized_log<D: Disk>(disk: &mut D) -> Result<u64, LogErr>
    ensures durable { IfOk result (λ _. IsTrue (D.tells disk.old) → Only (D.seen disk.new) (D.may_leave disk.new)) }
    ensures size { IfOk result (λ size. (HEADER_SIZE < size) × (size < 2 ^ 63)) }
    ensures sized { IfOk result (λ size. IsTrue (D.tells disk.old) → size ≡ length (D.seen disk.old)) }
    ensures refused { IfErr result (λ e. NotALogSays (λ at. (at ≡ HEADER_SIZE)
        × (IsTrue (D.tells disk.old) → length (D.seen disk.old) ≤ HEADER_SIZE)) e) }
    ensures disk { OnlyRead D.tells D.seen D.may_leave D.moment D.left_since disk.old disk.new }
    ensures cause { HasLogCause (D.faults disk.old) (D.faults disk.new) result }
{
    disk.sync()?;
    let size = disk.size()?;
    if size <= HEADER_SIZE as u64 {
        return Err(LogErr::NotALog {
            at: HEADER_SIZE as u64,
        });
    }
    Ok(size)
}

// Reads the header of a log.
fn read_header<D: Disk>(disk: &mut D) -> Result<Header, LogErr>
    ensures bytes { IfOk result (λ header. IsTrue (D.tells disk.old) → header.bytes ≡ take HEADER_SIZE (D.seen disk.old)) }
    ensures whole { IfOk result (λ header. length header.bytes ≡ HEADER_SIZE) }
    ensures refused { IfErr result (λ e. NotALogSays (λ at. (at ≡ HEADER_SIZE)
        × (IsTrue (D.tells disk.old) → length (D.seen disk.old) ≤ HEADER_SIZE)) e) }
    ensures disk { OnlyRead D.tells D.seen D.may_leave D.moment D.left_since disk.old disk.new }
    ensures cause { HasLogCause (D.faults disk.old) (D.faults disk.new) result }
{
    let mut bytes = [0; HEADER_SIZE];
    let count = read_whole(disk, 0, &mut bytes)?;
    if count < HEADER_SIZE {
        return Err(LogErr::NotALog {
            at: HEADER_SIZE as u64,
        });
    }
    Ok(Header { bytes })
}

// Reads the first gate of a log.
fn read_gate<D: Disk>(disk: &mut D) -> Result<u8, LogErr>
    ensures byte { IfOk result (λ gate. IsTrue (D.tells disk.old) → gate ∷ [] ≡ take 1 (drop HEADER_SIZE (D.seen disk.old))) }
    ensures refused { IfErr result (λ e. NotALogSays (λ at. (at ≡ HEADER_SIZE)
        × (IsTrue (D.tells disk.old) → length (D.seen disk.old) ≤ HEADER_SIZE)) e) }
    ensures disk { OnlyRead D.tells D.seen D.may_leave D.moment D.left_since disk.old disk.new }
    ensures cause { HasLogCause (D.faults disk.old) (D.faults disk.new) result }
{
    let mut gate = [0; 1];
    let count = read_whole(disk, HEADER_SIZE as u64, &mut gate)?;
    if count < 1 {
        return Err(LogErr::NotALog {
            at: HEADER_SIZE as u64,
        });
    }
    Ok(gate[0])
}

/// Syncs a disk, and reads its header and its first gate.
pub fn read_first<D: Disk>(disk: &mut D) -> Result<First, LogErr>
    ensures bytes { IfOk result (λ first. IsTrue (D.tells disk.old)
        → (rest : List ℕ) × (D.seen disk.old ≡ first.header.bytes ++ first.gate ∷ rest)) }
    ensures whole { IfOk result (λ first. length first.header.bytes ≡ HEADER_SIZE) }
    ensures durable { IfOk result (λ first. IsTrue (D.tells disk.old) → Only (D.seen disk.new) (D.may_leave disk.new)) }
    ensures size { IfOk result (λ first. (HEADER_SIZE < first.size) × (first.size < 2 ^ 63)) }
    ensures sized { IfOk result (λ first. IsTrue (D.tells disk.old) → first.size ≡ length (D.seen disk.old)) }
    ensures refused { IfErr result (λ e. NotALogSays (λ at. (at ≡ HEADER_SIZE)
        × (IsTrue (D.tells disk.old) → length (D.seen disk.old) ≤ HEADER_SIZE)) e) }
    ensures disk { OnlyRead D.tells D.seen D.may_leave D.moment D.left_since disk.old disk.new }
    ensures cause { HasLogCause (D.faults disk.old) (D.faults disk.new) result }
{
    let size = match sized_log(disk) {
        Ok(size) => size,
        Err(e) => return Err(e),
    };
    let header = match read_header(disk) {
        Ok(header) => header,
        Err(e) => return Err(e),
    };
    match read_gate(disk) {
        Ok(gate) => Ok(First { header, gate, size }),
        Err(e) => Err(e),
    }
}

// The number that four bytes spell.
fn number_in(bytes: &[u8; 4]) -> u32
    ensures { to_be_bytes w32 result ≡ bytes.now }
{
    u32::from_be_bytes(*bytes)
}

// Reads the number that stands so many bytes behind the gate at a place.
fn read_number<D: Disk>(disk: &mut D, at: u64, behind: u64) -> Result<u32, LogErr>
    requires { (at < 2 ^ 63) × (behind ≤ 4) }
    ensures number { IfOk result
        (λ n. IsTrue (D.tells disk.old) → to_be_bytes w32 n ≡ take 4 (drop behind (drop (at + 1) (D.seen disk.old)))) }
    ensures refused { IfErr result
        (λ e. NotALogSays
        (λ place. (place ≡ at) × (IsTrue (D.tells disk.old) → length (drop (at + 1) (D.seen disk.old)) < behind + 4)) e) }
    ensures disk { OnlyRead D.tells D.seen D.may_leave D.moment D.left_since disk.old disk.new }
    ensures cause { HasLogCause (D.faults disk.old) (D.faults disk.new) result }
{
    let mut number = [0; 4];
    let count = read_whole(disk, at + 1 + behind, &mut number)?;
    if count < number.len() {
        return Err(LogErr::NotALog { at });
    }
    Ok(number_in(&number))
}

// What stands before a record's body. Its length is one that a body may have.
#[derive(Clone, Copy)]
struct Head {
    form: Form,
    len: usize,
}

// A head of this form, if a body may have this length.
fn head_with(form: Form, len: u32, at: u64) -> Result<Head, LogErr>
    ensures head { IfOk result (λ head. (head.form ≡ form) × (head.len ≡ len)) }
    ensures range { IfOk result (λ head. (0 < head.len) × (head.len ≤ MAX_BODY)) }
    ensures refused { IfErr result (λ e. (e ≡ NotALog at) × ((len ≡ 0) ⊎ (MAX_BODY < len))) }
{
    if len == 0 || len as usize > MAX_BODY {
        return Err(LogErr::NotALog { at });
    }
    Ok(Head {
        form,
        len: len as usize,
    })
}

// Reads what stands before the body behind the gate at a place: a length, or a greater number whose complement is the length
// that follows.
fn read_head<D: Disk>(disk: &mut D, at: u64) -> Result<Head, LogErr>
    requires { at < 2 ^ 63 }
    ensures bytes { IfOk result (λ head. IsTrue (D.tells disk.old)
        → head_of head.form head.len ≡ take (head_size head.form) (drop (at + 1) (D.seen disk.old))) }
    ensures range { IfOk result (λ head. (0 < head.len) × (head.len ≤ MAX_BODY)) }
    ensures refused { IfErr result (λ e. NotALogSays
        (λ place. (place ≡ at) × (IsTrue (D.tells disk.old) → IsNoRecord (drop (at + 1) (D.seen disk.old)))) e) }
    ensures disk { OnlyRead D.tells D.seen D.may_leave D.moment D.left_since disk.old disk.new }
    ensures cause { HasLogCause (D.faults disk.old) (D.faults disk.new) result }
{
    let first = match read_number(disk, at, 0) {
        Ok(first) => first,
        Err(e) => return Err(e),
    };
    if first as usize <= MAX_BODY {
        return head_with(Form::Plain, first, at);
    }
    let len = match read_number(disk, at, 4) {
        Ok(len) => len,
        Err(e) => return Err(e),
    };
    if first != ALL_ONES - len {
        return Err(LogErr::NotALog { at });
    }
    head_with(Form::Checked, len, at)
}

// A list of so many bytes, to be read into.
fn room_for(alloc: Global, len: usize) -> Result<Bytes, Memory>
    requires { len < 2 ^ 63 }
    ensures { IfOk result (λ room. length room ≡ len) }
{
    let mut room = Bytes::new(alloc);
    room.grow(len)?;
    Ok(room)
}

// Reads what stands behind the head of a record: its body, what follows that, and the next gate.
fn read_block<D: Disk>(alloc: Global, disk: &mut D, at: u64, head: Head) -> Result<Bytes, LogErr>
    requires { (at < 2 ^ 63) × (head.len ≤ MAX_BODY) }
    ensures bytes { IfOk result (λ block. IsTrue (D.tells disk.old)
        → block ≡ take (block_size head.form head.len) (drop (head_size head.form) (drop (at + 1) (D.seen disk.old)))) }
    ensures size { IfOk result (λ block. length block ≡ block_size head.form head.len) }
    ensures refused { IfErr result (λ e. NotALogSays
        (λ place. (place ≡ at) × (IsTrue (D.tells disk.old)
        → length (drop (at + 1) (D.seen disk.old)) < size_of head.form head.len + 1)) e) }
    ensures disk { OnlyRead D.tells D.seen D.may_leave D.moment D.left_since disk.old disk.new }
    ensures cause { HasLogCause (D.faults disk.old) (D.faults disk.new) result }
{
    let mut block = room_for(alloc, head.len + head.form.tail_size() + 1)?;
    let place = at + 1 + head.form.head_size() as u64;
    let count = read_whole(disk, place, block.as_mut_slice())?;
    if count < block.len() {
        return Err(LogErr::NotALog { at });
    }
    Ok(block)
}

// Whether these bytes are what follows the body.
fn is_tail(form: Form, body: &[u8], tail: &[u8]) -> bool
    ensures { IsTrue result ↔ (tail.now ≡ tail_of form body.now) }
{
    match form {
        Form::Plain => tail.is_empty(),
        Form::Checked => tail == crc_32(body).to_be_bytes().as_slice(),
    }
}

// The body at the start of such a block, and the gate at its end, if what stands between them is right.
fn record_in(block: Bytes, head: Head) -> Option<Record>
    requires { length block ≡ block_size head.form head.len }
    ensures bytes { IfSome result
        (λ kept. block ≡ kept.body ++ (tail_of head.form kept.body ++ kept.next_gate ∷ [])) }
    ensures size { IfSome result (λ kept. (length kept.body ≡ head.len) × (kept.form ≡ head.form)) }
    ensures none { IfNone result ((body : List ℕ) (next : ℕ) → length body ≡ head.len
        → block ≡ body ++ (tail_of head.form body ++ next ∷ []) → ⊥) }
{
    let mut block = block;
    let (body, behind) = block.as_slice().split_at(head.len);
    let (tail, gate) = behind.split_at(head.form.tail_size());
    if !is_tail(head.form, body, tail) {
        return None;
    }
    let next_gate = gate[0];
    block.truncate(head.len);
    Some(Record {
        form: head.form,
        body: block,
        next_gate,
    })
}

/// Reads the record behind an open gate at a place.
pub fn read_record<D: Disk>(
    alloc: Global,
    disk: &mut D,
    at: u64,
    size: u64,
) -> Result<Record, LogErr>
    requires { (at < size) × (size < 2 ^ 63) }
    ensures bytes { IfOk result (λ kept. IsTrue (D.tells disk.old) → (rest : List ℕ) ×
        (drop (at + 1) (D.seen disk.old) ≡ record_of kept.form kept.body ++ kept.next_gate ∷ rest)) }
    ensures size { IfOk result (λ kept. IsBody kept.body) }
    ensures inside { IfOk result (λ kept. at + 1 + size_of kept.form (length kept.body) < size) }
    ensures refused { IfErr result (λ e. NotALogSays (λ place. (place ≡ at)
        × (IsTrue (D.tells disk.old) → size ≡ length (D.seen disk.old) → IsNoRecord (drop (at + 1) (D.seen disk.old)))) e) }
    ensures disk { OnlyRead D.tells D.seen D.may_leave D.moment D.left_since disk.old disk.new }
    ensures cause { HasLogCause (D.faults disk.old) (D.faults disk.new) result }
{
    let head = match read_head(disk, at) {
        Ok(head) => head,
        Err(e) => return Err(e),
    };
    if size - at <= 1 + head.form.record_size(head.len) {
        return Err(LogErr::NotALog { at });
    }
    let block = match read_block(alloc, disk, at, head) {
        Ok(block) => block,
        Err(e) => return Err(e),
    };
    match record_in(block, head) {
        Some(record) => Ok(record),
        None => Err(LogErr::NotALog { at }),
    }
}
