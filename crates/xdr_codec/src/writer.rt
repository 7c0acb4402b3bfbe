ghost use Rattle.std.specs.Prelude.{◌≡◌, ◌<◌, ◌^◌, ◌++◌, [], length, take, OnOk, OnErr, FitsSigned};
ghost use Rattle.std.specs.Int.{w64};
ghost use Rattle.xdr_codec.specs.Items.{u32_item, u64_item, i64_item, bool_item, fixed_item, opaque_item};

use crate::padding::padded_length;
use osd_lists::{Bytes, Memory};
use std::alloc::Global;
use std::marker::Model;

/// Writes items at the end of bytes.
///
/// Where there is no memory for an item the bytes are as before.
#[derive(Drop)]
pub struct Writer {
    bytes: Vec<u8>,
}

impl Model for Writer {
    ghost use Rattle.std.specs.Prelude.{List, ℕ};

    ghost Value = { List ℕ };

    ghost view = { λ w. w.bytes.items };
}

// Adds bytes and zeros up to a multiple of four.
#[tactic(auto, unfolding(crate::specs::Items::fixed_item))]
fn put_padded(out: &mut Vec<u8>, field: &[u8]) -> Result<(), Memory>
    ensures ok { OnOk result (out.new.items ≡ out.old.items ++ fixed_item field.now) }
    ensures err { OnErr result (take (length out.old.items) out.new.items ≡ out.old.items) }
{
    out.extend_from_slice(field)?;
    for _ in 0..padded_length(field.len()) - field.len() {
        out.push(0)?;
    }
    Ok(())
}

// Adds bytes behind their length.
#[tactic(auto, unfolding(crate::specs::Items::opaque_item, crate::specs::Items::u32_item))]
fn put_opaque(out: &mut Vec<u8>, field: &[u8]) -> Result<(), Memory>
    requires { length field.now < 2 ^ 32 }
    ensures ok { OnOk result (out.new.items ≡ out.old.items ++ opaque_item field.now) }
    ensures err { OnErr result (take (length out.old.items) out.new.items ≡ out.old.items) }
{
    out.extend_from_slice(&(field.len() as u32).to_be_bytes())?;
    put_padded(out, field)
}

impl Writer {
    /// A writer that has written nothing. It takes no memory yet.
    pub fn new(alloc: Global) -> Writer
        ensures { result ≡ [] }
    {
        Writer {
            bytes: Vec::new(alloc),
        }
    }

    /// Adds an unsigned number of 32 bits (RFC 4506 4.2).
    #[tactic(auto, unfolding(crate::specs::Items::u32_item))]
    pub fn u32(&mut self, v: u32) -> Result<(), Memory>
        ensures ok { OnOk result (self.new ≡ self.old ++ u32_item v) }
        ensures err { OnErr result (self.new ≡ self.old) }
        ensures fits { v < 2 ^ 32 }
    {
        self.bytes.extend_from_slice(&v.to_be_bytes())?;
        Ok(())
    }

    /// Adds an unsigned number of 64 bits (RFC 4506 4.5).
    #[tactic(auto, unfolding(crate::specs::Items::u64_item))]
    pub fn u64(&mut self, v: u64) -> Result<(), Memory>
        ensures ok { OnOk result (self.new ≡ self.old ++ u64_item v) }
        ensures err { OnErr result (self.new ≡ self.old) }
        ensures fits { v < 2 ^ 64 }
    {
        self.bytes.extend_from_slice(&v.to_be_bytes())?;
        Ok(())
    }

    /// Adds a signed number of 64 bits in two's complement (RFC 4506 4.5).
    #[tactic(auto, unfolding(crate::specs::Items::i64_item))]
    pub fn i64(&mut self, v: i64) -> Result<(), Memory>
        ensures ok { OnOk result (self.new ≡ self.old ++ i64_item v) }
        ensures err { OnErr result (self.new ≡ self.old) }
        ensures fits { FitsSigned w64 v }
    {
        self.u64(v.cast_unsigned())
    }

    /// Adds a bool (RFC 4506 4.4).
    pub fn bool(&mut self, v: bool) -> Result<(), Memory>
        ensures ok { OnOk result (self.new ≡ self.old ++ bool_item v) }
        ensures err { OnErr result (self.new ≡ self.old) }
    {
        if v { self.u32(1) } else { self.u32(0) }
    }

    /// Adds bytes of a length that the reader knows (RFC 4506 4.9).
    pub fn fixed(&mut self, v: &[u8]) -> Result<(), Memory>
        ensures ok { OnOk result (self.new ≡ self.old ++ fixed_item v.now) }
        ensures err { OnErr result (self.new ≡ self.old) }
    {
        let before = self.bytes.len();
        match put_padded(&mut self.bytes, v) {
            Ok(()) => Ok(()),
            Err(e) => {
                self.bytes.truncate(before);
                Err(e)
            }
        }
    }

    /// Adds bytes behind their length (RFC 4506 4.10), at most 4,294,967,295 of them.
    pub fn opaque(&mut self, v: &[u8]) -> Result<(), Memory>
        requires { length v.now < 2 ^ 32 }
        ensures ok { OnOk result (self.new ≡ self.old ++ opaque_item v.now) }
        ensures err { OnErr result (self.new ≡ self.old) }
    {
        let before = self.bytes.len();
        match put_opaque(&mut self.bytes, v) {
            Ok(()) => Ok(()),
            Err(e) => {
                self.bytes.truncate(before);
                Err(e)
            }
        }
    }

    /// What was written.
    pub fn into_bytes(self) -> Bytes
        ensures { result ≡ self }
    {
        Bytes::from_vec(self.bytes)
    }
}
