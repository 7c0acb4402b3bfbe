ghost use Rattle.std.specs.Prelude.{◌≡◌, ◌<◌, ◌≤◌, ◌+◌, ◌^◌, length, IfOk, IfErr, OnErr};
ghost use Rattle.xdr_codec.specs.Reading.{u32_in, u64_in, i64_in, bool_in, count_in, fixed_in, opaque_in, ReadsBody, Reads, ReadsInto, ReadsOrMemory, IsTaken};

use crate::err::XdrErr;
use crate::padding::padded_length;
use crate::reader::Reader;
use osd_lists::{Bytes, first_nonzero_in, u32_at, u64_at};
use std::alloc::Global;

// The bytes of a body that begins after `start` bytes of `bytes`, and its end with the padding.
#[tactic(auto, unfolding(crate::specs::Reading::body_in))]
fn body(bytes: &[u8], at: u64, start: usize, n: usize) -> Result<(&[u8], usize), XdrErr>
    requires room { start + n < 2 ^ 63 }
    requires place { at + length bytes.now < 2 ^ 63 }
    ensures body { ReadsBody (record { left = bytes.now; at = at }) start n result }
{
    let end = start + padded_length(n);
    if bytes.len() < end {
        return Err(XdrErr::Short { at });
    }
    if let Some(k) = first_nonzero_in(bytes, start + n, end) {
        return Err(XdrErr::Padding { at: at + k as u64 });
    }
    Ok((&bytes[start..start + n], end))
}

// Each item as its definition reads it.
impl<'a> Reader<'a> {
    // The n bytes at the front.
    fn take(&mut self, n: usize) -> Result<&'a [u8], XdrErr>
        ensures ok { IfOk result (λ front. IsTaken n self.old front.now self.new) }
        ensures err { OnErr result ((length self.old.left < n) × (self.new ≡ self.old)) }
        ensures short { IfErr result (λ e. e ≡ XdrErr.Short self.old.at) }
    {
        if self.rest.len() < n {
            return Err(XdrErr::Short { at: self.at });
        }
        let (front, rest) = self.rest.split_at(n);
        self.rest = rest;
        self.at += n as u64;
        Ok(front)
    }

    #[tactic(auto, unfolding(crate::specs::Reading::u32_in))]
    pub(crate) fn read_u32(&mut self) -> Result<u32, XdrErr>
        ensures exact { Reads u32_in self.old result self.new }
    {
        let field = self.take(4)?;
        Ok(u32_at(field, 0))
    }

    #[tactic(auto, unfolding(crate::specs::Reading::u64_in))]
    pub(crate) fn read_u64(&mut self) -> Result<u64, XdrErr>
        ensures exact { Reads u64_in self.old result self.new }
    {
        let field = self.take(8)?;
        Ok(u64_at(field, 0))
    }

    #[tactic(auto, unfolding(crate::specs::Reading::i64_in))]
    pub(crate) fn read_i64(&mut self) -> Result<i64, XdrErr>
        ensures exact { Reads i64_in self.old result self.new }
    {
        Ok(self.read_u64()?.cast_signed())
    }

    #[tactic(auto, unfolding(crate::specs::Reading::bool_in, crate::specs::Reading::u32_in))]
    pub(crate) fn read_bool(&mut self) -> Result<bool, XdrErr>
        ensures exact { Reads bool_in self.old result self.new }
    {
        if self.rest.len() < 4 {
            return Err(XdrErr::Short { at: self.at });
        }
        let value = match u32_at(self.rest, 0) {
            0 => false,
            1 => true,
            _ => return Err(XdrErr::BadBool { at: self.at }),
        };
        self.take(4)?;
        Ok(value)
    }

    #[tactic(auto, unfolding(crate::specs::Reading::count_in, crate::specs::Reading::u32_in))]
    pub(crate) fn read_count(&mut self, most: u32) -> Result<u32, XdrErr>
        ensures exact { Reads (count_in most) self.old result self.new }
    {
        if self.rest.len() < 4 {
            return Err(XdrErr::Short { at: self.at });
        }
        let n = u32_at(self.rest, 0);
        if n > most {
            return Err(XdrErr::TooMany { at: self.at });
        }
        self.take(4)?;
        Ok(n)
    }

    pub(crate) fn read_fixed(&mut self, out: &mut [u8]) -> Result<(), XdrErr>
        ensures exact { ReadsInto (fixed_in (length out.old)) self.old out.old result self.new out.new }
    {
        let n = out.len();
        let (field, end) = body(self.rest, self.at, 0, n)?;
        out.copy_from_slice(field);
        self.take(end)?;
        Ok(())
    }

    #[tactic(auto, unfolding(crate::specs::Reading::opaque_in, crate::specs::Reading::count_in, crate::specs::Reading::u32_in))]
    pub(crate) fn read_opaque(&mut self, alloc: Global, most: u32) -> Result<Bytes, XdrErr>
        ensures exact { ReadsOrMemory (opaque_in most) self.old result self.new }
    {
        if self.rest.len() < 4 {
            return Err(XdrErr::Short { at: self.at });
        }
        let length = u32_at(self.rest, 0);
        if length > most {
            return Err(XdrErr::TooMany { at: self.at });
        }
        let (field, end) = body(self.rest, self.at, 4, length as usize)?;
        let bytes = Bytes::copied(alloc, field)?;
        self.take(end)?;
        Ok(bytes)
    }
}
