ghost use Rattle.std.specs.Prelude.{◌≡◌, ◌<◌, ◌≤◌, ◌+◌, ◌++◌, ◌^◌, ⊤, length, OnOk, FitsSigned};
ghost use Rattle.std.specs.Int.{w64};
ghost use Rattle.osd_lists.specs.Blocks.{IsBytes};
ghost use Rattle.xdr_codec.specs.Items.{u32_item, u64_item, i64_item, bool_item, fixed_item, opaque_item};
ghost use Rattle.xdr_codec.specs.Reading.{u32_in, u64_in, i64_in, bool_in, count_in, fixed_in, opaque_in, end_of, Reads, ReadsInto, ReadsOrMemory, IsFront, TakesFront, TakesFrontOrMemory, TakesInto};

use crate::err::XdrErr;
use osd_lists::Bytes;
use std::alloc::Global;
use std::marker::Model;

/// Reads items from the front of bytes.
///
/// After a refusal the reader stands where it stood before.
#[derive(Drop)]
pub struct Reader<'a> {
    pub(crate) rest: &'a [u8],
    pub(crate) at: u64,
}

impl<'a> Model for Reader<'a> {
    ghost use Rattle.std.specs.Prelude.{◌<◌, ◌+◌, ◌^◌, length};
    ghost use Rattle.xdr_codec.specs.Reading.{Rest};

    ghost Value = { Rest };

    ghost view = { λ r. record { left = r.rest.now; at = r.at } };

    ghost invariant = { λ r. r.at + length r.rest.now < 2 ^ 63 };
}

// The members of a slice of bytes are bytes.
fn are_bytes(bytes: &[u8])
    ensures { IsBytes bytes.now }
{
    let _ = bytes;
}

impl<'a> Reader<'a> {
    /// A reader that stands at the first of the bytes.
    pub fn new(bytes: &'a [u8]) -> Reader<'a>
        ensures { result ≡ record { left = bytes.now; at = 0 } }
    {
        Reader { rest: bytes, at: 0 }
    }

    /// The place of the next item.
    pub fn place(&self) -> u64
        ensures { result ≡ self.now.at }
    {
        self.at
    }

    // What is left is a list of bytes, which the reader's model doesn't tell.
    fn holds_bytes(&self)
        ensures { IsBytes self.now.left }
    {
        are_bytes(self.rest);
    }

    /// An unsigned number of 32 bits (RFC 4506 4.2).
    ///
    /// # Errors
    ///
    /// [`XdrErr::Short`] where fewer than 4 bytes are left.
    pub fn u32(&mut self) -> Result<u32, XdrErr>
        // Which refusal it is, and where the reader stands then.
        ensures exact { Reads u32_in self.old result self.new }
        // What is read is spelled so.
        ensures found { IsFront (λ n. n < 2 ^ 32) u32_item self.old result self.new }
        // What is spelled so is read.
        ensures only { TakesFront (λ n. n < 2 ^ 32) u32_item self.old result self.new }
    {
        self.holds_bytes();
        self.read_u32()
    }

    /// An unsigned number of 64 bits (RFC 4506 4.5).
    ///
    /// # Errors
    ///
    /// [`XdrErr::Short`] where fewer than 8 bytes are left.
    pub fn u64(&mut self) -> Result<u64, XdrErr>
        // Which refusal it is, and where the reader stands then.
        ensures exact { Reads u64_in self.old result self.new }
        // What is read is spelled so.
        ensures found { IsFront (λ n. n < 2 ^ 64) u64_item self.old result self.new }
        // What is spelled so is read.
        ensures only { TakesFront (λ n. n < 2 ^ 64) u64_item self.old result self.new }
    {
        self.holds_bytes();
        self.read_u64()
    }

    /// A signed number of 64 bits in two's complement (RFC 4506 4.5).
    ///
    /// # Errors
    ///
    /// [`XdrErr::Short`] where fewer than 8 bytes are left.
    pub fn i64(&mut self) -> Result<i64, XdrErr>
        // Which refusal it is, and where the reader stands then.
        ensures exact { Reads i64_in self.old result self.new }
        // What is read is spelled so.
        ensures found { IsFront (FitsSigned w64) i64_item self.old result self.new }
        // What is spelled so is read.
        ensures only { TakesFront (FitsSigned w64) i64_item self.old result self.new }
    {
        self.holds_bytes();
        self.read_i64()
    }

    /// A bool (RFC 4506 4.4).
    ///
    /// # Errors
    ///
    /// [`XdrErr::Short`] where fewer than 4 bytes are left, [`XdrErr::BadBool`] where they are
    /// neither 0 nor 1.
    pub fn bool(&mut self) -> Result<bool, XdrErr>
        // Which refusal it is, and where the reader stands then.
        ensures exact { Reads bool_in self.old result self.new }
        // What is read is spelled so.
        ensures found { IsFront (λ b. ⊤) bool_item self.old result self.new }
        // What is spelled so is read.
        ensures only { TakesFront (λ b. ⊤) bool_item self.old result self.new }
    {
        self.holds_bytes();
        self.read_bool()
    }

    /// The count of a list or the length of what follows, which is at most `most` (RFC 4506 4.13).
    ///
    /// # Errors
    ///
    /// [`XdrErr::Short`] where fewer than 4 bytes are left, else [`XdrErr::TooMany`] where the count
    /// is above `most`.
    pub fn count(&mut self, most: u32) -> Result<u32, XdrErr>
        // Which refusal it is, and where the reader stands then.
        ensures exact { Reads (count_in most) self.old result self.new }
        // What is read is spelled so.
        ensures found { IsFront (λ n. n ≤ most) u32_item self.old result self.new }
        // What is spelled so is read.
        ensures only { TakesFront (λ n. n ≤ most) u32_item self.old result self.new }
    {
        self.holds_bytes();
        self.read_count(most)
    }

    /// Bytes of a length that is known (RFC 4506 4.9), into `out`.
    ///
    /// # Errors
    ///
    /// [`XdrErr::Short`] where the bytes and their padding pass the end, else [`XdrErr::Padding`] at
    /// the first padding byte that isn't 0. What stands in `out` is as before then.
    pub fn fixed(&mut self, out: &mut [u8]) -> Result<(), XdrErr>
        // Which refusal it is, and where the reader stands then.
        ensures exact { ReadsInto (fixed_in (length out.old)) self.old out.old result self.new out.new }
        // What is read is spelled so.
        ensures found { OnOk result (self.old.left ≡ fixed_item out.new ++ self.new.left) }
        // What is spelled so is read.
        ensures only { TakesInto (length out.old) self.old result self.new out.new }
    {
        self.holds_bytes();
        self.read_fixed(out)
    }

    /// Bytes behind their length, which is at most `most` (RFC 4506 4.10).
    ///
    /// # Errors
    ///
    /// [`XdrErr::Short`] where the length passes the end, [`XdrErr::TooMany`] where it is above
    /// `most`, [`XdrErr::Short`] where the bytes and their padding pass the end, [`XdrErr::Padding`]
    /// at the first padding byte that isn't 0, in this order. All but the last name the place at
    /// which the length stands. [`XdrErr::Memory`] where there is no memory for the bytes.
    pub fn opaque(&mut self, alloc: Global, most: u32) -> Result<Bytes, XdrErr>
        // Which refusal it is, and where the reader stands then.
        ensures exact { ReadsOrMemory (opaque_in most) self.old result self.new }
        // What is read is spelled so.
        ensures found { IsFront (λ v. length v ≤ most) opaque_item self.old result self.new }
        // What is spelled so is read, unless memory runs out.
        ensures only { TakesFrontOrMemory (λ v. length v ≤ most) opaque_item self.old result self.new }
    {
        self.holds_bytes();
        self.read_opaque(alloc, most)
    }

    /// Whether all bytes were read.
    ///
    /// # Errors
    ///
    /// [`XdrErr::Trailing`] where bytes follow, at the first of them.
    #[tactic(auto, unfolding(crate::specs::Reading::end_of))]
    pub fn finish(&self) -> Result<(), XdrErr>
        ensures exact { result ≡ end_of self.now }
    {
        if self.rest.len() == 0 {
            Ok(())
        } else {
            Err(XdrErr::Trailing { at: self.at })
        }
    }
}
