ghost use Rattle.std.specs.Prelude.{◌≡◌, ◌++◌, ⊤, ℕ, List, Result, Ok, IfOk, OnOk};
ghost use Rattle.xdr_codec.specs.Reading.{Rest};
ghost use Rattle.layout_types.specs.declared.err.LayoutErr.{LayoutErr as Refusal};
ghost use Rattle.layout_types.specs.Grammar.{BeginsNoOther, Gives, GivesOrMemory, whole};

use crate::err::LayoutErr;
use osd_lists::{Bytes, Memory};
use std::alloc::Global;
use xdr_codec::{Reader, Writer};

/// What XDR spells, with other bytes before and behind it.
pub trait Part: Sized + Drop {
    /// The one spelling of a value.
    ghost spelling: { Self → List ℕ };

    /// Which values have a spelling that is read again.
    ghost fits: { Self → Type 0 };

    /// What a writer's caller has to know: what the fields' types don't keep of `fits`.
    ghost writable: { Self → Type 0 };

    /// The value at the front of what is left, or the first refusal.
    ghost reading: { Rest → Result (Self × Rest) Refusal };

    /// The value that a reader comes to next, with other bytes behind it.
    ///
    /// # Errors
    ///
    /// As [`Structure::read`], but for bytes that follow. Where the reader stands after a refusal
    /// isn't told.
    fn read_from(alloc: Global, reader: &mut Reader<'_>) -> Result<Self, LayoutErr>
        // Which value, or which refusal, and where the reader stands behind a value.
        ensures exact { Gives (reading reader.old) result reader.new }
        // What is read has a spelling that is read again.
        ensures fits { IfOk result fits };

    /// Writes the value behind what was written before. The caller has to know that opaques, strings
    /// and lists are within their largest lengths, and an algorithm 1 to 4. Where there is no memory,
    /// a part of the value may have been written.
    fn write_to(&self, writer: &mut Writer) -> Result<(), Memory>
        requires { writable self.now }
        ensures written { OnOk result (writer.new ≡ writer.old ++ spelling self.now) }
        ensures fits { OnOk result (fits self.now) };
}

/// A structure that stands alone.
pub trait Structure: Part {
    /// The value that the bytes spell, all of them.
    ///
    /// # Errors
    ///
    /// The refusal at the first place at which the bytes are outside the structure's grammar:
    /// [`LayoutErr::Xdr`] for an item that isn't well formed, [`LayoutErr::BadEnum`] for a number
    /// that isn't one of its enumeration. Bytes that follow are refused last, as `Trailing`.
    /// [`LayoutErr::Memory`] where there is no memory.
    fn read(alloc: Global, bytes: &[u8]) -> Result<Self, LayoutErr>
        // What is read is spelled so.
        ensures found { IfOk result (λ v. Self.fits v × (bytes.now ≡ Self.spelling v)) }
        // What is spelled so is read.
        ensures only { (v : Self) → Self.fits v → bytes.now ≡ Self.spelling v → GivesOrMemory (Ok v) result }
        // No spelling begins another.
        ensures alone { IfOk result (λ _. BeginsNoOther Self.fits Self.spelling bytes.now) }
        // Which refusal it is.
        ensures exact { GivesOrMemory (whole Self.reading bytes.now) result };

    /// The one spelling of the value. The caller has to know that opaques, strings and lists are
    /// within their largest lengths, and an algorithm 1 to 4.
    fn write(&self, alloc: Global) -> Result<Bytes, Memory>
        requires { Self.writable self.now }
        // What is written spells the value.
        ensures spelled { IfOk result (λ b. b ≡ Self.spelling self.now) }
        ensures fits { OnOk result (Self.fits self.now) }
        // What is written is read back.
        ensures read_back { IfOk result (λ b. whole Self.reading b ≡ Ok self.now) };
}

// The value that all of the bytes spell, or the first refusal.
#[tactic(auto, unfolding(crate::specs::Grammar::whole))]
pub(crate) fn read_all<T: Part>(alloc: Global, bytes: &[u8]) -> Result<T, LayoutErr>
    ensures { GivesOrMemory (whole T.reading bytes.now) result }
{
    let mut reader = Reader::new(bytes);
    let value = T::read_from(alloc, &mut reader)?;
    reader.finish()?;
    Ok(value)
}

// The bytes of a value alone.
pub(crate) fn write_all<T: Part>(alloc: Global, value: &T) -> Result<Bytes, Memory>
    requires { T.writable value.now }
    ensures spelled { IfOk result (λ b. b ≡ T.spelling value.now) }
    ensures fits { OnOk result (T.fits value.now) }
{
    let mut writer = Writer::new(alloc);
    value.write_to(&mut writer)?;
    Ok(writer.into_bytes())
}
