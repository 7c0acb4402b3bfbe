// The fields of entries that no crate below reads or writes alone.
ghost use Rattle.std.specs.Prelude.{◌≡◌, ◌++◌, ◌≤◌, length, IfOk, OnOk};
ghost use Rattle.osd_capability.specs.declared.keys.TheConstants.{DRIVE_KEY_BYTES};
ghost use Rattle.xdr_codec.specs.Items.{fixed_item};
ghost use Rattle.layout_types.specs.Grammar.{Gives, bool_part, count_part, fixed_part};
ghost use Rattle.layout_types.specs.declared.parts.TheConstants.{MAX_MEMBERS};
ghost use Rattle.server_entries.specs.Reading.{answer_part};
ghost use Rattle.server_entries.specs.Spelling.{IsAnswerBody};

use layout_types::{LayoutErr, MAX_MEMBERS};
use osd_capability::DRIVE_KEY_BYTES;
use osd_lists::{Bytes, Memory};
use std::alloc::Global;
use xdr_codec::{Reader, Writer};

/// The most bytes of an answer that a slot keeps.
pub const MAX_ANSWER: u32 = 65_536;

#[tactic(auto, unfolding(layout_types::specs::Grammar::bool_part))]
pub(crate) fn read_bool(reader: &mut Reader<'_>) -> Result<bool, LayoutErr>
    ensures { Gives (bool_part reader.old) result reader.new }
{
    Ok(reader.bool()?)
}

#[tactic(auto, unfolding(layout_types::specs::Grammar::count_part))]
pub(crate) fn read_count(reader: &mut Reader<'_>) -> Result<u32, LayoutErr>
    ensures exact { Gives (count_part reader.old) result reader.new }
    ensures fits { IfOk result (λ n. n ≤ MAX_MEMBERS) }
{
    Ok(reader.count(MAX_MEMBERS)?)
}

#[tactic(auto, unfolding(layout_types::specs::Grammar::fixed_part))]
pub(crate) fn read_key(reader: &mut Reader<'_>) -> Result<[u8; DRIVE_KEY_BYTES], LayoutErr>
    ensures exact { Gives (fixed_part DRIVE_KEY_BYTES reader.old) result reader.new }
    ensures fits { IfOk result (λ key. length key ≡ DRIVE_KEY_BYTES) }
{
    let mut key = [0; DRIVE_KEY_BYTES];
    reader.fixed(&mut key)?;
    Ok(key)
}

pub(crate) fn put_key(writer: &mut Writer, key: &[u8; DRIVE_KEY_BYTES]) -> Result<(), Memory>
    ensures written { OnOk result (writer.new ≡ writer.old ++ fixed_item key.now) }
    ensures fits { length key.now ≡ DRIVE_KEY_BYTES }
{
    writer.fixed(key)
}

#[tactic(auto, unfolding(crate::specs::Reading::answer_part))]
pub(crate) fn read_answer(alloc: Global, reader: &mut Reader<'_>) -> Result<Bytes, LayoutErr>
    ensures exact { Gives (answer_part reader.old) result reader.new }
    ensures fits { IfOk result IsAnswerBody }
{
    Ok(reader.opaque(alloc, MAX_ANSWER)?)
}
