// A record: the entries of a step.
ghost use Rattle.std.specs.Prelude.{◌≡◌, IfOk, OnOk};
ghost use Rattle.layout_types.specs.Grammar.{GivesOrMemory, whole};
ghost use Rattle.server_entries.specs.Spelling.{record_item, RecordFits, RecordWritable};
ghost use Rattle.server_entries.specs.Reading.{record_in};

use crate::entry::{Entries, Entry};
use crate::lists::{read_list, write_list};
use layout_types::{LayoutErr, Part, Structure};
use osd_lists::{Bytes, Memory};
use std::alloc::Global;
use xdr_codec::{Reader, Writer};

/// The entries of a step, in order: at most 1,024.
#[derive(Drop)]
pub struct Record {
    pub entries: Entries,
}

impl Part for Record {
    ghost use Rattle.server_entries.specs.Spelling.{record_item, RecordFits, RecordWritable};
    ghost use Rattle.server_entries.specs.Reading.{record_in};

    ghost spelling = { record_item };

    ghost fits = { RecordFits };

    ghost writable = { RecordWritable };

    ghost reading = { record_in };

    #[tactic(auto, unfolding(crate::specs::Reading::record_in))]
    fn read_from(alloc: Global, reader: &mut Reader<'_>) -> Result<Self, LayoutErr> {
        Ok(Record {
            entries: read_list::<Entry>(alloc, reader)?,
        })
    }

    fn write_to(&self, writer: &mut Writer) -> Result<(), Memory> {
        write_list(writer, &self.entries)
    }
}

impl Structure for Record {
    fn read(alloc: Global, bytes: &[u8]) -> Result<Self, LayoutErr> {
        read_all(alloc, bytes)
    }

    fn write(&self, alloc: Global) -> Result<Bytes, Memory> {
        write_all(alloc, self)
    }
}

// The record that all of the bytes spell, or the first refusal.
#[tactic(auto, unfolding(layout_types::specs::Grammar::whole))]
fn read_all(alloc: Global, bytes: &[u8]) -> Result<Record, LayoutErr>
    ensures { GivesOrMemory (whole record_in bytes.now) result }
{
    let mut reader = Reader::new(bytes);
    let whole = Record::read_from(alloc, &mut reader)?;
    reader.finish()?;
    Ok(whole)
}

// The bytes of a record alone.
fn write_all(alloc: Global, whole: &Record) -> Result<Bytes, Memory>
    requires { RecordWritable whole.now }
    ensures spelled { IfOk result (λ b. b ≡ record_item whole.now) }
    ensures fits { OnOk result (RecordFits whole.now) }
{
    let mut writer = Writer::new(alloc);
    whole.write_to(&mut writer)?;
    Ok(writer.into_bytes())
}
