// The positions of a stripe that are lost, behind their count.
ghost use Rattle.std.specs.Prelude.{◌≡◌, ◌++◌, ◌<◌, ◌^◌, ◌≤◌, length, IfOk, OnOk};
ghost use Rattle.std.specs.List.{AllByRecursion, flat_map};
ghost use Rattle.xdr_codec.specs.Items.{u32_item};
ghost use Rattle.layout_types.specs.Grammar.{Gives, count_part, list_item, list_part, members, u32_part};
ghost use Rattle.layout_types.specs.Spelling.{ListFits};
ghost use Rattle.layout_types.specs.declared.parts.TheConstants.{MAX_MEMBERS};

use layout_types::{LayoutErr, MAX_MEMBERS, Part};
use osd_lists::{Memory, Numbers};
use std::alloc::Global;
use xdr_codec::{Reader, Writer};

#[tactic(auto, unfolding(layout_types::specs::Grammar::count_part))]
fn read_count(reader: &mut Reader<'_>) -> Result<u32, LayoutErr>
    ensures exact { Gives (count_part reader.old) result reader.new }
    ensures fits { IfOk result (λ n. n ≤ MAX_MEMBERS) }
{
    Ok(reader.count(MAX_MEMBERS)?)
}

// So many positions.
fn read_members(alloc: Global, reader: &mut Reader<'_>, count: u32) -> Result<Numbers, LayoutErr>
    ensures { Gives (members u32_part count reader.old) result reader.new }
{
    let mut list = Numbers::new(alloc);
    for _ in 0..count {
        list.push(u32::read_from(alloc, reader)?)?;
    }
    Ok(list)
}

/// The positions that a reader comes to next.
#[tactic(auto, unfolding(layout_types::specs::Grammar::list_part))]
pub(crate) fn read_positions(alloc: Global, reader: &mut Reader<'_>) -> Result<Numbers, LayoutErr>
    ensures { Gives (list_part u32_part reader.old) result reader.new }
{
    let count = read_count(reader)?;
    read_members(alloc, reader, count)
}

fn write_members(writer: &mut Writer, list: &[u32]) -> Result<(), Memory>
    ensures written { OnOk result (writer.new ≡ writer.old ++ flat_map u32_item list.now) }
    ensures fits { OnOk result (AllByRecursion (λ n. n < 2 ^ 32) list.now) }
{
    for member in list {
        member.write_to(writer)?;
    }
    Ok(())
}

/// Writes positions.
///
/// # Errors
///
/// [`Memory`]. It stands also for more than 1,024 of them.
#[tactic(auto, unfolding(layout_types::specs::Grammar::list_item))]
pub(crate) fn write_positions(writer: &mut Writer, list: &Numbers) -> Result<(), Memory>
    ensures written { OnOk result (writer.new ≡ writer.old ++ list_item u32_item list.now) }
    ensures fits { OnOk result (ListFits (λ n. n < 2 ^ 32) list.now) }
{
    if list.len() > MAX_MEMBERS as usize {
        return Err(Memory);
    }
    writer.u32(list.len() as u32)?;
    write_members(writer, list.as_slice())
}
