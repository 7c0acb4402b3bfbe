// Lists behind their counts.
ghost use Rattle.std.specs.Prelude.{◌≡◌, ◌++◌, ℕ, length, IfOk, OnOk};
ghost use Rattle.std.specs.List.{AllByRecursion, flat_map};
ghost use Rattle.layout_types.specs.Grammar.{Gives, members, list_part, list_item};
ghost use Rattle.layout_types.specs.Spelling.{ListFits};

use crate::fields::read_count;
use layout_types::{LayoutErr, Part};
use osd_lists::{Memory, Sequence};
use std::alloc::Global;
use xdr_codec::{Reader, Writer};

// The members of a list.
fn read_members<T: Part>(
    alloc: Global,
    reader: &mut Reader<'_>,
    count: u32,
) -> Result<Sequence<T>, LayoutErr>
    ensures exact { Gives (members T.reading count reader.old) result reader.new }
    ensures fits { IfOk result (λ vs. (length vs ≡ count) × AllByRecursion T.fits vs) }
{
    let mut list = Sequence::new(alloc);
    for _ in 0..count {
        list.push(T::read_from(alloc, reader)?)?;
    }
    Ok(list)
}

// A list behind its count.
#[tactic(auto, unfolding(layout_types::specs::Grammar::list_part))]
pub(crate) fn read_list<T: Part>(
    alloc: Global,
    reader: &mut Reader<'_>,
) -> Result<Sequence<T>, LayoutErr>
    ensures exact { Gives (list_part T.reading reader.old) result reader.new }
    ensures fits { IfOk result (ListFits T.fits) }
{
    let count = read_count(reader)?;
    read_members(alloc, reader, count)
}

fn write_members<T: Part>(writer: &mut Writer, list: &[T]) -> Result<(), Memory>
    requires { AllByRecursion T.writable list.now }
    ensures written { OnOk result (writer.new ≡ writer.old ++ flat_map T.spelling list.now) }
    ensures fits { OnOk result (AllByRecursion T.fits list.now) }
{
    for member in list {
        member.write_to(writer)?;
    }
    Ok(())
}

#[tactic(auto, unfolding(layout_types::specs::Grammar::list_item))]
pub(crate) fn write_list<T: Part>(writer: &mut Writer, list: &Sequence<T>) -> Result<(), Memory>
    requires { ListFits T.writable list.now }
    ensures written { OnOk result (writer.new ≡ writer.old ++ list_item T.spelling list.now) }
    ensures fits { OnOk result (ListFits T.fits list.now) }
{
    writer.u32(list.len() as u32)?;
    write_members(writer, list.as_slice())
}
