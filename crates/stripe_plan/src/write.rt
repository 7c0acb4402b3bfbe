// What the parts of a write have in common.
use crate::plan::{Fetched, Out, Span};
use crate::row_index::RowIndex;
use data_map::DataMap;

/// A write of a range: its map, the range with its new bytes, what was gathered for it, with an index of that by row, and
/// what is out.
#[derive(Clone, Copy)]
pub(crate) struct Write<'a> {
    pub map: &'a DataMap,
    pub range: Span,
    pub bytes: &'a [u8],
    pub got: &'a Fetched,
    pub index: &'a RowIndex,
    pub out: &'a Out,
}
