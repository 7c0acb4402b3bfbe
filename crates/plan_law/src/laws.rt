// What holds of every checked map, for the crates above.
ghost use Rattle.plan_law.specs.Examples.{ExamplesAreMet};
ghost use Rattle.plan_law.specs.Guards.{ContentsAreCarried, ReadsFit, ReadsMayAnswer, RepairsMayWrite, RepairsStand, RepliesFit, StartsAreAllowed, WritesMayStart};
ghost use Rattle.plan_law.specs.Known.{ColumnsAreKnown, DecodedAreWords, RebuildsAreKnown, WordsAreKnown};
ghost use Rattle.plan_law.specs.Layouts.{ColumnsAreStripes, ColumnsHaveStripes, LayoutsAreCodes};
ghost use Rattle.plan_law.specs.Pieces.{RebuildsCopyWords, RebuildsWriteWords, RepairsWriteWords};
ghost use Rattle.plan_law.specs.Sending.{PayloadsAreRight, StoresAreRight, WritableWithin, WrittenWordsAreKnown};

/// The layout of each checked map is a code, so the laws of `fence_law` speak of it: a cell depends on the bytes of its
/// column alone, a copy is its byte, each byte has a copy, and without parity a column is the copies of one byte.
pub fn layouts_are_codes()
    ensures { LayoutsAreCodes }
{}

/// With parity a column has the bytes of one stripe that have one offset in its units, and no others: so the columns of
/// some stripes are those that the machine's grants cover.
pub fn columns_are_stripes()
    ensures { ColumnsAreStripes }
{}

/// The column of a byte is of the byte's stripe, that of a cell of the cell's; a touched column is of a touched stripe.
/// So a grant of a range of stripes covers each column that a call inside it touches.
pub fn columns_have_stripes()
    ensures { ColumnsHaveStripes }
{}

/// What a write's plan makes for a byte of a component that it changes is what stands there of the new data, for all
/// data that fit what was got of that column: of a whole stripe, of old data and old parity, and of decoded data;
/// whether the component is out or not.
pub fn payloads_are_right()
    ensures { PayloadsAreRight }
{}

/// All data that fit what was got of a column give one word after the write to each cell that is hit, so a write need
/// not know the data to know what it writes.
pub fn written_words_are_known()
    ensures { WrittenWordsAreKnown }
{}

/// Each WRITE of a scatter is right: where it goes, which bytes it carries, under which number, and what they are; and
/// each byte that the write changes is carried to each component that isn't out.
pub fn stores_are_right()
    ensures { StoresAreRight }
{}

/// What can be written over a range can be over each range in it: so what a client checked of a granted range holds of
/// each call under the grant.
pub fn writable_within()
    ensures { WritableWithin }
{}

/// What the machine asks of a write's start, of the layout alone, holds of each write of which no touched stripe lacks
/// more positions than it has parity, whatever it got.
pub fn starts_are_allowed()
    ensures { StartsAreAllowed }
{}

/// What the machine asks of a write's start, of layout and bytes, holds of each write that may scatter by what its
/// gather was shown.
pub fn writes_may_start()
    ensures { WritesMayStart }
{}

/// Each byte of a WRITE of its scatter is what its entry in the log has as the cell's content.
pub fn contents_are_carried()
    ensures { ContentsAreCarried }
{}

/// Data that agree with all replies to a call in a column fit what it got of the column: the machine's word for a call's
/// replies gives the word of the laws on plans.
pub fn replies_fit()
    ensures { RepliesFit }
{}

/// What a read gives for a byte is that byte of all data that fit what it got of the byte's column alone.
pub fn reads_fit()
    ensures { ReadsFit }
{}

/// What a read gives is what the machine asks of its answer.
pub fn reads_may_answer()
    ensures { ReadsMayAnswer }
{}

/// What the machine asks of a repair's end holds of the columns of which each position has a replica that isn't lost,
/// and of the bytes of the first such replicas, wherever some data stand in such a column.
pub fn repairs_stand()
    ensures { RepairsStand }
{}

/// The bytes that a repair writes the words of are those of copies that aren't gone, whichever replicas that aren't gone
/// were chosen.
pub fn repairs_may_write()
    ensures { RepairsMayWrite }
{}

/// A byte is known by the words of its column in the components that aren't out, where no more positions are out than
/// there is parity.
pub fn columns_are_known()
    ensures { ColumnsAreKnown }
{}

/// So is each word of the column.
pub fn words_are_known()
    ensures { WordsAreKnown }
{}

/// All data that agree with what there was of a cell's column have one word for the cell, where a replica of its
/// component isn't gone, or no more positions are gone than there is parity: what the machine asks of a rebuild.
pub fn rebuilds_are_known()
    ensures { RebuildsAreKnown }
{}

/// A column that has the words of some data but for lost units, no more than there is parity, is decoded to all their
/// words.
pub fn decoded_are_words()
    ensures { DecodedAreWords }
{}

/// The row that a repair wants of a component, parity or a replica, has the words of the data whose rows it read: so
/// what it writes makes the piece codewords of these data.
pub fn repairs_write_words()
    ensures { RepairsWriteWords }
{}

/// The row of a present replica has the words of each component of its position, so a rebuild may write it.
pub fn rebuilds_copy_words()
    ensures { RebuildsCopyWords }
{}

/// The row that a rebuild decodes has the words of the data of which it read the other units.
pub fn rebuilds_write_words()
    ensures { RebuildsWriteWords }
{}

/// The premises can be met: of writes of one byte by old data and old parity, with every component there and with one
/// out, and of a read of a byte that is out; and these are their WRITEs and the byte that is read.
pub fn examples_are_met()
    ensures { ExamplesAreMet }
{}
