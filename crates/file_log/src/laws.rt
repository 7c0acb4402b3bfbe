ghost use Rattle.file_log.specs.OneList.{IsPlain, IsRangeFound};

/// An accepted log in which every write was acknowledged leaves what its writes, in order, leave of
/// the file's bytes.
pub fn plain()
    ensures { IsPlain }
{}

/// Where a file's bytes are settled, an answer that the judge accepts is a range of them.
pub fn range_found()
    ensures { IsRangeFound }
{}
