// What holds of the contents of every disk.
ghost use Rattle.gate_log.specs.Laws.{BrokenAtOnePlace, BrokenIsNoLog, ContentsAreOneLog};
ghost use Rattle.gate_log.specs.Written.{TurnedBitShows};

/// Contents are a log in one way at most, and those that are refused are none, and are refused at one
/// place. It does nothing.
pub fn contents_are_one_log()
    ensures one { ContentsAreOneLog }
    ensures broken { BrokenIsNoLog }
    ensures place { BrokenAtOnePlace }
{}

/// One bit that turned in an appended record or its gate shows: the contents are refused, or they are the
/// same log. It does nothing.
pub fn turned_bits_show()
    ensures { TurnedBitShows }
{}
