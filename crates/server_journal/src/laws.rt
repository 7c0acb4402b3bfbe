// What holds of the contents of every disk.
ghost use Rattle.server_journal.specs.Laws.{CountersNeverFall, RefusedIsNoJournal, StandForOneServer};

/// Contents stand for one server at most, and those that are refused stand for none. Records that are added lower no counter.
/// It does nothing.
pub fn contents_stand_for_one_server()
    ensures one { StandForOneServer }
    ensures refused { RefusedIsNoJournal }
    ensures counters { CountersNeverFall }
{}
