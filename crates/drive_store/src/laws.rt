// What holds of the contents of every disk.
ghost use Rattle.drive_store.specs.Laws.{RefusedIsNoStore, StandForOneDrive};

/// Contents stand for one drive with the same keys at most, and those that are refused stand for none. It does nothing.
pub fn contents_stand_for_one_drive()
    ensures one { StandForOneDrive }
    ensures refused { RefusedIsNoStore }
{}
