// What holds of every gather, for the crates above.
ghost use Rattle.gather_law.specs.Ready.{GathersAreReady};

/// Each move of a gather, as it begins, at a reply and at a timeout, either leaves all that the write needs had or
/// awaited, or is the begin of a scatter that may begin: what it got is all that `plan_law` asks.
pub fn gathers_are_ready()
    ensures { GathersAreReady }
{}
