// What holds of histories, for the crates above.
ghost use Rattle.world_history.specs.History.{OneEventMore, OneEventCut, FullIsCut, FrontsAreLawful};
ghost use Rattle.world_history.specs.Laws.{NextIsLowest, MessagesAreRead};
ghost use Rattle.world_history.specs.Laws.{StepsGoOn, ServerGoesOn, MomentGoesOn, AllLinesGoOn};

/// A world that stands for a history stands, after one event more, for it and the event's lines.
pub fn one_event_more()
    ensures { OneEventMore }
{}

/// A history that is cut in its last event is lawful.
pub fn one_event_cut()
    ensures { OneEventCut }
{}

/// An event that stops at the limit of kept bytes is one that is cut.
pub fn full_is_cut()
    ensures { FullIsCut }
{}

/// Each front of a lawful history is lawful.
pub fn fronts_are_lawful()
    ensures { FrontsAreLawful }
{}

/// The message that is delivered next is the lowest that is pending, and none is exactly where none is pending.
pub fn next_is_lowest()
    ensures { NextIsLowest }
{}

/// What is read off a history goes on with lines that begin a step from where it was: its steps, the server,
/// the moment, and what is a fold over lines alone.
pub fn reading_goes_on()
    ensures steps { StepsGoOn }
    ensures server { ServerGoesOn }
    ensures moment { MomentGoesOn }
    ensures lines { AllLinesGoOn }
{}

/// The messages that are read off a history, with their marks, are those of each world that stands for it.
pub fn messages_are_read()
    ensures { MessagesAreRead }
{}
