ghost use Rattle.osd_drive.specs.Repeats.{AnswersRepeats};

/// A WRITE or a SET ATTR that was performed, and that comes again before it expires, gets the reply
/// that it got, and changes nothing.
pub fn answers_repeats()
    ensures { AnswersRepeats }
{}
