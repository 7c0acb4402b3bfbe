// What holds of every remark.
ghost use Rattle.server_notes.specs.Reading.{ReadAgain};

/// What a remark is spelled with is read as this remark, if its fields fit. It does nothing.
pub fn remarks_are_read_again()
    ensures { ReadAgain }
{}
