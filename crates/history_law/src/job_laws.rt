// What holds of the server's jobs, for the crates above.
ghost use Rattle.history_law.specs.Fencing.{FencesWait};
ghost use Rattle.history_law.specs.Numbered.{EachRunNumbers, EachStepNumbers};
ghost use Rattle.history_law.specs.Owned.{EachStepOwns};
ghost use Rattle.history_law.specs.Recalled.{EachStepCounts};

/// A step numbers the commands that it sends anew from the server's next nonce on. What a job awaits was sent, and what
/// goes to a drive is new or awaited.
pub fn each_step_numbers()
    ensures { EachStepNumbers }
{}

/// So no two commands that the server sends, whatever comes to it, have one nonce.
pub fn each_run_numbers()
    ensures { EachRunNumbers }
{}

/// A fence ends only where each component that isn't missing has the new tag, given that replies tell it so.
pub fn fences_wait()
    ensures { FencesWait }
{}

/// A step counts the recalls that it sends from the server's next count on, so none has the count of another.
pub fn each_step_counts()
    ensures { EachStepCounts }
{}

/// What the server sends to drives is under its own holder, in each step, where what its jobs awaited was so.
pub fn each_step_owns()
    ensures { EachStepOwns }
{}
