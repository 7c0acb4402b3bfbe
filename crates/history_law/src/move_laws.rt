// What a move is, for the crates above.
ghost use Rattle.history_law.specs.Goes.{MovesAreSteps};

/// Each move is a step of one party and what that party sends, and changes no message that was sent before.
pub fn moves_are_steps()
    ensures { MovesAreSteps }
{}
