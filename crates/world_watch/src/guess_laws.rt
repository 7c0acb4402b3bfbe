// What is kept of a run's lines is what is read off them.
ghost use Rattle.world_watch.specs.Tied.{KeepsFirst, KeepsOn};

/// What is kept stands for what the definition reads off the lines: before the first line, and after each line
/// where it did so before, as long as the network's messages begin with those of the lines.
pub fn guesses_are_read()
    ensures first { KeepsFirst }
    ensures on { KeepsOn }
{}
