// What the drives do is what the world does, for the crates above.
ghost use Rattle.world_parties.specs.DriveLaws.{DrivesHear, DrivesInject, DrivesChange};

/// A drive does with the bytes of a message what the drive of the world does with the message; bytes that are
/// injected are judged as there, and what changes a drive changes it there.
pub fn drives_are_the_worlds()
    ensures hear { DrivesHear }
    ensures inject { DrivesInject }
    ensures change { DrivesChange }
{}
