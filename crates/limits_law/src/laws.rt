// What holds of the limits.
ghost use Rattle.limits_law.specs.Agreement.{CapacitiesAgree, CommandsAgree, DrivesAgree, PartiesAgree, VerdictsAgree};
ghost use Rattle.limits_law.specs.Consequences.{FilesFit, MessagesFit, NumbersSuffice};

/// Each number that two crates have is one number: clients and the server mean the same by it, the server knows what a
/// drive takes, a scenario, a cluster text and the program's words can name what the rules have, and who reads a reply knows each
/// verdict by the drive's number.
pub fn numbers_agree()
    ensures parties { PartiesAgree }
    ensures drives { DrivesAgree }
    ensures capacities { CapacitiesAgree }
    ensures commands { CommandsAgree }
    ensures verdicts { VerdictsAgree }
{}

/// What a file, a message and a number have to fit into is large enough for them.
pub fn limits_leave_room()
    ensures files { FilesFit }
    ensures messages { MessagesFit }
    ensures numbers { NumbersSuffice }
{}
