// What the clients do is what the world does, for the crates above.
ghost use Rattle.world_parties.specs.ClientLaws.{ClientsHear, ClientsCall, ClientsTimeOut, ClientsResend, ClientsLeave, ClientsPend, ClientsStop};

/// A client does what the client of the world does: with a message, and at a call, a timeout and each other input.
pub fn clients_are_the_worlds()
    ensures hear { ClientsHear }
    ensures call { ClientsCall }
    ensures time_out { ClientsTimeOut }
    ensures resend { ClientsResend }
    ensures leave { ClientsLeave }
    ensures pend { ClientsPend }
    ensures stop { ClientsStop }
{}
