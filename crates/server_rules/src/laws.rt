// What holds of every step, for the crates above.
ghost use Rattle.server_rules.specs.Laws.{ConflictsAreExact, AskedGrantsHoldTheirBytes, EachStepIsSafe, EveryRunIsSafe, EachStepChangesOneFile, RequestsAreCarriedOutInOrder, OtherRequestsChangeNothing, RepeatsAreAnsweredAlike, FilesArePut, SlotsAreKept};

/// Grants of different clients don't conflict exactly where none is extending, and both are for
/// reading where they share a stripe.
pub fn conflicts_are_exact()
    ensures { ConflictsAreExact }
{}

/// The stripes of the grant that a LAYOUTGET asks for hold each byte that it asks.
pub fn asked_grants_hold_their_bytes()
    ensures { AskedGrantsHoldTheirBytes }
{}

/// Each step keeps that a job that rests awaits something, that no two live grants of a file
/// conflict and a client has at most one of them, and that no grant is live while a job runs.
pub fn each_step_is_safe()
    ensures { EachStepIsSafe }
{}

/// So all of that holds of every file, whatever came to the server since it was new.
pub fn every_run_is_safe()
    ensures { EveryRunIsSafe }
{}

/// A step changes one file at most, unless a drive is declared or the server crashes or is opened.
pub fn each_step_changes_one_file()
    ensures { EachStepChangesOneFile }
{}

/// Whatever comes, a client's requests are carried out by the order of their numbers, each once.
pub fn requests_are_carried_out_in_order()
    ensures { RequestsAreCarriedOutInOrder }
{}

/// A request that isn't carried out changes nothing.
pub fn other_requests_change_nothing()
    ensures { OtherRequestsChangeNothing }
{}

/// Whatever comes, a repeat of a client's last request gets the same answer, and changes nothing.
pub fn repeats_are_answered_alike()
    ensures { RepeatsAreAnsweredAlike }
{}

/// The file that is put back is found again, and every other is as it was.
pub fn files_are_put()
    ensures { FilesArePut }
{}

/// The slot that is kept is found again, and every other is as it was.
pub fn slots_are_kept()
    ensures { SlotsAreKept }
{}
