// What the lines of each lawful history say: a law for each group of claims, and one for all.
ghost use Rattle.history_claims.specs.Sound.{HistoriesAreSound, HoldsIfLawful};
ghost use Rattle.history_claims.specs.Sound.{AreCallsSound, AreCausesSound, AreCrashesSound, AreDrivesSound, AreFencesSound};
ghost use Rattle.history_claims.specs.Sound.{AreGrantsSound, AreReadsSound, IsPlacementSound};

use crate::laws::{
    clients_refuse, components_stand_spread, components_time_out, ended_calls_are_logged,
    events_deliver, files_are_created, messages_are_numbered, messages_are_received,
    ready_reads_are_plain, recalls_are_caused, repairs_leave_counted_short, replies_carry_bytes,
    writes_are_stored,
};
use crate::note_laws::{
    formats_have_causes, founds_have_causes, heard_have_causes, jobs_wait, notes_have_causes,
    reaches_have_causes, refusals_are_told, stages_have_ends,
};
use cause_law::{
    answers_are_of_replies, awaited_have_causes, awaited_have_ends, awaited_were_sent,
    calls_are_left, calls_end_so, components_have_causes, crashes_bar, each_byte_has_its_cause,
    ended_have_causes, ends_are_caused, ends_are_said, grants_are_named_once, grants_have_causes,
    losses_have_causes, messages_are_caused, objects_are_own, pending_calls_are_unanswered,
    requests_are_answered, tags_have_causes,
};
use component_law::{
    answers_are_live, components_stand_apart, each_tag_is_its_files, given_is_barred,
    given_was_live, grants_are_older,
};
use exchange_law::{
    commands_are_issued_exactly, counters_stay_low, lanes_are_fair, lanes_are_own,
    refusals_were_awaited, refusals_were_judged, unforged_are_issued_exactly,
    within_the_limit_are_few,
};
use headline_law::{audits_find_none, headline_holds, repairs_leave_none};
use history_law::{
    commands_are_issued, histories_are_safe, holders_are_own, ranges_are_apart,
    unforged_are_fenced, unforged_are_issued, unguessed_are_unforged, verdicts_are_answered,
};
use ready_law::{losses_are_borne, ready_calls_end_in_ok};
use world_history::fronts_are_lawful;

/// Grants of a file never conflict, whatever clients hold leads back to one that was live, and a drive performs just the
/// commands that have no first fault.
fn grants_are_sound()
    ensures { HoldsIfLawful AreGrantsSound }
{
    histories_are_safe();
    ranges_are_apart();
    fronts_are_lawful();
    answers_are_live();
    given_was_live();
    reaches_have_causes();
}

/// Each verdict is replied to, and what a drive performs the server sent, or a client that was given a capability for it.
fn drives_are_sound()
    ensures { HoldsIfLawful AreDrivesSound }
{
    verdicts_are_answered();
    commands_are_issued();
    commands_are_issued_exactly();
    unforged_are_issued_exactly();
    unforged_are_issued();
    unguessed_are_unforged();
    holders_are_own();
    lanes_are_fair();
    lanes_are_own();
    fronts_are_lawful();
}

/// A fence that is over lasts, and bars what was given before it.
fn fences_are_sound()
    ensures { HoldsIfLawful AreFencesSound }
{
    unforged_are_fenced();
    grants_are_older();
    given_is_barred();
    each_tag_is_its_files();
    formats_have_causes();
}

/// The components of a file are on different drives, those of a zoned one are spread over zones, and as long as few
/// drives fail no stripe is beyond its code.
fn placement_is_sound()
    ensures { HoldsIfLawful IsPlacementSound }
{
    components_stand_apart();
    components_stand_spread();
    files_are_created();
    losses_are_borne();
}

/// The server does nothing without a cause that the lines tell: a request, an order, a reply, a crash or an opening.
fn causes_are_sound()
    ensures { HoldsIfLawful AreCausesSound }
{
    requests_are_answered();
    messages_are_caused();
    recalls_are_caused();
    grants_have_causes();
    ended_have_causes();
    components_have_causes();
    losses_have_causes();
    tags_have_causes();
    awaited_have_causes();
    awaited_have_ends();
    jobs_wait();
    awaited_were_sent();
    notes_have_causes();
    stages_have_ends();
    refusals_are_told();
    founds_have_causes();
    heard_have_causes();
    counters_stay_low();
}

/// Each call ends as what it met says, or is left pending since its request is, and a ready one ends in ok; what the
/// network delivers was sent.
fn calls_are_sound()
    ensures { HoldsIfLawful AreCallsSound }
{
    ends_are_caused();
    refusals_were_judged();
    refusals_were_awaited();
    calls_end_so();
    ends_are_said();
    calls_are_left();
    pending_calls_are_unanswered();
    ready_calls_end_in_ok();
    messages_are_numbered();
    messages_are_received();
    events_deliver();
    components_time_out();
    clients_refuse();
    ended_calls_are_logged();
}

/// An answered read gives what drives gave it; and as long as the history is calm and unguessed, what was acknowledged
/// before it.
fn reads_are_sound()
    ensures { HoldsIfLawful AreReadsSound }
{
    answers_are_of_replies();
    each_byte_has_its_cause();
    replies_carry_bytes();
    writes_are_stored();
    headline_holds();
    audits_find_none();
    repairs_leave_none();
    repairs_leave_counted_short();
    ready_reads_are_plain();
    fronts_are_lawful();
}

/// A crash bars each file that had a grant or a fence, until a fence of it is over, and after it no grant and no object
/// number comes twice.
fn crashes_are_sound()
    ensures { HoldsIfLawful AreCrashesSound }
{
    crashes_bar();
    grants_are_named_once();
    objects_are_own();
}

/// Each lawful history is sound, in the words of its lines, whatever its events name. It is one of a scenario's text if a text
/// may have its events, also if it is cut at the limit of kept bytes, and has few messages within that limit.
pub fn histories_are_sound()
    ensures { HistoriesAreSound }
{
    grants_are_sound();
    drives_are_sound();
    fences_are_sound();
    placement_is_sound();
    causes_are_sound();
    calls_are_sound();
    reads_are_sound();
    crashes_are_sound();
    within_the_limit_are_few();
}
