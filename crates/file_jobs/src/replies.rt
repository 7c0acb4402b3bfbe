// A drive's reply to a command that a job waits for.
ghost use Rattle.std.specs.Prelude.{◌≡◌, ◌<◌, ◌^◌, ◌∷◌, [], Some, None, slice_get, length, map, IfOk, OnOk};
ghost use Rattle.server_rules.specs.declared.jobs.Awaited.{Awaited as AnAwaited};
ghost use Rattle.server_rules.specs.Commands.{again_in_2};
ghost use Rattle.server_rules.specs.Replies.{fills_up, heard_with, hearing, hears, is_done, others, renewed, renews, Done as IsDone};
ghost use Rattle.file_jobs.specs.Hearing.{heard_as};
ghost use Rattle.file_jobs.specs.Sound.{IsSound, IsSoundJob, Leaves, RestsSound};
ghost use Rattle.file_jobs.specs.Losing.{target_in};
ghost use Rattle.file_jobs.specs.Steps.{Hears, TurnsAt};
ghost use Rattle.file_jobs.specs.Works.{sends};

use crate::awaited::{Gone, again_in_2, forget, renew};
use crate::components::lose;
use crate::effects::{note, send};
use crate::job::{RunningJob, Turn};
use crate::next_stage::{go_on_after_loss, wait_or_go_on};
use crate::rebuild::{end_component, target_of};
use osd_capability::FORMAT_SHA256;
use osd_commands::{Action, Reply};
use osd_lists::{Bytes, Memory};
use server_rules::{
    Awaited, AwaitedCommands, EXISTS, Effects, Heard, Kept, NO_SPACE, NoteKind, OLD_FORMAT,
    OTHER_TAG, PERFORMED,
};
use std::alloc::Global;

// What a reply is to its command.
enum ReplyKind {
    // The command goes again in format 2.
    Older,
    // The drive has no space for the WRITE.
    Full,
    // The command is answered.
    Done,
    // Anything else, on which the job waits on.
    Nothing,
}

// Whether a command is answered: by Perform, at CREATE also by Exists, and at SET TAG also by the next tag.
#[tactic(auto, unfolding(server_rules::specs::Replies::is_done))]
fn is_done(kept: &Kept, awaited: &Awaited, reply: &Reply) -> bool
    ensures { result ≡ is_done kept.now awaited.now reply.now }
{
    match awaited.command.action {
        Action::Create => reply.verdict == PERFORMED || reply.verdict == EXISTS,
        Action::SetTag => {
            let is_next = reply.detail == u64::from(kept.tag) + 1;
            reply.verdict == PERFORMED || (reply.verdict == OTHER_TAG && is_next)
        }
        _ => reply.verdict == PERFORMED,
    }
}

// What a reply is to its command: the first that applies.
#[tactic(auto, unfolding(server_rules::specs::Replies::hearing))]
fn kind_of_reply(kept: &Kept, awaited: &Awaited, reply: &Reply) -> ReplyKind
    ensures { heard_as result ≡ hearing kept.now awaited.now reply.now }
{
    if reply.verdict == OLD_FORMAT {
        return ReplyKind::Older;
    }
    if awaited.command.action == Action::Write && reply.verdict == NO_SPACE {
        return ReplyKind::Full;
    }
    if is_done(kept, awaited, reply) {
        return ReplyKind::Done;
    }
    ReplyKind::Nothing
}

// Sends the command at that place once more, in format 2; it takes the place of the former.
fn send_again(
    alloc: Global,
    effects: &mut Effects,
    awaited: &mut AwaitedCommands,
    place: usize,
) -> Result<(), Memory>
    requires place { place < length awaited.old }
    requires low { effects.old.nonce < 2 ^ 63 }
    ensures many { OnOk result (length awaited.new ≡ length awaited.old) }
    ensures sent { OnOk result ((a : AnAwaited) → slice_get awaited.old place ≡ Some a
        → effects.new ≡ sends effects.old (again_in_2 a effects.old.nonce ∷ [])) }
    ensures left { OnOk result ((a : AnAwaited) → slice_get awaited.old place ≡ Some a
        → awaited.new ≡ map (renewed a (again_in_2 a effects.old.nonce)) awaited.old) }
{
    let former = awaited.get(place).command.nonce;
    let again = again_in_2(alloc, awaited.get(place), effects.nonce)?;
    renew(alloc, awaited, former, &again)?;
    send(alloc, effects, &again)
}

// Sends the command once more in format 2, which is the file's from now on.
fn send_in_format_2(
    alloc: Global,
    kept: &mut Kept,
    effects: &mut Effects,
    job: RunningJob,
    place: usize,
) -> Result<Turn, Memory>
    requires place { place < length job.awaited }
    requires low { effects.old.nonce < 2 ^ 63 }
    requires job { IsSoundJob kept.old job }
    ensures turn { IfOk result (λ turn. TurnsAt (λ g a. renews g job a) job.awaited place
        kept.old effects.old turn kept.new effects.new) }
    ensures sound { IfOk result (λ turn. RestsSound turn effects.old kept.new effects.new) }
    ensures keeps { OnOk result (Leaves kept.old kept.new) }
{
    let mut job = job;
    send_again(alloc, effects, &mut job.awaited, place)?;
    kept.format = FORMAT_SHA256;
    Ok(Turn::Rests(job))
}

// Takes the component of a command as missing, at a job that isn't a rebuild.
fn lose_component(
    alloc: Global,
    kept: &mut Kept,
    effects: &mut Effects,
    job: RunningJob,
    place: usize,
) -> Result<Turn, Memory>
    requires sound { IsSound kept.old }
    requires place { place < length job.awaited }
    requires low { effects.old.nonce < 2 ^ 63 }
    requires job { IsSoundJob kept.old job }
    requires target { target_in job.work ≡ None }
    ensures turn { IfOk result (λ turn. TurnsAt (λ g a. fills_up g job a job.work) job.awaited place
        kept.old effects.old turn kept.new effects.new) }
    ensures sound { IfOk result (λ turn. RestsSound turn effects.old kept.new effects.new) }
    ensures keeps { OnOk result (Leaves kept.old kept.new) }
{
    let mut job = job;
    let component = job.awaited.get(place).component;
    let nonce = job.awaited.get(place).command.nonce;
    kept.components = lose(alloc, kept.components.as_slice(), component)?;
    note(effects, kept.number, NoteKind::NoSpace { component })?;
    forget(&mut job.awaited, Gone::Nonce { nonce });
    go_on_after_loss(alloc, kept, effects, job)
}

// Goes on without a full drive: a rebuild's target ends, any other component becomes missing.
fn lose_full_drive(
    alloc: Global,
    kept: &mut Kept,
    effects: &mut Effects,
    job: RunningJob,
    place: usize,
) -> Result<Turn, Memory>
    requires sound { IsSound kept.old }
    requires place { place < length job.awaited }
    requires low { effects.old.nonce < 2 ^ 63 }
    requires job { IsSoundJob kept.old job }
    ensures turn { IfOk result (λ turn. TurnsAt (λ g a. fills_up g job a job.work) job.awaited place
        kept.old effects.old turn kept.new effects.new) }
    ensures sound { IfOk result (λ turn. RestsSound turn effects.old kept.new effects.new) }
    ensures keeps { OnOk result (Leaves kept.old kept.new) }
{
    match target_of(&job.work) {
        Some(target) => {
            let component = target.component;
            end_component(kept, effects, target, NoteKind::NoSpace { component })
        }
        None => lose_component(alloc, kept, effects, job, place),
    }
}

// Keeps what a reply carried; its command isn't awaited any more.
fn keep_payload(
    alloc: Global,
    job: &mut RunningJob,
    place: usize,
    reply: &Reply,
) -> Result<(), Memory>
    requires { place < length job.old.awaited }
    ensures { OnOk result ((a : AnAwaited) → slice_get job.old.awaited place ≡ Some a → job.new
        ≡ record job.old { awaited = others job.old.awaited a.command.nonce; heard = heard_with job.old a reply.now }) }
{
    let component = job.awaited.get(place).component;
    let nonce = job.awaited.get(place).command.nonce;
    let payload = Bytes::copied(alloc, reply.payload.as_slice())?;
    job.heard.push(Heard { component, payload })?;
    forget(&mut job.awaited, Gone::Nonce { nonce });
    Ok(())
}

// Takes the answer to a command; the job goes on if that was the last it waited for.
fn take_answer(
    alloc: Global,
    kept: &mut Kept,
    effects: &mut Effects,
    job: RunningJob,
    place: usize,
    reply: &Reply,
) -> Result<Turn, Memory>
    requires sound { IsSound kept.old }
    requires place { place < length job.awaited }
    requires low { effects.old.nonce < 2 ^ 63 }
    requires job { IsSoundJob kept.old job }
    ensures turn { IfOk result (λ turn. TurnsAt (λ g a. hears g job a reply.now IsDone) job.awaited place
        kept.old effects.old turn kept.new effects.new) }
    ensures sound { IfOk result (λ turn. RestsSound turn effects.old kept.new effects.new) }
    ensures keeps { OnOk result (Leaves kept.old kept.new) }
{
    let mut job = job;
    keep_payload(alloc, &mut job, place, reply)?;
    wait_or_go_on(alloc, kept, effects, job)
}

/// Takes a reply to the command at that place.
pub fn take_reply(
    alloc: Global,
    kept: &mut Kept,
    effects: &mut Effects,
    job: RunningJob,
    place: usize,
    reply: &Reply,
) -> Result<Turn, Memory>
    requires sound { IsSound kept.old }
    requires place { place < length job.awaited }
    requires low { effects.old.nonce < 2 ^ 63 }
    requires job { IsSoundJob kept.old job }
    ensures turn { IfOk result (λ turn. Hears job reply.now place kept.old effects.old turn kept.new effects.new) }
    ensures sound { IfOk result (λ turn. RestsSound turn effects.old kept.new effects.new) }
    ensures keeps { OnOk result (Leaves kept.old kept.new) }
{
    match kind_of_reply(kept, job.awaited.get(place), reply) {
        ReplyKind::Older => send_in_format_2(alloc, kept, effects, job, place),
        ReplyKind::Full => lose_full_drive(alloc, kept, effects, job, place),
        ReplyKind::Done => take_answer(alloc, kept, effects, job, place, reply),
        ReplyKind::Nothing => Ok(Turn::Rests(job)),
    }
}
