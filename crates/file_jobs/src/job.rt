use osd_lists::Sequence;
use server_rules::{AwaitedCommands, Heard, JobKind, Kept, Target};
use std::marker::Model;
use stripe_repair::{Audit, Rebuild, Repair};

/// What a job waits for, and what it still has to do.
#[derive(Drop)]
pub enum Work {
    /// The components are made.
    Creates,
    /// The present components are sent the next tag.
    Fences,
    /// Stripes are repaired.
    Repairs(Repair),
    /// Rebuild: an object for the component is made.
    Targets { target: Target },
    /// Rebuild: the pieces of the component are made.
    Rebuilds(Rebuild),
    /// Audit: the lengths of the objects are read.
    Lengths,
    /// Audit: stripes are read.
    Checks(Audit),
}

/// A job of a file. Contracts see the job of the rules.
#[derive(Drop)]
pub struct RunningJob {
    pub kind: JobKind,
    pub work: Work,
    /// The commands that the job waits for.
    pub awaited: AwaitedCommands,
    /// The replies to the commands that were sent together with those awaited.
    pub heard: Sequence<Heard>,
}

impl Model for RunningJob {
    ghost use Rattle.server_rules.specs.declared.jobs.Job.{Job};

    ghost Value = { Job };

    ghost use Rattle.file_jobs.specs.Works.{work_of};

    ghost view = { λ j. record { kind = j.kind; work = work_of j.work; awaited = j.awaited; heard = j.heard } };
}

/// A file as the server has it.
#[derive(Drop)]
pub struct FileState {
    pub kept: Kept,
    /// At the last opening of the server the file's fence was refused, since its tag is spent.
    pub spent: bool,
    /// What runs on the file.
    pub job: Option<RunningJob>,
}

/// What comes of a job in a step.
#[derive(Drop)]
pub enum Turn {
    /// No job runs any more.
    Over,
    /// The job waits for what it sent.
    Rests(RunningJob),
    /// The job's repair is over: what the job is for comes next.
    Mended { kind: JobKind },
    /// Drives are to be found for the missing components, from this number on.
    Places { from: u32 },
}
