ghost use Rattle.std.specs.Prelude.{◌≡◌, ◌∷◌, ℕ, List, slice_get, OnOk};
ghost use Rattle.std.specs.List.{fold};
ghost use Rattle.osd_commands.specs.Commands.{with_payload};
ghost use Rattle.world_calm.specs.Seeing.{acknowledged, all_finished, begins, begun, calm_at_first, ended, follows, harms, loses, looked, looked_at, logs, marks_all, marks_for, marks_one, mended_by, noted, notes, opened, performs, performs_command, refused, sees, sent, shows, shows_all, shows_changed, takes, taken_under};

use crate::calls::{LogEntry, WriteLog, finish_all as finish_writes};
use crate::files::{FileStripes, SeenFiles};
use crate::looking::{is_fail, mark_of, mended_of, returned_at, sent_at, writes};
use crate::marks::{Marks, NewMark, finish_all as unmark_writes, is_of_left};
use crate::reading::{block_in, is_told_taken};
use crate::view::KeptFiles;
use osd_commands::{Action, CommandBlock};
use osd_lists::{Memory, Numbers};
use scenario_text::{Call, DriveName, Ending, Event, Line, Note, Outcome, Party, Refusal};
use server_rules::Mended;
use std::alloc::Global;
use std::marker::Model;
use world_network::Network;

/// A message whose bytes a drive performed, also where they were injected.
#[derive(Clone, Copy)]
pub struct Performed {
    pub drive: DriveName,
    pub message: usize,
}

/// What is kept of a run to see whether it is calm.
#[derive(Drop)]
pub struct Calm {
    alloc: Global,
    log: WriteLog,
    files: SeenFiles,
    stopped: Numbers,
    marks: Marks,
    calm: bool,
}

impl Model for Calm {
    ghost use Rattle.world_calm.specs.Seeing.{CalmState};

    ghost Value = { CalmState };

    ghost view = { λ c. record { log = c.log; files = c.files; stopped = c.stopped; marks = c.marks; calm = c.calm } };
}

impl Calm {
    /// Of a run that has no line yet.
    pub fn new(alloc: Global) -> Self
        ensures { result ≡ calm_at_first }
    {
        Calm {
            alloc,
            log: WriteLog::new(alloc),
            files: SeenFiles::new(alloc),
            stopped: Numbers::new(alloc),
            marks: Marks::new(alloc),
            calm: true,
        }
    }

    /// Whether at no moment so far a stripe with parity was torn and short.
    pub fn calm(&self) -> bool
        ensures { result ≡ self.now.calm }
    {
        self.calm
    }

    // ---- a report that is taken as a loss

    // The writes under a grant are taken.
    fn take_under(&mut self, grant: u32)
        ensures { self.new ≡ taken_under self.old grant }
    {
        match self.log.take_under(grant) {
            Some(numbers) => {
                finish_writes(&mut self.log, numbers.as_slice());
                unmark_writes(&mut self.marks, numbers.as_slice());
            }
            None => {}
        }
    }

    // The same where the step returns the grant and says so.
    fn take(&mut self, network: &Network, head: &Line, rest: &[Line]) -> Result<(), Memory>
        ensures { OnOk result (self.new ≡ takes self.old network.now.messages head.now rest.now) }
    {
        match returned_at(self.alloc, network, head)? {
            Some(grant) => {
                if is_told_taken(self.alloc, rest)? {
                    self.take_under(grant);
                }
                Ok(())
            }
            None => Ok(()),
        }
    }

    // ---- what an event changes before the first moment of its step

    fn open(&mut self, head: &Line) -> Result<(), Memory>
        ensures { OnOk result (self.new ≡ opened self.old head.now) }
    {
        match head {
            Line::Event {
                event: Event::Fail { drive },
            } => self.files.fail(drive.number()),
            Line::Event {
                event: Event::Stop { client },
            } => self.stopped.push(client.number()),
            _ => Ok(()),
        }
    }

    // ---- a WRITE is performed

    // Whether its stripe is short, and its write is left.
    fn harms<S: KeptFiles>(&self, server: &S, mark: NewMark) -> bool
        ensures { result ≡ harms (S.kept_of server.now) self.now mark }
    {
        is_of_left(self.stopped.as_slice(), server, mark)
            && self.files.is_short(mark.file, mark.stripe)
    }

    // It marks a stripe.
    fn mark_one<S: KeptFiles>(&mut self, server: &S, mark: NewMark) -> Result<(), Memory>
        ensures { OnOk result (self.new ≡ marks_one (S.kept_of server.now) self.old mark) }
    {
        let harmed = self.harms(server, mark);
        self.marks.mark(mark)?;
        self.calm = self.calm && !harmed;
        Ok(())
    }

    // It marks these.
    fn mark_all<S: KeptFiles>(
        &mut self,
        server: &S,
        write: usize,
        entry: LogEntry,
        stripes: &FileStripes,
    ) -> Result<(), Memory>
        ensures { OnOk result (self.new ≡ marks_all (S.kept_of server.now) self.old write entry stripes.now) }
    {
        for stripe in stripes.as_slice() {
            self.mark_one(server, mark_of(write, entry, *stripe))?;
        }
        Ok(())
    }

    // A WRITE for a write was performed: it marks its stripes, unless the write is finished.
    fn mark_for<S: KeptFiles>(
        &mut self,
        server: &S,
        drive: u32,
        block: &CommandBlock,
        write: usize,
    ) -> Result<(), Memory>
        ensures { OnOk result ((payload : List ℕ) → self.new ≡ marks_for (S.kept_of server.now) self.old drive
            (with_payload block.now payload) write (slice_get self.old.log.entries write)) }
    {
        match self.log.entry(write) {
            Some(entry) => {
                if entry.finished {
                    return Ok(());
                }
                let stripes = self.files.stripes_at(drive, block.object, block.offset)?;
                self.mark_all(server, write, entry, &stripes)
            }
            None => Ok(()),
        }
    }

    // A drive performed the bytes of a message.
    fn perform<S: KeptFiles>(
        &mut self,
        server: &S,
        network: &Network,
        performed: Option<Performed>,
    ) -> Result<(), Memory>
        ensures { OnOk result (self.new ≡ performs (S.kept_of server.now) self.old network.now.messages performed) }
    {
        let performed = match performed {
            Some(performed) => performed,
            None => return Ok(()),
        };
        let write = match self.log.entry_of(performed.message) {
            Some(write) => write,
            None => return Ok(()),
        };
        let sent = match sent_at(network, performed.message) {
            Some(sent) => sent,
            None => return Ok(()),
        };
        match block_in(sent.bytes.as_slice()) {
            Some(block) => {
                if block.action == Action::Write {
                    self.mark_for(server, performed.drive.number(), &block, write)
                } else {
                    Ok(())
                }
            }
            None => Ok(()),
        }
    }

    // ---- moments

    // The moment at which a step begins: grants end first.
    fn begin<S: KeptFiles>(&mut self, server: &S)
        ensures { self.new ≡ begun (S.kept_of server.now) self.old }
    {
        let harmed = self
            .marks
            .any_newly_harmed(&self.files, self.stopped.as_slice(), server);
        self.marks.leave(self.stopped.as_slice(), server);
        self.calm = self.calm && !harmed;
    }

    // All stripes of writes that are left are looked at, since components may have been lost.
    fn look(&mut self)
        ensures { self.new ≡ looked self.old }
    {
        let harmed = self.marks.any_harmed(&self.files);
        self.calm = self.calm && !harmed;
    }

    // They are where a drive fails.
    fn look_at(&mut self, head: &Line)
        ensures { self.new ≡ looked_at self.old head.now }
    {
        if is_fail(head) {
            self.look();
        }
    }

    // A component is lost.
    fn lose(&mut self, file: u32, component: u32)
        ensures { self.new ≡ loses self.old file component }
    {
        self.files.lose(file, component);
    }

    // What a note tells.
    fn note(&mut self, file: u32, note: &Note, mended: &[Mended]) -> Result<(), Memory>
        ensures { OnOk result (self.new ≡ noted mended.now self.old file note.now) }
    {
        match note {
            Note::NoSpace { component } => self.lose(file, *component),
            Note::Reported { component } => self.lose(file, *component),
            Note::Rebuilt { component, drive } => {
                self.files.stand(file, *component, drive.number());
            }
            Note::Repaired { .. } => match mended_of(mended, file) {
                Some(repair) => self.marks.mend(repair)?,
                None => {}
            },
            _ => {}
        }
        Ok(())
    }

    // A line; a note is a moment.
    fn note_line(&mut self, line: &Line, mended: &[Mended]) -> Result<(), Memory>
        ensures { OnOk result (self.new ≡ notes mended.now self.old line.now) }
    {
        match line {
            Line::Note { file, note } => {
                self.note(file.number(), note, mended)?;
                self.look();
                Ok(())
            }
            _ => Ok(()),
        }
    }

    // Some lines.
    fn note_all(&mut self, rest: &[Line], mended: &[Mended]) -> Result<(), Memory>
        ensures { OnOk result (self.new ≡ fold (notes mended.now) self.old rest.now) }
    {
        for line in rest {
            self.note_line(line, mended)?;
        }
        Ok(())
    }

    // ---- the log behind the moments of a step

    // A call is refused.
    fn refuse(&mut self, client: u32, refusal: Refusal)
        ensures { self.new ≡ refused self.old client refusal }
    {
        match refusal {
            Refusal::Busy => {}
            _ => self.log.forget(client),
        }
    }

    // The write of a call was acknowledged.
    fn acknowledge(&mut self, write: Option<usize>)
        ensures { self.new ≡ acknowledged self.old write }
    {
        match write {
            Some(number) => {
                self.log.finish(number);
                self.marks.finish(number);
            }
            None => {}
        }
    }

    // A call ended, or is left pending.
    fn end(&mut self, client: u32, outcome: &Outcome)
        ensures { self.new ≡ ended self.old client outcome.now }
    {
        match outcome {
            Outcome::Failed {
                ending: Ending::Pending,
                ..
            } => {}
            Outcome::WriteOk { .. } => {
                let write = self.log.write_by(client);
                self.acknowledge(write);
                self.log.forget(client);
            }
            _ => self.log.forget(client),
        }
    }

    // A message is sent.
    fn send(&mut self, message: usize, from: Party, to: Party, bytes: &[u8]) -> Result<(), Memory>
        ensures { OnOk result (self.new ≡ sent self.old message from to bytes.now) }
    {
        let client = match from {
            Party::Client { client } => client,
            _ => return Ok(()),
        };
        match to {
            Party::Drive { .. } => {}
            _ => return Ok(()),
        }
        match block_in(bytes) {
            Some(block) => self.log.send(client.number(), message, &block),
            None => Ok(()),
        }
    }

    // A line.
    fn log_line(&mut self, line: &Line) -> Result<(), Memory>
        ensures { OnOk result (self.new ≡ logs self.old line.now) }
    {
        match line {
            Line::Event {
                event: Event::Do { client, call },
            } => self.log.call(client.number(), writes(call)),
            Line::Event {
                event: Event::Call { client, call },
            } => self.log.call(client.number(), writes(call)),
            Line::Refused { client, refusal } => {
                self.refuse(client.number(), *refusal);
                Ok(())
            }
            Line::Ended { client, outcome } => {
                self.end(client.number(), outcome);
                Ok(())
            }
            Line::Message {
                message,
                from,
                to,
                bytes,
            } => self.send(*message as usize, *from, *to, bytes.as_slice()),
            _ => Ok(()),
        }
    }

    // ---- files behind a step

    // A file is shown as the server keeps it.
    fn show<S: KeptFiles>(&mut self, server: &S, file: u32) -> Result<(), Memory>
        ensures { OnOk result (self.new ≡ shows (S.kept_of server.now) self.old file) }
    {
        match server.kept(file) {
            Some(kept) => self.files.show(kept),
            None => Ok(()),
        }
    }

    // These files are.
    fn show_all<S: KeptFiles>(&mut self, server: &S, files: &[u32]) -> Result<(), Memory>
        ensures { OnOk result (self.new ≡ shows_all (S.kept_of server.now) self.old files.now) }
    {
        for file in files {
            self.show(server, *file)?;
        }
        Ok(())
    }

    // Those whose components change are.
    fn show_changed<S: KeptFiles>(&mut self, server: &S, line: &Line) -> Result<(), Memory>
        ensures { OnOk result (self.new ≡ shows_changed (S.kept_of server.now) self.old line.now) }
    {
        match line {
            Line::Event {
                event: Event::File { file, .. } | Event::ZonedFile { file, .. },
            } => self.show(server, file.number()),
            Line::Event {
                event: Event::Declare { .. },
            } => {
                let numbers = self.files.numbers()?;
                self.show_all(server, numbers.as_slice())
            }
            Line::Note {
                file,
                note: Note::Rebuilt { .. },
            } => self.show(server, file.number()),
            _ => Ok(()),
        }
    }

    // ---- a step

    // A line behind its moments.
    fn follow<S: KeptFiles>(&mut self, server: &S, line: &Line) -> Result<(), Memory>
        ensures { OnOk result (self.new ≡ follows (S.kept_of server.now) self.old line.now) }
    {
        self.log_line(line)?;
        self.show_changed(server, line)
    }

    // Some lines.
    fn follow_all<S: KeptFiles>(&mut self, server: &S, lines: &[Line]) -> Result<(), Memory>
        ensures { OnOk result (self.new ≡ fold (follows (S.kept_of server.now)) self.old lines.now) }
    {
        for line in lines {
            self.follow(server, line)?;
        }
        Ok(())
    }

    // Up to its first moment.
    fn begin_step<S: KeptFiles>(
        &mut self,
        network: &Network,
        head: &Line,
        rest: &[Line],
        performed: Option<Performed>,
        server: &S,
    ) -> Result<(), Memory>
        ensures { OnOk result
            (self.new ≡ begins (S.kept_of server.now) self.old network.now.messages head.now rest.now performed) }
    {
        self.take(network, head, rest)?;
        self.open(head)?;
        self.perform(server, network, performed)?;
        self.begin(server);
        self.look_at(head);
        Ok(())
    }

    // Behind its last moment.
    fn end_step<S: KeptFiles>(
        &mut self,
        server: &S,
        head: &Line,
        rest: &[Line],
    ) -> Result<(), Memory>
        ensures { OnOk result (self.new ≡ fold (follows (S.kept_of server.now)) self.old (head.now ∷ rest.now)) }
    {
        self.follow(server, head)?;
        self.follow_all(server, rest)
    }

    /// Sees a step: the line with which it begins, and those behind it up to the next such line. `performed` is
    /// the message whose bytes a drive performed in it; `server` is as the step leaves it, and `mended` are the
    /// repairs that it ended.
    pub fn see<S: KeptFiles>(
        &mut self,
        network: &Network,
        head: &Line,
        rest: &[Line],
        performed: Option<Performed>,
        server: &S,
        mended: &[Mended],
    ) -> Result<(), Memory>
        ensures { OnOk result
            (self.new ≡ sees (S.kept_of server.now) mended.now self.old network.now.messages head.now rest.now performed) }
    {
        self.begin_step(network, head, rest, performed, server)?;
        self.note_all(rest, mended)?;
        self.end_step(server, head, rest)?;
        Ok(())
    }
}
