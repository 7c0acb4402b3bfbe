ghost use Rattle.std.specs.Prelude.{◌≡◌, ◌+◌, ◌<◌, if◌then◌else◌, Err, IfOk, IfErr, OnOk, ◌⊎◌};
ghost use Rattle.server_rules.specs.declared.limits.TheConstants.{GREATEST_TAG};
ghost use Rattle.server_rules.specs.declared.files.Kept.{Kept};
ghost use Rattle.server_rules.specs.declared.jobs.Awaited.{Awaited};
ghost use Rattle.server_rules.specs.Commands.{Raising, command_for};
ghost use Rattle.server_rules.specs.Replies.{is_done};
ghost use Rattle.osd_commands.specs.declared.actions.Action.TheVariants.{SetTag};
ghost use Rattle.recall_fence.specs.declared.fence.FenceErr.TheVariants.{TagsSpent, Memory as NoMemory};
ghost use Rattle.recall_fence.specs.Waiting.{without, lowest};
ghost use Rattle.recall_fence.specs.Fences.{raise, counts_as_done, without_done, IsOfFile};

use crate::waiting::lowest;
use osd_capability::{CHECK_BYTES, Capability};
use osd_commands::{Action, Command, Reply};
use osd_lists::{Bytes, Numbers};
use server_rules::{
    ALL_RIGHTS, GREATEST_TAG, KEY_VERSION, NO_EXPIRY, OTHER_TAG, PERFORMED, SERVER_HOLDER,
    WHOLE_OBJECT,
};
use std::alloc::{AllocError, Global};
use std::marker::Model;
use thiserror::Error;

/// Where a component stands.
#[derive(Clone, Copy, PartialEq, Eq)]
pub struct ObjectPlace {
    /// The number of the drive.
    pub drive: u32,
    /// The partition of the object.
    pub partition: u64,
    /// The number of the object.
    pub object: u64,
}

/// Why a fence doesn't begin. The first that applies is given, in this order.
#[derive(Clone, Copy, Debug, PartialEq, Eq, Error)]
pub enum FenceErr {
    /// The file's tag is the greatest, 4,294,967,295: there is no next one.
    #[error("the tags of the file are spent")]
    TagsSpent,
    /// There is no memory for the components.
    #[error("no memory for a fence")]
    Memory,
}

impl From<AllocError> for FenceErr {
    ghost use Rattle.recall_fence.specs.declared.fence.FenceErr.TheVariants.{Memory};

    ghost from_gives = { λ _ e. e ≡ Memory };

    fn from(_: AllocError) -> Self {
        FenceErr::Memory
    }
}

/// The fence of a file, and the components that it waits for: those that are neither done nor dropped.
#[derive(Drop)]
pub struct Fence {
    alloc: Global,
    file: u32,
    tag: u32,
    waiting: Vec<u32>,
}

impl Model for Fence {
    ghost use Rattle.recall_fence.specs.Fences.{FenceState, HasNext};

    ghost Value = { FenceState };

    ghost view = { λ s. record { file = s.file; tag = s.tag; waiting = s.waiting.items } };

    ghost invariant = { λ s. HasNext s.tag };
}

// Takes a component out.
fn take_out(waiting: &mut Vec<u32>, component: u32)
    ensures { waiting.new.items ≡ without component waiting.old.items }
{
    waiting.retain(|number| *number != component);
}

impl Fence {
    /// Begins the fence of a file with its present components and its tag.
    ///
    /// # Errors
    ///
    /// [`FenceErr::TagsSpent`] exactly where the tag is the greatest, else want of memory alone.
    pub fn start(alloc: Global, file: u32, present: Numbers, tag: u32) -> Result<Fence, FenceErr>
        ensures ok { IfOk result (λ fence. fence ≡ record { file = file; tag = tag; waiting = present }) }
        ensures spent { tag ≡ GREATEST_TAG → result ≡ Err TagsSpent }
        ensures err { IfErr result (λ e. (tag ≡ GREATEST_TAG) ⊎ (e ≡ NoMemory)) }
        ensures next { OnOk result (tag < GREATEST_TAG) }
    {
        if tag == GREATEST_TAG {
            return Err(FenceErr::TagsSpent);
        }
        Ok(Fence {
            alloc,
            file,
            tag,
            waiting: Vec::from_slice(alloc, present.as_slice())?,
        })
    }

    /// The command that raises a component's tag, not sealed: SET TAG with all rights and the former tag, in
    /// a format that is 1 or 2. It is the one that the rules send to a component of a file with this tag.
    pub fn command(&self, component: u32, at: ObjectPlace, nonce: u64, format: u8) -> Command
        ensures value { result ≡ raise self.now.tag at nonce format }
        ensures rules { (f : Kept) → IsOfFile f self.now.tag format at →
            result ≡ command_for f Raising component at.drive at.object nonce }
    {
        Command {
            action: Action::SetTag,
            partition: at.partition,
            object: at.object,
            offset: 0,
            length: 0,
            nonce,
            attribute: 0,
            capability: Capability {
                format,
                key_version: KEY_VERSION,
                rights: ALL_RIGHTS,
                expiry: NO_EXPIRY,
                grant: 0,
                holder: SERVER_HOLDER,
                tag: self.tag,
                partition: at.partition,
                object: at.object,
                range_start: 0,
                range_len: WHOLE_OBJECT,
            },
            payload: Bytes::new(self.alloc),
            check: [0; CHECK_BYTES],
        }
    }

    /// Takes a component's reply to its command: true exactly where the tag is raised, now or before. Then
    /// the component is done.
    #[tactic(auto, unfolding(crate::specs::Fences::counts_as_done, server_rules::specs::Replies::is_done))]
    pub fn on_reply(&mut self, component: u32, reply: &Reply) -> bool
        ensures done { result ≡ counts_as_done self.old.tag reply.now }
        ensures left { self.new ≡ (if result then without_done self.old component else self.old) }
        ensures rules { (f : Kept) (a : Awaited) → f.tag ≡ self.old.tag → a.command.action ≡ SetTag →
            result ≡ is_done f a reply.now }
    {
        let is_done = reply.verdict == PERFORMED
            || reply.verdict == OTHER_TAG && reply.detail == u64::from(self.tag) + 1;
        if is_done {
            take_out(&mut self.waiting, component);
        }
        is_done
    }

    /// Waits no more for a component, since it became missing.
    pub fn drop_component(&mut self, component: u32)
        ensures { self.new ≡ without_done self.old component }
    {
        take_out(&mut self.waiting, component);
    }

    /// The lowest component that it waits for, `None` exactly where the fence is over.
    pub fn waiting_for(&self) -> Option<u32>
        ensures { result ≡ lowest self.now.waiting }
    {
        lowest(self.waiting.as_slice())
    }

    /// The number of its file.
    pub fn file(&self) -> u32
        ensures { result ≡ self.now.file }
    {
        self.file
    }

    /// The tag that its components have where it is over.
    pub fn next_tag(&self) -> u32
        ensures { result ≡ self.now.tag + 1 }
    {
        self.tag + 1
    }
}
