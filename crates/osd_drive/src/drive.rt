ghost use Rattle.std.specs.Prelude.{◌≡◌, ◌≤◌, ◌↔◌, max, IfOk, OnOk, OnErr, IsTrue, length};
ghost use Rattle.osd_commands.specs.declared.actions.Action.TheVariants.{SetAttr, Write};
ghost use Rattle.osd_commands.specs.Commands.{allows};
ghost use Rattle.osd_objects.specs.declared.attributes.TheConstants.{FIRST_USER_ATTRIBUTE};
ghost use Rattle.osd_drive.specs.declared.limits.TheConstants.{MAX_LENGTH};
ghost use Rattle.osd_drive.specs.declared.verdict.Verdict.TheVariants.{Perform};
ghost use Rattle.osd_drive.specs.State.{new_drive, key_of_version};
ghost use Rattle.osd_drive.specs.Table.{is_mutating, has_old_format, has_no_key, has_wrong_check, rows_on_object, late_fault, all_rows, first_fault, NoneApplies, IsReady};
ghost use Rattle.osd_drive.specs.Effects.{performed, performed_reply, reply_by, state_by, reply_to, drive_after};

use crate::effects::perform_on;
use crate::keys::{DriveKey, KeyTable, key_in};
use crate::known::{KnownCapability, is_checked, is_known};
use crate::limits::FIRST_FORMAT;
use crate::replies::{format_reply, kept_reply, refused_reply};
use crate::rows::{has_no_right, is_elsewhere, is_out_of_range, late_verdict};
use crate::store_view::StoreView;
use crate::verdict::Verdict;
use osd_commands::{Command, CommandErr, Reply, read_command};
use osd_lists::Memory;
use osd_objects::Store;
use std::alloc::Global;
use std::marker::Model;

/// A drive: a number, keys, the least format of capabilities that it takes, and objects.
#[derive(Drop)]
pub struct DriveCore {
    number: u32,
    keys: KeyTable,
    least: u8,
    store: Store,
    // The capability of the last command that was judged for good.
    last: Option<KnownCapability>,
}

impl Model for DriveCore {
    ghost use Rattle.osd_drive.specs.State.{DriveState};
    ghost use Rattle.osd_drive.specs.Short.{HasShortValues};

    ghost Value = { DriveState };

    ghost view = { λ d. record { number = d.number; keys = d.keys; least = d.least; store = d.store } };

    ghost invariant = { λ d. HasShortValues d.store };
}

impl DriveCore {
    /// A drive of a capacity in bytes without objects, which takes capabilities of format 1 and 2. The
    /// versions of its keys differ; were two the same, the first would count.
    pub fn new(alloc: Global, number: u32, keys: KeyTable, capacity: u64) -> Self
        ensures { result ≡ new_drive number keys capacity }
    {
        DriveCore {
            number,
            keys,
            least: FIRST_FORMAT,
            store: Store::new(alloc, capacity),
            last: None,
        }
    }

    /// The drive's number.
    pub fn number(&self) -> u32
        ensures { result ≡ self.now.number }
    {
        self.number
    }

    // The key of the capability's version.
    fn key(&self, c: &Command) -> Option<DriveKey>
        ensures { result ≡ key_of_version self.now.keys c.now.capability.key_version }
    {
        key_in(self.keys.as_slice(), c.capability.key_version)
    }

    // The first of the rows on the object that applies.
    fn first_late(&self, c: &Command) -> Verdict
        ensures { result ≡ late_fault self.now c.now }
    {
        late_verdict(&StoreView::of(&self.store, c), c)
    }

    /// The first of the rows on the object, from [`Verdict::NoObject`] to [`Verdict::Again`], that
    /// applies, else `Perform`: for a command whose capability was judged before.
    pub fn late(&self, c: &Command) -> Verdict
        ensures row { result ≡ late_fault self.now c.now }
        ensures none { (result ≡ Perform) ↔ NoneApplies (rows_on_object self.now c.now) }
    {
        self.first_late(c)
    }

    // The first row of the table that applies.
    #[tactic(auto, unfolding(crate::specs::Table::first_fault, crate::specs::Table::late_fault_of))]
    fn first_verdict(&self, now: u64, c: &Command) -> Verdict
        ensures { result ≡ first_fault self.now now c.now }
    {
        if c.capability.format < self.least {
            return Verdict::OldFormat;
        }
        let Some(key) = self.key(c) else {
            return Verdict::NoKey;
        };
        if !is_checked(&self.last, &key, c) {
            Verdict::CheckValue
        } else if now > c.capability.expiry {
            Verdict::Expired
        } else if has_no_right(c) {
            Verdict::Rights
        } else if is_elsewhere(self.number, c) {
            Verdict::WrongObject
        } else if is_out_of_range(c) {
            Verdict::Range
        } else {
            self.first_late(c)
        }
    }

    /// The first row of the table that applies, else `Perform`: then [`DriveCore::late`] gives `Perform`
    /// too, and a SET ATTR names a user's attribute. `now` is the drive's clock in seconds.
    pub fn verdict(&self, now: u64, c: &Command) -> Verdict
        ensures row { result ≡ first_fault self.now now c.now }
        ensures none { (result ≡ Perform) ↔ NoneApplies (all_rows self.now now c.now) }
        ensures ready { result ≡ Perform → IsReady self.now c.now }
    {
        self.first_verdict(now, c)
    }

    // Keeps the command's capability as the known one, unless it is that, or its format or its key is none of the drive's.
    fn know(&mut self, c: &Command)
        ensures { self.new ≡ self.old }
    {
        if c.capability.format < self.least {
            return;
        }
        let Some(key) = self.key(c) else {
            return;
        };
        if !is_known(&self.last, &key, &c.capability) {
            self.last = Some(match self.last.take() {
                Some(last) => last.followed_by(&key, &c.capability),
                None => KnownCapability::new(&key, &c.capability),
            });
        }
    }

    /// As [`DriveCore::verdict`], for a drive that then takes the command in earnest: it keeps the key of the
    /// command's capability, so that the verdict on the next command with this capability costs less.
    pub fn judge(&mut self, now: u64, c: &Command) -> Verdict
        ensures row { result ≡ first_fault self.old now c.now }
        ensures none { (result ≡ Perform) ↔ NoneApplies (all_rows self.old now c.now) }
        ensures ready { result ≡ Perform → IsReady self.old c.now }
        ensures state { self.new ≡ self.old }
    {
        self.know(c);
        self.verdict(now, c)
    }

    /// The least format of capabilities that the drive takes, 1 or 2 where it was raised to these alone.
    pub fn least_format(&self) -> u8
        ensures { result ≡ self.now.least }
    {
        self.least
    }

    /// Takes no more capabilities of a format below this one, which is 1 or 2. It never falls.
    pub fn raise_least(&mut self, format: u8)
        ensures { self.new ≡ record self.old { least = max self.old.least format } }
    {
        self.least = self.least.max(format);
    }

    /// Performs a command, whatever its capability says: for one that is known to have had no fault.
    /// [`DriveCore::late`] must give `Perform`, a SET ATTR must name an attribute from 65,536 on, and
    /// the payload of a WRITE must be as long as it says, as that of each command read from bytes is.
    ///
    /// # Errors
    ///
    /// [`Memory`]; then nothing changes.
    pub fn perform(&mut self, alloc: Global, c: &Command) -> Result<Reply, Memory>
        requires late { late_fault self.old c.now ≡ Perform }
        requires attribute { c.now.action ≡ SetAttr → FIRST_USER_ATTRIBUTE ≤ c.now.attribute }
        requires sized { c.now.action ≡ Write → length c.now.payload ≡ c.now.length }
        ensures reply { IfOk result (λ r. r ≡ performed_reply self.old c.now) }
        ensures short { IfOk result (λ r. length r.payload ≤ MAX_LENGTH) }
        ensures state { OnOk result (self.new ≡ performed self.old c.now) }
        ensures err { OnErr result (self.new ≡ self.old) }
    {
        match perform_on(&mut self.store, alloc, c) {
            Ok(reply) => Ok(reply),
            Err(Memory) => Err(Memory),
        }
    }

    // The reply to a command, which is performed where nothing stands against it.
    fn answer(&mut self, alloc: Global, now: u64, c: &Command) -> Result<Reply, Memory>
        requires sized { IsTrue (allows c.now.action c.now.length (length c.now.payload)) }
        ensures reply { IfOk result (λ r. r ≡ reply_by (first_fault self.old now c.now) self.old c.now) }
        ensures short { IfOk result (λ r. length r.payload ≤ MAX_LENGTH) }
        ensures state { OnOk result (self.new ≡ state_by (first_fault self.old now c.now) self.old c.now) }
        ensures err { OnErr result (self.new ≡ self.old) }
    {
        match self.verdict(now, c) {
            Verdict::Perform => self.perform(alloc, c),
            Verdict::Again => {
                let lane = self.store.lane(c.object, c.capability.holder);
                Ok(kept_reply(alloc, c, lane))
            }
            verdict => Ok(refused_reply(alloc, c, verdict)),
        }
    }

    /// Takes any bytes as a command, performs it where no row of the table applies, and gives the
    /// reply. `now` is the drive's clock in seconds.
    ///
    /// # Errors
    ///
    /// [`Memory`]. All memory is taken before anything changes, so then nothing changes.
    pub fn handle(&mut self, alloc: Global, now: u64, message: &[u8]) -> Result<Reply, Memory>
        ensures reply { IfOk result (λ r. r ≡ reply_to self.old now message.now) }
        ensures short { IfOk result (λ r. length r.payload ≤ MAX_LENGTH) }
        ensures state { OnOk result (self.new ≡ drive_after self.old now message.now) }
        ensures err { OnErr result (self.new ≡ self.old) }
    {
        match read_command(alloc, message) {
            Ok(c) => {
                self.know(&c);
                self.answer(alloc, now, &c)
            }
            Err(CommandErr::Memory) => Err(Memory),
            Err(_) => Ok(format_reply(alloc)),
        }
    }
}
