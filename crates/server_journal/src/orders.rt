// Orders.
ghost use Rattle.std.specs.Prelude.{◌≡◌, List, ℕ, false, is_err, IfErr, IfOk, OnErr, OnOk};
ghost use Rattle.layout_ops.specs.declared.orders.OrderKind.TheVariants as order;
ghost use Rattle.server_rules.specs.Orders.{ordered};
ghost use Rattle.server_state.specs.States.{Did, HasRoom};
ghost use Rattle.server_journal.specs.Errors.{HasJournalCause, IsOfDisk};

use crate::errors::JournalErr;
use crate::server::JournaledServer;
use layout_ops::OrderKind;
use layout_server::Step;
use osd_disk::Disk;
use stripe_repair::Place;

impl<D: Disk> JournaledServer<D> {
    ghost use Rattle.server_journal.specs.Calls.{Answered, CutOff};
    ghost use Rattle.server_journal.specs.Journals.{core_of, disk_in, is_over_in};

    /// The server is given an order on a file, or on a drive that is declared.
    ///
    /// # Errors
    ///
    /// [`JournalErr::DiskFault`] and [`JournalErr::Memory`], after which the server is over.
    pub fn order<P: Place>(
        &mut self,
        kind: OrderKind,
        target: u32,
        placer: &P,
    ) -> Result<Step, JournalErr>
        requires goes_on { is_over_in self.old ≡ false }
        requires room { HasRoom (core_of self.old) }
        requires placer { P.is_placer placer.now }
        ensures did { IfOk result (λ out. (chosen : List ℕ)
            × Did out (core_of self.new) (ordered (core_of self.old) chosen kind target).step) }
        ensures answered { IfOk result (λ out. Answered D.Disk self.old self.new out.notes) }
        ensures cut_off { OnErr result (CutOff D.Disk self.old self.new
            (λ chosen. (ordered (core_of self.old) chosen kind target).step)) }
        ensures error { IfErr result IsOfDisk }
        ensures over { is_over_in self.new ≡ is_err result }
        ensures cause { HasJournalCause (D.faults (disk_in self.old)) (D.faults (disk_in self.new)) result }
    {
        self.is_over = true;
        let step = self.kept.order(kind, target, placer)?;
        match self.keep(step.notes.as_slice()) {
            Ok(()) => Ok(step),
            Err(e) => Err(e),
        }
    }

    /// A recall goes to each holder of a grant on a file.
    ///
    /// # Errors
    ///
    /// [`JournalErr::DiskFault`] and [`JournalErr::Memory`], after which the server is over.
    pub fn recall(&mut self, file: u32) -> Result<Step, JournalErr>
        requires goes_on { is_over_in self.old ≡ false }
        requires room { HasRoom (core_of self.old) }
        ensures did { IfOk result (λ out. (chosen : List ℕ)
            → Did out (core_of self.new) (ordered (core_of self.old) chosen order.Recall file).step) }
        ensures answered { IfOk result (λ out. Answered D.Disk self.old self.new out.notes) }
        ensures cut_off { OnErr result (CutOff D.Disk self.old self.new
            (λ chosen. (ordered (core_of self.old) chosen order.Recall file).step)) }
        ensures error { IfErr result IsOfDisk }
        ensures over { is_over_in self.new ≡ is_err result }
        ensures cause { HasJournalCause (D.faults (disk_in self.old)) (D.faults (disk_in self.new)) result }
    {
        self.is_over = true;
        let step = self.kept.recall(file)?;
        match self.keep(step.notes.as_slice()) {
            Ok(()) => Ok(step),
            Err(e) => Err(e),
        }
    }

    /// A fence of a file begins, with the repair behind it, unless a job runs or the file's tag is spent.
    ///
    /// # Errors
    ///
    /// [`JournalErr::DiskFault`] and [`JournalErr::Memory`], after which the server is over.
    pub fn revoke<P: Place>(&mut self, file: u32, placer: &P) -> Result<Step, JournalErr>
        requires goes_on { is_over_in self.old ≡ false }
        requires room { HasRoom (core_of self.old) }
        requires placer { P.is_placer placer.now }
        ensures did { IfOk result (λ out. (chosen : List ℕ)
            × Did out (core_of self.new) (ordered (core_of self.old) chosen order.Revoke file).step) }
        ensures answered { IfOk result (λ out. Answered D.Disk self.old self.new out.notes) }
        ensures cut_off { OnErr result (CutOff D.Disk self.old self.new
            (λ chosen. (ordered (core_of self.old) chosen order.Revoke file).step)) }
        ensures error { IfErr result IsOfDisk }
        ensures over { is_over_in self.new ≡ is_err result }
        ensures cause { HasJournalCause (D.faults (disk_in self.old)) (D.faults (disk_in self.new)) result }
    {
        match self.order(OrderKind::Revoke, file, placer) {
            Ok(step) => Ok(step),
            Err(e) => Err(e),
        }
    }

    /// The missing components of a file are made anew on other drives, behind a fence and its repair; unless a job runs or the
    /// file's tag is spent.
    ///
    /// # Errors
    ///
    /// [`JournalErr::DiskFault`] and [`JournalErr::Memory`], after which the server is over.
    pub fn rebuild<P: Place>(&mut self, file: u32, placer: &P) -> Result<Step, JournalErr>
        requires goes_on { is_over_in self.old ≡ false }
        requires room { HasRoom (core_of self.old) }
        requires placer { P.is_placer placer.now }
        ensures did { IfOk result (λ out. (chosen : List ℕ)
            × Did out (core_of self.new) (ordered (core_of self.old) chosen order.Rebuild file).step) }
        ensures answered { IfOk result (λ out. Answered D.Disk self.old self.new out.notes) }
        ensures cut_off { OnErr result (CutOff D.Disk self.old self.new
            (λ chosen. (ordered (core_of self.old) chosen order.Rebuild file).step)) }
        ensures error { IfErr result IsOfDisk }
        ensures over { is_over_in self.new ≡ is_err result }
        ensures cause { HasJournalCause (D.faults (disk_in self.old)) (D.faults (disk_in self.new)) result }
    {
        match self.order(OrderKind::Rebuild, file, placer) {
            Ok(step) => Ok(step),
            Err(e) => Err(e),
        }
    }

    /// The stripes of a file are read and compared, behind a fence and its repair; unless a job runs or the file's tag is spent.
    ///
    /// # Errors
    ///
    /// [`JournalErr::DiskFault`] and [`JournalErr::Memory`], after which the server is over.
    pub fn audit<P: Place>(&mut self, file: u32, placer: &P) -> Result<Step, JournalErr>
        requires goes_on { is_over_in self.old ≡ false }
        requires room { HasRoom (core_of self.old) }
        requires placer { P.is_placer placer.now }
        ensures did { IfOk result (λ out. (chosen : List ℕ)
            × Did out (core_of self.new) (ordered (core_of self.old) chosen order.Audit file).step) }
        ensures answered { IfOk result (λ out. Answered D.Disk self.old self.new out.notes) }
        ensures cut_off { OnErr result (CutOff D.Disk self.old self.new
            (λ chosen. (ordered (core_of self.old) chosen order.Audit file).step)) }
        ensures error { IfErr result IsOfDisk }
        ensures over { is_over_in self.new ≡ is_err result }
        ensures cause { HasJournalCause (D.faults (disk_in self.old)) (D.faults (disk_in self.new)) result }
    {
        match self.order(OrderKind::Audit, file, placer) {
            Ok(step) => Ok(step),
            Err(e) => Err(e),
        }
    }

    /// A drive has failed: it is offline from now on, and each component on it missing. It may be declared where the counters
    /// have little room.
    ///
    /// # Errors
    ///
    /// [`JournalErr::DiskFault`] and [`JournalErr::Memory`], after which the server is over.
    pub fn declare<P: Place>(&mut self, drive: u32, placer: &P) -> Result<Step, JournalErr>
        requires goes_on { is_over_in self.old ≡ false }
        requires placer { P.is_placer placer.now }
        ensures did { IfOk result (λ out. (chosen : List ℕ)
            × Did out (core_of self.new) (ordered (core_of self.old) chosen order.Declare drive).step) }
        ensures answered { IfOk result (λ out. Answered D.Disk self.old self.new out.notes) }
        ensures cut_off { OnErr result (CutOff D.Disk self.old self.new
            (λ chosen. (ordered (core_of self.old) chosen order.Declare drive).step)) }
        ensures error { IfErr result IsOfDisk }
        ensures over { is_over_in self.new ≡ is_err result }
        ensures cause { HasJournalCause (D.faults (disk_in self.old)) (D.faults (disk_in self.new)) result }
    {
        self.is_over = true;
        let step = self.kept.declare(drive, placer)?;
        match self.keep(step.notes.as_slice()) {
            Ok(()) => Ok(step),
            Err(e) => Err(e),
        }
    }
}
