use std::alloc::Global;
use std::time::Duration;

// A drive that didn't answer in time, and since when it isn't asked.
#[derive(Clone, Copy, Drop)]
struct Rest {
    drive: u32,
    since: Duration,
}

impl Rest {
    // A clock that went back ends it.
    fn lasts(&self, now: Duration, rest: Duration) -> bool {
        match now.checked_sub(self.since) {
            Some(spent) => spent < rest,
            None => false,
        }
    }
}

// The drives that didn't answer in time and aren't asked for a while.
#[derive(Drop)]
pub(crate) struct Resting {
    rests: Vec<Rest>,
}

impl Resting {
    // No drive yet.
    pub(crate) fn new(alloc: Global) -> Self {
        Resting {
            rests: Vec::new(alloc),
        }
    }

    // Whether the drive isn't asked at this time, where a rest is so long.
    pub(crate) fn has(&self, drive: u32, now: Duration, rest: Duration) -> bool {
        self.rests
            .iter()
            .any(|one| one.drive == drive && one.lasts(now, rest))
    }

    // The drive's rest begins. Without memory for it there is none.
    pub(crate) fn begin(&mut self, drive: u32, now: Duration) {
        self.end(drive);
        let _begun = self.rests.push(Rest { drive, since: now });
    }

    // The drive's rest is over.
    pub(crate) fn end(&mut self, drive: u32) {
        self.rests.retain(|one| one.drive != drive);
    }
}
