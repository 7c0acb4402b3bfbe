ghost use Rattle.std.specs.Prelude.{◌≡◌, ◌+◌, ◌<◌, ◌≤◌, ℕ, slice_index, OnOk};
ghost use Rattle.zone_place.specs.declared.loads.TheConstants.{MAX_DRIVES};
ghost use Rattle.server_state.specs.Counts.{AreCounts, told, one, standing};

use osd_lists::Memory;
use server_rules::Component;
use std::marker::Model;
use zone_place::MAX_DRIVES;

/// How many present components stand on each drive of a number below 64. Contracts see a list, by these numbers.
#[derive(Drop)]
pub struct DriveCounts {
    counts: [u64; MAX_DRIVES],
}

impl Model for DriveCounts {
    ghost use Rattle.server_state.specs.Counts.{Counts};

    ghost Value = { Counts };

    ghost view = { λ s. s.counts };
}

impl DriveCounts {
    /// Counts of zero for every drive.
    pub fn new() -> Self
        ensures { AreCounts result (λ d. 0) }
    {
        DriveCounts {
            counts: [0; MAX_DRIVES],
        }
    }

    /// How many stand on the drive, 4,294,967,295 where they are more; 0 where its number isn't below 64.
    pub fn on(&self, drive: u32) -> u32
        ensures { result ≡ told self.now drive }
    {
        match self.counts.get(drive as usize) {
            Some(count) => (*count).min(u32::MAX as u64) as u32,
            None => 0,
        }
    }

    // A further component on the drive.
    fn add_one(&mut self, drive: u32) -> Result<(), Memory>
        ensures { OnOk result (AreCounts self.new (λ d. slice_index self.old d + one d drive)) }
    {
        let drive = drive as usize;
        if drive >= MAX_DRIVES {
            return Ok(());
        }
        if self.counts[drive] == u64::MAX {
            return Err(Memory);
        }
        self.counts[drive] += 1;
        Ok(())
    }

    // A component less on the drive.
    fn remove_one(&mut self, drive: u32)
        requires { (d : ℕ) → d < MAX_DRIVES → one d drive ≤ slice_index self.old d }
        ensures { AreCounts self.old (λ d. slice_index self.new d + one d drive) }
    {
        let drive = drive as usize;
        if drive < MAX_DRIVES {
            self.counts[drive] -= 1;
        }
    }

    /// The present ones of these components are counted too.
    ///
    /// # Errors
    ///
    /// A count without room in 64 bits, as want of memory.
    pub fn add(&mut self, components: &[Component]) -> Result<(), Memory>
        ensures { OnOk result (AreCounts self.new (λ d. slice_index self.old d + standing d components.now)) }
    {
        for component in components {
            if !component.missing {
                self.add_one(component.drive)?;
            }
        }
        Ok(())
    }

    /// The present ones of these components, which were counted, aren't any more.
    pub fn remove(&mut self, components: &[Component])
        requires { (d : ℕ) → d < MAX_DRIVES → standing d components.now ≤ slice_index self.old d }
        ensures { AreCounts self.old (λ d. slice_index self.new d + standing d components.now) }
    {
        for component in components {
            if !component.missing {
                self.remove_one(component.drive);
            }
        }
    }
}
