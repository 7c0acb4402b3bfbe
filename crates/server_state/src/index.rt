ghost use Rattle.std.specs.Prelude.{◌≡◌, ◌==◌, ◌&&◌, ◌||◌, ℕ, [], false, not, IfSome, IfNone, OnOk};
ghost use Rattle.server_state.specs.Index.{has, is_of, are_to, IsFirst};

use osd_lists::Memory;
use server_rules::Awaited;
use std::alloc::Global;
use std::collections::BTreeSet;
use std::marker::Model;

/// The replies that files await, each by its nonce, its drive and the file. Contracts see them as a list.
#[derive(Drop)]
pub struct ReplyIndex {
    keys: BTreeSet<(u64, u32, u32)>,
}

impl Model for ReplyIndex {
    ghost use Rattle.server_state.specs.Index.{Keys};

    ghost Value = { Keys };

    ghost view = { λ s. s.keys.keys };
}

impl ReplyIndex {
    /// An index in which no file awaits a reply, which takes no memory.
    pub fn new(alloc: Global) -> Self
        ensures { result ≡ [] }
    {
        ReplyIndex {
            keys: BTreeSet::new(alloc),
        }
    }

    // The file awaits a reply of that nonce from that drive.
    fn add(&mut self, nonce: u64, drive: u32, file: u32) -> Result<(), Memory>
        ensures { OnOk result ((x d m : ℕ) →
            has self.new x d m ≡ (is_of nonce drive file x d m || has self.old x d m)) }
    {
        self.keys.insert((nonce, drive, file))?;
        Ok(())
    }

    // The file doesn't await it any more.
    fn remove(&mut self, nonce: u64, drive: u32, file: u32)
        ensures { (x d m : ℕ) → has self.new x d m ≡ (not (is_of nonce drive file x d m) && has self.old x d m) }
    {
        self.keys.remove(&(nonce, drive, file));
    }

    /// The lowest number of a file that awaits a reply of that nonce from that drive, `None` exactly where none does.
    pub fn first(&self, nonce: u64, drive: u32) -> Option<u32>
        ensures some { IfSome result (IsFirst self.now nonce drive) }
        ensures none { IfNone result ((m : ℕ) → has self.now nonce drive m ≡ false) }
    {
        let (of, from, file) = match self.keys.range((nonce, drive, 0)..).next() {
            Some(key) => *key,
            None => return None,
        };
        if of == nonce && from == drive {
            Some(file)
        } else {
            None
        }
    }

    /// The file awaits the replies to these commands.
    pub fn add_all(&mut self, file: u32, commands: &[Awaited]) -> Result<(), Memory>
        ensures { OnOk result ((x d m : ℕ) →
            has self.new x d m ≡ ((file == m) && are_to commands.now x d || has self.old x d m)) }
    {
        for command in commands {
            self.add(command.command.nonce, command.drive, file)?;
        }
        Ok(())
    }

    /// The file doesn't await the replies to these commands any more.
    pub fn remove_all(&mut self, file: u32, commands: &[Awaited])
        ensures { (x d m : ℕ) →
            has self.new x d m ≡ (not ((file == m) && are_to commands.now x d) && has self.old x d m) }
    {
        for command in commands {
            self.remove(command.command.nonce, command.drive, file);
        }
    }
}
