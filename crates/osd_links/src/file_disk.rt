// A disk that is a file of the system.
ghost use Rattle.std.specs.Prelude.{◌≡◌, ◌<◌, ◌≤◌, ◌+◌, ◌^◌, length, IfOk};
ghost use Rattle.osd_bytes.specs.Causes.{Rose};

use crate::file_causes::FileCause;
use crate::read_ahead::ReadAhead;
use crate::write_ahead::WriteAhead;
use osd_disk::{Disk, DiskErr};
use std::alloc::AllocGlobal;
use std::fs::{File, OpenOptions, Permissions, TryLockError};
use std::io;
use std::os::fd::AsRawFd;
use std::os::unix::fs::{FileExt, OpenOptionsExt, PermissionsExt};
use std::rt::Files;

// Who may read and write the file: its owner alone.
const OWNER_ALONE: u32 = 0o600;

// What a file's group and all others may do with it.
const OF_OTHERS: u32 = 0o077;

// No file has bytes from this place on.
const MAX_SIZE: u64 = 1 << 63;

// The greatest number of a standard stream.
const STANDARD_ERROR: i32 = 2;

/// A disk that is a file. It tells nothing of its bytes: that the system's file is a disk as the
/// trait says is trusted.
///
/// After a call that failed each call fails, since what a failed sync left behind isn't known. The
/// file is locked against other processes as long as the disk is open. Whoever made it, only its owner may read and write it once
/// it is open (mode 0600): where that can't be set, since another user owns it, it isn't opened.
///
/// What is read is read ahead: reads that follow one another, as those of a log, cost few calls of the system.
///
/// Behind a short write with which the file ends it writes zeros, so that syncs of a file that grows cost less. They stay in the
/// file, and [`Disk::size`] and [`Disk::read`] tell of them. So what stands on it has to end by its own bytes, as a log does.
#[derive(Drop)]
pub struct FileDisk<R> {
    runtime: R,
    file: Option<File>,
    ahead: ReadAhead,
    room: WriteAhead,
    // Nothing was written since the last sync.
    is_synced: bool,
    faults: u64,
    last: Option<FileCause>,
}

impl<R: AllocGlobal> FileDisk<R> {
    /// A disk whose file isn't opened yet, by a handle of the runtime.
    pub fn new(runtime: R) -> Self {
        let ahead = ReadAhead::new(runtime.alloc());
        let room = WriteAhead::new(runtime.alloc());
        FileDisk {
            runtime,
            file: None,
            ahead,
            room,
            is_synced: false,
            faults: 0,
            last: None,
        }
    }
}

impl<R> FileDisk<R> {
    ghost use Rattle.osd_disk.specs.declared.disk.DiskErr.TheVariants.{Fault};

    /// Why the call failed that failed last.
    pub fn last_fault(&self) -> Option<&FileCause> {
        self.last.as_ref()
    }

    // Closes the file, counts the fault, and keeps its cause.
    fn fail(&mut self, cause: FileCause) -> DiskErr
        ensures error { result ≡ Fault }
        ensures count { Rose self.old.faults self.new.faults }
        ensures later { self.old.faults ≤ self.new.faults }
    {
        self.file = None;
        self.ahead.forget();
        self.faults = self.faults.saturating_add(1);
        self.last = Some(cause);
        DiskErr::Fault
    }
}

// The folder that a file of this name stands in.
fn folder_of(name: &str) -> &str {
    match name.rsplit_once('/') {
        Some(("", _)) => "/",
        Some((folder, _)) => folder,
        None => ".",
    }
}

// Opens a plain file, which is made if there is none, and locks it.
fn open_locked<R: Files<File = File>>(runtime: &R, name: &str) -> Result<File, FileCause> {
    let opened = OpenOptions::new()
        .read(true)
        .write(true)
        .create(true)
        .mode(OWNER_ALONE)
        .open(runtime, name);
    let mut file = opened.map_err(FileCause::of)?;
    // What is printed to a standard stream that was closed must not land in the file.
    if file.as_raw_fd() <= STANDARD_ERROR {
        file = file.try_clone().map_err(FileCause::of)?;
    }
    if !file.metadata().map_err(FileCause::of)?.is_file() {
        return Err(FileCause::NotAFile);
    }
    match file.try_lock() {
        Ok(()) => {
            keep_private(&file)?;
            Ok(file)
        }
        Err(TryLockError::WouldBlock) => Err(FileCause::InUse),
        Err(TryLockError::Error(e)) => Err(FileCause::of(e)),
    }
}

// Leaves a file that others may read or write to its owner alone: a store has what clients wrote, and a journal has the drives'
// keys.
fn keep_private(file: &File) -> Result<(), FileCause> {
    let permissions = file.metadata().map_err(FileCause::of)?.permissions();
    if permissions.mode() & OF_OTHERS == 0 {
        return Ok(());
    }
    let set = file.set_permissions(Permissions::from_mode(OWNER_ALONE));
    set.map_err(|_| FileCause::NotPrivate)
}

// Makes a file and its name in its folder last. From then on the file is read from the device: the
// system's own copy may be newer than the device's, where an earlier process had a sync that failed.
fn settle<R: Files<File = File>>(runtime: &R, file: &File, name: &str) -> io::Result<()> {
    file.sync_all()?;
    let folder = OpenOptions::new()
        .read(true)
        .open(runtime, folder_of(name))?;
    folder.sync_all()?;
    match libc::posix_fadvise(file.as_raw_fd(), 0, 0, libc::POSIX_FADV_DONTNEED) {
        0 => Ok(()),
        error => Err(io::Error::from_raw_os_error(error)),
    }
}

fn open_file<R: Files<File = File>>(runtime: &R, name: &str) -> Result<File, FileCause> {
    let file = open_locked(runtime, name)?;
    match settle(runtime, &file, name) {
        Ok(()) => Ok(file),
        Err(e) => Err(FileCause::of(e)),
    }
}

// How many bytes a file has.
fn size_of(file: &Option<File>) -> Result<u64, FileCause>
    ensures { IfOk result (λ n. n < 2 ^ 63) }
{
    let Some(file) = file else {
        return Err(FileCause::NotOpen);
    };
    let size = file.metadata().map_err(FileCause::of)?.len();
    if size >= MAX_SIZE {
        return Err(FileCause::TooLong);
    }
    Ok(size)
}

// Reads some bytes of a file.
fn read_some(
    file: &Option<File>,
    ahead: &mut ReadAhead,
    at: u64,
    buf: &mut [u8],
) -> Result<usize, FileCause>
    ensures { IfOk result (λ n. n ≤ length buf.old) }
{
    let Some(file) = file else {
        return Err(FileCause::NotOpen);
    };
    match ahead.read(file, at, buf) {
        Ok(count) => Ok(count),
        Err(cause) => Err(cause),
    }
}

// Writes all bytes to a file, and zeros behind them where they are to be.
fn write_whole(
    file: &Option<File>,
    room: &mut WriteAhead,
    at: u64,
    bytes: &[u8],
) -> Result<(), FileCause>
    ensures { IfOk result (λ _. at + length bytes.now < 2 ^ 63) }
{
    let Some(file) = file else {
        return Err(FileCause::NotOpen);
    };
    if at >= MAX_SIZE || bytes.len() as u64 >= MAX_SIZE - at {
        return Err(FileCause::TooLong);
    }
    match file.write_all_at(bytes, at) {
        Ok(()) => {
            room.follow(file, at, bytes.len());
            Ok(())
        }
        Err(e) => Err(FileCause::of(e)),
    }
}

// Makes all that was written last.
fn sync_data(file: &Option<File>) -> Result<(), FileCause> {
    let Some(file) = file else {
        return Err(FileCause::NotOpen);
    };
    match file.sync_data() {
        Ok(()) => Ok(()),
        Err(e) => Err(FileCause::of(e)),
    }
}

impl<R: Files<File = File> + Drop> Disk for FileDisk<R> {
    ghost use Rattle.std.specs.Prelude.{[], false};
    ghost use Rattle.std.proofs.lemmas.Bool.{false≢true};

    ghost tells = { λ _. false };

    ghost seen = { λ _. [] };

    ghost may_leave = { λ _ _. ⊥ };

    ghost moment = { λ _. 0 };

    ghost left_since = { λ _ _ _. ⊥ };

    ghost faults = { λ d. d.faults };

    ghost counts_now = { λ d t c le now. now };

    ghost only_now = { λ d c left. left };

    ghost seen_may_stay = { λ d told. absurd (false≢true told) };

    fn open(&mut self, name: &str) -> Result<(), DiskErr> {
        match open_file(&self.runtime, name) {
            Ok(file) => {
                self.file = Some(file);
                self.ahead.forget();
                self.room.forget();
                self.is_synced = true;
                Ok(())
            }
            Err(cause) => Err(self.fail(cause)),
        }
    }

    fn size(&mut self) -> Result<u64, DiskErr> {
        match size_of(&self.file) {
            Ok(size) => Ok(size),
            Err(cause) => Err(self.fail(cause)),
        }
    }

    fn read(&mut self, at: u64, buf: &mut [u8]) -> Result<usize, DiskErr> {
        match read_some(&self.file, &mut self.ahead, at, buf) {
            Ok(count) => Ok(count),
            Err(cause) => Err(self.fail(cause)),
        }
    }

    fn write_at(&mut self, at: u64, bytes: &[u8]) -> Result<(), DiskErr> {
        self.ahead.forget();
        self.is_synced = false;
        match write_whole(&self.file, &mut self.room, at, bytes) {
            Ok(()) => Ok(()),
            Err(cause) => Err(self.fail(cause)),
        }
    }

    fn sync(&mut self) -> Result<(), DiskErr> {
        // What was synced when it was opened needs no second sync.
        if self.is_synced && self.file.is_some() {
            return Ok(());
        }
        match sync_data(&self.file) {
            Ok(()) => {
                self.is_synced = true;
                Ok(())
            }
            Err(cause) => Err(self.fail(cause)),
        }
    }
}
