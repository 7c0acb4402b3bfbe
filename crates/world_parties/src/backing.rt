// What has the objects of a drive, how it goes down and how it is opened again.
ghost use Rattle.std.specs.Prelude.{◌≡◌, ◌∷◌, [], false, true, IfOk, IfErr, OnOk};
ghost use Rattle.drive_store.specs.declared.errors.StoreErr.TheVariants.{Memory as WantOfMemory};
ghost use Rattle.osd_disk.specs.Medium.{bytes_of};
ghost use Rattle.world_history.specs.Drives.{first_key};
ghost use Rattle.world_parties.specs.Backing.{IsOpened, Rests, Stands, Stays, drive_on, is_resting, made_core, state_in};

use drive_store::{StoreErr, StoredDrive};
use osd_disk::FaultlessDisk;
use osd_drive::{DriveCore, DriveKey, KeyTable};
use osd_lists::Memory;
use server_rules::KEY_VERSION;
use std::alloc::Global;
use std::mem;

/// How a drive was made.
#[derive(Clone, Copy)]
pub(crate) struct DriveMake {
    pub number: u32,
    /// The key that it shares with the server.
    pub key: [u8; 20],
    pub capacity: u64,
    /// Whether it keeps over a crash what it has.
    pub stored: bool,
}

/// What has a drive's objects.
#[derive(Drop)]
pub(crate) enum Backing {
    /// Memory alone: nothing keeps them.
    Volatile { core: DriveCore },
    /// A store, which has each change on its disk before the command is answered.
    Stored { store: StoredDrive<FaultlessDisk> },
    /// The disk of a store, as a crash left it.
    Resting { disk: FaultlessDisk },
}

// The keys of a drive: the one that it shares with the server.
fn keys_of(alloc: Global, key: [u8; 20]) -> Result<KeyTable, Memory>
    ensures { IfOk result (λ keys. keys ≡ first_key key ∷ []) }
{
    let mut keys = KeyTable::new(alloc);
    keys.push(DriveKey {
        version: KEY_VERSION,
        key,
    })?;
    Ok(keys)
}

/// What is left of an error of a store whose disk doesn't fail, and whose contents aren't refused.
pub(crate) fn want_of(e: StoreErr) -> Memory
    requires { e ≡ WantOfMemory }
{
    match e {
        StoreErr::Memory => Memory,
        StoreErr::NotEmpty { .. } | StoreErr::DiskFault | StoreErr::NotAStore { .. } =>
            unreachable!(),
    }
}

/// A drive without objects, in memory alone.
pub(crate) fn new_core(alloc: Global, made: DriveMake) -> Result<DriveCore, Memory>
    ensures { IfOk result (λ core. core ≡ made_core made) }
{
    let keys = keys_of(alloc, made.key)?;
    Ok(DriveCore::new(alloc, made.number, keys, made.capacity))
}

// A store without objects.
fn new_store(alloc: Global, made: DriveMake) -> Result<StoredDrive<FaultlessDisk>, Memory>
    ensures { IfOk result (λ store. IsOpened (made_core made) store) }
{
    let keys = keys_of(alloc, made.key)?;
    match StoredDrive::create(
        alloc,
        FaultlessDisk::new(alloc),
        made.number,
        keys,
        made.capacity,
    ) {
        Ok(store) => Ok(store),
        Err((e, _)) => Err(want_of(e)),
    }
}

/// What has the objects of a new drive.
pub(crate) fn new_backing(alloc: Global, made: DriveMake) -> Result<Backing, Memory>
    ensures state { IfOk result (λ backing. state_in made backing ≡ made_core made) }
    ensures stands { IfOk result (λ backing. Stands made backing) }
{
    if made.stored {
        let store = new_store(alloc, made)?;
        Ok(Backing::Stored { store })
    } else {
        let core = new_core(alloc, made)?;
        Ok(Backing::Volatile { core })
    }
}

// Opens the store that a crash left. If there is no memory for it, the disk comes back.
fn open_store(
    alloc: Global,
    made: DriveMake,
    disk: FaultlessDisk,
) -> Result<StoredDrive<FaultlessDisk>, FaultlessDisk>
    requires { Rests made disk }
    ensures opened { IfOk result (λ store. IsOpened (drive_on made (bytes_of disk)) store) }
    ensures back { IfErr result (λ left. bytes_of left ≡ bytes_of disk) }
{
    let keys = match keys_of(alloc, made.key) {
        Ok(keys) => keys,
        Err(Memory) => return Err(disk),
    };
    match StoredDrive::open(alloc, disk, keys) {
        Ok(store) => Ok(store),
        Err((e, disk)) => {
            let Memory = want_of(e);
            Err(disk)
        }
    }
}

// The drive, opened if it was down to its disk. If there is no memory for that, it stays so.
#[tactic(auto, using(crate::proofs::Backings::again, crate::proofs::Backings::came_back))]
fn opened(alloc: Global, made: DriveMake, backing: Backing) -> Result<Backing, Backing>
    requires { Stands made backing }
    ensures ok { IfOk result (λ new. Stays made backing new) }
    ensures awake { IfOk result (λ new. is_resting new ≡ false) }
    ensures err { IfErr result (λ new. Stays made backing new) }
{
    match backing {
        Backing::Resting { disk } => match open_store(alloc, made, disk) {
            Ok(store) => Ok(Backing::Stored { store }),
            Err(disk) => Err(Backing::Resting { disk }),
        },
        other => Ok(other),
    }
}

// What is left after a crash: of a store its disk.
fn left_by_crash(made: DriveMake, backing: Backing) -> Backing
    requires { Stands made backing }
    ensures { Stays made backing result }
{
    let _made = made;
    match backing {
        Backing::Stored { store } => {
            if store.is_over() {
                Backing::Stored { store }
            } else {
                Backing::Resting {
                    disk: store.into_disk().crash(),
                }
            }
        }
        other => other,
    }
}

/// What stands in the place of a backing that is taken out for a moment.
pub(crate) fn placeholder(alloc: Global, made: DriveMake) -> Backing {
    Backing::Volatile {
        core: DriveCore::new(alloc, made.number, KeyTable::new(alloc), made.capacity),
    }
}

// Whether the drive is down to its disk.
fn is_resting(backing: &Backing) -> bool
    ensures { result ≡ is_resting backing.now }
{
    matches!(backing, Backing::Resting { .. })
}

// Opens the drive.
fn open(backing: &mut Backing, alloc: Global, made: DriveMake) -> Result<(), Memory>
    requires { Stands made backing.old }
    ensures stays { Stays made backing.old backing.new }
    ensures awake { OnOk result (is_resting backing.new ≡ false) }
{
    match opened(alloc, made, mem::replace(backing, placeholder(alloc, made))) {
        Ok(new) => {
            *backing = new;
            Ok(())
        }
        Err(left) => {
            *backing = left;
            Err(Memory)
        }
    }
}

/// Opens the drive if it is down to its disk.
pub(crate) fn wake(backing: &mut Backing, alloc: Global, made: DriveMake) -> Result<(), Memory>
    requires { Stands made backing.old }
    ensures stays { Stays made backing.old backing.new }
    ensures awake { OnOk result (is_resting backing.new ≡ false) }
{
    if is_resting(backing) {
        open(backing, alloc, made)
    } else {
        Ok(())
    }
}

/// The drive crashes: a store is down to its disk then, unless a call of the disk wanted memory before.
pub(crate) fn crash(backing: &mut Backing, alloc: Global, made: DriveMake)
    requires { Stands made backing.old }
    ensures { Stays made backing.old backing.new }
{
    *backing = left_by_crash(made, mem::replace(backing, placeholder(alloc, made)));
}
