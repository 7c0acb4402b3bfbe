// A drive that is kept in a store, as what takes commands.
ghost use Rattle.std.specs.Prelude.{◌≡◌};
ghost use Rattle.drive_store.specs.declared.errors.StoreErr.TheVariants.{DiskFault};
ghost use Rattle.drive_store.specs.Errors.{IsOfDisk};
ghost use Rattle.drive_command.specs.StoredServer.{handle_err_of};

use crate::device_server::{DeviceServer, HandleErr};
use drive_store::{StoreErr, StoredDrive};
use osd_commands::Reply;
use osd_disk::Disk;
use std::alloc::Global;

// A store that is open refuses no contents.
fn handle_err_of(e: StoreErr) -> HandleErr
    requires { IsOfDisk e }
    ensures { result ≡ handle_err_of e }
{
    match e {
        StoreErr::DiskFault => HandleErr::DiskFault,
        StoreErr::Memory => HandleErr::Memory,
        StoreErr::NotEmpty { .. } | StoreErr::NotAStore { .. } => unreachable!(),
    }
}

impl<D: Disk> DeviceServer for StoredDrive<D> {
    ghost use Rattle.drive_store.specs.Stores.{IsKept, IsStoreOf, core_of, disk_in, is_over_in};
    ghost use Rattle.drive_command.specs.StoredServer.{stays};

    ghost drive = { λ store. core_of store };

    ghost is_over = { λ store. is_over_in store };

    ghost faults = { λ store. D.faults (disk_in store) };

    ghost keeps = { λ store. IsKept D.tells D.seen D.may_leave store };

    ghost moment = { λ store. D.moment (disk_in store) };

    ghost left_since = { λ store. D.left_since (disk_in store) };

    ghost stands_for = { λ d c. IsStoreOf d c };

    ghost kept_stays = { stays D.tells D.seen D.may_leave D.moment D.left_since D.only_now };

    fn number(&self) -> u32 {
        StoredDrive::number(self)
    }

    fn handle(&mut self, alloc: Global, now: u64, message: &[u8]) -> Result<Reply, HandleErr> {
        match StoredDrive::handle(self, alloc, now, message) {
            Ok(reply) => Ok(reply),
            Err(e) => Err(handle_err_of(e)),
        }
    }
}
