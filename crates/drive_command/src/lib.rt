//! What the commands of a drive stand on: what takes the commands that come to it, in memory alone or from its store on a disk,
//! and the lines that it tells.
#![tactic(auto)]

mod device_server;
mod opened;
mod own;
mod refusals;
mod serve_err;
mod stored_lines;
mod stored_server;
mod stored_stop;

pub use device_server::{DeviceServer, HandleErr};
pub use opened::{OwnStore, store_on};
pub use own::{KEY_VERSION, new_core, own_drive};
pub use refusals::{is_told, refusal_line};
pub use serve_err::DriveServeErr;
pub use stored_lines::put_stored_stop;
pub use stored_stop::{StoredStop, stop_of_serving};
