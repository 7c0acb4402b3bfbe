//! The metadata server, without a network: messages, orders and calls in, and what goes out of each step.
//!
//! [`ServerCore`] is a server that is given messages and calls; each public call says with the rules of
//! `server_rules` which state follows, what is sent and what is told. The steps that no client asks for have modules
//! of their own: drives' replies, orders, declared drives, files that are made, a crash and the opening after it.
#![tactic(auto)]

mod drives;
mod kept_files;
mod loads;
mod lost_drives;
mod messages;
mod new_files;
mod openings;
mod orders;
mod replies;
mod resends;
mod rounds;
mod server;
mod zones;

pub use drives::{DriveInfo, DriveTable, add_drive, add_drives};
pub use loads::loads_of;
pub use lost_drives::order_declare;
pub use new_files::{FileErr, checked_64, create_file, has_file};
pub use openings::{crash, reopen};
pub use orders::{Obeyed, order_job, order_recall};
pub use replies::on_drive_reply;
pub use resends::{resend, waits};
pub use server::ServerCore;
pub use server_requests::{Sends, Sent};
pub use server_state::{Notes, Repairs, Step};
pub use zones::{ZoneErr, set_zone};
