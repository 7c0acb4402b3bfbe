//! What the metadata server decides and answers on a file.
//!
//! The rows of LAYOUTGET, LAYOUTCOMMIT and LAYOUTRETURN, the layout that an answer carries, answers, recalls
//! and commands as bytes, and messages read from bytes. Each function is one of the rules of
//! `server_rules`.
#![tactic(auto)]

mod answers;
mod commit;
mod get;
mod give_back;
mod grant_lists;
mod incoming;
mod lacks;
mod layout_answer;
mod layouts;
mod messages;
mod outgoing;
mod reports;
mod seals;

pub use answers::{Told, file_answer, plain_answer};
pub use commit::{Committed, commit_row};
pub use get::{Early, Late, Wanted, asked, early_row, late_row, must_fence};
pub use give_back::{Returned, is_among, loss, return_row, without_these};
pub use grant_lists::{against, any_expired, without};
pub use incoming::{Message, message_in};
pub use lacks::{lacked, stands_in};
pub use layout_answer::{granted, stateid_of};
pub use layouts::{capability_for, credential, device_of, rows_in};
pub use messages::{answer_bytes, send_order_answer, send_recalls};
pub use outgoing::{Sends, Sent};
pub use reports::named;
pub use seals::{key_of_drive, sealed_bytes, send_to_drives};
