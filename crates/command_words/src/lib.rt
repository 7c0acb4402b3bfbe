//! The words of the commands over a network: `drive`, `stored-drive`, `server`, `stored-server` and `client`, whose options are
//! read by one simple command of `clap` each. Of words that name no command at all, [`refusal_text`] has what `clap` says.
#![tactic(auto)]

mod numbers;
mod options;
mod program;
mod stored_words;
mod words;
mod work;

pub use program::refusal_text;
pub use stored_words::{
    StoredDriveWords, StoredServerWords, stored_drive_words, stored_server_words,
};
pub use words::{
    ClientWords, DriveWords, FirstNumber, MAX_CLIENT, MAX_DRIVE, ServerWords, WordsErr,
    client_words, drive_words, server_words,
};
pub use work::{ClientWork, Order};
