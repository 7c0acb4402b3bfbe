//! What a person is told beside the program's own line: why words name no command, where a cluster text is wrong, which
//! party of a network failed and why, what is wrong with the file of a store, and which line of a scenario was refused.
//!
//! Nothing rests on these texts. They have no contract, and go to standard error.
#![tactic(auto)]

mod calls;
mod cluster;
mod findings;
mod kept;
mod keys;
mod network;
mod ranges;
mod spots;
mod stores;
mod suggestions;
mod text_lines;
mod words;

pub use cluster::refused_cluster;
pub use kept::{KEPT_BYTES, Kept};
pub use network::{Asker, failed_links, no_number};
pub use stores::{failed_disk, refused_store};
pub use text_lines::line_of;
pub use words::refused_words;
