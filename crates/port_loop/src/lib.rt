//! Many connections at once, and the loop that serves them without threads.
//!
//! It has the trait [`Ports`] of connections that stand side by side, the trait [`Handler`] of what answers records, the trait
//! [`Notes`] of what is told beside them, and [`serve_many`]. No peer holds another up: what there is no room for waits in the
//! session of its connection.
#![tactic(auto)]

mod answering;
mod handler;
mod mem_ports;
mod notes;
mod ports;
mod serving;
mod session;
mod table;

pub use handler::{Handler, HandlerErr};
pub use mem_ports::{MemPorts, Planned, Room};
pub use notes::{MemNotes, Notes};
pub use ports::{Arrival, Happening, Ports};
pub use serving::{LoopErr, MOST_UNSENT, PIECE, serve_many};
pub use session::Session;
