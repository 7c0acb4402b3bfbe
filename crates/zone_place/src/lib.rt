//! How the components of a file are spread over zones of drives: rooms, racks or power supplies that fail as one.
//!
//! A group of a file keeps at most as many components in one zone as its code can lose, so that every byte can still
//! be read when a whole zone is gone.
#![tactic(auto)]

mod asks;
mod dealing;
mod loads;
mod picking;
mod placer;
mod room;

pub use asks::{ZoneAsk, zone_ask};
pub use dealing::deal;
pub use loads::{Holder, MAX_DRIVES, ZoneLoad};
pub use picking::pick;
pub use placer::ZonePlacer;
pub use room::zone_room;
