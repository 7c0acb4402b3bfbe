//! What repairs, rebuilds and audits a file's stripes, and where components are placed.
//!
//! A job works a file in pieces, each some columns of one stripe. What is read of a piece and what is
//! written are functions of the map, the components and the bytes that were read, and follow the rules of
//! `server_rules`. No list of pieces is ever made: a [`PieceCursor`] stands for it.
#![tactic(auto)]

mod audit;
mod codewords;
mod columns;
mod commands;
mod cursor;
mod group_cursor;
mod lengths;
mod loads;
mod marks;
mod offsets;
mod piece_reads;
mod piece_writes;
mod placement;
mod placer;
mod rebuild;
mod repair;
mod replicas;
mod restored;
mod rows;
mod stripe_state;

pub use audit::Audit;
pub use codewords::{code_of, unit_with, wanted_rows};
pub use columns::{end_unlike, filled, first_unlike};
pub use commands::{Ask, Which, is_meant, sent_to, to_all, write_to};
pub use cursor::PieceCursor;
pub use group_cursor::GroupCursor;
pub use loads::{DriveLoad, online_count, zone_loads};
pub use marks::Marks;
pub use offsets::offset_of;
pub use piece_reads::{has_short_stripe, is_left, mark_short, reads, repair_reads, sources};
pub use piece_writes::stores;
pub use placement::Placement;
pub use placer::{Place, Placer};
pub use rebuild::{FillStage, FillStep, Rebuild};
pub use repair::{Repair, Stage};
pub use replicas::{group_with, is_beyond, is_short, lacking, replica};
pub use restored::{fill, lost_units, made};
pub use rows::{row_from, unit_rows};
pub use stripe_state::{StripeState, judge};
pub use zone_place::MAX_DRIVES;
