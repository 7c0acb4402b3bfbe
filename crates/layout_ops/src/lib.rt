//! The messages between a client and the metadata server: the operations on layouts of NFSv4.1
//! (RFC 5661) in an envelope of this project's own, read from XDR and written.
//!
//! How a message is spelled stands in `specs/Spelling.antt`, apart from reading and writing. A
//! message has one spelling, and no spelling begins another.
#![tactic(auto)]

mod args;
mod envelope;
mod err;
mod items;
mod messages;
mod operation;
mod orders;
mod parts;
mod recalls;
mod results;
mod statuses;

pub use args::{Args, LayoutCommitArgs, LayoutGetArgs, LayoutReturnArgs};
pub use envelope::{Envelope, read_envelope, write_envelope};
pub use err::OpErr;
pub use items::{STATEID_OTHER_BYTES, StateId, Time};
pub use messages::{Answer, Request};
pub use operation::Operation;
pub use orders::{Order, OrderAnswer, OrderKind, OrderResult};
pub use parts::{MAX_BODY, MAX_FILE_HANDLE};
pub use recalls::{LayoutRecallArgs, Recall, RecallAnswer};
pub use results::{
    LayoutCommitResult, LayoutGetOk, LayoutGetResult, LayoutReturnResult, LayoutSegment, Results,
};
pub use statuses::{
    LAYOUT4_OSD2_OBJECTS, LAYOUTIOMODE4_ANY, LAYOUTIOMODE4_READ, LAYOUTIOMODE4_RW, NFS4_OK,
    NFS4ERR_BADIOMODE, NFS4ERR_BADLAYOUT, NFS4ERR_DELAY, NFS4ERR_INVAL, NFS4ERR_LAYOUTTRYLATER,
    NFS4ERR_LAYOUTUNAVAILABLE, NFS4ERR_NOENT, NFS4ERR_NOMATCHING_LAYOUT, NFS4ERR_RECALLCONFLICT,
    NFS4ERR_SEQ_MISORDERED, OP_CB_LAYOUTRECALL,
};
