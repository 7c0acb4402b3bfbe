/// The layouts of object-based storage (`layouttype4`, RFC 5661 3.3.13), the one type that messages
/// carry.
pub const LAYOUT4_OSD2_OBJECTS: u32 = 2;

/// A return or a recall of one file's layouts (`layoutreturn_type4`, RFC 5661 18.44.1), the one kind
/// that messages carry.
pub(crate) const LAYOUT4_RET_REC_FILE: u32 = 1;

/// The operation of a recall (RFC 5661 20.3).
pub const OP_CB_LAYOUTRECALL: u32 = 5;

/// The layout is for reading (`layoutiomode4`, RFC 5661 3.3.20). Any number of 32 bits is read as an
/// iomode.
pub const LAYOUTIOMODE4_READ: u32 = 1;
/// The layout is for reading and writing.
pub const LAYOUTIOMODE4_RW: u32 = 2;
/// Layouts of either iomode, in a return and a recall.
pub const LAYOUTIOMODE4_ANY: u32 = 3;

/// Done (`nfsstat4`, RFC 5661 15.1). Any number of 32 bits is read as a status.
pub const NFS4_OK: u32 = 0;
/// There is no such file.
pub const NFS4ERR_NOENT: u32 = 2;
/// An argument isn't valid.
pub const NFS4ERR_INVAL: u32 = 22;
/// The server, or the client that a recall asked, can't do it yet.
pub const NFS4ERR_DELAY: u32 = 10_008;
/// The iomode isn't one that can be asked for.
pub const NFS4ERR_BADIOMODE: u32 = 10_049;
/// There is no such layout.
pub const NFS4ERR_BADLAYOUT: u32 = 10_050;
/// The layout isn't to be had for now.
pub const NFS4ERR_LAYOUTTRYLATER: u32 = 10_058;
/// No layout is to be had for this file.
pub const NFS4ERR_LAYOUTUNAVAILABLE: u32 = 10_059;
/// The client holds no layout that a recall matches.
pub const NFS4ERR_NOMATCHING_LAYOUT: u32 = 10_060;
/// The layout is being recalled.
pub const NFS4ERR_RECALLCONFLICT: u32 = 10_061;
/// The sequence number isn't the one that is expected.
pub const NFS4ERR_SEQ_MISORDERED: u32 = 10_063;
