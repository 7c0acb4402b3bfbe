use data_map::RawMap;
use osd_lists::{Bytes, Sequence};

/// A drive of a cluster.
#[derive(Drop)]
pub struct ClusterDrive {
    /// Below 64.
    pub number: u32,
    /// Host and port, as in `127.0.0.1:7000`.
    pub address: Bytes,
    /// Its key, if the text has it.
    pub key: Option<[u8; 20]>,
    /// In bytes.
    pub capacity: u64,
}

/// A file that the server of a cluster makes.
#[derive(Clone, Copy, PartialEq, Eq, Drop)]
pub struct ClusterFile {
    /// Below 64.
    pub number: u32,
    /// A map that passes its check, with no more components than the cluster has drives.
    pub map: RawMap,
}

/// A cluster as its text describes it.
#[derive(Drop)]
pub struct Cluster {
    /// Host and port of the server.
    pub server: Bytes,
    /// The format of the capabilities that the server writes, 1 or 2; 1 if the text doesn't say.
    pub format: u8,
    /// One to 64, with different numbers.
    pub drives: Sequence<ClusterDrive>,
    /// At most 64, with different numbers.
    pub files: Sequence<ClusterFile>,
}

/// Who reads a cluster text.
#[derive(Clone, Copy, PartialEq, Eq)]
pub enum Reader {
    /// The drive of this number, which has to be in the text. Each drive needs its key.
    Drive(u32),
    /// The server. Each drive needs its key.
    Server,
    /// A client, which needs no key.
    Client,
}
