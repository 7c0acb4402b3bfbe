// Why serving stops.
use thiserror::Error;

/// Why a drive stopped serving before its time.
#[derive(Clone, Copy, Debug, PartialEq, Eq, Error)]
pub enum DriveServeErr {
    /// Its connections couldn't be waited for.
    #[error("the connections failed")]
    LinkFault,
    /// The disk that keeps the drive failed.
    #[error("the disk failed")]
    DiskFault,
    /// There was no memory.
    #[error("out of memory")]
    Memory,
}
