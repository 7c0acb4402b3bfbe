// Why a call of a file disk failed, for a person to read.
use std::fmt::{Display, Formatter, Write};
use std::io::ErrorKind;
use std::{fmt, io};

/// Why a call of a file disk failed.
#[derive(Drop)]
pub enum FileCause {
    /// No file was opened, or a call on it failed before.
    NotOpen,
    /// The folder that the file should stand in doesn't exist.
    NoFolder,
    /// What has the name is no plain file.
    NotAFile,
    /// Another process has the file open as its disk.
    InUse,
    /// Others than its owner may read or write the file, and this user can't change that.
    NotPrivate,
    /// The system doesn't allow it.
    Forbidden,
    /// No space is left for the file.
    Full,
    /// The file would get longer than the system's files may be.
    TooLong,
    /// What else the system said.
    System(io::Error),
}

impl FileCause {
    // Why a call of the system failed on a file.
    pub(crate) fn of(e: io::Error) -> Self {
        match e.kind() {
            ErrorKind::NotFound | ErrorKind::NotADirectory => FileCause::NoFolder,
            ErrorKind::IsADirectory => FileCause::NotAFile,
            ErrorKind::PermissionDenied | ErrorKind::ReadOnlyFilesystem => FileCause::Forbidden,
            ErrorKind::StorageFull | ErrorKind::QuotaExceeded => FileCause::Full,
            ErrorKind::FileTooLarge => FileCause::TooLong,
            _ => FileCause::System(e),
        }
    }

    fn text(&self) -> &'static str {
        match self {
            FileCause::NotOpen => "it isn't open, or failed before",
            FileCause::NoFolder => "its folder doesn't exist",
            FileCause::NotAFile => "it is no plain file",
            FileCause::InUse => "another process has it open",
            FileCause::NotPrivate =>
                "others may read or write it, and only its owner can change that",
            FileCause::Forbidden => "the system doesn't allow it",
            FileCause::Full => "no space is left for it",
            FileCause::TooLong => "it would get too long",
            FileCause::System(_) => "the system refused it",
        }
    }
}

impl Display for FileCause {
    fn fmt<W: Write>(&self, f: &mut Formatter<W>) -> fmt::Result {
        match self {
            FileCause::System(e) => Display::fmt(e, f),
            _ => f.write_str(self.text()),
        }
    }
}
