//! Why a folder or a file of it can't be opened.
ghost use Rattle.std.specs.Prelude.{◌≡◌, Some};
ghost use Rattle.std.specs.IoError.{error_kind};
ghost use Rattle.journal_file.specs.Faults.{fault_of, fault_text, IsNamed};

use std::fmt;
use std::fs::TryLockError;
use std::io::{self, ErrorKind};

/// Why a folder or a file of it can't be opened.
#[derive(Clone, Copy, Debug)]
pub enum OpenFault {
    /// What stands at the folder's name is a file, a link or something else, or a part of its path is.
    NotAFolder,
    /// What stands at the file's name is a folder, a link or something else.
    NotAFile,
    /// This process may not read it, or not write it, or not make it.
    Denied,
    /// Another process, or another value of this one, has the folder locked.
    Locked,
    /// The file has 2^63 bytes or more.
    TooLong,
    /// Anything else that the system answers, and a want of memory.
    Io(io::Error),
}

impl From<io::Error> for OpenFault {
    ghost from_gives = { λ error fault. fault ≡ fault_of error };

    fn from(error: io::Error) -> OpenFault {
        match error.kind() {
            ErrorKind::NotADirectory => OpenFault::NotAFolder,
            ErrorKind::IsADirectory => OpenFault::NotAFile,
            ErrorKind::PermissionDenied | ErrorKind::ReadOnlyFilesystem => OpenFault::Denied,
            _ => OpenFault::Io(error),
        }
    }
}

impl fmt::Display for OpenFault {
    ghost output = { fault_text };

    fn fmt<W: fmt::Write>(&self, f: &mut fmt::Formatter<W>) -> fmt::Result {
        match self {
            OpenFault::NotAFolder => f.write_str("not a folder"),
            OpenFault::NotAFile => f.write_str("not a file"),
            OpenFault::Denied => f.write_str("no leave to read and write it"),
            OpenFault::Locked => f.write_str("another process has it locked"),
            OpenFault::TooLong => f.write_str("a file of 2^63 bytes or more"),
            OpenFault::Io(error) => write!(f, "{error}"),
        }
    }
}

impl std::error::Error for OpenFault {}

impl From<TryLockError> for OpenFault {
    ghost from_gives = { λ _ fault. IsNamed fault };

    fn from(error: TryLockError) -> OpenFault {
        match error {
            TryLockError::WouldBlock => OpenFault::Locked,
            TryLockError::Error(error) => OpenFault::from(error),
        }
    }
}
