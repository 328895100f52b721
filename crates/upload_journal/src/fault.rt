//! Why a text is not an entry.
ghost use Rattle.std.specs.Prelude.{◌≡◌};
ghost use Rattle.upload_journal.specs.declared.fault.ReadError.TheVariants.{NoMemory};

use std::alloc::{AllocError, AllocFailed};

/// What is wrong with a text: the first fault from left to right.
#[derive(Clone, Copy, Debug, Drop, PartialEq, Eq)]
pub enum EntryFault {
    /// The text ends within a field.
    Short,
    /// The first byte names no kind of entry.
    UnknownKind,
    /// A name of a repository isn't one.
    BadName,
    /// A digest isn't one.
    BadDigest,
    /// The reference of an upload isn't one, or it isn't in lower case with hyphens.
    BadReference,
    /// A range is marked by another byte than 0 and 1, or it has a position above 10^18.
    BadRange,
    /// A body is marked by another byte than 0 and 1, is too long for an entry, or is in no file.
    BadBody,
    /// The byte before the answer names no kind of answer.
    BadAnswer,
    /// Bytes stand behind the last field.
    Trailing,
    /// The checksum isn't that of the bytes before it: some of them have changed. This is seen before any other fault
    /// of a text that has a checksum.
    BadChecksum,
}

/// Why no entry was read.
#[derive(Clone, Copy, Debug, Drop, PartialEq, Eq)]
pub enum ReadError {
    /// There was no memory to keep what was read.
    NoMemory,
    /// The text is not an entry.
    Fault(EntryFault),
}

impl From<AllocError> for ReadError {
    ghost from_gives = { λ _ e. e ≡ NoMemory };

    fn from(_e: AllocError) -> ReadError {
        ReadError::NoMemory
    }
}

impl<T: Drop> From<AllocFailed<T>> for ReadError {
    ghost from_gives = { λ _ e. e ≡ NoMemory };

    fn from(_e: AllocFailed<T>) -> ReadError {
        ReadError::NoMemory
    }
}
