//! Why bytes are not a record's.
ghost use Rattle.std.specs.Prelude.{◌≡◌};
ghost use Rattle.upload_claims.specs.declared.fault.ReadError.TheVariants.{NoMemory};

use std::alloc::{AllocError, AllocFailed};

/// What is wrong with bytes that are not a record's: the first fault from left to right.
#[derive(Clone, Copy, Debug, Drop, PartialEq, Eq)]
pub enum RecordFault {
    /// The bytes end within the record.
    Short,
    /// The byte after the checksum names no kind of record.
    NotARecord,
    /// The body would be longer than one that is kept in a record.
    TooLong,
    /// The checksum isn't that of the head and the changes at this address: some of their bytes have changed, or they
    /// were written for another address.
    BadChecksum,
    /// The body's checksum isn't that of its bytes.
    BadBody,
    /// A change begins with a byte that names no kind of change. This fault and those below come only from a record
    /// whose checksum is right: it was written so.
    UnknownChange,
    /// A name of a repository isn't one.
    BadName,
    /// A digest isn't one.
    BadDigest,
    /// A place is marked by another byte than 0 and 1.
    BadPlace,
    /// Bytes stand after the last change.
    Trailing,
}

/// Why nothing was read.
#[derive(Clone, Copy, Debug, Drop, PartialEq, Eq)]
pub enum ReadError {
    /// There was no memory to keep what was read.
    NoMemory,
    /// The bytes are not a record's.
    Fault(RecordFault),
}

impl From<AllocError> for ReadError {
    ghost from_gives = { λ _ e. e ≡ NoMemory };

    fn from(_e: AllocError) -> ReadError {
        ReadError::NoMemory
    }
}

impl<T: Drop> From<AllocFailed<T>> for ReadError {
    ghost from_gives = { λ _ e. e ≡ NoMemory };

    fn from(_e: AllocFailed<T>) -> ReadError {
        ReadError::NoMemory
    }
}
