//! Why a request isn't kept.
use bodies::BodyFault;
use std::io::ErrorKind;
use upload_store::StoreFault;

/// Why a request isn't kept.
#[derive(Debug, Drop)]
pub enum KeepFault {
    /// There was no memory for what is to be kept of it.
    NoMemory,
    /// It can't change anything, and its answer tells of a change. A service gives none.
    NoChange,
    /// Its body, or the entries of its round, could not be put on the disk.
    Store(StoreFault),
}

impl KeepFault {
    /// Whether there was no room, on the disk or in memory, as there may be later.
    pub(crate) fn is_want_of_room(&self) -> bool {
        match self {
            KeepFault::NoMemory => true,
            KeepFault::NoChange => false,
            KeepFault::Store(StoreFault::Journal(journal::Error::Disk(error))) => {
                is_full(error.kind())
            }
            KeepFault::Store(StoreFault::Body(BodyFault::Io(error))) => is_full(error.kind()),
            KeepFault::Store(_) => false,
        }
    }
}

/// Whether an error of the system says that there is no room.
fn is_full(kind: ErrorKind) -> bool {
    matches!(
        kind,
        ErrorKind::StorageFull
            | ErrorKind::QuotaExceeded
            | ErrorKind::FileTooLarge
            | ErrorKind::OutOfMemory
    )
}
