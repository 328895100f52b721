//! Why a journal isn't written anew.
use std::alloc::{AllocError, AllocFailed};
use upload_store::StoreFault;

/// Why a journal isn't written anew. The old one is as it was.
#[derive(Debug, Drop)]
pub enum CompactFault {
    /// There was no memory.
    NoMemory,
    /// The old journal can't be run again, or a body can't be written.
    Old(StoreFault),
    /// The new journal can't be written, or can't be run.
    New(StoreFault),
    /// What the new journal stands for isn't what the old one does.
    NotTheSame,
}

impl From<AllocError> for CompactFault {
    fn from(_error: AllocError) -> CompactFault {
        CompactFault::NoMemory
    }
}

impl<T: Drop> From<AllocFailed<T>> for CompactFault {
    fn from(_failed: AllocFailed<T>) -> CompactFault {
        CompactFault::NoMemory
    }
}
