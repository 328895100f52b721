use std::io;

/// Why a journal didn't do what was asked of it.
#[derive(Debug, Drop)]
pub enum Error {
    /// It isn't open: it was not recovered yet, or a sync or the write of a gate has failed since.
    Closed,
    /// The file has bytes that no journal begins with.
    NotAJournal,
    /// The file is a journal of another version of the format.
    OtherVersion,
    /// The journal was begun with other parameters.
    OtherParameters,
    /// The file would get 2^63 bytes, or has almost as many.
    TooLong,
    /// A record doesn't fit into memory.
    NoMemory,
    /// The disk refused a call, as when it is full.
    Disk(io::Error),
    /// The machine refused a record.
    Machine(io::Error),
}
