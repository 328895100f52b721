//! What is noted of the files of a folder.
use journal_file::Notes;
use std::snapshot::Snapshot;

/// A call with its answer. Each names the number of a file, and `F` is what is known of one that was closed.
#[derive(Drop)]
pub enum Call<F> {
    /// Its file was made.
    Made(u64),
    /// Its file was to be made, and something stood there.
    Taken(u64),
    /// It had no file.
    Missing(u64),
    /// Its file was closed.
    Closed(u64, F),
    /// Its name was synced.
    Synced(u64),
    /// Its file was removed.
    Removed(u64),
    /// At an offset so many bytes were asked for, and these came.
    Read(u64, u64, u64, Notes<u64>),
    /// It was read whole, and these came, the last one first.
    Whole(u64, Notes<u64>),
    /// These are all that were there.
    Listed(Snapshot<Vec<u64>>),
    /// The system refused it, or there was no memory for it.
    Failed,
}
