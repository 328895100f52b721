//! What is known of a file in a folder that was closed.
use journal_file::{FileFrom, Start};
use std::snapshot::Snapshot;
use upload_bytes::SyncedFile;

/// What is known of a file that was closed.
#[derive(Drop)]
pub enum Closed<S: Start> {
    /// It was written under its number.
    Written(Snapshot<FileFrom<S>>),
    /// It had just these bytes on the disk before it had a number.
    Whole(Snapshot<SyncedFile>),
}
