//! A request that was noted, with what stands ready for it.
use crate::entry::Drafted;
use crate::note::Note;
use bodies::Shelf;
use sqlite_disk::Disk;

/// A request that was noted, and its entry up to its answer.
#[derive(Drop)]
pub(crate) struct Noted<D: Disk, S: Shelf> {
    pub(crate) note: Note,
    pub(crate) drafted: Drafted<D, S>,
}
