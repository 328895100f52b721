//! Why a store can't be opened, or doesn't keep something.
use journal::Error;
use upload_journal::{Entry, ReplayFault};

/// A record that can't be run again.
#[derive(Clone, Copy, Debug, Drop)]
pub struct RefusedRecord {
    /// The time of its batch, in seconds since 1970.
    pub time: u64,
    /// How many records of the journal stand before it.
    pub place: u64,
    pub fault: ReplayFault,
}

/// A record that is lost, since it can't be run again after those before it.
#[derive(Drop)]
pub struct Loss {
    /// The time of its batch, in seconds since 1970.
    pub time: u64,
    /// How many records of the journal stand before it.
    pub place: u64,
    /// Why it can't be run again, which is never a want of memory.
    pub fault: ReplayFault,
    /// What it is read as, if it is an entry: it names its repositories, its upload and its blob.
    pub entry: Option<Entry>,
}

/// Why a store can't be opened, or doesn't keep something.
#[derive(Debug, Drop)]
pub enum StoreFault {
    /// The journal refused it.
    Journal(Error),
    /// A body can't be written, or the numbers of the bodies can't be read.
    Body(bodies::BodyFault),
    /// A record can't be run again.
    Record(RefusedRecord),
    /// Each number from 0 to 2^64 - 1 was used for a body, or is the last one.
    NumbersUsedUp,
}
