//! Why a data directory can't be used.
use crate::texts::{AT_THE_END, StoreText};
use journal_file::OpenFault;
use std::fmt;
use upload_journal::ReplayFault;
use upload_store::{RefusedRecord, StoreFault};

/// Why a data directory can't be used.
#[derive(Debug, Drop)]
pub enum DataFault {
    /// The folder can't be opened or made, or another server has it.
    Folder(OpenFault),
    /// Its journal can't be opened or made.
    Journal(OpenFault),
    /// Its folders of bodies can't be opened or made.
    Bodies(OpenFault),
    /// It has no journal, and what no server has made.
    NotEmpty,
    /// It has a journal, and no folder of bodies.
    NoBodies,
    /// It has bodies, and no journal that says what they are.
    NoJournal,
    /// It has bodies, and its journal was cut before its first record.
    EmptyJournal,
    /// Its journal ends as no crash leaves it: batches of records are lost there.
    BrokenJournal,
    /// More sectors of its journal are damaged than one start mends.
    HalfMended,
    /// What it has can't be read, or is not what a server with these limits has written.
    Store(StoreFault),
}

impl DataFault {
    /// Whether there was no memory for a record, or no room within what the service may hold.
    pub fn lacks_room(&self) -> bool {
        matches!(
            self,
            DataFault::Store(StoreFault::Record(RefusedRecord {
                fault: ReplayFault::NoMemory,
                ..
            }))
        )
    }
}

impl From<StoreFault> for DataFault {
    fn from(fault: StoreFault) -> DataFault {
        DataFault::Store(fault)
    }
}

impl fmt::Display for DataFault {
    fn fmt<W: fmt::Write>(&self, f: &mut fmt::Formatter<W>) -> fmt::Result {
        match self {
            DataFault::Folder(OpenFault::Locked) => f.write_str("another server has it"),
            DataFault::Folder(fault) => write!(f, "{fault}"),
            DataFault::Journal(fault) => write!(f, "journal: {fault}"),
            DataFault::Bodies(fault) => write!(f, "bodies: {fault}"),
            DataFault::NotEmpty => f.write_str("it isn't empty, and has no journal"),
            DataFault::NoBodies => f.write_str("it has a journal, but its bodies are missing"),
            DataFault::NoJournal => f.write_str("it has bodies, but its journal is missing"),
            DataFault::EmptyJournal => f.write_str("it has bodies, but its journal is empty"),
            DataFault::BrokenJournal => write!(f, "journal: {AT_THE_END}"),
            DataFault::HalfMended => {
                f.write_str("journal: more sectors are damaged than one start mends")
            }
            DataFault::Store(fault) => write!(f, "{}", StoreText(fault)),
        }
    }
}

impl std::error::Error for DataFault {}
