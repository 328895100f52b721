//! What a data directory holds, by the records of its journal.
ghost use Rattle.std.specs.Prelude.{◌≡◌};
ghost use Rattle.blobd_data.specs.Endings.{missing_of};

use crate::fault::DataFault;
use crate::files::list_files;
use crate::line::line_of;
use crate::open::{BEGUN, JOURNAL, Missing};
use journal::{Ending, Journal, Looked};
use journal_file::{FileFrom, OpenFault, Start, look_at};
use sqlite_disk::Disk;
use upload_records::{Census, take_census};
use upload_service::{Counts, Limits};
use upload_store::StoreFault;

/// What a data directory holds, by the records of its journal.
#[derive(Clone, Copy)]
pub struct Status {
    /// The blobs and the open uploads, which are what a start comes to if no record and no body is damaged. One that is
    /// idle counts as open until its table is full.
    pub counts: Counts,
    /// How many records are no entries: they are damaged.
    pub unread: u64,
    /// What tells of others that are lost.
    pub missing: Missing,
}

/// Refuses bodies whose journal was cut before its first record, as a start does.
fn refuse_cut<D: Disk>(rt: &HostRuntime, path: &str, file: &mut D) -> Result<(), DataFault> {
    // What can't be used isn't read either.
    if !file.may_be_used() {
        return Ok(());
    }
    match file.len() {
        Ok(length) if length < BEGUN => {}
        Ok(_) => return Ok(()),
        Err(error) => return Err(DataFault::Journal(OpenFault::from(error))),
    }
    match list_files(rt, path) {
        Ok(files) if files.is_empty() => Ok(()),
        Ok(_) => Err(DataFault::EmptyJournal),
        Err(fault) => Err(DataFault::Bodies(fault)),
    }
}

/// The journal of the data directory at `path`, of a service with these limits, to be read as it stands, also while a
/// server has it: nothing is locked or written. Errors are those of `read_status`.
pub(crate) fn look_at_journal<J: Start>(
    rt: &HostRuntime,
    path: &str,
    limits: Limits,
    start: J,
) -> Result<Journal<FileFrom<J>>, DataFault> {
    let Ok(name) = format!(in rt.alloc(); "{path}/{JOURNAL}") else {
        return Err(DataFault::Store(StoreFault::Journal(journal::Error::NoMemory)));
    };
    match look_at(rt, name.as_str(), start) {
        Ok(mut file) => {
            refuse_cut(rt, path, &mut file)?;
            Ok(Journal::new(file, line_of(limits)))
        }
        Err(OpenFault::NotAFolder) => Err(DataFault::Folder(OpenFault::NotAFolder)),
        Err(fault) => Err(DataFault::Journal(fault)),
    }
}

/// How often a journal is looked at that seems to be broken.
const LOOKS: u32 = 4;

/// What tells of lost records in a journal that was looked at.
pub fn missing_of(looked: Looked) -> Missing
    ensures { result ≡ missing_of looked }
{
    match looked.ending {
        Ending::Broken => Missing::Here,
        _ if looked.has_mark => Missing::Before,
        _ => Missing::None,
    }
}

/// What a journal holds, and how it ends. It may be a server's, who adds to it meanwhile: between two reads it may
/// look as a broken one does. So one that seems to be broken is looked at again.
fn census_of<D: Disk>(
    rt: &HostRuntime,
    journal: &mut Journal<D>,
    limits: Limits,
) -> Result<(Census, Looked), journal::Error> {
    let mut last = take_census(rt.alloc(), journal, limits)?;
    for _ in 1..LOOKS {
        if missing_of(last.1) != Missing::Here {
            return Ok(last);
        }
        last = take_census(rt.alloc(), journal, limits)?;
    }
    Ok(last)
}

/// What the data directory at `path` holds, of a service with these limits. Its journal is read as it stands, also
/// while a server has it: nothing is locked or written, and no body is read.
///
/// `Journal`: the journal isn't there, or can't be opened. `EmptyJournal`: there are bodies, and it was cut before its
/// first record. `Bodies`: they can't be listed then. `Store`: it has another format, another version or other limits,
/// it can't be read, or there is no memory.
pub fn read_status<J: Start>(
    rt: &HostRuntime,
    path: &str,
    limits: Limits,
    start: J,
) -> Result<Status, DataFault> {
    let mut journal = look_at_journal(rt, path, limits, start)?;
    match census_of(rt, &mut journal, limits) {
        Ok((census, looked)) => Ok(Status {
            counts: census.counts(),
            unread: census.unread(),
            missing: missing_of(looked),
        }),
        Err(error) => Err(DataFault::Store(StoreFault::Journal(error))),
    }
}
