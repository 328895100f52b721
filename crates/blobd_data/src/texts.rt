//! What is told of the faults of a store.
ghost use Rattle.std.specs.Prelude.{◌≡◌};
ghost use Rattle.blobd_data.specs.Hints.{hint_on, hint_on_folder, hint_on_journal, hint_on_store};

use crate::fault::DataFault;
use blobd_shared::TimeOfDay;
use journal_file::OpenFault;
use std::fmt;
use upload_journal::{BodyFault, EntryFault, ReplayFault};
use upload_keeping::KeepFault;
use upload_store::{RefusedRecord, StoreFault};

/// What is told of a journal that ends as no crash leaves it.
pub(crate) const AT_THE_END: &str =
    "records are missing at its end: it is damaged or cut there, or a copy that was made while a server wrote";

/// What is told of why a store can't be opened, or doesn't keep something.
#[derive(Drop)]
pub(crate) struct StoreText<'a>(pub(crate) &'a StoreFault);

/// What is told of why a change isn't kept.
#[derive(Drop)]
pub(crate) struct KeepText<'a>(pub(crate) &'a KeepFault);

#[derive(Drop)]
struct JournalText<'a>(&'a journal::Error);

/// What is told of a record that can't be run again.
#[derive(Drop)]
pub(crate) struct RecordText {
    pub(crate) time: u64,
    pub(crate) place: u64,
    pub(crate) fault: ReplayFault,
}

#[derive(Drop)]
struct ReplayText(ReplayFault);

impl<'a> fmt::Display for KeepText<'a> {
    fn fmt<W: fmt::Write>(&self, f: &mut fmt::Formatter<W>) -> fmt::Result {
        match self.0 {
            KeepFault::NoMemory => f.write_str("no memory for what is kept of a request"),
            KeepFault::NoChange => f.write_str("an answer tells of a change that there can't be"),
            KeepFault::Store(fault) => write!(f, "{}", StoreText(fault)),
        }
    }
}

impl<'a> fmt::Display for StoreText<'a> {
    fn fmt<W: fmt::Write>(&self, f: &mut fmt::Formatter<W>) -> fmt::Result {
        match self.0 {
            StoreFault::Journal(error) => write!(f, "journal: {}", JournalText(error)),
            StoreFault::Body(fault) => write!(f, "bodies: {fault}"),
            StoreFault::NumbersUsedUp => f.write_str("bodies: no number is left for another one"),
            StoreFault::Record(RefusedRecord { time, place, fault }) => {
                let record = RecordText {
                    time: *time,
                    place: *place,
                    fault: *fault,
                };
                write!(f, "{record}")
            }
        }
    }
}

impl<'a> fmt::Display for JournalText<'a> {
    fn fmt<W: fmt::Write>(&self, f: &mut fmt::Formatter<W>) -> fmt::Result {
        match self.0 {
            journal::Error::Closed => f.write_str("a write or a sync has failed before"),
            journal::Error::NotAJournal => f.write_str("no server has written it"),
            journal::Error::OtherVersion => f.write_str("it has the format of another version"),
            journal::Error::OtherParameters => {
                f.write_str("another version has written it, or a server with other limits")
            }
            journal::Error::TooLong => f.write_str("it has almost 2^63 bytes"),
            journal::Error::NoMemory => f.write_str("no memory for a record"),
            journal::Error::Disk(error) => write!(f, "{error}"),
            journal::Error::Machine(error) => write!(f, "{error}"),
        }
    }
}

impl fmt::Display for RecordText {
    fn fmt<W: fmt::Write>(&self, f: &mut fmt::Formatter<W>) -> fmt::Result {
        write!(
            f,
            "journal: record {}, written {}, can't be run again: {}",
            self.place,
            TimeOfDay(self.time),
            ReplayText(self.fault)
        )
    }
}

impl fmt::Display for ReplayText {
    fn fmt<W: fmt::Write>(&self, f: &mut fmt::Formatter<W>) -> fmt::Result {
        match self.0 {
            ReplayFault::NoMemory => f.write_str("no memory for it"),
            ReplayFault::NotAnEntry(fault) => f.write_str(entry_text(fault)),
            ReplayFault::MomentFalls => f.write_str("it is older than the one before it"),
            ReplayFault::NoBody { number, fault } => {
                write!(f, "its body {number} {}", body_text(fault))
            }
            ReplayFault::OtherLength { number } => {
                write!(f, "its body {number} has another length")
            }
            ReplayFault::NotAsRecorded => f.write_str("its answer comes out otherwise"),
        }
    }
}

/// What to do about a folder or a file that can't be opened.
fn hint_on_folder(fault: &OpenFault) -> &'static str
    ensures { result.now ≡ hint_on_folder fault.now }
{
    match fault {
        OpenFault::Locked => "; stop that one first: `fuser` names it",
        OpenFault::NotAFolder => "; name the folder itself",
        OpenFault::Denied =>
            "; give it and all that is in it to the user of the server (`chown -R`)",
        _ => "",
    }
}

/// What to do about a journal that can't be read.
fn hint_on_journal(error: &journal::Error) -> &'static str
    ensures { result.now ≡ hint_on_journal error.now }
{
    match error {
        journal::Error::NotAJournal
        | journal::Error::OtherVersion
        | journal::Error::OtherParameters => "; use the program that wrote it, or another folder",
        _ => "",
    }
}

/// What to do about a store that can't be opened. A want of memory says it by itself.
fn hint_on_store(fault: &StoreFault) -> &'static str
    ensures { result.now ≡ hint_on_store fault.now }
{
    match fault {
        StoreFault::Journal(error) => hint_on_journal(error),
        StoreFault::Record(
            RefusedRecord {
                fault: ReplayFault::NoMemory,
                ..
            },
        ) => "",
        StoreFault::Record(_) =>
            "; restore a copy, or start without BLOBD_STRICT, which serves the rest",
        _ => "",
    }
}

/// What to do about a directory that can't be used, to be told behind why; empty if that says it.
pub fn hint_on(fault: &DataFault) -> &'static str
    ensures { result.now ≡ hint_on fault.now }
{
    match fault {
        DataFault::Folder(fault) | DataFault::Journal(fault) | DataFault::Bodies(fault) =>
            hint_on_folder(fault),
        DataFault::NotEmpty => "; name a folder that is empty, or isn't there",
        DataFault::NoBodies => "; put them back, or move it away and push again",
        DataFault::NoJournal | DataFault::EmptyJournal =>
            "; put that back, or move it away and push again",
        DataFault::BrokenJournal =>
            "; put the journal back, or start without BLOBD_STRICT, which mends it or goes on without them",
        DataFault::HalfMended => "; start again, which mends more of them",
        DataFault::Store(fault) => hint_on_store(fault),
    }
}

fn body_text(fault: BodyFault) -> &'static str {
    match fault {
        BodyFault::NoMemory => "finds no memory",
        BodyFault::NotThere => "isn't there",
        BodyFault::NotRead => "can't be read",
    }
}

fn entry_text(fault: EntryFault) -> &'static str {
    match fault {
        EntryFault::Short => "its text ends too early",
        EntryFault::UnknownKind => "its text is of no known kind",
        EntryFault::BadName => "its text has a name that is none",
        EntryFault::BadDigest => "its text has a digest that is none",
        EntryFault::BadReference => "its text has an upload that is none",
        EntryFault::BadRange => "its text has a range that is none",
        EntryFault::BadBody => "its text has a body that is none",
        EntryFault::BadAnswer => "its text has an answer that is none",
        EntryFault::Trailing => "its text goes on behind its end",
        EntryFault::BadChecksum => "its text has changed",
    }
}
