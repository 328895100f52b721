//! The journal of a data directory is written anew, and what it doesn't name goes.
ghost use Rattle.std.specs.Prelude.{◌≡◌, []};
ghost use Rattle.upload_service.specs.Machine.{AreLawful};

use crate::fault::DataFault;
use crate::files::{amount_but, list_files, note_named};
use crate::line::line_of;
use crate::loss::{tell_final, tell_mended};
use crate::open::{
    FRESH, JOURNAL, MOST_MENDED, has_bodies, mend_all, open_journal, open_shelf, refuse_cut,
};
use crate::texts::StoreText;
use blobd_shared::{ByteCount, Quantity};
use bodies::{AheadShelf, Holds, Shelf};
use journal::{Ending, Journal, Looked};
use journal_file::{FileFrom, Folder, OpenFault, Start};
use sqlite_disk::Disk;
use std::io::{self, ErrorKind};
use std::thread::Threads;
use std::{fmt, fs};
use upload_compact::{CompactFault, Compacted, Leaving, compact};
use upload_records::{Named, sweep};
use upload_service::Limits;
use upload_store::{StoreFault, most_ahead};

/// Why a directory's journal isn't written anew, or what it doesn't name doesn't go.
#[derive(Debug, Drop)]
pub enum CompactingFault {
    /// The directory can't be used.
    Data(DataFault),
    /// There is no journal at the path.
    NoJournal,
    /// The new journal can't be made.
    Fresh(OpenFault),
    /// The new journal isn't written, or it isn't the same.
    Compact(CompactFault),
    /// The journal ends as no crash leaves it: batches of records are lost there.
    BrokenJournal,
    /// The new journal can't take the old one's place.
    Switch(io::Error),
    /// What isn't named can't be looked for, or can't be removed.
    Sweep(StoreFault),
    /// So many records are no entries: they are damaged.
    Unread(u64),
    /// It would take so many bytes of memory, and there may be no more than `memory`.
    TooLarge { takes: u64, memory: u64 },
    /// The last one was cut off.
    CutOff,
}

impl From<DataFault> for CompactingFault {
    fn from(fault: DataFault) -> CompactingFault {
        CompactingFault::Data(fault)
    }
}

impl fmt::Display for CompactingFault {
    fn fmt<W: fmt::Write>(&self, f: &mut fmt::Formatter<W>) -> fmt::Result {
        match self {
            CompactingFault::Data(fault) => write!(f, "{fault}"),
            CompactingFault::NoJournal => f.write_str("it has no journal"),
            CompactingFault::Fresh(fault) => write!(f, "{FRESH}: {fault}"),
            CompactingFault::Compact(fault) => write!(f, "{}", CompactText(fault)),
            CompactingFault::BrokenJournal => f.write_str(
                "journal: records are missing at its end: put it back, or start a server, which mends it or goes on without them",
            ),
            CompactingFault::Switch(error) => write!(f, "{FRESH}: {error}"),
            CompactingFault::Sweep(fault) => write!(f, "{}", StoreText(fault)),
            CompactingFault::Unread(count) => {
                write!(f, "{} can't be read", Quantity(*count, "record"))
            }
            CompactingFault::TooLarge { takes, memory } => {
                let (takes, memory) = (ByteCount(*takes), ByteCount(*memory));
                write!(
                    f,
                    "that takes {takes} of memory, the server may hold {memory}"
                )
            }
            CompactingFault::CutOff => {
                f.write_str("it was cut off the last time; the next start tries it again")
            }
        }
    }
}

impl std::error::Error for CompactingFault {}

/// What is told of why a journal isn't written anew.
#[derive(Drop)]
struct CompactText<'a>(&'a CompactFault);

impl<'a> fmt::Display for CompactText<'a> {
    fn fmt<W: fmt::Write>(&self, f: &mut fmt::Formatter<W>) -> fmt::Result {
        match self.0 {
            CompactFault::NoMemory => f.write_str("no memory to write its journal anew"),
            CompactFault::Old(fault) => write!(f, "{}", StoreText(fault)),
            CompactFault::New(fault) => write!(f, "{FRESH}: {}", StoreText(fault)),
            CompactFault::NotTheSame => f.write_str("the new journal would not be the same"),
        }
    }
}

/// What room was made.
#[derive(Clone, Copy, Debug, Drop, PartialEq, Eq)]
pub struct Freed {
    /// How many records the journal had, and has now.
    pub before: u64,
    pub after: u64,
    /// How many files of bodies went.
    pub files: u64,
    /// How many blobs of repositories went, since nothing refers to them, if it was said what is referred to.
    pub pairs: Option<u64>,
}

impl fmt::Display for Freed {
    fn fmt<W: fmt::Write>(&self, f: &mut fmt::Formatter<W>) -> fmt::Result {
        let Freed {
            before,
            after,
            files,
            pairs,
        } = self;
        let (before, files) = (Quantity(*before, "record"), Quantity(*files, "file"));
        write!(f, "{before} became {after}, {files} went")?;
        match pairs {
            Some(pairs) => write!(f, ", repositories gave up {}", Quantity(*pairs, "blob")),
            None => Ok(()),
        }
    }
}

/// How many bytes what has this name in the folder at this path has, or None if there is nothing.
pub(crate) fn length_of(
    rt: &HostRuntime,
    path: &str,
    name: &str,
) -> Result<Option<u64>, CompactingFault> {
    let file = match format!(in rt.alloc(); "{path}/{name}") {
        Ok(file) => file,
        Err(_) => return Err(CompactingFault::Compact(CompactFault::NoMemory)),
    };
    match fs::symlink_metadata(rt, file.as_str()) {
        Ok(found) => Ok(Some(found.len())),
        Err(error) if error.kind() == ErrorKind::NotFound => Ok(None),
        Err(error) => Err(CompactingFault::Data(DataFault::Journal(OpenFault::from(error)))),
    }
}

/// The new journal, which is empty: one that an earlier call left goes.
fn open_fresh<N: Start>(
    rt: &HostRuntime,
    folder: &Folder,
    start: N,
) -> Result<FileFrom<N>, CompactingFault> {
    if let Err(error) = folder.remove(rt, FRESH) {
        return Err(CompactingFault::Fresh(OpenFault::from(error)));
    }
    match folder.open_file(rt, FRESH, start) {
        Ok(file) => Ok(file),
        Err(fault) => Err(CompactingFault::Fresh(fault)),
    }
}

/// Has the new journal take the old one's place, or go.
fn switch(rt: &HostRuntime, folder: &Folder, takes_place: bool) -> Result<(), CompactingFault> {
    let done = if takes_place {
        folder.rename(rt, FRESH, JOURNAL)
    } else {
        folder.remove(rt, FRESH)
    };
    match done {
        Ok(()) => Ok(()),
        Err(error) => Err(CompactingFault::Switch(error)),
    }
}

/// Notes which files a journal names, and says how it ends. A broken one is refused: a start may mend it.
fn look_at<D: Disk>(
    rt: &HostRuntime,
    journal: &mut Journal<D>,
    named: &mut Named,
) -> Result<Looked, CompactingFault> {
    match note_named(rt, journal, named) {
        Ok(looked) if looked.ending == Ending::Broken => Err(CompactingFault::BrokenJournal),
        Ok(looked) => Ok(looked),
        Err(fault) => Err(CompactingFault::Compact(CompactFault::Old(fault))),
    }
}

/// The same of the journal of the directory at `path`, before it is recovered, which would write over what can be
/// mended. If a crash may have left its end so, what a damaged sector hides there is brought back first, as by a
/// start.
fn look_first<D: Disk>(
    rt: &HostRuntime,
    path: &str,
    journal: &mut Journal<D>,
    named: &mut Named,
) -> Result<Looked, CompactingFault> {
    let looked = look_at(rt, journal, named)?;
    if looked.ending == Ending::Sound {
        return Ok(looked);
    }
    match mend_all(rt, journal) {
        Ok(0) => Ok(looked),
        Ok(mended) => {
            tell_mended(rt, path, mended);
            let looked = look_at(rt, journal, named)?;
            // Past its end there may be records that only another start brings back.
            if mended == MOST_MENDED && looked.ending != Ending::Sound {
                return Err(CompactingFault::Data(DataFault::HalfMended));
            }
            Ok(looked)
        }
        Err(error) => Err(CompactingFault::Compact(CompactFault::Old(StoreFault::Journal(error)))),
    }
}

/// Tells which files of the directory at `path` go for good, if records may be lost: the old journal, which names these
/// files, doesn't end soundly, or has a mark. The new one ends soundly: what is asked for now is that their bodies go.
fn tell_lost<N: Disk>(
    rt: &HostRuntime,
    path: &str,
    named: Named,
    fresh: &mut Journal<N>,
) -> Result<(), CompactingFault> {
    let mut named = named;
    if let Err(fault) = note_named(rt, fresh, &mut named) {
        return Err(CompactingFault::Compact(CompactFault::New(fault)));
    }
    match list_files(rt, path) {
        Ok(files) => tell_final(rt, path, amount_but(&files, &named)),
        Err(fault) => return Err(CompactingFault::Data(DataFault::Bodies(fault))),
    }
    Ok(())
}

/// Removes the files that no record of a journal names, and says how many.
fn sweep_by<D: Disk + Drop, S: Shelf + Drop>(
    rt: &HostRuntime,
    journal: Journal<D>,
    shelf: S,
) -> Result<u64, CompactingFault> {
    let mut journal = journal;
    let mut shelf = shelf;
    // The records needn't be read for that if there is no file.
    if matches!(has_bodies(rt, &mut shelf), Ok(false)) {
        return Ok(0);
    }
    match sweep(rt.alloc(), &mut journal, &mut shelf) {
        Ok(swept) => Ok(swept.removed.unwrap_or(0)),
        Err(fault) => Err(CompactingFault::Sweep(fault)),
    }
}

/// Writes the journal of the data directory at `path` anew, for a service with these limits, as the shortest one that
/// stands for the same service, and removes the files of bodies that it doesn't name. Uploads that are idle go, and so
/// do the blobs of repositories that needn't stay, if that is said (`Leaving`). What a damaged gate at the journal's
/// end hides is brought back first, as by a start. If records are missing, standard error says first that this makes it
/// final. No server can have the directory meanwhile. A crash at any moment leaves the old journal or the new one, and
/// all that it names. Bodies are read ahead in threads, an eighth of the memory that the service may hold at most
/// (`most_ahead`). Which values stand for `J`, `N`, `S` and `H` says nothing: what holds of all of them holds of what
/// is there.
///
/// `NoJournal`: there is none, or no folder. `Data`: the folder, its journal or its bodies can't be opened, another
/// server has it, its bodies are missing, its journal was cut before its first record, or more sectors of that are
/// damaged than are mended at once. `BrokenJournal`: the journal
/// ends as no crash leaves it; a start may mend it. `Fresh`: the new journal can't be made. `Compact`: the old one has
/// another format, another version or other limits, it can't be read, or a record of it can't be run again; or the new
/// one can't be written or isn't the same; or there is no memory. After these no record of the directory is changed,
/// no body goes that one names, and no more is written of the journal than its end, which a crash may have left, and
/// the sectors between records that hid some. `Switch`: the new journal can't take the old one's place, or maybe not
/// for good. `Sweep`: the files that no record names can't be looked for, or one can't be removed; what journal there
/// is to be has its place then.
pub fn compact_data<R: Threads, J: Start, N: Start, S: Start, H: Holds>(
    threads: &R,
    rt: &HostRuntime,
    path: &str,
    limits: Limits,
    memory: Option<u64>,
    start: J,
    fresh_start: N,
    leaving: Option<&Leaving>,
) -> Result<Freed, CompactingFault>
    requires lawful { AreLawful limits }
    requires empty { S.Start.db ≡ [] }
{
    if length_of(rt, path, JOURNAL)?.is_none() {
        return Err(CompactingFault::NoJournal);
    }
    let lock = match Folder::open(rt, path) {
        Ok(lock) => lock,
        Err(fault) => return Err(CompactingFault::Data(DataFault::Folder(fault))),
    };
    let room = compact_in::<R, J, N, S, H>(
        threads,
        rt,
        path,
        &lock,
        limits,
        memory,
        start,
        fresh_start,
        leaving,
    );
    if room.is_err() {
        let _ = lock.remove(rt, FRESH);
    }
    room
}

/// The same, in a folder that is locked.
fn compact_in<R: Threads, J: Start, N: Start, S: Start, H: Holds>(
    threads: &R,
    rt: &HostRuntime,
    path: &str,
    folder: &Folder,
    limits: Limits,
    memory: Option<u64>,
    start: J,
    fresh_start: N,
    leaving: Option<&Leaving>,
) -> Result<Freed, CompactingFault>
    requires lawful { AreLawful limits }
    requires empty { S.Start.db ≡ [] }
{
    let mut file = open_journal(rt, folder, JOURNAL, start)?;
    let mut shelf = open_shelf::<S, H>(rt, folder)?;
    refuse_cut(rt, &mut file, &mut shelf)?;
    let none = Vec::new(rt.alloc());
    // The two services are compared by their bytes.
    let shelf = shelf.without_spool();
    let shelf = AheadShelf::new(threads, rt.alloc(), shelf, none, most_ahead(memory));
    let mut journal = Journal::new(file, line_of(limits));
    let mut named = Named::new(rt.alloc());
    let looked = look_first(rt, path, &mut journal, &mut named)?;
    let fresh = open_fresh(rt, folder, fresh_start)?;
    let fresh = Journal::new(fresh, line_of(limits));
    let line = line_of(limits);
    let it = match compact(rt.alloc(), journal, fresh, line, shelf, limits, leaving) {
        Ok(it) => it,
        Err(fault) => return Err(CompactingFault::Compact(fault)),
    };
    let Compacted {
        old,
        mut fresh,
        shelf,
        is_shorter,
        before,
        after,
        gone,
    } = it;
    let shelf = shelf.into_inner();
    let takes_place = looked.has_mark || is_shorter;
    if takes_place && !looked.is_sure() {
        tell_lost(rt, path, named, &mut fresh)?;
    }
    switch(rt, folder, takes_place)?;
    let (files, after) = if takes_place {
        (sweep_by(rt, fresh, shelf)?, after)
    } else {
        (sweep_by(rt, old, shelf)?, before)
    };
    Ok(Freed {
        before,
        after,
        files,
        pairs: leaving.map(|_| gone.len() as u64),
    })
}
