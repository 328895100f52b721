//! A data directory is locked, opened and read.
ghost use Rattle.std.specs.Prelude.{◌≡◌, ◌≤◌, None, true, [], IfOk};
ghost use Rattle.upload_service.specs.Machine.{AreLawful};
ghost use Rattle.upload_keeper.specs.Safety.{Leads};
ghost use Rattle.upload_store.specs.Store.{limits_of};
ghost use Rattle.upload_keeping.specs.Kept.{start_of, kept_of, waiting_of, last_of};
ghost use Rattle.blobd_data.specs.declared.open.Damaged.TheVariants.{Refused};
ghost use Rattle.blobd_data.specs.Opened.{HasBegun};

use crate::fault::DataFault;
use crate::host::seconds_now;
use crate::line::line_of;
use crate::loss::tell_repairs;
use crate::progress::{Progress, Watch};
use bodies::{FolderShelf, Holds, Shelf};
use journal::{Ending, Journal, Looked};
use journal_file::{FileFrom, Folder, OpenFault, Start};
use sqlite_disk::Disk;
use std::fs;
use std::io::{Eprint, ErrorKind};
use std::rt::Clock;
use std::thread::Threads;
use upload_bytes::Room;
use upload_keeper::KeptService;
use upload_keeping::{KeepingHost, StoreKeeping, open_ahead, salvage_ahead};
use upload_records::{Swept, sweep};
use upload_service::Limits;
use upload_store::{Losses, Store, StoreFault};

/// The journal of a data directory, within it.
pub(crate) const JOURNAL: &str = "journal";

/// What it is called until it begins with all of its first line, so that a crash leaves no part of one, and what a new
/// one is called until it takes the place of one that is there.
pub(crate) const FRESH: &str = "journal.new";

/// A journal that was begun has so many bytes at least: its first line and its first gate have a sector each.
pub(crate) const BEGUN: usize = 8_192;

/// The folder of the bodies, within it.
pub(crate) const BODIES: &str = "bodies";

/// A start mends so many damaged sectors of a journal at most, since the journal is read once more for each.
pub(crate) const MOST_MENDED: u64 = 4_096;

/// What a file system has in its own folder.
const LOST_AND_FOUND: &str = "lost+found";

/// For `main` to name: what is proved over any bodies that a shelf has as it is opened is proved of those that are
/// there.
#[derive(Drop)]
pub struct AnyBodies;

impl Holds for AnyBodies {
    ghost bodies = { λ _. None };

    ghost is_kept = { λ _. true };
}

/// A journal file that held what `J` says as it was opened, and a shelf of bodies in a folder.
type FolderStore<J, S, H> = Store<FileFrom<J>, FolderShelf<S, H>>;

/// The same, as it was found.
type FolderFound<J, S, H> = Found<FileFrom<J>, FolderShelf<S, H>>;

/// The same, locked and read.
type FolderData<J, S, H, T> = Data<FileFrom<J>, FolderShelf<S, H>, T>;

/// What becomes of a directory with records that can't be run again.
#[derive(Clone, Copy, Debug)]
pub enum Damaged {
    /// It is refused.
    Refused,
    /// It is opened without them, and without what can't be done again after them.
    Opened,
}

/// What tells of records that are lost and can't be named.
#[derive(Clone, Copy, Debug, PartialEq, Eq)]
pub enum Missing {
    /// Nothing does.
    None,
    /// The journal ends as no crash leaves it, or is a copy that was made while a server wrote: what stood there is
    /// lost.
    Here,
    /// It ended so before, and a start has gone on without them. No file was removed since.
    Before,
}

/// A data directory that was locked and read.
#[derive(Drop)]
pub struct Data<D: Disk, S: Shelf, T> {
    /// No other server can have the directory before this is dropped.
    pub lock: Folder,
    /// The service that what is kept there leads to, and where its changes are kept from now on.
    pub kept: KeptService<StoreKeeping<D, S, T>>,
    /// The records that are lost.
    pub losses: Losses,
    /// What tells of others that are lost.
    pub missing: Missing,
}

/// Whether nothing of this name is in the folder.
fn lacks(rt: &HostRuntime, folder: &Folder, name: &str) -> Result<bool, OpenFault> {
    match fs::symlink_metadata(rt, folder.path_of(rt, name)?.as_str()) {
        Ok(_) => Ok(false),
        Err(error) if error.kind() == ErrorKind::NotFound => Ok(true),
        Err(error) => Err(OpenFault::from(error)),
    }
}

/// Whether the folder of bodies isn't there.
fn lacks_bodies(rt: &HostRuntime, folder: &Folder) -> Result<bool, DataFault> {
    match lacks(rt, folder, BODIES) {
        Ok(lacks) => Ok(lacks),
        Err(fault) => Err(DataFault::Bodies(fault)),
    }
}

/// Whether a folder without a journal has what no server has made.
fn has_others(rt: &HostRuntime, folder: &Folder) -> Result<bool, OpenFault> {
    if !lacks(rt, folder, JOURNAL)? {
        return Ok(false);
    }
    for entry in fs::read_dir(rt, folder.path_of(rt, ".")?.as_str())? {
        let entry = entry?;
        let name = entry.file_name();
        if name != FRESH && name != BODIES && name != LOST_AND_FOUND {
            return Ok(true);
        }
    }
    Ok(false)
}

/// Refuses a folder that is for something else.
fn refuse_others(rt: &HostRuntime, folder: &Folder) -> Result<(), DataFault> {
    match has_others(rt, folder) {
        Ok(false) => Ok(()),
        Ok(true) => Err(DataFault::NotEmpty),
        Err(fault) => Err(DataFault::Folder(fault)),
    }
}

/// What the journal of a folder is called as it is opened: one that isn't there is begun afresh.
fn name_of_journal(rt: &HostRuntime, folder: &Folder) -> Result<&'static str, OpenFault> {
    if lacks(rt, folder, JOURNAL)? {
        return Ok(FRESH);
    }
    Ok(JOURNAL)
}

/// Removes what is left of a new journal that didn't take its place.
fn remove_fresh(rt: &HostRuntime, folder: &Folder) -> Result<(), DataFault> {
    match folder.remove(rt, FRESH) {
        Ok(()) => Ok(()),
        Err(error) => Err(DataFault::Journal(OpenFault::from(error))),
    }
}

/// Has a journal that was begun afresh take its name.
fn settle_name(rt: &HostRuntime, folder: &Folder) -> Result<(), DataFault> {
    match take_name(rt, folder) {
        Ok(()) => Ok(()),
        Err(fault) => Err(DataFault::Journal(fault)),
    }
}

fn take_name(rt: &HostRuntime, folder: &Folder) -> Result<(), OpenFault> {
    if lacks(rt, folder, JOURNAL)? {
        folder.rename(rt, FRESH, JOURNAL)?;
    }
    Ok(())
}

/// The journal of a folder. One that isn't there is made.
pub(crate) fn open_journal<J: Start>(
    rt: &HostRuntime,
    folder: &Folder,
    name: &str,
    start: J,
) -> Result<FileFrom<J>, DataFault> {
    let mut file = match folder.open_file(rt, name, start) {
        Ok(file) => file,
        Err(fault) => return Err(DataFault::Journal(fault)),
    };
    let length = match file.len() {
        Ok(length) => length,
        Err(error) => return Err(DataFault::Journal(OpenFault::from(error))),
    };
    // The bodies are made before anything is written into the journal.
    if length > 0 && lacks_bodies(rt, folder)? {
        return Err(DataFault::NoBodies);
    }
    Ok(file)
}

/// The bodies of a folder. Their own folders are made if they aren't there.
pub(crate) fn open_shelf<S: Start, H: Holds>(
    rt: &HostRuntime,
    folder: &Folder,
) -> Result<FolderShelf<S, H>, DataFault>
    requires { S.Start.db ≡ [] }
{
    match FolderShelf::open(rt, folder, BODIES) {
        Ok(shelf) => Ok(shelf),
        Err(fault) => Err(DataFault::Bodies(fault)),
    }
}

/// Whether a shelf has bodies.
pub(crate) fn has_bodies<S: Shelf>(rt: &HostRuntime, shelf: &mut S) -> Result<bool, DataFault> {
    match shelf.numbers(rt.alloc()) {
        Ok(numbers) => Ok(!numbers.is_empty()),
        Err(fault) => Err(DataFault::Store(StoreFault::Body(fault))),
    }
}

/// Refuses bodies that have no journal: nothing says what they are, and the next start would remove them as what no
/// record names.
fn refuse_bodies<S: Shelf>(rt: &HostRuntime, shelf: &mut S) -> Result<(), DataFault> {
    if has_bodies(rt, shelf)? {
        return Err(DataFault::NoJournal);
    }
    Ok(())
}

/// Refuses bodies whose journal has no gate: it was cut, since it takes its name behind that.
pub(crate) fn refuse_cut<D: Disk, S: Shelf>(
    rt: &HostRuntime,
    file: &mut D,
    shelf: &mut S,
) -> Result<(), DataFault> {
    // What can't be used isn't read either.
    if !file.may_be_used() {
        return Ok(());
    }
    let length = match file.len() {
        Ok(length) => length,
        Err(error) => return Err(DataFault::Journal(OpenFault::from(error))),
    };
    if length < BEGUN && has_bodies(rt, shelf)? {
        return Err(DataFault::EmptyJournal);
    }
    Ok(())
}

/// Reads a journal, and removes the files that no record names, if that is sure. If it doesn't end soundly, what
/// damaged sectors hide is brought back before that, unless the directory is refused for it; `mended` counts these
/// sectors.
fn sweep_mended<D: Disk, S: Shelf>(
    rt: &HostRuntime,
    journal: &mut Journal<D>,
    shelf: &mut S,
    damaged: Damaged,
    mended: &mut u64,
) -> Result<Swept, StoreFault> {
    let swept = sweep(rt.alloc(), journal, shelf)?;
    match (swept.looked.ending, damaged) {
        (Ending::Sound, _) | (Ending::Broken, Damaged::Refused) => return Ok(swept),
        (Ending::Doubtful, _) | (Ending::Broken, Damaged::Opened) => {}
    }
    *mended = match mend_all(rt, journal) {
        Ok(0) => return Ok(swept),
        Ok(count) => count,
        Err(error) => return Err(StoreFault::Journal(error)),
    };
    sweep(rt.alloc(), journal, shelf)
}

/// Brings back each batch that a damaged sector hides, up to so many. Says how many sectors there were. The journal is
/// read once more for each.
pub(crate) fn mend_all<D: Disk>(
    rt: &HostRuntime,
    journal: &mut Journal<D>,
) -> Result<u64, journal::Error> {
    for mended in 0..MOST_MENDED {
        if !journal.mend(rt.alloc())? {
            return Ok(mended);
        }
    }
    Ok(MOST_MENDED)
}

/// Has a journal that ends as no crash leaves it go on from there, if the directory isn't refused for it. Says what
/// tells of lost records.
fn settle_end<D: Disk>(
    rt: &HostRuntime,
    journal: &mut Journal<D>,
    looked: Looked,
    damaged: Damaged,
    time: u64,
) -> Result<Missing, DataFault> {
    match (looked.ending, damaged) {
        (Ending::Broken, Damaged::Refused) => Err(DataFault::BrokenJournal),
        (Ending::Broken, Damaged::Opened) => match journal.go_on(rt.alloc(), time) {
            Ok(()) => Ok(Missing::Here),
            Err(error) => Err(DataFault::Store(StoreFault::Journal(error))),
        },
        _ if looked.has_mark => Ok(Missing::Before),
        _ => Ok(Missing::None),
    }
}

/// What a start does before it runs the records.
#[derive(Clone, Copy, Debug)]
pub(crate) struct Repairs {
    /// How many sectors of the journal were damaged, and hid records that are back.
    pub mended: u64,
    /// How many files were removed that no record names.
    pub removed: u64,
}

/// A store in a folder, which reads nothing yet.
#[derive(Drop)]
struct Found<D: Disk, S: Shelf> {
    store: Store<D, S>,
    /// That of a start from it.
    progress: Progress,
    missing: Missing,
    repairs: Repairs,
}

/// A store in a folder. Files that no record names are removed.
fn store_in<R, J: Start, S: Start, H: Holds>(
    watch: Watch<'_, R>,
    rt: &HostRuntime,
    folder: &Folder,
    limits: Limits,
    room: Option<Room>,
    start: J,
    damaged: Damaged,
) -> Result<FolderFound<J, S, H>, DataFault>
where
    R: Threads + Clock + Eprint + Copy + Send + 'static,
    requires lawful { AreLawful limits }
    requires empty { S.Start.db ≡ [] }
    ensures { IfOk result (λ found. limits_of found.store ≡ limits) }
{
    refuse_others(rt, folder)?;
    let name = match name_of_journal(rt, folder) {
        Ok(name) => name,
        Err(fault) => return Err(DataFault::Journal(fault)),
    };
    // A folder that is refused keeps `FRESH`, which may be its journal under another name.
    if name == FRESH {
        refuse_bodies(rt, &mut open_shelf::<S, H>(rt, folder)?)?;
        remove_fresh(rt, folder)?;
    }
    let mut file = open_journal(rt, folder, name, start)?;
    let mut shelf = open_shelf(rt, folder)?;
    refuse_cut(rt, &mut file, &mut shelf)?;
    if name != FRESH {
        remove_fresh(rt, folder)?;
    }
    let mut journal = Journal::new(file, line_of(limits));
    let mut repairs = Repairs {
        mended: 0,
        removed: 0,
    };
    let swept = sweep_mended(rt, &mut journal, &mut shelf, damaged, &mut repairs.mended);
    let (missing, named) = match swept {
        Ok(swept) => {
            // Past its end there may be records that only another start brings back.
            if repairs.mended == MOST_MENDED && swept.looked.ending != Ending::Sound {
                return Err(DataFault::HalfMended);
            }
            let time = seconds_now(watch.rt);
            let missing = settle_end(rt, &mut journal, swept.looked, damaged, time)?;
            repairs.removed = swept.removed.unwrap_or(0);
            (missing, swept.named)
        }
        // Files go only if nothing is missing. What can't be removed now stays for the next start.
        Err(StoreFault::Body(_)) => (Missing::None, 0),
        Err(fault) => return Err(DataFault::Store(fault)),
    };
    let progress = Progress::begin(watch, rt.alloc(), named, shelf.counter());
    let store = Store::new(rt.alloc(), journal, shelf, limits);
    let store = match room {
        Some(room) => store.within(room),
        None => store,
    };
    Ok(Found {
        store,
        progress,
        missing,
        repairs,
    })
}

/// Runs what the journal of a store has, for a service with these limits, and begins to keep in it.
fn open_store<R: Threads, J: Start, S: Start, H: Holds, T: KeepingHost + Drop>(
    threads: &R,
    rt: &HostRuntime,
    lock: Folder,
    store: FolderStore<J, S, H>,
    limits: Limits,
    host: T,
    damaged: Damaged,
    missing: Missing,
) -> Result<FolderData<J, S, H, T>, DataFault>
    requires same { limits_of store ≡ limits }
    ensures leads { IfOk result (λ opened. Leads (start_of opened.kept.keeping)
        (kept_of opened.kept.keeping) opened.kept.since opened.kept.service) }
    ensures waiting { IfOk result (λ opened. waiting_of opened.kept.keeping ≡ []) }
    ensures begun { IfOk result (λ opened. opened.kept.since ≤ last_of opened.kept.keeping) }
    ensures recovered { IfOk result (λ opened. HasBegun limits opened.kept.keeping
        opened.kept.service opened.kept.since opened.losses) }
    ensures strict { damaged ≡ Refused → IfOk result (λ opened. opened.losses.count ≡ 0) }
{
    match damaged {
        Damaged::Refused => match open_ahead(threads, rt.alloc(), store, host) {
            Ok(kept) => Ok(Data {
                lock,
                kept,
                losses: Losses::none(rt.alloc()),
                missing,
            }),
            Err(fault) => Err(DataFault::Store(fault)),
        },
        Damaged::Opened => match salvage_ahead(threads, rt.alloc(), store, host) {
            Ok(salvaged) => Ok(Data {
                lock,
                kept: salvaged.kept,
                losses: salvaged.losses,
                missing,
            }),
            Err(fault) => Err(DataFault::Store(fault)),
        },
    }
}

/// Opens the data directory at `path`, for a service with these limits. One that isn't there is made, with mode 0700.
/// No other server can have it from then on. What its journal has is run again, so that the service is as it was, but
/// for what is lost of a directory that is damaged, if `damaged` has it opened all the same. The service holds no more
/// than `room` grants, if there is one. The bodies that the journal names are read, and hashed, in threads, which have
/// ended by then. Which values stand for `J`, `S` and `H` says nothing: what holds of all of them holds of what is
/// there.
///
/// `Folder`, `Journal` and `Bodies` say what can't be opened or made. `NotEmpty`: there is no journal, but something
/// that no server has made. `NoBodies`: there is a journal, and no folder of bodies. `NoJournal`: there are bodies, and
/// no journal. `EmptyJournal`: there are bodies, and the journal was cut before its first record. `Store`: the journal
/// has another format, another version or other limits, it can't be read, there is no memory for a record, or one can't
/// be run again and `damaged` has the directory refused for it. `BrokenJournal`: the journal ends as no crash leaves
/// it, and `damaged` has the directory refused for it: nothing is written. `HalfMended`: so many sectors of it are
/// damaged that another start has to go on mending them. After an error no record of the directory is changed, and no
/// body that one names, and no more is written of the journal than its end, which a crash may have left, and the
/// sectors between records that hid some. Bodies that no record names are removed first, unless a record or the
/// journal's end is damaged, or was once.
pub fn open_data<R, J: Start, S: Start, H: Holds, T: KeepingHost + Drop>(
    watch: Watch<'_, R>,
    rt: &HostRuntime,
    path: &str,
    limits: Limits,
    room: Option<Room>,
    start: J,
    host: T,
    damaged: Damaged,
) -> Result<FolderData<J, S, H, T>, DataFault>
where
    R: Threads + Clock + Eprint + Copy + Send + 'static,
    requires lawful { AreLawful limits }
    requires empty { S.Start.db ≡ [] }
    ensures leads { IfOk result (λ opened. Leads (start_of opened.kept.keeping)
        (kept_of opened.kept.keeping) opened.kept.since opened.kept.service) }
    ensures waiting { IfOk result (λ opened. waiting_of opened.kept.keeping ≡ []) }
    ensures begun { IfOk result (λ opened. opened.kept.since ≤ last_of opened.kept.keeping) }
    // What it begins with: what the records come to of which none is said to be lost.
    ensures recovered { IfOk result (λ opened. HasBegun limits opened.kept.keeping
        opened.kept.service opened.kept.since opened.losses) }
    ensures strict { damaged ≡ Refused → IfOk result (λ opened. opened.losses.count ≡ 0) }
{
    let lock = match Folder::open(rt, path) {
        Ok(lock) => lock,
        Err(fault) => return Err(DataFault::Folder(fault)),
    };
    let Found {
        store,
        progress,
        missing,
        repairs,
    } = store_in(watch, rt, &lock, limits, room, start, damaged)?;
    tell_repairs(watch.rt, path, repairs);
    let opened = open_store(watch.rt, rt, lock, store, limits, host, damaged, missing);
    progress.end(watch.rt);
    let opened = opened?;
    settle_name(rt, &opened.lock)?;
    Ok(opened)
}
