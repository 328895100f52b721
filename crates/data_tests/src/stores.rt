//! A store whose records are the entries spelled by hand: over disks that fail from some call on, and with growths
//! refused.

use crate::ended::{Done, Ended, holds, is_done, is_over};
use crate::entries::{Seen, limits, seen_of, text_of};
use crate::folders::{BodyShelf, new_folder, new_shelf, put, stock};
use crate::journals::{START, line};
use bodies::{FuseShelf, MemoryShelf, Shelf};
use journal::{Batch, Journal};
use journal_file::{FileFrom, Folder, Wary};
use sqlite_disk::{Crash, Disk, Fuse, Memory};
use std::alloc::{AllocError, Global};
use std::process::Abort;
use upload_bytes::{Body, Room};
use upload_journal::{BodyFile, Replay, ReplayFault};
use upload_store::{Round, Salvage, Store, StoreFault, live_on};

/// The places of the entries of three batches: an opening, a chunk in files, and a blob.
pub static BATCHES: [usize; 3] = [0, 3, 1];

/// What a service has after none of them, and after each.
pub static AFTER: [Seen; 4] = [
    (None, false, false),
    (Some(0), false, false),
    (Some(3), false, false),
    (Some(3), false, true),
];

pub fn batch_of(alloc: Global, place: usize) -> Result<Batch, AllocError> {
    let mut batch = Batch::new(alloc);
    batch.add(&text_of(alloc, place)?)?;
    Ok(batch)
}

pub fn new_store<D: Disk + Drop, S: Shelf + Drop>(
    alloc: Global,
    disk: D,
    shelf: S,
) -> Result<Store<D, S>, Ended> {
    Ok(Store::new(alloc, Journal::new(disk, line()?), shelf, limits()))
}

/// A shelf with the files that entries name.
pub fn stocked(alloc: Global) -> Result<MemoryShelf, Ended> {
    let mut shelf = MemoryShelf::new(alloc);
    stock(&mut shelf)?;
    Ok(shelf)
}

/// A body that no entry names.
fn unnamed(alloc: Global) -> Result<Body, AllocError> {
    Ok(Body::of(alloc, Vec::from_slice(alloc, b"unnamed")?))
}

/// Keeps the batches, each with a body that none names, and counts those that are acknowledged.
fn fill<D: Disk, S: Shelf>(
    alloc: Global,
    store: &mut Store<D, S>,
    acknowledged: &mut usize,
) -> Done {
    drop(store.recover(alloc)?);
    let bodies = [unnamed(alloc)?];
    for place in BATCHES.iter() {
        store.keep(&bodies, &batch_of(alloc, *place)?, START)?;
        *acknowledged = acknowledged.saturating_add(1);
    }
    Ok(())
}

/// What a replay has come to.
pub fn seen_in(alloc: Global, replay: Replay) -> Result<Seen, AllocError> {
    seen_of(alloc, &replay.into_service())
}

/// How many batches are acknowledged over a journal and a shelf that fail after so many calls, and what comes back after
/// a crash.
fn lived(alloc: Global, calls: u64, of_shelf: u64) -> Result<(usize, Seen), Ended> {
    let disk = Fuse::new(Memory::new(alloc), calls);
    let mut store = new_store(alloc, disk, FuseShelf::new(stocked(alloc)?, of_shelf))?;
    let mut acknowledged = 0;
    let _ = fill(alloc, &mut store, &mut acknowledged);
    let (journal, shelf) = store.into_parts();
    let mut disk = journal.into_disk();
    disk.crash();
    let mut shelf = shelf.into_inner();
    shelf.reseed(calls);
    shelf.power_cut();
    let replay = new_store(alloc, disk, shelf)?.recover(alloc)?;
    Ok((acknowledged, seen_in(alloc, replay)?))
}

/// What was acknowledged is there, and perhaps the next batch. Says whether all were.
fn check_lived(rt: &impl Abort, alloc: Global, calls: u64, of_shelf: u64) -> Result<bool, Ended> {
    let (acknowledged, seen) = lived(alloc, calls, of_shelf)?;
    let is_there = AFTER.get(acknowledged) == Some(&seen);
    let is_next = AFTER.get(acknowledged.saturating_add(1)) == Some(&seen);
    holds(rt, is_there || is_next, &calls.min(of_shelf));
    Ok(acknowledged == BATCHES.len())
}

#[test]
fn a_store_that_is_cut_off_has_what_was_acknowledged(rt: HostRuntime) -> Done {
    let mut are_all = false;
    for calls in 0..40 {
        are_all = check_lived(&rt, rt.alloc(), calls, u64::MAX)?;
    }
    holds(&rt, are_all, &"no call of the journal fails");
    for calls in 0..20 {
        are_all = check_lived(&rt, rt.alloc(), u64::MAX, calls)?;
    }
    holds(&rt, are_all, &"no call of the shelf fails");
    Ok(())
}

/// A journal of these entries, and a shelf with their files.
pub fn kept(alloc: Global, places: &[usize]) -> Result<(Journal<Memory>, MemoryShelf), Ended> {
    let mut store = new_store(alloc, Memory::new(alloc), stocked(alloc)?)?;
    drop(store.recover(alloc)?);
    for place in places.iter() {
        store.append(&batch_of(alloc, *place)?, START)?;
    }
    Ok(store.into_parts())
}

/// What that chunk and that blob have.
const LARGE: &[u8] = &[b'x'; 70_000];

/// Whether a store of a large chunk and of this large blob is opened where there is room for one of them.
fn is_opened(alloc: Global, blob: usize) -> Result<bool, Ended> {
    let (journal, mut shelf) = kept(alloc, &[0, 8, blob])?;
    put(&mut shelf, 9, LARGE)?;
    let store = new_store(alloc, journal.into_disk(), shelf)?;
    match store.within(Room::of(alloc, 130_000)?).recover(alloc) {
        Ok(_) => Ok(true),
        Err(StoreFault::Record(it)) => Ok(it.fault != ReplayFault::NoMemory),
        Err(fault) => Err(Ended::from(fault)),
    }
}

/// What an upload has that is idle gives way to a blob in a start, too, as it did while that was stored.
#[test]
fn idle_uploads_give_way_in_a_start(rt: HostRuntime) -> Done {
    holds(&rt, !is_opened(rt.alloc(), 9)?, &"it isn't idle");
    holds(&rt, is_opened(rt.alloc(), 10)?, &"it is");
    Ok(())
}

/// Calls of a store with the batches, and one that lives on.
fn check_store(rt: &impl Abort, alloc: Global) -> Done {
    let mut store = new_store(alloc, Memory::new(alloc), stocked(alloc)?)?;
    fill(alloc, &mut store, &mut 0)?;
    store.reserve(20_000)?;
    let file = store.put_body(&unnamed(alloc)?)?;
    holds(rt, file == BodyFile { number: 12, len: 7 }, &"a body");
    store.remove_body(12)?;
    let seen = seen_in(alloc, store.recover(alloc)?)?;
    let has_room = store.room() >= 20_000;
    holds(rt, seen == AFTER[3] && has_room, &"it comes back");
    let Salvage { replay, losses } = store.salvage(alloc)?;
    let seen = seen_in(alloc, replay)?;
    let are_none = losses.count == 0;
    holds(rt, seen == AFTER[3] && are_none, &"nothing is lost");
    check_life(rt, alloc)
}

/// Rounds, a crash, a recovery that may be cut off, and one that isn't.
fn check_life(rt: &impl Abort, alloc: Global) -> Done {
    let mut store = new_store(alloc, Memory::new(alloc), stocked(alloc)?)?;
    drop(store.recover(alloc)?);
    let mut rounds = Vec::new(alloc);
    for place in BATCHES.iter() {
        let (bodies, batch) = (Vec::new(alloc), batch_of(alloc, *place)?);
        if rounds.push(Round { bodies, batch }).is_err() {
            return Err(Ended::NoMemory);
        }
    }
    let (acknowledged, replay) = live_on(&mut store, alloc, &rounds, START, 1)?;
    if acknowledged < 3 {
        return Err(Ended::NoMemory);
    }
    holds(rt, seen_in(alloc, replay)? == AFTER[3], &"all rounds");
    Ok(())
}

#[test]
fn a_refused_growth_changes_no_store(rt: HostRuntime) {
    if !is_over(&rt, check_store(&rt, rt.alloc())) {
        is_done(&rt, check_store(&rt, rt.alloc()));
    }
}

pub type FolderStore = Store<FileFrom<Wary>, BodyShelf>;

/// The store in a folder, which isn't open.
pub fn store_in(rt: &HostRuntime, folder: &Folder) -> Result<FolderStore, Ended> {
    let file = folder.open_file(rt, "journal", Wary)?;
    new_store(rt.alloc(), file, new_shelf(rt, folder)?)
}

/// A store in a new folder, which has the batches and lies closed.
pub fn kept_in(rt: &HostRuntime, name: &str) -> Result<Folder, Ended> {
    let folder = new_folder(rt, name)?;
    stock(&mut new_shelf(rt, &folder)?)?;
    let mut store = store_in(rt, &folder)?;
    fill(rt.alloc(), &mut store, &mut 0)?;
    Ok(folder)
}
