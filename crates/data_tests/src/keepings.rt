//! A keeping that begins over a store, in turn and ahead, also over one that lacks a body, and what it makes ready for a
//! request; with growths refused.

use crate::ended::{Done, Ended, holds, is_done, is_over};
use crate::entries::{MOMENT, SECRET, Seen, name_of, seen_of};
use crate::journals::START;
use crate::stores::{AFTER, BATCHES, kept, kept_in, new_store, store_in};
use bodies::{MemoryShelf, Shelf};
use sqlite_disk::{Disk, Memory};
use std::alloc::Global;
use std::fs;
use std::process::Abort;
use upload_keeper::{Keeping, KeptService};
use upload_keeping::{
    KeepFault, KeepingHost, Salvaged, StoreKeeping, open, open_ahead, salvage, salvage_ahead,
};
use upload_service::Ask;
use upload_store::Store;

/// Its day has stopped.
#[derive(Drop)]
struct Host;

impl KeepingHost for Host {
    ghost hears = { λ _ _ _. Unit {0} };

    fn time(&mut self) -> u64 {
        START
    }

    fn kept(&mut self) {}

    fn pause(&mut self) -> bool {
        false
    }

    fn failed(&mut self, _fault: &KeepFault) {}
}

type Kept<D, S> = KeptService<StoreKeeping<D, S, Host>>;

/// What is there as a keeping begins. It makes an entry ready for a request, and lets it go.
fn check_begun<D: Disk + Drop, S: Shelf + Drop>(
    rt: &impl Abort,
    alloc: Global,
    kept: Kept<D, S>,
    wanted: Seen,
) -> Done {
    let is_there = seen_of(alloc, &kept.service)? == wanted && kept.since == MOMENT;
    holds(rt, is_there && kept.keeping.fault().is_none(), &"it begins");
    let name = name_of(alloc, b"lib/a")?;
    let mut keeping = kept.keeping;
    if !keeping.note(&kept.service, &Ask::Opening { name }, *SECRET, MOMENT) {
        return Err(Ended::NoMemory);
    }
    keeping.let_go();
    Ok(())
}

/// What is there of a salvaged store without a file of the chunk.
fn check_salvaged<D: Disk + Drop, S: Shelf + Drop>(
    rt: &impl Abort,
    alloc: Global,
    salvaged: Salvaged<D, S, Host>,
) -> Done {
    let Salvaged { kept, losses } = salvaged;
    let is_whole = kept.keeping.is_whole();
    holds(rt, losses.count == 1 && !is_whole, &"one is lost");
    check_begun(rt, alloc, kept, (Some(0), false, true))
}

/// A store in memory that lies closed, with that file or without it.
fn store_of(alloc: Global, is_whole: bool) -> Result<Store<Memory, MemoryShelf>, Ended> {
    let (journal, mut shelf) = kept(alloc, &BATCHES)?;
    if !is_whole {
        shelf.remove(8)?;
    }
    new_store(alloc, journal.into_disk(), shelf)
}

fn check_keeping(rt: &impl Abort, alloc: Global) -> Done {
    let kept = open(alloc, store_of(alloc, true)?, Host)?;
    check_begun(rt, alloc, kept, AFTER[3])?;
    let salvaged = salvage(alloc, store_of(alloc, false)?, Host)?;
    check_salvaged(rt, alloc, salvaged)
}

#[test]
fn a_refused_growth_changes_no_keeping(rt: HostRuntime) {
    if !is_over(&rt, check_keeping(&rt, rt.alloc())) {
        is_done(&rt, check_keeping(&rt, rt.alloc()));
    }
}

#[test]
fn a_keeping_begins_ahead(rt: HostRuntime) -> Done {
    let folder = kept_in(&rt, "keeping")?;
    let kept = open_ahead(&rt, rt.alloc(), store_in(&rt, &folder)?, Host)?;
    check_begun(&rt, rt.alloc(), kept, AFTER[3])?;
    fs::remove_file(&rt, "keeping/bodies/08/8")?;
    let salvaged = salvage_ahead(&rt, rt.alloc(), store_in(&rt, &folder)?, Host)?;
    check_salvaged(&rt, rt.alloc(), salvaged)?;
    fs::remove_dir_all(&rt, "keeping")?;
    Ok(())
}
