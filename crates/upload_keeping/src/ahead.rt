//! Where a keeping begins sooner: over a store whose bodies are read, and hashed, in threads.
ghost use Rattle.std.specs.Prelude.{◌≡◌, ◌⊎◌, ◌≤◌, [], IfOk, IfErr};
ghost use Rattle.upload_keeper.specs.Safety.{Leads};
ghost use Rattle.upload_keeping.specs.Ahead.{GivesUpOver, NotesNot};
ghost use Rattle.upload_keeping.specs.Begun.{Begins, BeginsWithout, LacksMemory};
ghost use Rattle.upload_keeping.specs.Kept.{start_of, kept_of, waiting_of, last_of};

use crate::begin::begin;
use crate::host::KeepingHost;
use crate::keeping::StoreKeeping;
use crate::salvaging::{Salvaged, begin_without};
use bodies::Lends;
use sqlite_disk::Disk;
use std::alloc::Global;
use std::thread::Threads;
use upload_keeper::KeptService;
use upload_store::{Store, StoreFault};

/// Begins as `open` does, and sooner: the bodies are read, and hashed, in threads (`Store::recover_ahead`).
///
/// An error is one of `open`. The store is dropped then, and no thread reads any more.
pub fn open_ahead<R: Threads, D: Disk + Drop, S: Lends + Drop, H: Drop>(
    rt: &R,
    alloc: Global,
    store: Store<D, S>,
    host: H,
) -> Result<KeptService<StoreKeeping<D, S, H>>, StoreFault>
    ensures leads { IfOk result (λ kept.
        Leads (start_of kept.keeping) (kept_of kept.keeping) kept.since kept.service) }
    ensures waiting { IfOk result (λ kept. waiting_of kept.keeping ≡ []) }
    ensures begun { IfOk result (λ kept. kept.since ≤ last_of kept.keeping) }
    ensures recovered { IfOk result
        (λ kept. Begins store kept.keeping kept.service kept.since) }
    ensures cause { IfErr result (GivesUpOver (λ _. Unit {0}) store) }
{
    let (store, recovered) = store.recover_ahead(rt, alloc);
    match recovered {
        Ok(replay) => Ok(begin(alloc, store, replay, true, host)),
        Err(fault) => Err(fault),
    }
}

/// Begins as `salvage` does, and sooner, as `open_ahead` does.
///
/// An error is one of `salvage`. The store is dropped then, and no thread reads any more.
pub fn salvage_ahead<R: Threads, D: Disk + Drop, S: Lends + Drop, H: KeepingHost + Drop>(
    rt: &R,
    alloc: Global,
    store: Store<D, S>,
    host: H,
) -> Result<Salvaged<D, S, H>, StoreFault>
    ensures leads { IfOk result (λ it. Leads (start_of it.kept.keeping) (kept_of it.kept.keeping)
        it.kept.since it.kept.service) }
    ensures waiting { IfOk result (λ it. waiting_of it.kept.keeping ≡ []) }
    ensures begun { IfOk result (λ it. it.kept.since ≤ last_of it.kept.keeping) }
    ensures salvaged { IfOk result (λ it.
        BeginsWithout store it.kept.keeping it.kept.service it.kept.since it.losses) }
    ensures cause { IfErr result (λ fault. GivesUpOver LacksMemory store fault
        ⊎ NotesNot store fault) }
{
    let (store, salvaged) = store.salvage_ahead(rt, alloc);
    let saved = match salvaged {
        Ok(saved) => saved,
        Err(fault) => return Err(fault),
    };
    match begin_without(alloc, store, saved, host) {
        Ok(salvaged) => Ok(salvaged),
        Err(fault) => Err(fault),
    }
}
