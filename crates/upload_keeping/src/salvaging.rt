//! Where a keeping begins over a store that may be damaged.
ghost use Rattle.std.specs.Prelude.{◌≡◌, ◌≢◌, ◌⊎◌, ◌≤◌, ◌∷◌, ◌++◌, [], IfOk, IfErr, OnOk, IsTrue};
ghost use Rattle.upload_keeper.specs.Safety.{Leads};
ghost use Rattle.upload_journal.specs.declared.entries.Entry.TheVariants.{NumbersUpTo};
ghost use Rattle.upload_journal.specs.Entries.{entry_text};
ghost use Rattle.upload_service.specs.Machine.{empty_state};
ghost use Rattle.upload_store.specs.Runs.{IsReplayOf, start_of as start_at};
ghost use Rattle.upload_store.specs.Store.{disk_of, shelf_of, is_open, kept_of as records_of, limits_of, next_of};
ghost use Rattle.upload_store.specs.Store.{IsClean};
ghost use Rattle.upload_keeping.specs.Begun.{BeginsNot, BeginsWithout, IsNotNoted, Notes};
ghost use Rattle.upload_keeping.specs.Books.{moment_of};
ghost use Rattle.upload_keeping.specs.Kept.{start_of, kept_of, waiting_of, last_of, store_of, opened_of, is_whole_of};

use crate::begin::begin;
use crate::host::KeepingHost;
use crate::keeping::StoreKeeping;
use bodies::Shelf;
use journal::{Batch, Error};
use sqlite_disk::Disk;
use std::alloc::Global;
use upload_journal::numbers_text;
use upload_keeper::KeptService;
use upload_store::{Losses, Salvage, Store, StoreFault};

/// A keeping that has begun over a store that may be damaged.
#[derive(Drop)]
pub struct Salvaged<D: Disk, S: Shelf, H> {
    pub kept: KeptService<StoreKeeping<D, S, H>>,
    /// The records that are lost.
    pub losses: Losses,
}

/// Notes in a store that the numbers up to this one are used up, with the time of day in seconds since 1970.
fn use_up<D: Disk, S: Shelf>(
    alloc: Global,
    store: &mut Store<D, S>,
    number: u32,
    time: u64,
) -> Result<(), StoreFault>
    ensures kept { OnOk result (IsClean store.new → records_of store.new
        ≡ records_of store.old ++ (time, entry_text (NumbersUpTo number) ∷ []) ∷ []) }
    ensures open { OnOk result (IsTrue (is_open store.new)) }
    ensures shelf { shelf_of store.new ≡ shelf_of store.old }
    ensures next { next_of store.new ≡ next_of store.old }
    ensures clean { IsClean store.new → IsClean store.old }
    ensures cause { IfErr result (IsNotNoted store.old number (disk_of store.new)) }
{
    let mut batch = Batch::new(alloc);
    if batch.add(&numbers_text(number)).is_err() {
        return Err(StoreFault::Journal(Error::NoMemory));
    }
    match store.append(&batch, time) {
        Ok(()) => Ok(()),
        Err(fault) => Err(fault),
    }
}

/// Notes after losses which numbers are used up: those of lost records, and as many as these may have had. So each
/// later start comes to the same numbers, and to those of what is kept from now on.
fn note<D: Disk, S: Shelf, H: KeepingHost>(
    alloc: Global,
    store: &mut Store<D, S>,
    saved: &Salvage,
    host: &mut H,
) -> Result<(), StoreFault>
    requires { IsTrue (is_open store.old) }
    ensures noted { OnOk result (IsClean store.new → Notes saved.now.losses.count
        saved.now.replay.state.issued (records_of store.old) (records_of store.new)) }
    ensures open { OnOk result (IsTrue (is_open store.new)) }
    ensures shelf { shelf_of store.new ≡ shelf_of store.old }
    ensures next { next_of store.new ≡ next_of store.old }
    ensures clean { IsClean store.new → IsClean store.old }
    ensures whole { saved.now.losses.count ≡ 0 → store.new ≡ store.old }
    ensures cause { IfErr result
        (IsNotNoted store.old saved.now.replay.state.issued (disk_of store.new)) }
{
    if saved.losses.count == 0 {
        return Ok(());
    }
    match use_up(alloc, store, saved.replay.issued(), host.time()) {
        Ok(()) => Ok(()),
        Err(fault) => Err(fault),
    }
}

/// Begins to keep in a store of which records may be lost, and notes first which numbers are used up then.
pub(crate) fn begin_without<D: Disk + Drop, S: Shelf + Drop, H: KeepingHost + Drop>(
    alloc: Global,
    store: Store<D, S>,
    saved: Salvage,
    host: H,
) -> Result<Salvaged<D, S, H>, StoreFault>
    requires open { IsTrue (is_open store) }
    requires whole { saved.losses.count ≡ 0 → IsClean store
        → IsReplayOf (records_of store) (S.Shelf.held (shelf_of store))
        (start_at (empty_state (limits_of store) 0)) saved.replay }
    ensures leads { IfOk result (λ it. Leads (start_of it.kept.keeping) (kept_of it.kept.keeping)
        it.kept.since it.kept.service) }
    ensures none { IfOk result (λ it.
        (kept_of it.kept.keeping ≡ []) × (waiting_of it.kept.keeping ≡ [])) }
    ensures begun { IfOk result (λ it. it.kept.since ≤ last_of it.kept.keeping) }
    ensures opened { IfOk result (λ it.
        opened_of it.kept.keeping ≡ store_of it.kept.keeping) }
    ensures clean { IfOk result (λ it. IsClean (store_of it.kept.keeping) → IsClean store) }
    ensures shelf { IfOk result (λ it. shelf_of (store_of it.kept.keeping) ≡ shelf_of store) }
    ensures next { IfOk result (λ it. next_of (store_of it.kept.keeping) ≡ next_of store) }
    ensures noted { IfOk result (λ it. IsClean (store_of it.kept.keeping)
        → Notes saved.losses.count saved.replay.state.issued (records_of store)
        (records_of (store_of it.kept.keeping))) }
    ensures all { IfOk result (λ it. saved.losses.count ≡ 0
        → (store_of it.kept.keeping ≡ store) × IsTrue (is_whole_of it.kept.keeping)) }
    ensures losses { IfOk result (λ it. it.losses ≡ saved.losses) }
    ensures service { IfOk result (λ it. (it.kept.service ≡ saved.replay.state)
        × (it.kept.since ≡ moment_of saved.replay)) }
    ensures cause { IfErr result (λ fault. (disk : D)
        × IsNotNoted store saved.replay.state.issued disk fault) }
{
    let mut store = store;
    let mut host = host;
    match note(alloc, &mut store, &saved, &mut host) {
        Ok(()) => {
            let Salvage { replay, losses } = saved;
            let is_whole = losses.count == 0;
            let kept = begin(alloc, store, replay, is_whole, host);
            Ok(Salvaged { kept, losses })
        }
        Err(fault) => Err(fault),
    }
}

/// Opens a store as `open` does, and without the records that can't be run again: a damaged journal or shelf loses what
/// is damaged, and what can't be done without it (`Store::salvage`). If nothing is lost, it is `open`.
///
/// After losses an entry is noted, by which no number of theirs comes again; and no later body gets the number of a
/// file that a record names.
///
/// An error is one of `Store::salvage`, or says why that entry can't be noted. The store is dropped then.
pub fn salvage<D: Disk + Drop, S: Shelf + Drop, H: KeepingHost + Drop>(
    alloc: Global,
    store: Store<D, S>,
    host: H,
) -> Result<Salvaged<D, S, H>, StoreFault>
    // What a pool asks of a service and of its keeping.
    ensures leads { IfOk result (λ it. Leads (start_of it.kept.keeping) (kept_of it.kept.keeping)
        it.kept.since it.kept.service) }
    ensures waiting { IfOk result (λ it. waiting_of it.kept.keeping ≡ []) }
    ensures begun { IfOk result (λ it. it.kept.since ≤ last_of it.kept.keeping) }
    ensures salvaged { IfOk result (λ it.
        BeginsWithout store it.kept.keeping it.kept.service it.kept.since it.losses) }
    // Why it gives up: of the records only a want of memory ends it.
    ensures cause { IfErr result (BeginsNot store) }
{
    let mut store = store;
    let saved = match store.salvage(alloc) {
        Ok(saved) => saved,
        Err(fault) => return Err(fault),
    };
    match begin_without(alloc, store, saved, host) {
        Ok(salvaged) => Ok(salvaged),
        Err(fault) => Err(fault),
    }
}
