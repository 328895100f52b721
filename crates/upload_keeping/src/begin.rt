//! Where a keeping begins.
ghost use Rattle.std.specs.Prelude.{◌≡◌, ◌≤◌, [], IfOk, IfErr, IsTrue};
ghost use Rattle.upload_keeper.specs.Safety.{Leads};
ghost use Rattle.upload_service.specs.Machine.{empty_state};
ghost use Rattle.upload_store.specs.Runs.{IsReplayOf, start_of as start_at};
ghost use Rattle.upload_store.specs.Store.{shelf_of, is_open, kept_of as records_of, limits_of, IsClean};
ghost use Rattle.upload_keeping.specs.Begun.{Begins, GivesUp};
ghost use Rattle.upload_keeping.specs.Books.{moment_of};
ghost use Rattle.upload_keeping.specs.Kept.{start_of, kept_of, waiting_of, last_of, store_of, opened_of, is_whole_of};

use crate::books::Books;
use crate::keeping::StoreKeeping;
use bodies::Shelf;
use sqlite_disk::Disk;
use std::alloc::Global;
use upload_journal::Replay;
use upload_keeper::KeptService;
use upload_store::{Store, StoreFault};

/// Begins to keep in a store that was opened what the service changes that was recovered from it, at the moment that
/// was promised last. `is_whole` says that this is all that the store had.
pub(crate) fn begin<D: Disk, S: Shelf, H>(
    alloc: Global,
    store: Store<D, S>,
    replay: Replay,
    is_whole: bool,
    host: H,
) -> KeptService<StoreKeeping<D, S, H>>
    requires open { IsTrue (is_open store) }
    requires ran { IsTrue is_whole → IsClean store
        → IsReplayOf (records_of store) (S.Shelf.held (shelf_of store))
        (start_at (empty_state (limits_of store) 0)) replay }
    ensures leads { Leads (start_of result.keeping) (kept_of result.keeping) result.since
        result.service }
    ensures none { (kept_of result.keeping ≡ []) × (waiting_of result.keeping ≡ []) }
    ensures begun { result.since ≤ last_of result.keeping }
    ensures store { (store_of result.keeping ≡ store) × (opened_of result.keeping ≡ store) }
    ensures whole { is_whole_of result.keeping ≡ is_whole }
    ensures service { result.service ≡ replay.state }
    ensures since { result.since ≡ moment_of replay }
{
    let books = Books::of(alloc, store, &replay, is_whole);
    let since = replay.moment();
    let service = replay.into_service();
    // Each service is lawful, and this call says so.
    let _ = service.limits();
    KeptService {
        service,
        keeping: StoreKeeping::of(books, host),
        since,
    }
}

/// Recovers a store, and begins to keep in it what its service changes: at the moment that was promised last, so that
/// none falls over a restart. The store is `Store::new`, and need not be open.
///
/// An error is one of `Store::recover`. The store is dropped then.
pub fn open<D: Disk + Drop, S: Shelf + Drop, H: Drop>(
    alloc: Global,
    store: Store<D, S>,
    host: H,
) -> Result<KeptService<StoreKeeping<D, S, H>>, StoreFault>
    // What a pool asks of a service and of its keeping.
    ensures leads { IfOk result (λ kept.
        Leads (start_of kept.keeping) (kept_of kept.keeping) kept.since kept.service) }
    ensures waiting { IfOk result (λ kept. waiting_of kept.keeping ≡ []) }
    ensures begun { IfOk result (λ kept. kept.since ≤ last_of kept.keeping) }
    ensures recovered { IfOk result
        (λ kept. Begins store kept.keeping kept.service kept.since) }
    // Why it gives up, by the disk and the shelf as the recovery left them.
    ensures cause { IfErr result (λ fault. (disk : D) × (shelf : S)
        × GivesUp (λ _. Unit {0}) store disk shelf fault) }
{
    let mut store = store;
    match store.recover(alloc) {
        Ok(replay) => Ok(begin(alloc, store, replay, true, host)),
        Err(fault) => Err(fault),
    }
}
