//! A start that reads bodies, and hashes them, before they are asked for.
ghost use Rattle.std.specs.Prelude.{◌≡◌, ◌≤◌, ◌<◌, List, ℕ, length, IfOk, IfErr, OnOk, IsSome, IsTrue};
ghost use Rattle.std.specs.List.{All};
ghost use Rattle.journal.specs.Format.{stored};
ghost use Rattle.journal.specs.Journal.{line_of};
ghost use Rattle.sqlite_disk.specs.Disk.{MoreFaults};
ghost use Rattle.upload_journal.specs.declared.replay.ReplayFault.TheVariants as Fault;
ghost use Rattle.upload_service.specs.Machine.{empty_state};
ghost use Rattle.upload_store.specs.Ahead.{GivesUpSince, IsAhead};
ghost use Rattle.upload_store.specs.Found.{numbers_of, texts_of};
ghost use Rattle.upload_store.specs.Reading.{ReadsOnly};
ghost use Rattle.upload_store.specs.Runs.{IsReplayOf, start_of};
ghost use Rattle.upload_store.specs.Salvage.{IsSalvageOf, one_more};

use crate::losses::Salvage;
use crate::rerun::Rerun;
use crate::rescue::Rescue;
use crate::{Store, StoreFault};
use bodies::{AheadShelf, Hint, Lends};
use sqlite_disk::Disk;
use std::alloc::Global;
use std::thread::Threads;
use upload_journal::Replay;

/// How many bytes bodies may have together that are read ahead, without a limit on what is held.
const MOST_AHEAD: u64 = 1 << 30;

/// How many bytes bodies may have together that are read ahead, if no more than `memory` may be held: no room counts
/// them, and an eighth of it is enough.
pub fn most_ahead(memory: Option<u64>) -> u64 {
    memory.map_or(MOST_AHEAD, |memory| MOST_AHEAD.min(memory / 8))
}

impl<D: Disk, S: Lends> Store<D, S> {
    ghost use Rattle.upload_store.specs.Store.{journal_of, shelf_of, disk_of, is_open, kept_of, next_of, limits_of};
    ghost use Rattle.upload_store.specs.Store.{IsClean};

    /// The same store, whose shelf reads ahead in threads what the hints tell.
    fn ahead<'a, R: Threads>(
        self,
        rt: &'a R,
        alloc: Global,
        hints: Vec<Hint>,
    ) -> Store<D, AheadShelf<'a, R, S>>
        ensures { IsAhead self result }
    {
        let Store {
            journal,
            run,
            limits,
            memory,
            next,
        } = self;
        let most_ahead = most_ahead(memory.as_ref().map(|room| room.limit()));
        let shelf = AheadShelf::new(rt, alloc, run.rerun.files.shelf, hints, most_ahead);
        let rerun = Rerun::new(alloc, shelf, limits);
        let run = Rescue::new(alloc, rerun);
        Store {
            journal,
            run,
            limits,
            memory,
            next,
        }
    }

    /// Opens the store as `recover` does, and sooner: the journal is read once more before that, and the bodies that it
    /// names are read, and hashed, in threads before they are asked for (`AheadShelf`). No thread is left behind it.
    pub fn recover_ahead<R: Threads>(
        self,
        rt: &R,
        alloc: Global,
    ) -> (Store<D, S>, Result<Replay, StoreFault>)
        ensures ran { IfOk result.1 (λ replay. IsClean result.0
            → IsReplayOf (kept_of self) (S.Shelf.held (shelf_of result.0))
            (start_of (empty_state (limits_of self) 0)) replay) }
        ensures open { OnOk result.1 (IsTrue (is_open result.0)) }
        ensures same { OnOk result.1 (IsClean result.0 → kept_of result.0 ≡ kept_of self) }
        ensures next { OnOk result.1 (IsClean result.0 → (n : ℕ)
            → IsSome (S.Shelf.held (shelf_of result.0) n) → n < next_of result.0) }
        ensures reads { ReadsOnly S.Shelf.held S.Shelf.may_leave S.Shelf.IsClean
            (shelf_of self) (shelf_of result.0) }
        ensures limits { limits_of result.0 ≡ limits_of self }
        ensures line { line_of (journal_of result.0) ≡ line_of (journal_of self) }
        ensures longer { length (D.Disk.seen (disk_of self))
            ≤ length (D.Disk.seen (disk_of result.0)) }
        ensures faults { D.Disk.faults (disk_of self) ≤ D.Disk.faults (disk_of result.0) }
        ensures clean { IsClean result.0 → IsClean self }
        ensures cause { IfErr result.1 (GivesUpSince (λ _. Unit {0}) self result.0) }
        ensures any_crash { IsClean result.0 → (file : List ℕ)
            → D.Disk.may_leave (disk_of result.0) file
            → (before : List ℕ) × D.Disk.may_leave (disk_of self) before
            × (stored file ≡ stored before) }
    {
        let mut store = self;
        let hints = match store.list_hints(alloc) {
            Ok(hints) => hints,
            Err(fault) => return (store, Err(fault)),
        };
        let mut ahead = store.ahead(rt, alloc, hints);
        let recovered = ahead.recover(alloc);
        (ahead.unwrapped(alloc), recovered)
    }

    /// Opens the store as `salvage` does, and sooner, as `recover_ahead` does.
    pub fn salvage_ahead<R: Threads>(
        self,
        rt: &R,
        alloc: Global,
    ) -> (Store<D, S>, Result<Salvage, StoreFault>)
        ensures ran { IfOk result.1 (λ saved. IsClean result.0
            → IsSalvageOf (kept_of self) (S.Shelf.held (shelf_of result.0))
            (MoreFaults (S.Shelf.faults (shelf_of self)) (S.Shelf.faults (shelf_of result.0)))
            (start_of (empty_state (limits_of self) 0)) saved.replay saved.losses.count
            saved.losses.listed.items) }
        ensures open { OnOk result.1 (IsTrue (is_open result.0)) }
        ensures same { OnOk result.1 (IsClean result.0 → kept_of result.0 ≡ kept_of self) }
        ensures next { OnOk result.1 (IsClean result.0 → (n : ℕ)
            → IsSome (S.Shelf.held (shelf_of result.0) n) → n < next_of result.0) }
        ensures unnamed { OnOk result.1 (IsClean result.0 → All (λ text. All
            (λ n. one_more n ≤ next_of result.0) (numbers_of text)) (texts_of (kept_of self))) }
        ensures reads { ReadsOnly S.Shelf.held S.Shelf.may_leave S.Shelf.IsClean
            (shelf_of self) (shelf_of result.0) }
        ensures limits { limits_of result.0 ≡ limits_of self }
        ensures line { line_of (journal_of result.0) ≡ line_of (journal_of self) }
        ensures longer { length (D.Disk.seen (disk_of self))
            ≤ length (D.Disk.seen (disk_of result.0)) }
        ensures faults { D.Disk.faults (disk_of self) ≤ D.Disk.faults (disk_of result.0) }
        ensures clean { IsClean result.0 → IsClean self }
        ensures cause { IfErr result.1 (GivesUpSince (λ it. it.fault ≡ Fault.NoMemory) self result.0) }
        ensures any_crash { IsClean result.0 → (file : List ℕ)
            → D.Disk.may_leave (disk_of result.0) file
            → (before : List ℕ) × D.Disk.may_leave (disk_of self) before
            × (stored file ≡ stored before) }
    {
        let mut store = self;
        let hints = match store.list_hints(alloc) {
            Ok(hints) => hints,
            Err(fault) => return (store, Err(fault)),
        };
        let mut ahead = store.ahead(rt, alloc, hints);
        let saved = ahead.salvage(alloc);
        (ahead.unwrapped(alloc), saved)
    }
}

impl<'a, D: Disk, R: Threads, S: Lends> Store<D, AheadShelf<'a, R, S>> {
    /// The same store, whose shelf reads nothing ahead. No thread reads any more.
    fn unwrapped(self, alloc: Global) -> Store<D, S>
        ensures { IsAhead result self.entry }
    {
        let Store {
            journal,
            run,
            limits,
            memory,
            next,
        } = self;
        let shelf = run.rerun.files.shelf.into_inner();
        let rerun = Rerun::new(alloc, shelf, limits);
        let run = Rescue::new(alloc, rerun);
        Store {
            journal,
            run,
            limits,
            memory,
            next,
        }
    }
}
