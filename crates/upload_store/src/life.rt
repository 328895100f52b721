//! What a store keeps over its whole life: bodies and entries are kept, crashes come, and it is opened again.
ghost use Rattle.std.specs.Prelude.{◌≡◌, ◌⊎◌, ◌+◌, ◌<◌, ◌≤◌, ◌^◌, ◌++◌, ℕ, List, length, take, IfOk, OnOk, IsTrue};
ghost use Rattle.std.specs.Prelude.{◌-◌, false, IfErr, IsSome, Option};
ghost use Rattle.journal.specs.Format.{stored, sector};
ghost use Rattle.journal.specs.Journal.{end_of, line_of};
ghost use Rattle.journal.specs.Line.{BeginsWith};
ghost use Rattle.journal.specs.Errors.{Because};
ghost use Rattle.sqlite_disk.specs.Disk.{MoreFaults};
ghost use Rattle.upload_service.specs.Machine.{empty_state};
ghost use Rattle.upload_store.specs.Runs.{IsReplayOf, start_of};
ghost use Rattle.upload_store.specs.Safe.{IsSafe, AreWritten};
ghost use Rattle.upload_store.specs.Rounds.{rounds_kept, bodies_of, rounds_end, RoundFails};
ghost use Rattle.upload_store.specs.Faults.{BodyFails, ComesBy, Never, OnlyFails};
ghost use Rattle.upload_store.specs.Store.{journal_of, shelf_of, disk_of, is_open, kept_of, next_of, limits_of};
ghost use Rattle.upload_store.specs.Store.{IsClean};

use crate::{CrashShelf, Store, StoreFault};
use bodies::Shelf;
use journal::Batch;
use sqlite_disk::{Crash, Disk};
use std::alloc::Global;
use upload_bytes::Body;
use upload_journal::Replay;

/// Bodies, and a batch of entries that may name them.
#[derive(Drop)]
pub struct Round {
    pub bodies: Vec<Body>,
    pub batch: Batch,
}

/// Keeps rounds in order, up to the first that fails, and answers how many of them are acknowledged.
pub fn keep_each<D: Disk, S: Shelf>(store: &mut Store<D, S>, rounds: &[Round], time: u64) -> usize
    ensures count { result ≤ length rounds.now }
    ensures safe { (n : ℕ) (bytes : List ℕ) → IsClean store.new
        → IsSafe S.Shelf.held S.Shelf.may_leave (shelf_of store.old) n bytes
        → IsSafe S.Shelf.held S.Shelf.may_leave (shelf_of store.new) n bytes }
    ensures limits { limits_of store.new ≡ limits_of store.old }
    ensures clean { IsClean store.new → IsClean store.old }
    ensures faults { (D.Disk.faults (disk_of store.old) ≤ D.Disk.faults (disk_of store.new))
        × (S.Shelf.faults (shelf_of store.old) ≤ S.Shelf.faults (shelf_of store.new)) }

    // Fewer than all only by a cause.
    ensures cause { result < length rounds.now → RoundFails (is_open store.old ≡ false)
        (2 ^ 63 ≤ rounds_end (end_of (journal_of store.old)) (take (result + 1) rounds.now) + sector)
        (MoreFaults (D.Disk.faults (disk_of store.old)) (D.Disk.faults (disk_of store.new)))
        (2 ^ 64 ≤ next_of store.old + length (bodies_of (take (result + 1) rounds.now)))
        (BodyFails S.Shelf S.File.Disk (shelf_of store.old) (shelf_of store.new) (next_of store.old)
        (bodies_of (take (result + 1) rounds.now))) }

    // A crash leaves those that are acknowledged, with the next one or without: none skipped, none in part, and each
    // with all of its bodies.
    ensures any_crash { IsTrue (is_open store.old) → IsClean store.new → (file : List ℕ)
        → D.Disk.may_leave (disk_of store.new) file
        → (k : ℕ) × (result ≤ k) × (k ≤ result + 1) × (k ≤ length rounds.now)
        × (stored file ≡ kept_of store.old ++ rounds_kept time (take k rounds.now))
        × AreWritten S.Shelf.held S.Shelf.may_leave (shelf_of store.new) (next_of store.old)
        (bodies_of (take k rounds.now)) }
{
    if !store.is_open() {
        return 0;
    }
    for (i, round) in rounds.iter().enumerate() {
        if store.keep(&round.bodies, &round.batch, time).is_err() {
            return i;
        }
    }
    rounds.len()
}

/// A crash, and the recovery after it.
pub fn restart<D: Crash, S: CrashShelf>(
    store: &mut Store<D, S>,
    alloc: Global,
) -> Result<Replay, StoreFault>
    ensures ran { IfOk result (λ replay. IsClean store.new
        → (file : List ℕ) × D.Disk.may_leave (disk_of store.old) file
        × (kept_of store.new ≡ stored file)
        × IsReplayOf (stored file) (S.Shelf.held (shelf_of store.new))
        (start_of (empty_state (limits_of store.old) 0)) replay) }
    ensures open { OnOk result (IsTrue (is_open store.new)) }
    ensures safe { (n : ℕ) (bytes : List ℕ)
        → IsSafe S.Shelf.held S.Shelf.may_leave (shelf_of store.old) n bytes
        → IsSafe S.Shelf.held S.Shelf.may_leave (shelf_of store.new) n bytes }
    ensures limits { limits_of store.new ≡ limits_of store.old }
    ensures line { line_of (journal_of store.new) ≡ line_of (journal_of store.old) }
    ensures faults { (D.Disk.faults (disk_of store.old) ≤ D.Disk.faults (disk_of store.new))
        × (S.Shelf.faults (shelf_of store.old) ≤ S.Shelf.faults (shelf_of store.new)) }
    ensures clean { IsClean store.new → IsClean store.old }

    // Why it gives up: what the crash left has another first line, or almost 2^63 bytes; a call failed, of the disk or
    // as the numbers of the shelf were read; a record can't be run again; or the last number has a body.
    ensures cause { IfErr result (ComesBy (Because Never
        (IsClean store.new
        → D.Disk.may_leave (disk_of store.old) (D.Disk.seen (disk_of store.new))
        × (BeginsWith (line_of (journal_of store.old)) (D.Disk.seen (disk_of store.new)) → Never))
        (IsClean store.new → 2 ^ 63 ≤ length (D.Disk.seen (disk_of store.new)) + sector + sector)
        (MoreFaults (D.Disk.faults (disk_of store.old)) (D.Disk.faults (disk_of store.new)))
        Never)
        (OnlyFails (MoreFaults (S.Shelf.faults (shelf_of store.old))
        (S.Shelf.faults (shelf_of store.new)))) (λ _. Unit {0})
        (IsClean store.new → IsSome (S.Shelf.held (shelf_of store.new) (2 ^ 64 - 1)))) }

    // A crash in it, too, leaves what the first would have left.
    ensures any_crash { IsClean store.new → (file : List ℕ)
        → D.Disk.may_leave (disk_of store.new) file
        → (before : List ℕ) × D.Disk.may_leave (disk_of store.old) before
        × (stored file ≡ stored before) }
{
    store.crash();
    match store.recover(alloc) {
        Ok(replay) => Ok(replay),
        Err(fault) => Err(fault),
    }
}

/// Crashes, each with a recovery that may get to its end or not.
fn restart_each<D: Crash, S: CrashShelf>(store: &mut Store<D, S>, alloc: Global, times: usize)
    ensures safe { (n : ℕ) (bytes : List ℕ)
        → IsSafe S.Shelf.held S.Shelf.may_leave (shelf_of store.old) n bytes
        → IsSafe S.Shelf.held S.Shelf.may_leave (shelf_of store.new) n bytes }
    ensures limits { limits_of store.new ≡ limits_of store.old }
    ensures faults { (D.Disk.faults (disk_of store.old) ≤ D.Disk.faults (disk_of store.new))
        × (S.Shelf.faults (shelf_of store.old) ≤ S.Shelf.faults (shelf_of store.new)) }
    ensures clean { IsClean store.new → IsClean store.old }
    ensures any_crash { IsClean store.new → (file : List ℕ)
        → D.Disk.may_leave (disk_of store.new) file
        → (before : List ℕ) × D.Disk.may_leave (disk_of store.old) before
        × (stored file ≡ stored before) }
{
    for _ in 0..times {
        let _ = restart(store, alloc);
    }
}

/// Rounds, a crash, so many recoveries that are cut off by crashes, and one that is not. The service has then seen the
/// acknowledged rounds in order, each once and with its bodies, and then the one under way, or not.
pub fn live_on<D: Crash, S: CrashShelf>(
    store: &mut Store<D, S>,
    alloc: Global,
    rounds: &[Round],
    time: u64,
    cut_off: usize,
) -> Result<(usize, Replay), StoreFault>
    ensures ran { IfOk result (λ done. IsTrue (is_open store.old) → IsClean store.new
        → (k : ℕ) × (done.0 ≤ k) × (k ≤ done.0 + 1) × (k ≤ length rounds.now)
        × IsReplayOf (kept_of store.old ++ rounds_kept time (take k rounds.now))
        (S.Shelf.held (shelf_of store.new))
        (start_of (empty_state (limits_of store.old) 0)) done.1
        × AreWritten S.Shelf.held S.Shelf.may_leave (shelf_of store.new) (next_of store.old)
        (bodies_of (take k rounds.now))) }
    ensures safe { (n : ℕ) (bytes : List ℕ) → IsClean store.new
        → IsSafe S.Shelf.held S.Shelf.may_leave (shelf_of store.old) n bytes
        → IsSafe S.Shelf.held S.Shelf.may_leave (shelf_of store.new) n bytes }
    ensures open { OnOk result (IsTrue (is_open store.new)) }

    // Why it gives up: the journal has another first line by now, or almost 2^63 bytes; a call failed, of the disk or
    // of the shelf; a record can't be run again; or the last number has a body.
    ensures cause { IfErr result (ComesBy (Because Never
        (IsClean store.new
        → BeginsWith (line_of (journal_of store.new)) (D.Disk.seen (disk_of store.new)) → Never)
        (IsClean store.new → 2 ^ 63 ≤ length (D.Disk.seen (disk_of store.new)) + sector + sector)
        (MoreFaults (D.Disk.faults (disk_of store.old)) (D.Disk.faults (disk_of store.new)))
        Never)
        (OnlyFails (MoreFaults (S.Shelf.faults (shelf_of store.old))
        (S.Shelf.faults (shelf_of store.new)))) (λ _. Unit {0})
        (IsClean store.new → IsSome (S.Shelf.held (shelf_of store.new) (2 ^ 64 - 1)))) }
{
    let acknowledged = keep_each(store, rounds, time);
    restart_each(store, alloc, cut_off);
    match restart(store, alloc) {
        Ok(replay) => Ok((acknowledged, replay)),
        Err(fault) => Err(fault),
    }
}
