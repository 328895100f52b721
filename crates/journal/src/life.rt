//! What a journal keeps over its whole life: batches are added, crashes come, and it is opened again.
ghost use Rattle.std.specs.Prelude.{◌≡◌, ◌⊎◌, ◌+◌, ◌<◌, ◌≤◌, ◌^◌, ◌++◌, ℕ, false};
ghost use Rattle.std.specs.Prelude.{List, map, length, take, IfOk, IfErr, OnOk, OnErr, IsTrue};
ghost use Rattle.sqlite_disk.specs.Disk.{MoreFaults};
ghost use Rattle.journal.specs.Machine.{Runs};
ghost use Rattle.journal.specs.Format.{stored, sector};
ghost use Rattle.journal.specs.Batch.{kept_of, batch_size, ends_behind};
ghost use Rattle.journal.specs.Errors.{Because, Never};
ghost use Rattle.journal.specs.Line.{BeginsWith};
ghost use Rattle.journal.specs.Journal.{disk_of, line_of, is_open, end_of, kept};

use crate::{Batch, Error, Journal, Machine};
use sqlite_disk::{Crash, Disk};
use std::alloc::Global;

/// Adds batches in order, up to the first that fails, and answers how many of them are acknowledged.
pub fn append_each<D: Disk>(journal: &mut Journal<D>, batches: &[Batch], time: u64) -> usize
    requires { IsTrue (is_open journal.old) }
    ensures count { result ≤ length batches.now }

    // Fewer than all only if the next one doesn't fit into the file, or a call of the disk failed.
    ensures cause { result < length batches.now
        → (2 ^ 63 ≤ ends_behind (end_of journal.old) (take (result + 1) batches.now) + sector)
        ⊎ MoreFaults (D.Disk.faults (disk_of journal.old)) (D.Disk.faults (disk_of journal.new)) }
    ensures open { result ≡ length batches.now → IsTrue (is_open journal.new) }
    ensures added { IsTrue (is_open journal.new) → IsTrue (D.Disk.is_clean (disk_of journal.new))
        → kept journal.new ≡ kept journal.old ++ kept_of time (take result batches.now) }
    ensures line { line_of journal.new ≡ line_of journal.old }
    ensures clean { IsTrue (D.Disk.is_clean (disk_of journal.new))
        → IsTrue (D.Disk.is_clean (disk_of journal.old)) }
    ensures faults { D.Disk.faults (disk_of journal.old) ≤ D.Disk.faults (disk_of journal.new) }

    // A crash leaves those that are acknowledged, with the next one or without: none skipped, none in part.
    ensures any_crash { IsTrue (D.Disk.is_clean (disk_of journal.new))
        → (c : List ℕ) → D.Disk.may_leave (disk_of journal.new) c
        → (k : ℕ) × (result ≤ k) × (k ≤ result + 1) × (k ≤ length batches.now)
        × (stored c ≡ kept journal.old ++ kept_of time (take k batches.now)) }
    ensures front { IsTrue (D.Disk.is_clean (disk_of journal.new))
        → (c : List ℕ) → D.Disk.may_leave (disk_of journal.new) c
        → BeginsWith (line_of journal.old) c }
{
    for (i, batch) in batches.iter().enumerate() {
        if journal.append(batch, time).is_err() {
            return i;
        }
    }
    batches.len()
}

/// A crash, and the recovery after it.
pub fn restart<D: Crash, M: Machine>(
    journal: &mut Journal<D>,
    alloc: Global,
    machine: &mut M,
) -> Result<(), Error>
    ensures ran { OnOk result (IsTrue (D.Disk.is_clean (disk_of journal.new))
        → (c : List ℕ) × D.Disk.may_leave (disk_of journal.old) c
        × Runs M.steps machine.old (stored c) machine.new × (kept journal.new ≡ stored c)) }
    ensures clean { IsTrue (D.Disk.is_clean (disk_of journal.new))
        → IsTrue (D.Disk.is_clean (disk_of journal.old)) }
    ensures faults { D.Disk.faults (disk_of journal.old) ≤ D.Disk.faults (disk_of journal.new) }
    ensures line { line_of journal.new ≡ line_of journal.old }
    ensures open { OnOk result (IsTrue (is_open journal.new)) }
    ensures closed { OnErr result (is_open journal.new ≡ false) }

    // Why it gives up: what the crash left has another first line, or almost 2^63 bytes; a call of the disk failed, or
    // the machine refused a record.
    ensures cause { IfErr result (Because Never
        (IsTrue (D.Disk.is_clean (disk_of journal.new))
        → (c : List ℕ) × D.Disk.may_leave (disk_of journal.old) c
        × (BeginsWith (line_of journal.old) c → Never))
        (IsTrue (D.Disk.is_clean (disk_of journal.new))
        → 2 ^ 63 ≤ length (D.Disk.seen (disk_of journal.new)) + sector + sector)
        (MoreFaults (D.Disk.faults (disk_of journal.old)) (D.Disk.faults (disk_of journal.new)))
        (M.has_refused machine.new)) }

    // A crash in it, too, leaves what the first would have left.
    ensures any_crash { IsTrue (D.Disk.is_clean (disk_of journal.new))
        → (c : List ℕ) → D.Disk.may_leave (disk_of journal.new) c
        → (d : List ℕ) × D.Disk.may_leave (disk_of journal.old) d × (stored c ≡ stored d) }
    ensures front { ((d : List ℕ) → D.Disk.may_leave (disk_of journal.old) d
        → BeginsWith (line_of journal.old) d)
        → IsTrue (D.Disk.is_clean (disk_of journal.new))
        → (c : List ℕ) → D.Disk.may_leave (disk_of journal.new) c
        → BeginsWith (line_of journal.old) c }
{
    journal.crash();
    if let Err(error) = journal.recover(alloc, machine) {
        return Err(error);
    }
    Ok(())
}

/// Batches, a crash, recoveries that are cut off by crashes, and one that is not: each has a machine of its own. The
/// last machine has seen the acknowledged batches in order, each once, and then the one under way, or not.
pub fn live_on<D: Crash, M: Machine>(
    journal: &mut Journal<D>,
    alloc: Global,
    batches: &[Batch],
    time: u64,
    cut_off: &mut [M],
    machine: &mut M,
) -> Result<usize, Error>
    requires { IsTrue (is_open journal.old) }
    ensures ran { IfOk result (λ n. IsTrue (D.Disk.is_clean (disk_of journal.new))
        → (k : ℕ) × (n ≤ k) × (k ≤ n + 1) × (k ≤ length batches.now)
        × Runs M.steps machine.old (kept journal.old
        ++ kept_of time (take k batches.now)) machine.new
        × (kept journal.new ≡ kept journal.old ++ kept_of time (take k batches.now))) }
    ensures open { OnOk result (IsTrue (is_open journal.new)) }

    // Fewer than all are acknowledged only if the next one doesn't fit into the file, or a call of the disk failed.
    ensures fewer { IfOk result (λ n. n < length batches.now
        → (2 ^ 63 ≤ ends_behind (end_of journal.old) (take (n + 1) batches.now) + sector)
        ⊎ MoreFaults (D.Disk.faults (disk_of journal.old))
        (D.Disk.faults (disk_of journal.new))) }

    // The last recovery gives up only if the file has almost 2^63 bytes, a call of the disk failed, or the machine
    // refused a record. The first line stays what it was.
    ensures cause { IfErr result (Because Never
        (IsTrue (D.Disk.is_clean (disk_of journal.new)) → Never)
        (IsTrue (D.Disk.is_clean (disk_of journal.new))
        → 2 ^ 63 ≤ length (D.Disk.seen (disk_of journal.new)) + sector + sector)
        (MoreFaults (D.Disk.faults (disk_of journal.old)) (D.Disk.faults (disk_of journal.new)))
        (M.has_refused machine.new)) }
{
    let acknowledged = append_each(journal, batches, time);
    restart_each(journal, alloc, cut_off);
    if let Err(error) = restart(journal, alloc, machine) {
        return Err(error);
    }
    Ok(acknowledged)
}

/// Crashes, each with a recovery that may get to its end or not.
fn restart_each<D: Crash, M: Machine>(journal: &mut Journal<D>, alloc: Global, cut_off: &mut [M])
    ensures line { line_of journal.new ≡ line_of journal.old }
    ensures faults { D.Disk.faults (disk_of journal.old) ≤ D.Disk.faults (disk_of journal.new) }
    ensures front { ((d : List ℕ) → D.Disk.may_leave (disk_of journal.old) d
        → BeginsWith (line_of journal.old) d)
        → IsTrue (D.Disk.is_clean (disk_of journal.new))
        → (c : List ℕ) → D.Disk.may_leave (disk_of journal.new) c
        → BeginsWith (line_of journal.old) c }
    ensures clean { IsTrue (D.Disk.is_clean (disk_of journal.new))
        → IsTrue (D.Disk.is_clean (disk_of journal.old)) }
    ensures any_crash { IsTrue (D.Disk.is_clean (disk_of journal.new))
        → (c : List ℕ) → D.Disk.may_leave (disk_of journal.new) c
        → (d : List ℕ) × D.Disk.may_leave (disk_of journal.old) d × (stored c ≡ stored d) }
{
    for i in 0..cut_off.len() {
        let _ = restart(journal, alloc, &mut cut_off[i]);
    }
}
