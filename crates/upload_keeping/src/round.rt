//! A round: all that waits is put on the disk at once.
ghost use Rattle.std.specs.Prelude.{◌≡◌, ◌≤◌, ◌+◌, ◌^◌, [], false, max, OnOk, OnErr, IfErr, IfOk};
ghost use Rattle.sqlite_disk.specs.Disk.{MoreFaults};
ghost use Rattle.journal.specs.Batch.{batch_records, batch_size};
ghost use Rattle.journal.specs.Errors.{WhyNot};
ghost use Rattle.journal.specs.Format.{sector};
ghost use Rattle.journal.specs.Journal.{end_of};
ghost use Rattle.upload_store.specs.Faults.{ComesBy, Never, NoBody, NoRecord};
ghost use Rattle.upload_store.specs.Store.{disk_of, is_open, journal_of};
ghost use Rattle.upload_keeping.specs.Faults.{StopsBy};
ghost use Rattle.upload_keeping.specs.Keeping.{Goes, KeepsBoth, LeavesEither, LeavesJustThat, Promises};

use crate::fault::KeepFault;
use bodies::Shelf;
use journal::Batch;
use sqlite_disk::Disk;
use std::alloc::AllocError;
use upload_journal::moments_text;
use upload_store::Store;

/// Moments are promised so many seconds ahead.
const AHEAD: u64 = 60;

/// The moments of a round, in seconds.
#[derive(Clone, Copy, Debug)]
pub struct Moments {
    /// The last one at which it answers something.
    pub last: u64,
    /// The moments up to this one are promised already.
    pub upto: u64,
}

/// Puts a promise into a batch if the last moment isn't promised yet: of the moments up to a minute after it. Says up
/// to which one moments are promised then.
fn promise(batch: &mut Batch, moments: Moments) -> Result<u64, AllocError>
    ensures reaches { IfOk result (λ next. (moments.last ≤ next) × (moments.upto ≤ next)) }
    ensures ahead { IfOk result (λ next. next ≤ max moments.upto (moments.last + 60)) }
    ensures promises { IfOk result (λ next.
        Promises moments.upto next (batch_records batch.old) (batch_records batch.new)) }
{
    if moments.last <= moments.upto {
        return Ok(moments.upto);
    }
    let next = moments.last.saturating_add(AHEAD);
    batch.add(&moments_text(next))?;
    Ok(next)
}

/// Puts a batch on the disk at once, with the time of day in seconds since 1970, and empties it. If the last moment of
/// the round isn't promised, the batch promises the moments up to a minute after it. Says up to which moment answers
/// may be given then, on the disk.
///
/// After an error the store isn't to be used any more.
pub fn keep_round<D: Disk, S: Shelf>(
    store: &mut Store<D, S>,
    batch: &mut Batch,
    moments: Moments,
    time: u64,
) -> Result<u64, KeepFault>
    ensures reaches { IfOk result (λ next. (moments.last ≤ next) × (moments.upto ≤ next)) }
    ensures ahead { IfOk result (λ next. next ≤ max moments.upto (moments.last + 60)) }
    ensures empty { OnOk result (batch_records batch.new ≡ []) }
    // Whatever the store has kept since it was opened, and whatever the batch holds, it has kept both then.
    ensures kept { IfOk result (λ next.
        KeepsBoth moments.upto next (batch_records batch.old) store.old store.new) }
    // If it fails, every crash leaves what was kept before, or that and the whole batch.
    ensures tried { OnErr result
        (LeavesEither moments.upto (batch_records batch.old) store.old store.new) }
    ensures goes { Goes store.old store.new }
    // It doesn't give up by itself: there is no memory for the promise, or the journal refuses the batch.
    ensures cause { IfErr result (StopsBy (ComesBy (WhyNot (is_open store.old ≡ false)
        (2 ^ 63 ≤ end_of (journal_of store.old) + sector + batch_size batch.new)
        (MoreFaults (D.Disk.faults (disk_of store.old)) (D.Disk.faults (disk_of store.new)))
        (journal_of store.new ≡ journal_of store.old)) NoBody NoRecord Never)) }
{
    // Each crash leaves what an open store keeps, and this call says so.
    let _ = store.is_open();
    let Ok(next) = promise(batch, moments) else {
        return Err(KeepFault::NoMemory);
    };
    match store.append(batch, time) {
        Ok(()) => {
            batch.clear();
            Ok(next)
        }
        Err(fault) => Err(KeepFault::Store(fault)),
    }
}

/// What is kept is on the disk: every crash leaves what a store had as it was opened, and after it the entries of just
/// what was kept since, in order and each once, each with its whole body; and the moments that were promised.
pub fn kept_is_on_the_disk<D: Disk, S: Shelf>(store: &Store<D, S>)
    ensures { LeavesJustThat store.now }
{
    let _ = store.is_open();
}
