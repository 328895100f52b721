//! What was told is on the disk.
ghost use Rattle.upload_keeping.specs.Told.{CanBeRunAgain, HoldsOverRestarts, KeepsWhatIsTold};

use crate::keeping::StoreKeeping;
use crate::round::kept_is_on_the_disk;
use bodies::Shelf;
use sqlite_disk::Disk;

/// What anybody heard as an answer is in what every crash leaves, and each recovery of that has it. The answer may be
/// heard, by the contract of a pool's keeper, as this keeping stood at that moment or at an earlier one: then the
/// service that is recovered is the one before all, after what was kept then, in order and with the same answers, and
/// after what was kept since. If the answer tells of a change, that change is among the former. It goes on at a moment
/// before which nothing was answered.
///
/// It is said of a keeping that has begun without a loss (`StoreKeeping::is_whole`).
///
/// This rests on the disk as `sqlite_disk` describes it, on what a shelf says of its files, and on no wrong answer of
/// either having been taken as true.
pub fn told_is_on_the_disk<D: Disk, S: Shelf, H>(keeping: &StoreKeeping<D, S, H>)
    ensures { ∥ KeepsWhatIsTold keeping.now.books ∥₁ }
{
    kept_is_on_the_disk(&keeping.books.store);
}

/// Once all that waited is kept, the headline holds over a restart. It holds of all that was served before, also of
/// refusals and reads, which are kept nowhere, and of what a recovered service answers then, at no moment before that
/// at which it goes on. So an upload that was told to be gone is never there again. The premises are those of
/// `told_is_on_the_disk`.
pub fn headline_holds_over_restarts<D: Disk, S: Shelf, H>(keeping: &StoreKeeping<D, S, H>)
    ensures { ∥ HoldsOverRestarts keeping.now.books ∥₁ }
{
    kept_is_on_the_disk(&keeping.books.store);
}

/// What every crash leaves can be run again to its end, so that a start loses nothing of it: by the contract of
/// `Store::salvage` a record is lost then only if a call of the disk failed. What was kept and what waits has to be a
/// run, as a pool's keeper shows at each `keep`, and none of its moments before the one at which the keeping began. The
/// other premises are those of `told_is_on_the_disk`.
pub fn kept_can_be_run_again<D: Disk, S: Shelf, H>(keeping: &StoreKeeping<D, S, H>)
    ensures { ∥ CanBeRunAgain keeping.now.books ∥₁ }
{
    kept_is_on_the_disk(&keeping.books.store);
}
