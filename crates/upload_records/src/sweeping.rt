//! Files that no record names.
ghost use Rattle.std.specs.Prelude.{◌≡◌, ℕ, false, None, IsSome, IfOk, IsTrue};
ghost use Rattle.std.specs.List.{All};
ghost use Rattle.bodies.specs.Shelf.{Keeps, KeepsAll};
ghost use Rattle.journal.specs.Journal.{disk_of, kept};
ghost use Rattle.journal.specs.declared.ending.Ending.TheVariants.{Sound};
ghost use Rattle.journal.specs.Ending.{Looks};
ghost use Rattle.journal.specs.Format.{has_mark};
ghost use Rattle.journal.specs.Reads.{OnlyReads};
ghost use Rattle.upload_store.specs.Found.{numbers_of, texts_of};
ghost use Rattle.upload_records.specs.Names.{Has, IsEntryText};

use crate::named::Named;
use bodies::{BodyFault, Shelf};
use journal::{Journal, Looked};
use sqlite_disk::Disk;
use std::alloc::Global;
use upload_store::StoreFault;

/// What a sweep has come to.
#[derive(Clone, Copy, Debug)]
pub struct Swept {
    /// How the journal ends, and whether others are lost before it.
    pub looked: Looked,
    /// How many files were removed. None if what a file is for may be in doubt: then all stay.
    pub removed: Option<u64>,
    /// How many bytes the files have that records name, as these say.
    pub named: u64,
}

/// Removes this number's file, if it isn't named, and says whether it did.
#[tactic(auto, using(crate::proofs::Sweeps::same_keeps))]
fn remove_other<S: Shelf>(shelf: &mut S, number: u64, named: &Named) -> Result<bool, BodyFault>
    ensures keeps { (n : ℕ) → Has named.now n
        → Keeps S.Shelf.held S.Shelf.may_leave shelf.old shelf.new n }
    ensures clean { S.Shelf.IsClean shelf.new → S.Shelf.IsClean shelf.old }
    ensures usable { S.Shelf.is_usable shelf.new ≡ S.Shelf.is_usable shelf.old }
{
    if named.has(number) {
        return Ok(false);
    }
    match shelf.remove(number) {
        Ok(()) => Ok(true),
        Err(fault) => Err(fault),
    }
}

/// Removes all files but those that are named, and says how many it removed.
fn remove_others<S: Shelf>(alloc: Global, shelf: &mut S, named: &Named) -> Result<u64, BodyFault>
    ensures keeps { (n : ℕ) → Has named.now n
        → Keeps S.Shelf.held S.Shelf.may_leave shelf.old shelf.new n }
    ensures clean { S.Shelf.IsClean shelf.new → S.Shelf.IsClean shelf.old }
    ensures usable { S.Shelf.is_usable shelf.new ≡ S.Shelf.is_usable shelf.old }
{
    let there = shelf.numbers(alloc)?;
    let mut removed = 0u64;
    for number in there.iter() {
        if remove_other(shelf, *number, named)? {
            removed = removed.saturating_add(1);
        }
    }
    Ok(removed)
}

/// Removes the files of a shelf that no record of a journal names, and says how many. A server that ends while it
/// writes a body leaves such a file. The journal is read as it stands, and nothing is written to it. A crash may bring
/// a file back, and the next sweep finds it again.
///
/// All files stay if what a file is for may be in doubt: a record is no entry, the journal doesn't end as a sound one
/// does, or a batch marks that others are lost.
///
/// An error is one of `Journal::look`, or says that a file wasn't listed or removed: some may be removed then.
#[tactic(auto, using(crate::proofs::Runs::noted, crate::proofs::Sweeps::all_named, crate::proofs::Sweeps::all_same))]
pub fn sweep<D: Disk, S: Shelf>(
    alloc: Global,
    journal: &mut Journal<D>,
    shelf: &mut S,
) -> Result<Swept, StoreFault>
    ensures named { IsTrue (D.Disk.is_clean (disk_of journal.new)) → All (λ text. All
        (λ n. Keeps S.Shelf.held S.Shelf.may_leave shelf.old shelf.new n) (numbers_of text))
        (texts_of (kept journal.old)) }
    ensures doubt { IfOk result (λ swept. swept.removed ≡ None
        → KeepsAll S.Shelf.held S.Shelf.may_leave shelf.old shelf.new) }
    ensures sure { IfOk result (λ swept. IsSome swept.removed
        → (swept.looked.ending ≡ Sound) × (swept.looked.has_mark ≡ false)) }
    ensures entries { IfOk result (λ swept. IsSome swept.removed
        → IsTrue (D.Disk.is_clean (disk_of journal.new))
        → All IsEntryText (texts_of (kept journal.old))) }
    ensures ends { IfOk result (λ swept. IsTrue (D.Disk.is_clean (disk_of journal.new))
        → Looks swept.looked.ending (D.Disk.seen (disk_of journal.old))
        × (swept.looked.has_mark ≡ has_mark (kept journal.old))) }
    ensures reads { IsTrue (D.Disk.is_usable (disk_of journal.old))
        → OnlyReads D.Disk (disk_of journal.old) (disk_of journal.new) }
    ensures unused { D.Disk.is_usable (disk_of journal.old) ≡ false
        → disk_of journal.new ≡ disk_of journal.old }
    ensures clean { S.Shelf.IsClean shelf.new → S.Shelf.IsClean shelf.old }
    ensures usable { S.Shelf.is_usable shelf.new ≡ S.Shelf.is_usable shelf.old }
{
    let mut named = Named::new(alloc);
    let looked = match journal.look(alloc, &mut named) {
        Ok(looked) => looked,
        Err(error) => return Err(StoreFault::Journal(error)),
    };
    let bytes = named.bytes();
    if !looked.is_sure() || !named.are_entries() {
        return Ok(Swept {
            looked,
            removed: None,
            named: bytes,
        });
    }
    match remove_others(alloc, shelf, &named) {
        Ok(removed) => Ok(Swept {
            looked,
            removed: Some(removed),
            named: bytes,
        }),
        Err(fault) => Err(StoreFault::Body(fault)),
    }
}
