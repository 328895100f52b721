//! A body that was written as it came gets its number.
ghost use Rattle.std.specs.Prelude.{◌≡◌, ◌≤◌, ◌∷◌, [], ℕ, List, None};
ghost use Rattle.std.specs.Prelude.{IfErr, OnOk, IsTrue};
ghost use Rattle.bodies.specs.Shelf.{KeepsOthers};
ghost use Rattle.upload_store.specs.Faults.{BodyFails};
ghost use Rattle.upload_store.specs.Safe.{IsSafe};

use crate::store::Store;
use bodies::{BodyFault, Shelf, name};
use sqlite_disk::Disk;
use upload_bytes::{Spool, SyncedFile};

/// Gives a file of the spool its number, and puts the name on the disk.
pub(crate) fn name_file<S: Shelf>(
    shelf: &mut S,
    number: u64,
    file: &SyncedFile,
) -> Result<(), BodyFault>
    ensures safe { OnOk result
        (IsSafe S.Shelf.held S.Shelf.may_leave shelf.new number file.now) }
    ensures free { OnOk result (S.Shelf.IsClean shelf.new → S.Shelf.held shelf.old number ≡ None) }
    ensures still { (n : ℕ) (bytes : List ℕ) → S.Shelf.IsClean shelf.new
        → IsSafe S.Shelf.held S.Shelf.may_leave shelf.old n bytes
        → IsSafe S.Shelf.held S.Shelf.may_leave shelf.new n bytes }
    ensures others { KeepsOthers S.Shelf.held S.Shelf.may_leave shelf.old shelf.new number }
    ensures usable { OnOk result (IsTrue (S.Shelf.is_usable shelf.new)) }
    ensures faults { S.Shelf.faults shelf.old ≤ S.Shelf.faults shelf.new }
    ensures cause { IfErr result (BodyFails S.Shelf S.File.Disk shelf.old shelf.new number
        (file.now ∷ [])) }
    ensures clean { S.Shelf.IsClean shelf.new → S.Shelf.IsClean shelf.old }
{
    if let Err(fault) = name(shelf, number, file) {
        return Err(fault);
    }
    Ok(())
}

impl<D: Disk, S: Shelf> Store<D, S> {
    /// Where bodies may be written as they come, in any thread: `put_body` gives such a one its number. A start finds
    /// nothing of the others. None says that there is no memory.
    pub fn spool(&self) -> Option<Spool> {
        self.run.rerun.files.shelf.spool()
    }
}
